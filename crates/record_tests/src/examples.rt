// The worked examples, there and back.
use record::{NumberedSet, Reader, RecordFault, check as check_record, play, write};
use std::test::Fail;
use tickets::{Board, Pair, WriteSet};

fn one(home: u8, s: u16, object: usize, value: u32) -> Result<NumberedSet, Fail> {
    let set = WriteSet::one(Pair { object, value }).ok_or_else(|| Fail::new("no such object"))?;
    Ok(NumberedSet { home, s, set })
}

const FIVE: [u8; 13] = [0, 1, 0, 1, 0, 6, 0, 0, 0, 0, 0, 0, 5];

#[test]
fn no_write_sets(rt: HostRuntime) {
    let mut buffer = [9u8; 3];
    assert_eq!(rt; write(&[], &mut buffer), Ok(2));
    assert_eq!(rt; buffer, [0, 0, 9]);
    assert_eq!(rt; check_record(b"\x00\x00"), Ok(0));
    assert_eq!(rt;
        check_record(b"\x00\x00\x00"),
        Err(RecordFault::Malformed { item: 1 })
    );
}

#[test]
fn one_write_set(rt: HostRuntime) -> Result<(), Fail> {
    let mut buffer = [0u8; 13];
    assert_eq!(rt; write(&[one(0, 0, 0, 5)?], &mut buffer), Ok(13));
    assert_eq!(rt; buffer, FIVE);
    let reader = Reader::new(&FIVE);
    assert_eq!(rt; reader.count(), Ok(1));
    let item = reader.item(1).ok_or_else(|| Fail::new("no item 1"))?;
    assert_eq!(rt; item.home, 0);
    assert_eq!(rt; item.s, 0);
    assert_eq!(rt; item.set.lookup(0), Some(5));
    let body = reader.body(1).ok_or_else(|| Fail::new("no body 1"))?;
    assert_eq!(rt; body.at, 6);
    assert_eq!(rt; body.bytes.len(), 7);
    assert!(rt; reader.item(0).is_none() && reader.body(2).is_none());
    Ok(())
}

#[test]
fn what_is_not_written(rt: HostRuntime) -> Result<(), Fail> {
    let mut buffer = [9u8; 12];
    assert_eq!(rt;
        write(&[one(0, 0, 0, 5)?], &mut buffer),
        Err(RecordFault::BufferShort { needed: 13 })
    );
    assert_eq!(rt;
        write(&[one(8, 0, 0, 5)?], &mut buffer),
        Err(RecordFault::NoRun { item: 1 })
    );
    assert_eq!(rt;
        write(&[one(0, 1, 0, 5)?], &mut buffer),
        Err(RecordFault::NoRun { item: 1 })
    );
    assert_eq!(rt;
        write(&[one(0, 0, 8, 12)?, one(0, 0, 8, 13)?], &mut buffer),
        Err(RecordFault::NoRun { item: 2 })
    );
    assert_eq!(rt; buffer, [9u8; 12]);
    Ok(())
}

#[test]
fn played_over_a_board(rt: HostRuntime) {
    let mut board = Board::zero();
    assert_eq!(rt; play(&FIVE, &mut board), Ok(1));
    assert_eq!(rt; board.value(0), Some(5));
    assert_eq!(rt;
        play(b"\x00", &mut board),
        Err(RecordFault::Malformed { item: 0 })
    );
    assert_eq!(rt; board.value(0), Some(5));
}
