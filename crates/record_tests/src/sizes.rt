// The longest record there is: 256 items of eight pairs.
use record::{LONGEST, NumberedSet, RecordFault, read, write};
use std::test::Fail;
use tickets::{Pair, WriteSet};

// Eight pairs: the fields of the last ticket, each at 1.
fn eight_pairs() -> Option<WriteSet> {
    let mut set = WriteSet::one(Pair {
        object: 120,
        value: 1,
    })?;
    for object in 121..128 {
        set = set.with(Pair { object, value: 1 })?;
    }
    Some(set)
}

#[test]
fn the_longest_record(rt: HostRuntime) -> Result<(), Fail> {
    let set = eight_pairs().ok_or_else(|| Fail::new("no eight pairs"))?;
    let mut sets = Vec::new(rt.alloc());
    for n in 0..256u16 {
        sets.push(NumberedSet { home: 7, s: n, set })?;
    }
    let mut buffer = [0u8; LONGEST];
    assert_eq!(rt; write(&sets, &mut buffer), Ok(LONGEST));
    let back = read(rt.alloc(), &buffer)?;
    assert_eq!(rt; back.len(), 256);
    sets.push(NumberedSet { home: 7, s: 0, set })?;
    assert_eq!(rt;
        write(&sets, &mut buffer),
        Err(RecordFault::NoRun { item: 0 })
    );
    Ok(())
}
