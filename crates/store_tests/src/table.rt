// The table, and the stores and banks that it is run against.
use crate::calls::{Answer, Call, Refusal, ask};
use banks::Bank;
use beside::Beside;
use copy_store::CopyStore;
use std::process::Abort;
use std::test::Fail;
use stores::StoreFault;
use tickets::Pair;
use version_store::VersionStore;

const ROWS: usize = 36;

// A store of zeros: what each call is answered, one after the other.
static TABLE: [(Call, Result<Answer, Refusal>); ROWS] = [
    (Call::Begin(0), Ok(Answer::Done)),
    (Call::Begin(0), Err(Refusal::Store(StoreFault::PlaceOpen))),
    (Call::Begin(16), Err(Refusal::Store(StoreFault::NoPlace))),
    (
        Call::Read(1, 5),
        Err(Refusal::Store(StoreFault::PlaceClosed)),
    ),
    (
        Call::Read(0, 128),
        Err(Refusal::Store(StoreFault::NoObject)),
    ),
    (
        Call::Write(0, 128, 1),
        Err(Refusal::Store(StoreFault::NoObject)),
    ),
    (Call::Write(0, 5, 7), Ok(Answer::Done)),
    (Call::Read(0, 5), Ok(Answer::Number(7))),
    (Call::Value(5), Ok(Answer::Number(0))),
    (Call::Write(0, 15, 1), Ok(Answer::Done)),
    (Call::Write(0, 25, 2), Ok(Answer::Done)),
    (Call::Write(0, 35, 3), Ok(Answer::Done)),
    (Call::Write(0, 45, 4), Ok(Answer::Done)),
    (Call::Write(0, 55, 5), Ok(Answer::Done)),
    (Call::Write(0, 65, 6), Ok(Answer::Done)),
    (Call::Write(0, 75, 7), Ok(Answer::Done)),
    (
        Call::Write(0, 85, 8),
        Err(Refusal::Store(StoreFault::NinthObject)),
    ),
    (Call::Write(0, 75, 9), Ok(Answer::Done)),
    (Call::OwnCount(0), Ok(Answer::Number(8))),
    (
        Call::OwnFrom(0, 66),
        Ok(Answer::Write(Some(Pair {
            object: 75,
            value: 9,
        }))),
    ),
    (Call::OwnFrom(0, 76), Ok(Answer::Write(None))),
    (Call::Begin(1), Ok(Answer::Done)),
    (Call::Write(1, 5, 9), Ok(Answer::Done)),
    (Call::Commit(1), Ok(Answer::Done)),
    (Call::Value(5), Ok(Answer::Number(9))),
    (Call::Commits, Ok(Answer::Number(1))),
    (Call::IsOpen(1), Ok(Answer::Open(false))),
    (Call::Read(0, 5), Ok(Answer::Number(7))),
    (Call::Commit(0), Err(Refusal::Store(StoreFault::Overtaken))),
    (Call::IsOpen(0), Ok(Answer::Open(false))),
    (Call::Value(15), Ok(Answer::Number(0))),
    (Call::Begin(2), Ok(Answer::Done)),
    (Call::Commit(2), Ok(Answer::Done)),
    (Call::Commits, Ok(Answer::Number(1))),
    (Call::Abort(2), Err(Refusal::Store(StoreFault::PlaceClosed))),
    (Call::IsOpen(16), Err(Refusal::Store(StoreFault::NoPlace))),
];

fn run<B: Bank>(rt: &impl Abort, bank: &mut B, replica: u8) {
    for (call, answer) in &TABLE {
        assert_eq!(rt; ask(bank, replica, *call), *answer);
    }
}

#[test]
fn a_version_store(rt: HostRuntime) -> Result<(), Fail> {
    let mut store = VersionStore::new(rt.alloc(), [0; 128])?;
    run(&rt, &mut store, 0);
    assert_eq!(rt; ask(&mut store, 1, Call::Commits), Err(Refusal::NoReplica));
    Ok(())
}

#[test]
fn a_copy_store(rt: HostRuntime) {
    let mut store = CopyStore::new([0; 128]);
    run(&rt, &mut store, 0);
    assert_eq!(rt; ask(&mut store, 1, Call::Commits), Err(Refusal::NoReplica));
}

// The calls at one replica leave the others as they were.
#[test]
fn a_nested_bank(rt: HostRuntime) -> Result<(), Fail> {
    let left = Beside {
        left: CopyStore::new([0; 128]),
        right: VersionStore::new(rt.alloc(), [0; 128])?,
    };
    let mut bank = Beside {
        left,
        right: CopyStore::new([0; 128]),
    };
    assert_eq!(rt; bank.count(), 3);
    for replica in 0..3 {
        assert_eq!(rt;
            ask(&mut bank, replica, Call::Commits),
            Ok(Answer::Number(0))
        );
        run(&rt, &mut bank, replica);
    }
    assert_eq!(rt; ask(&mut bank, 3, Call::Commits), Err(Refusal::NoReplica));
    Ok(())
}
