// The calls of a store as values, so that a table can hold them.
use banks::{Bank, BankFault};
use stores::StoreFault;
use tickets::Pair;

#[derive(Clone, Copy)]
pub enum Call {
    Begin(usize),
    Read(usize, usize),
    Write(usize, usize, u32),
    OwnCount(usize),
    OwnFrom(usize, usize),
    Commit(usize),
    Abort(usize),
    Value(usize),
    Commits,
    IsOpen(usize),
}

#[derive(Clone, Copy, PartialEq, Debug)]
pub enum Answer {
    Done,
    Number(u32),
    Write(Option<Pair>),
    Open(bool),
}

#[derive(Clone, Copy, PartialEq, Debug)]
pub enum Refusal {
    Store(StoreFault),
    NoReplica,
}

impl From<BankFault> for Refusal {
    fn from(fault: BankFault) -> Refusal {
        match fault {
            BankFault::NoReplica(_) => Refusal::NoReplica,
            BankFault::At(_, fault) => Refusal::Store(fault),
        }
    }
}

pub fn ask<B: Bank>(bank: &mut B, replica: u8, call: Call) -> Result<Answer, Refusal> {
    Ok(match call {
        Call::Begin(place) => {
            bank.begin(replica, place)?;
            Answer::Done
        }
        Call::Read(place, object) => Answer::Number(bank.read(replica, place, object)?),
        Call::Write(place, object, value) => {
            bank.write(replica, place, object, value)?;
            Answer::Done
        }
        Call::OwnCount(place) => Answer::Number(bank.own_count(replica, place)?),
        Call::OwnFrom(place, object) => Answer::Write(bank.own_from(replica, place, object)?),
        Call::Commit(place) => {
            bank.commit(replica, place)?;
            Answer::Done
        }
        Call::Abort(place) => {
            bank.abort(replica, place)?;
            Answer::Done
        }
        Call::Value(object) => Answer::Number(bank.value(replica, object)?),
        Call::Commits => Answer::Number(bank.commits(replica)?),
        Call::IsOpen(place) => Answer::Open(bank.is_open(replica, place)?),
    })
}
