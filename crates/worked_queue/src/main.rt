// Opens a bank of version, copy, version and copy store, runs a queue of calls from all stations, and prints each answer.
#![tactic(auto)]

use anyhow::anyhow;
use calls::Call;
use ledger::TransactionState;
use machine::Reason;
use middleware::{Unrun, run_queue};
use shop::empty_bank;

const QUEUE: [Call; 19] = [
    Call::Begin(0),
    Call::Begin(1),
    Call::Read(2, 1),
    Call::Write(1, 0, 5),
    Call::Commit(1),
    Call::Apply(0, 1),
    Call::Begin(1),
    Call::Write(3, 0, 7),
    Call::Commit(3),
    Call::Apply(1, 1),
    Call::Read(2, 0),
    Call::Write(2, 1, 9),
    Call::Commit(2),
    Call::Apply(0, 2),
    Call::Apply(2, 2),
    Call::Begin(2),
    Call::Drain(2, 9),
    Call::Value(2, 0),
    Call::Value(1, 1),
];

fn main(rt: HostRuntime) -> anyhow::Result<()> {
    let heap = rt.alloc();
    let bank = empty_bank(heap)?;
    // a `match`, and no `map_err`: with the moves of a whole bank that it adds, LLVM did not end within ten minutes
    match run_queue(heap, bank, &QUEUE) {
        Ok(run) => {
            for answer in run.answers.iter() {
                println!(rt; "{answer}")?;
            }
            Ok(())
        }
        Err(Unrun::NoMemory(_)) => Err(anyhow!("no memory")),
        Err(Unrun::Refused(_, _)) => Err(anyhow!("the opening was refused")),
    }
}
