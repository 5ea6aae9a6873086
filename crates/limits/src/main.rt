// Runs into every limit of the board: all 256 numbers, all 512 transactions, fifteen at one home, and the edges beside them.
#![tactic(auto)]

use anyhow::anyhow;
use calls::Call;
use middleware::{Unrun, run_queue};
use shop::empty_bank;
use std::alloc::{AllocError, Global};

// A transaction that begins before all numbers are given, and the 256 numbers behind it, each applied at home.
fn all_numbers(queue: &mut Vec<Call>) -> Result<(), AllocError> {
    queue.push(Call::Begin(1))?;
    queue.push(Call::Write(1, 1, 7))?;
    for i in 0..256u32 {
        let t = i + 2;
        queue.push(Call::Begin(0))?;
        queue.push(Call::Write(t, i % 16 * 8 + 1, i))?;
        queue.push(Call::Commit(t))?;
        queue.push(Call::Apply(0, i + 1))?;
    }
    Ok(())
}

// With all numbers given: one more is refused, a clash aborts, a commit without writes is accepted; then drains.
fn edges(queue: &mut Vec<Call>) -> Result<(), AllocError> {
    queue.push(Call::Begin(0))?;
    queue.push(Call::Write(258, 0, 12))?;
    queue.push(Call::Commit(258))?;
    queue.push(Call::State(258))?;
    queue.push(Call::Commit(1))?;
    queue.push(Call::Begin(0))?;
    queue.push(Call::Commit(259))?;
    queue.push(Call::Drain(1, 0))?;
    queue.push(Call::Drain(1, 1_000))?;
    queue.push(Call::Applied(1))?;
    Ok(())
}

// Fifteen transactions at one home, and one more; then all the transactions that are left, and one more.
fn all_transactions(queue: &mut Vec<Call>) -> Result<(), AllocError> {
    for _ in 0..16u32 {
        queue.push(Call::Begin(2))?;
    }
    for t in 275..513u32 {
        queue.push(Call::Begin(3))?;
        queue.push(Call::GiveUp(t))?;
    }
    queue.push(Call::Begin(3))?;
    Ok(())
}

fn queue(heap: Global) -> Result<Vec<Call>, AllocError> {
    let mut queue = Vec::new(heap);
    all_numbers(&mut queue)?;
    edges(&mut queue)?;
    all_transactions(&mut queue)?;
    Ok(queue)
}

fn main(rt: HostRuntime) -> anyhow::Result<()> {
    let heap = rt.alloc();
    let bank = empty_bank(heap)?;
    let queue = queue(heap)?;
    // a `match`, and no `map_err`: with the moves of a whole bank that it adds, LLVM did not end within ten minutes
    match run_queue(heap, bank, &queue) {
        Ok(run) => {
            for answer in run.answers.iter().skip(1_022).take(30) {
                println!(rt; "{answer}")?;
            }
            if let Some(answer) = run.answers.last() {
                println!(rt; "{answer}")?;
            }
            Ok(())
        }
        Err(Unrun::NoMemory(_)) => Err(anyhow!("no memory")),
        Err(Unrun::Refused(_, _)) => Err(anyhow!("the opening was refused")),
    }
}
