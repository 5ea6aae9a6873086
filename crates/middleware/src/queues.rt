// A whole run: a bank is opened, and a queue of any length is answered. Its contract carries the law of whole queues.
ghost use Rattle.middleware.specs.Runs.{RunPromise, RunCarries};

use crate::middleware::Middleware;
use crate::run::{Run, Unrun};
use banks::Bank;
use calls::Call;
use std::alloc::Global;

/// Opens the bank, answers the calls in order, each as the one ahead left the board, and hands the bank back.
pub fn run_queue<B: Bank>(heap: Global, bank: B, queue: &[Call]) -> Result<Run<B>, Unrun<B>>
    ensures law { RunPromise B.Bank.stores bank queue.now result }
    ensures names { RunCarries queue.now result }
{
    let Ok(mut answers) = Vec::with_capacity(heap, queue.len()) else {
        return Err(Unrun::NoMemory(bank));
    };
    // a `match`, and no `map_err`: with the moves of a whole bank that it adds, LLVM did not end within ten minutes
    let mut board = match Middleware::new(heap, bank) {
        Ok(board) => board,
        Err(bank) => return Err(Unrun::NoMemory(bank)),
    };
    if let Err(fault) = board.open() {
        return Err(Unrun::Refused(fault, board.into_bank()));
    }
    board.serve(queue, &mut answers);
    Ok(Run {
        answers,
        bank: board.into_bank(),
    })
}
