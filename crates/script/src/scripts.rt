// A whole script: the bank is opened, and the lines are answered in order. The contract carries the law of whole queues.
ghost use Rattle.std.specs.Prelude.{◌≡◌, ◌+◌, ◌*◌, ◌≤◌, length};
ghost use Rattle.lines.specs.Scripts.{lines_of};
ghost use Rattle.answers.specs.Buffers.{Wrote};
ghost use Rattle.answers.specs.Printing.{printed};
ghost use Rattle.middleware.specs.Meaning.{held};
ghost use Rattle.script.specs.Promise.{unfit, checked, ScriptPromise};
ghost use Rattle.script.specs.Serving.{ServesLines};

use crate::fault::{ScriptFault, Unfit};
use crate::line::answer_line;
use crate::run::{Played, Unplayed};
use answers::{ANSWER_BYTES, Printed};
use banks::Bank;
use lines::{Lines, SCRIPT_BYTES, SCRIPT_LINES, line_count};
use middleware::Middleware;
use std::alloc::Global;

// Prints an answer at a place of the buffer that has room for any, and tells where it ends.
fn put(answer: Printed, buffer: &mut [u8], at: usize) -> usize
    requires { at + 32 ≤ length buffer.old }
    ensures bytes { Wrote buffer.old at (printed answer) buffer.new result }
    ensures most { result ≤ at + 32 }
{
    answer.print(buffer, at).unwrap_or(at)
}

// Answers the lines in order, and tells how many bytes the answers take.
fn serve_lines<B: Bank>(board: &mut Middleware<B>, script: &[u8], buffer: &mut [u8]) -> usize
    requires few { length (lines_of script.now) ≤ 1024 }
    requires room { length (lines_of script.now) * 32 ≤ length buffer.old }
    ensures law { ServesLines (lines_of script.now) (held B.Bank.stores board.old) buffer.old result buffer.new (held B.Bank.stores board.new) }
{
    let mut at = 0;
    for (line, number) in Lines::new(script).zip(1..) {
        let answer = answer_line(board, number, line).unwrap_or_else(ScriptFault::printed);
        at = put(answer, buffer, at);
    }
    at
}

// Whether a script may be run with so much room for its answers: 7 with line 0, then 9.
fn check(script: &[u8], room: usize) -> Result<(), Unfit>
    ensures answer { result ≡ checked (unfit script.now room) }
{
    if script.len() > SCRIPT_BYTES {
        return Err(Unfit::TooLong);
    }
    let lines = line_count(script);
    if lines > SCRIPT_LINES {
        return Err(Unfit::TooLong);
    }
    let needed = lines * ANSWER_BYTES;
    if room < needed {
        return Err(Unfit::BufferShort { needed });
    }
    Ok(())
}

/// Opens the bank, answers the lines of the script in order, each into the buffer behind the one ahead, and hands the bank back.
pub fn run_script<B: Bank>(
    heap: Global,
    bank: B,
    script: &[u8],
    buffer: &mut [u8],
) -> Result<Played<B>, Unplayed<B>>
    ensures law { ScriptPromise B.Bank.stores bank script.now buffer.old result buffer.new }
{
    if let Err(fault) = check(script, buffer.len()) {
        return Err(Unplayed::Unfit(fault, bank));
    }
    // a `match`, and no `map_err`: with the moves of a whole bank that it adds, LLVM did not end within ten minutes
    let mut board = match Middleware::new(heap, bank) {
        Ok(board) => board,
        Err(bank) => return Err(Unplayed::NoMemory(bank)),
    };
    if let Err(fault) = board.open() {
        return Err(Unplayed::NotOpened(fault, board.into_bank()));
    }
    let length = serve_lines(&mut board, script, buffer);
    Ok(Played {
        length,
        bank: board.into_bank(),
    })
}
