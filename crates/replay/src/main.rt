// Reads a record on standard input and prints its write sets, and the tickets that they leave.
#![tactic(auto)]

ghost use Rattle.std.specs.Prelude.{◌≡◌, ◌≤◌, length, IfOk};

use anyhow::anyhow;
use listing::list;
use record::{LONGEST, RecordFault};
use std::io;
use std::io::Read;

// One byte more than the longest record, so that a longer input is seen to be too long and not read for ever.
const MOST: usize = LONGEST + 1;

/// Fills the buffer from the input as far as both go, and answers how many bytes came.
// No `read_to_end`: it takes memory, and where there is none even an empty or a malformed input would be refused for that.
fn fill(input: &mut impl Read, buffer: &mut [u8]) -> io::Result<usize>
    ensures bound { IfOk result (λ n. n ≤ length buffer.new) }
{
    let mut n = 0;
    while n < buffer.len() {
        let got = input.read(&mut buffer[n..])?;
        if got == 0 {
            break;
        }
        n += got;
    }
    Ok(n)
}

fn main(rt: HostRuntime) -> anyhow::Result<()> {
    let mut buffer = [0u8; MOST];
    let n = fill(&mut rt.stdin(), &mut buffer)?;
    match list(rt.alloc(), &buffer[..n]) {
        Ok(text) => {
            print!(rt; "{text}")?;
            Ok(())
        }
        Err(RecordFault::Malformed { item }) => {
            eprintln!(rt; "malformed record: item {item}")?;
            Err(anyhow!("malformed record"))
        }
        Err(_) => Err(anyhow!("no memory")),
    }
}
