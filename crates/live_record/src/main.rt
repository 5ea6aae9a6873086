// Opens the shop's bank, numbers write sets from two stations, and prints the run record of the live board: its bytes, and what reads back.
#![tactic(auto)]

ghost use Rattle.std.specs.Prelude.{◌≤◌, length, IfOk};

use anyhow::anyhow;
use banks::Bank;
use calls::Call;
use middleware::Middleware;
use record::{LONGEST, check, read};
use shop::empty_bank;
use std::alloc::Global;

// Numbers 1 and 2, the second by a transaction that has seen the first, and between them one that the clash with number 1 aborts.
const CALLS: [Call; 11] = [
    Call::Begin(0),
    Call::Begin(1),
    Call::Write(1, 0, 5),
    Call::Write(1, 9, 9_999),
    Call::Commit(1),
    Call::Write(2, 0, 7),
    Call::Commit(2),
    Call::Drain(1, 9),
    Call::Begin(1),
    Call::Write(3, 7, 4_294_967_295),
    Call::Commit(3),
];

// Asks for the record, and prints its bytes or the refusal. Hands out the record, or nothing where it was refused.
fn show<'a, B: Bank>(
    rt: &HostRuntime,
    board: &Middleware<B>,
    buffer: &'a mut [u8],
) -> anyhow::Result<&'a [u8]>
    ensures room { IfOk result (λ r. length r.now ≤ length buffer.old) }
{
    match board.write_record(buffer) {
        Ok(n) => {
            let record = &buffer[..n];
            print!(rt; "{n} bytes:")?;
            for byte in record {
                print!(rt; " {byte:02x}")?;
            }
            println!(rt; "")?;
            Ok(record)
        }
        Err(fault) => {
            let reason = fault.reason;
            println!(rt; "refused: {reason:?}")?;
            Ok(&[])
        }
    }
}

// Prints the write sets that a record gives.
fn list(rt: &HostRuntime, heap: Global, bytes: &[u8]) -> anyhow::Result<()> {
    let count = check(bytes).map_err(|_| anyhow!("no record"))?;
    let sets = read(heap, bytes).map_err(|_| anyhow!("no record"))?;
    println!(rt; "{count} write sets")?;
    for set in sets.iter() {
        print!(rt; "home {}, s {}:", set.home, set.s)?;
        for pair in set.set.pairs() {
            print!(rt; " {} to {}", pair.object, pair.value)?;
        }
        println!(rt; "")?;
    }
    Ok(())
}

fn main(rt: HostRuntime) -> anyhow::Result<()> {
    let heap = rt.alloc();
    let mut buffer = [0u8; LONGEST];
    // no `map_err`: with the moves of a whole bank that it adds, LLVM takes many minutes
    let Ok(mut board) = Middleware::new(heap, empty_bank(heap)?) else {
        return Err(anyhow!("no memory"));
    };
    show(&rt, &board, &mut buffer)?;
    board
        .open()
        .map_err(|_| anyhow!("the opening was refused"))?;
    show(&rt, &board, &mut buffer)?;
    for call in CALLS {
        board.call(call);
    }
    show(&rt, &board, &mut [0; 20])?;
    let record = show(&rt, &board, &mut buffer)?;
    list(&rt, heap, record)
}
