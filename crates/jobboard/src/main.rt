// The job board as a program: a script on standard input, an answer a line on standard output.
#![tactic(auto)]

use answers::ANSWER_BYTES;
use anyhow::anyhow;
use lines::{SCRIPT_BYTES, SCRIPT_LINES, fits};
use shop_script::{ShopFault, run_shop};
use std::io;
use std::io::{Read, Write};

// What is read at a time.
const CHUNK: usize = 512;

// Reads the script, no further than it takes to see that it is too long: one byte more than it may have, or the chunk that has
// the line too many. Each turn but the last adds a byte at least. (`take` and `read_to_end` would wait for the end of the input
// where a script has a line too many.)
fn read_script(rt: &HostRuntime) -> io::Result<Vec<u8>> {
    let mut script = Vec::new(rt.alloc());
    for _ in 0..SCRIPT_BYTES + 2 {
        let mut chunk = [0u8; CHUNK];
        let room = (SCRIPT_BYTES + 1).saturating_sub(script.len()).min(CHUNK);
        let read = rt.stdin().read(&mut chunk[0..room])?;
        if read == 0 {
            break;
        }
        script.extend_from_slice(&chunk[..read])?;
        if !fits(&script) {
            break;
        }
    }
    Ok(script)
}

fn main(rt: HostRuntime) -> anyhow::Result<()> {
    let heap = rt.alloc();
    let script = read_script(&rt)?;
    let mut answers = vec![in heap; 0u8; SCRIPT_LINES * ANSWER_BYTES]?;
    match run_shop(heap, &script, &mut answers) {
        Ok(length) => {
            let printed = answers.get(0..length).unwrap_or(&[]);
            rt.stdout().write_all(printed)?;
            Ok(())
        }
        Err(ShopFault::Unfit(_)) => {
            println!(rt; "no 7 0")?;
            Err(anyhow!("the script was not run"))
        }
        Err(ShopFault::NoMemory) => Err(anyhow!("no memory")),
    }
}
