// The entry for a host in C: a script in, answers out. Nothing is kept between calls.
#![tactic(auto)]

ghost use Rattle.host.specs.Entry.{HostPromise};

use shop_script::run_shop;
use std::alloc::Global;

pub mod outcome;

pub use outcome::Outcome;

/// Runs a script over four stations of zeros and fills the buffer with an answer a line.
#[unsafe(no_mangle)]
pub extern "C" fn job_board_run(heap: Global, script: &[u8], answers: &mut [u8]) -> Outcome
    ensures law { HostPromise script.now answers.old result answers.new }
{
    Outcome::from(run_shop(heap, script, answers))
}
