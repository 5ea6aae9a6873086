// Writing the run record of the board.
ghost use Rattle.std.specs.Prelude.{◌≤◌, length, IfOk};
ghost use Rattle.middleware.specs.Meaning.{held};
ghost use Rattle.middleware.specs.Records.{WritesRecord};
ghost use Rattle.middleware.specs.Serving.{Names};
ghost use Rattle.middleware.specs.declared.fault.Asked.TheVariants.{Record};

use crate::fault::{Asked, BoardFault, asked_to};
use crate::middleware::Middleware;
use banks::Bank;

impl<B: Bank> Middleware<B> {
    /// Writes the numbered write sets of the run so far as a record to the front of a lent buffer: how long it is.
    /// The bytes past the record stay as they were, and a refusal leaves all. What is written reads back as the same write sets.
    pub fn write_record(&self, buffer: &mut [u8]) -> Result<usize, BoardFault>
        ensures law { WritesRecord (held B.Bank.stores self.now) buffer.old result buffer.new }
        ensures names { Names Record result }
        ensures room { IfOk result (λ n. n ≤ length buffer.new) }
    {
        asked_to(Asked::Record, self.engine.write_record(buffer))
    }
}
