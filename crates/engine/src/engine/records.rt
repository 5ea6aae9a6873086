// Writing the run record.
ghost use Rattle.std.specs.Prelude.{◌≡◌, length, take, IfOk, Ok};
ghost use Rattle.record_format.specs.Reading.{decoded};
ghost use Rattle.ledger.specs.Records.{items_of_sets};
ghost use Rattle.machine.specs.Recording.{recording, recorded};
ghost use Rattle.engine.specs.Seen.{seen};

use crate::engine::Engine;
use banks::Bank;
use machine::Reason;
use record_writer::write_run;

impl<B: Bank> Engine<B> {
    /// Writes the numbered write sets as a record to the front of a lent buffer, and answers how long it is.
    pub fn write_record(&self, buffer: &mut [u8]) -> Result<usize, Reason>
        ensures answer { result ≡ recording (seen B.Bank.stores self.now) (length buffer.old) }
        ensures bytes { buffer.new ≡ recorded (seen B.Bank.stores self.now) buffer.old }
        ensures reads_back { IfOk result (λ n. decoded (take n buffer.new) ≡ Ok (items_of_sets (seen B.Bank.stores self.now).sets)) }
    {
        self.opened()?;
        Ok(write_run(&self.sets, buffer)?)
    }
}
