// Writing a whole run.
ghost use Rattle.std.specs.Prelude.{◌≡◌, length, take, IfOk, Ok};
ghost use Rattle.record_format.specs.Reading.{decoded};
ghost use Rattle.record_format.specs.Meaning.{items_of};
ghost use Rattle.record_format.specs.Faults.{listed};
ghost use Rattle.record_format.specs.Calls.{write_answer, write_bytes};

use crate::pen::Pen;
use crate::runs::size;
use record_format::{NumberedSet, NumberedSets, RecordFault};

/// Writes numbered write sets, however they are kept, as a record to the front of a lent buffer, and answers how long it is.
/// The bytes past the record stay as they were, and a refusal leaves all. What is written reads back as the same write sets.
pub fn write_run<R: NumberedSets>(run: &R, buffer: &mut [u8]) -> Result<usize, RecordFault>
    ensures answer { listed result ≡ write_answer (R.NumberedSets.items run.now) (length buffer.old) }
    ensures bytes { buffer.new ≡ write_bytes (R.NumberedSets.items run.now) buffer.old }
    ensures reads_back { IfOk result (λ n. decoded (take n buffer.new) ≡ Ok (R.NumberedSets.items run.now)) }
{
    let needed = size(run)?;
    if buffer.len() < needed {
        return Err(RecordFault::BufferShort { needed });
    }
    let mut pen = Pen { buffer, at: 0 };
    pen.put_record(run);
    Ok(pen.at)
}

/// Writes write sets that are lent.
pub fn write(sets: &[NumberedSet], buffer: &mut [u8]) -> Result<usize, RecordFault>
    ensures answer { listed result ≡ write_answer (items_of sets.now) (length buffer.old) }
    ensures bytes { buffer.new ≡ write_bytes (items_of sets.now) buffer.old }
    ensures reads_back { IfOk result (λ n. decoded (take n buffer.new) ≡ Ok (items_of sets.now)) }
{
    write_run(&sets, buffer)
}
