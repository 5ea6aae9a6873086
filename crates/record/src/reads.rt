// Checking, reading and playing a whole record.
ghost use Rattle.std.specs.Prelude.{◌≡◌, IfOk};
ghost use Rattle.tickets.specs.Meaning.{values};
ghost use Rattle.record_format.specs.Items.{play_all};
ghost use Rattle.record_format.specs.Written.{encoded};
ghost use Rattle.record_format.specs.Reading.{decoded, items_in};
ghost use Rattle.record_format.specs.Calls.{check_answer, MadeOf, SetsOf};
ghost use Rattle.record_format.specs.Faults.{listed};
ghost use Rattle.record_format.specs.Meaning.{items_of};

use record_format::{NumberedSet, RecordFault, in_order};
use record_reader::Reader;
use std::alloc::Global;
use tickets::Board;

/// How many items a record has.
pub fn check(bytes: &[u8]) -> Result<usize, RecordFault>
    ensures answer { listed result ≡ check_answer bytes.now }
{
    Reader::new(bytes).count()
}

/// Plays the write sets of a record over a board, in number order, and answers how many; one that does not read leaves the board.
pub fn play(bytes: &[u8], board: &mut Board) -> Result<usize, RecordFault>
    ensures answer { listed result ≡ check_answer bytes.now }
    ensures after { values board.new ≡ play_all (items_in bytes.now) (values board.old) }
{
    let reader = Reader::new(bytes);
    let count = reader.count()?;
    // By number, and not over `in_order`: so the order is written here, and the edit that turns it round is refused.
    for i in 0..count {
        if let Some(item) = reader.item(i + 1) {
            item.set.play(board);
        }
    }
    Ok(count)
}

/// Reads a record into numbered write sets of the caller's own. Written again, they give the same bytes.
pub fn read(heap: Global, bytes: &[u8]) -> Result<Vec<NumberedSet>, RecordFault>
    ensures answer { MadeOf SetsOf (decoded bytes.now) result }
    ensures writes_back { IfOk result (λ sets. encoded (items_of sets.items) ≡ bytes.now) }
{
    let reader = Reader::new(bytes);
    let count = reader.count()?;
    let mut sets = Vec::with_capacity(heap, count)?;
    sets.extend(in_order(&reader))?;
    Ok(sets)
}
