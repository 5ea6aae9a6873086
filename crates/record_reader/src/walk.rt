// A record walked from its count to its last byte.
ghost use Rattle.std.specs.Prelude.{◌≡◌};
ghost use Rattle.record_format.specs.Reading.{decoded, count_of};
ghost use Rattle.record_format.specs.Calls.{verdict_of};

use crate::bytes::two_of;
use crate::items::item_at;
use record_format::{COUNT_BYTES, ENTRY_BYTES, MOST_ITEMS, PAIR_BYTES, RecordFault, S_BYTES};

/// How many items the record has, or why it does not read.
pub(crate) fn walk(bytes: &[u8]) -> Result<usize, RecordFault>
    ensures answer { result ≡ verdict_of (count_of (decoded bytes.now)) }
{
    if bytes.len() < COUNT_BYTES {
        return Err(RecordFault::Malformed { item: 0 });
    }
    let count = usize::from(two_of(bytes));
    let mut at = COUNT_BYTES + ENTRY_BYTES * count;
    if count > MOST_ITEMS || bytes.len() < at {
        return Err(RecordFault::Malformed { item: 0 });
    }
    for n in 1..=count {
        let Some(item) = item_at(bytes, n, at) else {
            return Err(RecordFault::Malformed { item: n });
        };
        at += S_BYTES + PAIR_BYTES * item.set.len();
    }
    if at < bytes.len() {
        return Err(RecordFault::Malformed { item: count + 1 });
    }
    Ok(count)
}
