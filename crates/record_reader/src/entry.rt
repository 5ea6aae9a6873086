// The contents of a record: four bytes an item.
ghost use Rattle.std.specs.Prelude.{◌+◌, ◌-◌, ◌≤◌, length, slice_index};
ghost use Rattle.record_format.specs.Written.{first_body};
ghost use Rattle.record_format.specs.Reading.{Entered};

use crate::bytes::two_of;
use record_format::{COUNT_BYTES, ENTRY_BYTES, PAIR_BYTES, S_BYTES};

// What the contents say of an item: its home, how many bytes its pairs make its body, and the offset of that body.
#[derive(Clone, Copy)]
pub(crate) struct Entry {
    pub(crate) home: u8,
    pub(crate) size: usize,
    pub(crate) offset: usize,
}

/// The entry of item `n`.
pub(crate) fn entry_of(bytes: &[u8], n: usize) -> Entry
    requires le_n { 1 ≤ n }
    requires n_in_bounds { first_body n ≤ length bytes.now }
    ensures answer { Entered bytes.now n result.home (slice_index bytes.now (first_body (n - 1) + 1)) result.size result.offset }
    ensures bound { result.size ≤ 1277 }
{
    let at = COUNT_BYTES + ENTRY_BYTES * (n - 1);
    Entry {
        home: bytes[at],
        size: S_BYTES + PAIR_BYTES * usize::from(bytes[at + 1]),
        offset: usize::from(two_of(&bytes[at + 2..])),
    }
}
