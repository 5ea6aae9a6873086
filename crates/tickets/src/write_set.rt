// A write set: one to eight pairs of object and value, whose objects rise strictly and lie below 128.
// The invariant stands in the type, so no other write set exists.
ghost use Rattle.std.specs.Prelude.{◌≡◌, ◌≤◌, length, IsTrue};
ghost use Rattle.tickets.specs.WriteSets.{is_write_set};
ghost use Rattle.tickets.specs.Pairs.{pairs_of};

use crate::pair::Pair;

mod methods;
mod push;

pub const MOST_PAIRS: usize = 8;

// An array with a length beside it: a write set is copied without heap memory, and no vector of std's is `Copy`.
#[derive(Clone, Copy)]
pub struct WriteSet {
    pairs: [Pair; 8],
    len: usize,
    ghost eight: { length pairs ≡ 8 },
    ghost few: { len ≤ 8 },
    ghost stands: { IsTrue (is_write_set (pairs_of len pairs)) },
}
