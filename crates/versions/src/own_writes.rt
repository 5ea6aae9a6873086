// The own writes of a place: at most eight pairs, each object once.
ghost use Rattle.std.specs.Prelude.{◌≡◌, ◌≤◌, true, length, take};
ghost use Rattle.versions.specs.Pairs.{each_once};

use tickets::Pair;

mod methods;

// The pairs past the count are of no account. An array with a count, and no `ArrayVec`: own writes are `Copy`, and it is not.
#[derive(Clone, Copy)]
pub struct OwnWrites {
    pairs: [Pair; 8],
    count: usize,
    ghost whole: { length pairs ≡ 8 },
    ghost few: { count ≤ 8 },
    ghost once: { each_once (take count pairs) ≡ true },
}
