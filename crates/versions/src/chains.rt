// The versions of every object: one pool, and in it a chain for each object, from its newest version back.
ghost use Rattle.std.specs.Prelude.{◌≡◌, ℕ, ◌≤◌, true, reverse, length, None, vec_len, vec_capacity, slice_index_or};
ghost use Rattle.versions.specs.Links.{before, falling};

use crate::version::Version;

mod methods;

// The most versions: eight from each of 256 commits.
const MOST_VERSIONS: usize = 2048;

// Every link leads to a version that came into the pool before; the chain's end is the value at the start.
// The links are indices into one pool, and no boxes: all memory is reserved before the board opens, so that a commit cannot fail.
// `start` is the caller's array as it came and is never written, so it stands beside `newest` and is not copied into pairs with it.
#[derive(Drop)]
pub struct Chains {
    start: [u32; 128],
    newest: [Option<u16>; 128],
    pool: Vec<Version>,
    ghost whole: { length start ≡ 128 },
    ghost heads: { length newest ≡ 128 },
    ghost room: { 2048 ≤ vec_capacity pool },
    ghost linked: { (j : ℕ) → before (slice_index_or newest j None) (vec_len pool) ≡ true },
    ghost falls: { falling (reverse pool.items) ≡ true },
}
