// The copy store: the current board, the count of commits that wrote, and sixteen places, open or not.
ghost use Rattle.std.specs.Prelude.{◌≡◌, ℕ, ◌≤◌, length, None, slice_index_or};
ghost use Rattle.stores.specs.Seated.{seats_of};
ghost use Rattle.copy_store.specs.Places.{own_writes};

use crate::place::Place;
use stores::Seats;
use tickets::OBJECTS;

mod calls;
mod methods;

// The most commits that write.
pub const MOST: u32 = 65_535;

/// How many places there are.
pub const PLACES: usize = 16;

#[derive(Drop)]
pub struct CopyStore {
    board: [u32; OBJECTS],
    commits: u32,
    places: Seats<Place>,
    ghost whole: { length board ≡ 128 },
    ghost within: { commits ≤ 65535 },
    ghost few: { (p : ℕ) → own_writes (slice_index_or (seats_of places) p None) ≤ 8 },
}
