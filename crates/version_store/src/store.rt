// A version store: the committed history, and sixteen places over it.
ghost use Rattle.std.specs.Prelude.{ℕ, ◌≤◌, None, slice_index_or};
ghost use Rattle.stores.specs.Seated.{seats_of};
ghost use Rattle.versions.specs.Meaning.{history_of};
ghost use Rattle.version_store.specs.Begun.{begun_of};

use crate::place::Place;
use stores::Seats;
use versions::History;

mod methods;

/// How many places there are.
pub const PLACES: usize = 16;

// No place began at a commit to come.
#[derive(Drop)]
pub struct VersionStore {
    history: History,
    places: Seats<Place>,
    ghost begun: { (p : ℕ) → begun_of (slice_index_or (seats_of places) p None) ≤ (history_of history).commits },
}
