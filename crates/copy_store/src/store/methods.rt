// A copy store's making, and the steps that its calls are made of.
ghost use Rattle.std.specs.Prelude.{◌≡◌, ◌<◌, length, Ok, Err, ◌==◌};
ghost use Rattle.stores.specs.Model.{place_at, done, leaves, spread};
ghost use Rattle.copy_store.specs.Copied.{meaning_of, made_from};
ghost use Rattle.copy_store.specs.Places.{place_of};

use crate::place::Place;
use crate::store::{CopyStore, MOST, PLACES};
use stores::{Seats, StoreFault};
use tickets::OBJECTS;

impl CopyStore {
    /// A store of these values, with nothing committed and every place closed.
    pub fn new(values: [u32; OBJECTS]) -> CopyStore
        ensures answer { meaning_of result ≡ made_from values }
        ensures places { length (meaning_of result).places ≡ PLACES }
    {
        CopyStore {
            board: values,
            commits: 0,
            places: Seats::closed(),
        }
    }

    // The open place of this number.
    pub(super) fn place_at(&self, place: usize) -> Result<&Place, StoreFault>
        ensures answer { elim result [ Ok held ↦ place_at (meaning_of self.now) place ≡ Ok (place_of held.now) | Err fault ↦ place_at (meaning_of self.now) place ≡ Err fault ] }
    {
        self.places.get(place)
    }

    // Whether it has taken all the commits that it takes.
    pub(super) fn is_full(&self) -> bool
        ensures answer { result ≡ (self.now.commits == 65535) }
    {
        self.commits == MOST
    }

    // Plays the own writes of an open place over the board, counts the commit, and marks their objects at every place.
    pub(super) fn land(&mut self, place: usize) -> Result<(), StoreFault>
        requires { self.old.commits < 65535 }
        ensures answer { result ≡ done (place_at (meaning_of self.old) place) }
        ensures after { meaning_of self.new ≡ leaves (place_at (meaning_of self.old) place) (λ pl. spread (meaning_of self.old) pl.own) (meaning_of self.old) }
    {
        let open = self.places.get(place)?;
        open.play(&mut self.board);
        let wrote = open.wrote();
        self.commits += 1;
        self.places.for_each(|other| other.overtake(&wrote));
        Ok(())
    }
}
