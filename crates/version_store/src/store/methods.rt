// What a version store does: each call of a store, and the few steps that they share.
ghost use Rattle.std.specs.Prelude.{◌≡◌, ◌≤◌, length, replicate, IfOk, if◌then◌else◌, None, Ok, Err, nat_eq};
ghost use Rattle.stores.specs.Model.{place_at, spread};
ghost use Rattle.versions.specs.Writes.{own_of};
ghost use Rattle.versions.specs.Meaning.{history_of, land_answer};
ghost use Rattle.version_store.specs.Meaning.{meaning_of, place_of};
ghost use Rattle.version_store.specs.Lawful.{store_lawful};

use crate::place::Place;
use crate::store::{PLACES, VersionStore};
use std::alloc::{AllocError, Global};
use stores::{Seats, Store, StoreFault};
use tickets::Pair;
use versions::{History, OwnWrites};

impl VersionStore {
    /// A store of these values, with no commit and no open place; all memory is reserved here.
    pub fn new(heap: Global, values: [u32; 128]) -> Result<VersionStore, AllocError>
        ensures answer { IfOk result (λ s. meaning_of s ≡ record { board = values; commits = 0; most = 256; places = replicate 16 None }) }
        ensures places { IfOk result (λ s. length (meaning_of s).places ≡ PLACES) }
    {
        let history = History::new(heap, values)?;
        Ok(VersionStore {
            history,
            places: Seats::closed(),
        })
    }

    // The place, where it is open.
    fn at(&self, place: usize) -> Result<&Place, StoreFault>
        ensures begun { IfOk result (λ pl. pl.now.begun ≤ (history_of self.now.history).commits) }
        ensures found { elim result [ Ok pl ↦ place_at (meaning_of self.now) place ≡ Ok (place_of (history_of self.now.history) pl.now) | Err e ↦ place_at (meaning_of self.now) place ≡ Err e ] }
    {
        self.places.get(place)
    }

    // Makes these writes the next commit, where there is room for one more.
    fn land(&mut self, own: &OwnWrites) -> Result<(), StoreFault>
        ensures answer { result ≡ land_answer (history_of self.old.history) }
        ensures after { meaning_of self.new ≡ (if nat_eq (history_of self.old.history).commits 256 then meaning_of self.old else spread (meaning_of self.old) (own_of own.now)) }
    {
        self.history.land(own)
    }
}

impl Store for VersionStore {
    ghost meaning = { meaning_of };

    ghost lawful = { store_lawful };

    fn begin(&mut self, place: usize) -> Result<(), StoreFault> {
        let begun = self.history.commits();
        self.places.open_with(
            place,
            || Place {
                begun,
                own: OwnWrites::none(),
            },
        )
    }

    fn read(&self, place: usize, object: usize) -> Result<u32, StoreFault> {
        let open = self.at(place)?;
        open.own
            .get(object)
            .or_else(|| self.history.value_at(object, open.begun))
            .ok_or(StoreFault::NoObject)
    }

    fn write(&mut self, place: usize, object: usize, value: u32) -> Result<(), StoreFault> {
        self.places
            .update(place, |open| open.own.set(object, value))
    }

    fn own_count(&self, place: usize) -> Result<u32, StoreFault> {
        Ok(self.at(place)?.own.count())
    }

    fn own_from(&self, place: usize, object: usize) -> Result<Option<Pair>, StoreFault> {
        Ok(self.at(place)?.own.first_from(object))
    }

    fn commit(&mut self, place: usize) -> Result<(), StoreFault> {
        let open = *self.at(place)?;
        if open.own.count() == 0 {
            return self.abort(place);
        }
        if self.history.overtakes(&open.own, open.begun) {
            self.abort(place)?;
            return Err(StoreFault::Overtaken);
        }
        self.land(&open.own)?;
        self.abort(place)
    }

    fn abort(&mut self, place: usize) -> Result<(), StoreFault> {
        self.places.close(place)
    }

    fn value(&self, object: usize) -> Result<u32, StoreFault> {
        self.history.value(object).ok_or(StoreFault::NoObject)
    }

    fn commits(&self) -> u32 {
        self.history.commits()
    }

    fn is_open(&self, place: usize) -> Result<bool, StoreFault> {
        self.places.is_open(place)
    }
}
