// The calls of a store, as the copy store does them. Reads, writes and questions touch a place where it lies.
ghost use Rattle.copy_store.specs.Copied.{meaning_of};
ghost use Rattle.copy_store.specs.Lawful.{store_lawful};

use crate::place::Place;
use crate::store::CopyStore;
use stores::{Store, StoreFault};
use tickets::Pair;

impl Store for CopyStore {
    ghost meaning = { meaning_of };

    ghost lawful = { store_lawful };

    fn begin(&mut self, place: usize) -> Result<(), StoreFault> {
        self.places.open_with(place, || Place::on(&self.board))
    }

    fn read(&self, place: usize, object: usize) -> Result<u32, StoreFault> {
        self.place_at(place)?.read(object)
    }

    fn write(&mut self, place: usize, object: usize, value: u32) -> Result<(), StoreFault> {
        self.places.update(place, |open| open.write(object, value))
    }

    fn own_count(&self, place: usize) -> Result<u32, StoreFault> {
        Ok(self.place_at(place)?.own_count())
    }

    fn own_from(&self, place: usize, object: usize) -> Result<Option<Pair>, StoreFault> {
        Ok(self.place_at(place)?.own_from(object))
    }

    fn commit(&mut self, place: usize) -> Result<(), StoreFault> {
        let open = self.place_at(place)?;
        if open.own_count() == 0 {
            return self.abort(place);
        }
        if open.clashes() {
            self.abort(place)?;
            return Err(StoreFault::Overtaken);
        }
        if self.is_full() {
            return Err(StoreFault::Full);
        }
        self.land(place)?;
        self.abort(place)
    }

    fn abort(&mut self, place: usize) -> Result<(), StoreFault> {
        self.places.close(place)
    }

    fn value(&self, object: usize) -> Result<u32, StoreFault> {
        self.board.get(object).copied().ok_or(StoreFault::NoObject)
    }

    fn commits(&self) -> u32 {
        self.commits
    }

    fn is_open(&self, place: usize) -> Result<bool, StoreFault> {
        self.places.is_open(place)
    }
}
