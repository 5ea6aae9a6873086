// Work that is open in a store. It is owed an end: nothing but a commit or an abort spends it.
ghost use Rattle.std.specs.Prelude.{◌≡◌, ◌≤◌};
ghost use Rattle.stores.specs.Model.{begin_answer, begin_after, read_answer, write_answer, write_after, commit_answer, commit_after, abort_answer, abort_after};
ghost use Rattle.stores.specs.Works.{place_of, begun, ended};

use crate::api::Store;
use crate::fault::StoreFault;

pub struct Work {
    place: usize,
}

// Letting work go asks for a place that no store has: each has at most 64. So no work that is open can be let go.
impl Drop for Work {
    fn drop(self)
        requires { 64 ≤ place_of self }
    {
        let Work { place: _ } = self;
    }
}

// A commit that was refused: the place is freed, or it is still open and the work comes back.
pub enum Unfinished {
    Ended(StoreFault),
    Back(Work, StoreFault),
}

impl Work {
    /// Opens a place of the store.
    pub fn begin<S: Store>(store: &mut S, place: usize) -> Result<Work, StoreFault>
        ensures answer { result ≡ begun place (begin_answer (S.Store.meaning store.old) place) }
        ensures after { S.Store.meaning store.new ≡ begin_after (S.Store.meaning store.old) place }
    {
        store.begin(place)?;
        Ok(Work { place })
    }

    /// The place that is open.
    pub fn place(&self) -> usize
        ensures answer { result ≡ place_of self.now }
    {
        self.place
    }

    /// What the work reads of an object.
    pub fn read<S: Store>(&self, store: &S, object: usize) -> Result<u32, StoreFault>
        ensures answer { result ≡ read_answer (S.Store.meaning store.now) (place_of self.now) object }
    {
        store.read(self.place, object)
    }

    /// Writes a value to an object.
    pub fn write<S: Store>(
        &self,
        store: &mut S,
        object: usize,
        value: u32,
    ) -> Result<(), StoreFault>
        ensures answer { result ≡ write_answer (S.Store.meaning store.old) (place_of self.now) object value }
        ensures after { S.Store.meaning store.new ≡ write_after (S.Store.meaning store.old) (place_of self.now) object value }
    {
        store.write(self.place, object, value)
    }

    /// Commits the work; where the store is full the place stays open and the work comes back.
    pub fn commit<S: Store>(self, store: &mut S) -> Result<(), Unfinished>
        ensures answer { result ≡ ended self (commit_answer (S.Store.meaning store.old) (place_of self)) }
        ensures after { S.Store.meaning store.new ≡ commit_after (S.Store.meaning store.old) (place_of self) }
    {
        let Work { place } = self;
        store.commit(place).map_err(|fault| match fault {
            StoreFault::Full => Unfinished::Back(Work { place }, fault),
            _ => Unfinished::Ended(fault),
        })
    }

    /// Frees the place.
    pub fn abort<S: Store>(self, store: &mut S) -> Result<(), StoreFault>
        ensures answer { result ≡ abort_answer (S.Store.meaning store.old) (place_of self) }
        ensures after { S.Store.meaning store.new ≡ abort_after (S.Store.meaning store.old) (place_of self) }
    {
        let Work { place } = self;
        store.abort(place)
    }
}
