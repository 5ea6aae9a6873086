// What every store is: a current board, a count of the commits that wrote, the most of them that it takes, and its places.
// For each call, one definition says what it answers and one what the store means afterwards.
ghost use Rattle.std.specs.Prelude.{◌≡◌};
ghost use Rattle.stores.specs.Model.{StoreModel, Lawful, begin_answer, begin_after, read_answer, write_answer, write_after, count_answer, told_answer, commit_answer, commit_after, abort_answer, abort_after, value_answer, open_answer};

use crate::fault::StoreFault;
use tickets::Pair;

pub trait Store {
    ghost meaning: { Self → StoreModel };

    /// Opens a place on the current board.
    fn begin(&mut self, place: usize) -> Result<(), StoreFault>
        ensures answer { result ≡ begin_answer (meaning self.old) place }
        ensures after { meaning self.new ≡ begin_after (meaning self.old) place };

    /// The place's own write of an object, else its snapshot's value.
    fn read(&self, place: usize, object: usize) -> Result<u32, StoreFault>
        ensures answer { result ≡ read_answer (meaning self.now) place object };

    /// Sets an own write of the place, over an earlier one to the same object.
    fn write(&mut self, place: usize, object: usize, value: u32) -> Result<(), StoreFault>
        ensures answer { result ≡ write_answer (meaning self.old) place object value }
        ensures after { meaning self.new ≡ write_after (meaning self.old) place object value };

    /// How many objects the place has written.
    fn own_count(&self, place: usize) -> Result<u32, StoreFault>
        ensures answer { result ≡ count_answer (meaning self.now) place };

    /// The place's lowest own write from an object on; none past the last.
    fn own_from(&self, place: usize, object: usize) -> Result<Option<Pair>, StoreFault>
        ensures answer { result ≡ told_answer (meaning self.now) place object };

    /// Plays the own writes over the current board and frees the place.
    fn commit(&mut self, place: usize) -> Result<(), StoreFault>
        ensures answer { result ≡ commit_answer (meaning self.old) place }
        ensures after { meaning self.new ≡ commit_after (meaning self.old) place };

    /// Frees an open place.
    fn abort(&mut self, place: usize) -> Result<(), StoreFault>
        ensures answer { result ≡ abort_answer (meaning self.old) place }
        ensures after { meaning self.new ≡ abort_after (meaning self.old) place };

    /// The current value of an object.
    fn value(&self, object: usize) -> Result<u32, StoreFault>
        ensures answer { result ≡ value_answer (meaning self.now) object };

    /// The count of commits that wrote.
    fn commits(&self) -> u32
        ensures answer { result ≡ (meaning self.now).commits };

    /// Whether a place is open.
    fn is_open(&self, place: usize) -> Result<bool, StoreFault>
        ensures answer { result ≡ open_answer (meaning self.now) place };

    ghost lawful: { (s : Self) → Lawful (meaning s) };
}
