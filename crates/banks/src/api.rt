// What every bank is: stores, numbered from 0. A call reaches the store that it names, and no other.
// The answers and what is left are the store's own; that there is no such replica is checked first.
ghost use Rattle.std.specs.Prelude.{◌≡◌, ℕ, ◌<◌, List, length, Ok};
ghost use Rattle.stores.specs.Model.{StoreModel, Lawful, begin_answer, begin_after, read_answer, write_answer, write_after, count_answer, told_answer, commit_answer, commit_after, abort_answer, abort_after, value_answer, open_answer};
ghost use Rattle.banks.specs.Model.{store_at, asked, changed, Others, told_count};

use crate::fault::BankFault;
use tickets::Pair;

/// The most stores that a bank tells of: as many as a byte can number.
pub const MOST_TOLD: usize = 256;

// A replica and a place stand side by side in each call, as a caller names them. Who keeps both from call to call holds a `Work`.
pub trait Bank {
    ghost stores: { Self → List StoreModel };

    /// How many stores there are; 256 where there are more.
    fn count(&self) -> usize
        ensures answer { result ≡ told_count (stores self.now) };

    /// Opens a place of a replica on its current board.
    fn begin(&mut self, replica: u8, place: usize) -> Result<(), BankFault>
        ensures answer { result ≡ asked (stores self.old) replica (λ m. begin_answer m place) }
        ensures after { stores self.new ≡ changed (stores self.old) replica (λ m. begin_after m place) }
        ensures others { Others replica (stores self.old) (stores self.new) };

    /// The place's own write of an object, else its snapshot's value.
    fn read(&self, replica: u8, place: usize, object: usize) -> Result<u32, BankFault>
        ensures answer { result ≡ asked (stores self.now) replica (λ m. read_answer m place object) };

    /// Sets an own write of the place, over an earlier one to the same object.
    fn write(
        &mut self,
        replica: u8,
        place: usize,
        object: usize,
        value: u32,
    ) -> Result<(), BankFault>
        ensures answer { result ≡ asked (stores self.old) replica (λ m. write_answer m place object value) }
        ensures after { stores self.new ≡ changed (stores self.old) replica (λ m. write_after m place object value) }
        ensures others { Others replica (stores self.old) (stores self.new) };

    /// How many objects the place has written.
    fn own_count(&self, replica: u8, place: usize) -> Result<u32, BankFault>
        ensures answer { result ≡ asked (stores self.now) replica (λ m. count_answer m place) };

    /// The place's lowest own write from an object on; none past the last.
    fn own_from(&self, replica: u8, place: usize, object: usize) -> Result<Option<Pair>, BankFault>
        ensures answer { result ≡ asked (stores self.now) replica (λ m. told_answer m place object) };

    /// Plays the own writes over the replica's current board and frees the place.
    fn commit(&mut self, replica: u8, place: usize) -> Result<(), BankFault>
        ensures answer { result ≡ asked (stores self.old) replica (λ m. commit_answer m place) }
        ensures after { stores self.new ≡ changed (stores self.old) replica (λ m. commit_after m place) }
        ensures others { Others replica (stores self.old) (stores self.new) };

    /// Frees an open place.
    fn abort(&mut self, replica: u8, place: usize) -> Result<(), BankFault>
        ensures answer { result ≡ asked (stores self.old) replica (λ m. abort_answer m place) }
        ensures after { stores self.new ≡ changed (stores self.old) replica (λ m. abort_after m place) }
        ensures others { Others replica (stores self.old) (stores self.new) };

    /// The current value of an object at a replica.
    fn value(&self, replica: u8, object: usize) -> Result<u32, BankFault>
        ensures answer { result ≡ asked (stores self.now) replica (λ m. value_answer m object) };

    /// The replica's count of commits that wrote.
    fn commits(&self, replica: u8) -> Result<u32, BankFault>
        ensures answer { result ≡ asked (stores self.now) replica (λ m. Ok m.commits) };

    /// Whether a place of a replica is open.
    fn is_open(&self, replica: u8, place: usize) -> Result<bool, BankFault>
        ensures answer { result ≡ asked (stores self.now) replica (λ m. open_answer m place) };

    ghost some: { (b : Self) → 0 < length (stores b) };

    ghost lawful: { (b : Self) (k : ℕ) → k < length (stores b) → Lawful (store_at (stores b) k) };
}
