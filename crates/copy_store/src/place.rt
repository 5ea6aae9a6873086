// An open place: the board at its begin, the values that it wrote itself, which objects it wrote, and which others overwrote since.
ghost use Rattle.std.specs.Prelude.{◌≡◌, ◌-◌, ◌≤◌, ◌||◌, Some, nat_lt};
ghost use Rattle.marks.specs.Marked.{marked};
ghost use Rattle.stores.specs.Model.{fresh, read_at, write_at, done, kept, written, own_count, first_from, clashes, overtaken_by, played};
ghost use Rattle.copy_store.specs.Places.{place_of, own_of};

use marks::Marks;
use stores::StoreFault;
use tickets::{OBJECTS, Pair};

// A place writes at most so many objects.
const MOST_WRITES: u32 = 8;

#[derive(Clone, Copy)]
pub struct Place {
    snapshot: [u32; OBJECTS],
    // the values, beside the marks of which of them count: marks answer a count, a clash and the lowest in two words, where an
    // array of options would be walked
    own: [u32; OBJECTS],
    wrote: Marks,
    overtaken: Marks,
}

impl Place {
    /// A place that begins on this board.
    pub fn on(board: &[u32; OBJECTS]) -> Place
        ensures answer { place_of result ≡ fresh board.now }
    {
        Place {
            snapshot: *board,
            own: [0; OBJECTS],
            wrote: Marks::none(),
            overtaken: Marks::none(),
        }
    }

    /// The own write of an object, else its value in the snapshot.
    pub fn read(&self, object: usize) -> Result<u32, StoreFault>
        ensures answer { result ≡ read_at object (place_of self.now) }
    {
        let values = if self.wrote.has(object) {
            &self.own
        } else {
            &self.snapshot
        };
        values.get(object).copied().ok_or(StoreFault::NoObject)
    }

    // Whether it may write an object: one that it wrote before, or at most the eighth.
    fn has_room(&self, object: usize) -> bool
        ensures answer { result ≡ (written (place_of self.now) object || nat_lt (own_count (place_of self.now)) 8) }
    {
        self.wrote.has(object) || self.wrote.count() < MOST_WRITES
    }

    /// Sets an own write; a ninth object is refused.
    pub fn write(&mut self, object: usize, value: u32) -> Result<(), StoreFault>
        ensures answer { result ≡ done (write_at object value (place_of self.old)) }
        ensures after { place_of self.new ≡ kept (write_at object value (place_of self.old)) (place_of self.old) }
        ensures few { own_count (place_of self.old) ≤ 8 → own_count (place_of self.new) ≤ 8 }
    {
        if object >= OBJECTS {
            return Err(StoreFault::NoObject);
        }
        if !self.has_room(object) {
            return Err(StoreFault::NinthObject);
        }
        self.own[object] = value;
        self.wrote.mark(object);
        Ok(())
    }

    /// How many objects it wrote.
    pub fn own_count(&self) -> u32
        ensures answer { result ≡ own_count (place_of self.now) }
    {
        self.wrote.count()
    }

    /// The lowest own write from an object on.
    pub fn own_from(&self, object: usize) -> Option<Pair>
        ensures answer { result ≡ first_from (own_of self.now) object (128 - object) }
    {
        let object = self.wrote.lowest_from(object)?;
        Some(Pair {
            object,
            value: self.own[object],
        })
    }

    /// Whether it wrote an object that others have overwritten since its begin.
    pub fn clashes(&self) -> bool
        ensures answer { result ≡ clashes (place_of self.now) }
    {
        self.wrote.meets(&self.overtaken)
    }

    /// The objects that it wrote.
    pub fn wrote(&self) -> Marks
        ensures answer { marked result ≡ written (place_of self.now) }
    {
        self.wrote
    }

    /// Others have overwritten these objects.
    pub fn overtake(&mut self, objects: &Marks)
        ensures after { Some (place_of self.new) ≡ overtaken_by (marked objects.now) (Some (place_of self.old)) }
    {
        self.overtaken.join(objects);
    }

    /// Plays its own writes over a board.
    pub fn play(&self, board: &mut [u32; OBJECTS])
        ensures after { board.new ≡ played (own_of self.now) board.old }
    {
        for object in self.wrote.iter() {
            board[object] = self.own[object];
        }
    }
}
