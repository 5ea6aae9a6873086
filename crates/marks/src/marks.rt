// A set of the 128 objects: the mark of object j is bit j mod 64, from the lowest, of word j div 64.
ghost use Rattle.std.specs.Prelude.{◌≡◌, ◌-◌, ◌<◌, true, false, IfSome};
ghost use Rattle.marks.specs.Marked.{marked, no_mark, with_mark, either, both, count_below, any_below, lowest_from, Lowest};
ghost use Rattle.marks.specs.Objects.{objects_left, marked_from};

use crate::objects::Objects;
use crate::words;

const WORDS: usize = 2;

#[derive(Clone, Copy)]
pub struct Marks {
    words: [u64; WORDS],
}

impl Marks {
    /// No object is marked.
    pub fn none() -> Marks
        ensures answer { marked result ≡ no_mark }
    {
        Marks { words: [0; WORDS] }
    }

    /// Whether an object is marked; one past the last is not.
    pub fn has(&self, object: usize) -> bool
        ensures answer { result ≡ marked self.now object }
    {
        words::has(&self.words, object)
    }

    /// Marks an object; past the last one nothing changes.
    pub fn mark(&mut self, object: usize)
        ensures after { marked self.new ≡ with_mark 128 object true (marked self.old) }
    {
        words::put(&mut self.words, object, true);
    }

    /// Takes an object's mark off; past the last one nothing changes.
    pub fn unmark(&mut self, object: usize)
        ensures after { marked self.new ≡ with_mark 128 object false (marked self.old) }
    {
        words::put(&mut self.words, object, false);
    }

    /// How many objects are marked.
    pub fn count(&self) -> u32
        ensures answer { result ≡ count_below (marked self.now) 128 }
    {
        words::count(&self.words)
    }

    /// The lowest marked object from an object on; none where there is none.
    pub fn lowest_from(&self, object: usize) -> Option<usize>
        ensures answer { result ≡ lowest_from (marked self.now) object (128 - object) }
        ensures lowest { Lowest (marked self.now) object result }
        ensures within { IfSome result (λ k. k < 128) }
    {
        words::lowest_from(&self.words, object)
    }

    /// The marked objects in turn, from the lowest.
    pub fn iter(&self) -> Objects<'_>
        ensures answer { objects_left result ≡ marked_from self.now 0 }
    {
        Objects::new(self)
    }

    /// Marks every object that the other set marks.
    pub fn join(&mut self, other: &Marks)
        ensures after { marked self.new ≡ either (marked self.old) (marked other.now) }
    {
        words::join(&mut self.words, &other.words);
    }

    /// Whether some object is marked in both sets.
    pub fn meets(&self, other: &Marks) -> bool
        ensures answer { result ≡ any_below (both (marked self.now) (marked other.now)) 128 }
    {
        words::meet(&self.words, &other.words)
    }
}
