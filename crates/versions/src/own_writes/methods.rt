// Finding, setting, counting and telling own writes.
ghost use Rattle.std.specs.Prelude.{◌≡◌, ◌-◌, ◌<◌, ◌≤◌, true, length, Some, None, Ok, Err, MatchOption, slice_index_or};
ghost use Rattle.stores.specs.Model.{no_writes, first_from, done};
ghost use Rattle.versions.specs.Pairs.{each_once, no_pair};
ghost use Rattle.versions.specs.Writes.{own_of, held, count_of, set_own, own_left};

use crate::own_writes::OwnWrites;
use stores::StoreFault;
use tickets::{MOST_PAIRS, OBJECTS, Pair};

impl OwnWrites {
    /// No writes.
    pub fn none() -> OwnWrites
        ensures answer { own_of result ≡ no_writes }
    {
        OwnWrites {
            pairs: [Pair {
                object: 0,
                value: 0,
            }; 8],
            count: 0,
        }
    }

    // The pairs, each object once.
    pub(crate) fn pairs(&self) -> &[Pair]
        ensures value { result.now ≡ held self.now }
        ensures once { each_once result.now ≡ true }
        ensures few { length result.now ≤ 8 }
    {
        &self.pairs[..self.count]
    }

    // Where the pair of an object stands.
    fn position(&self, object: usize) -> Option<usize>
        ensures { MatchOption result (own_of self.now object ≡ None) (λ i. (i < self.now.count) × ((slice_index_or self.now.pairs i no_pair).object ≡ object)) }
    {
        self.pairs().iter().position(|pair| pair.object == object)
    }

    /// The value written to an object, if any.
    pub fn get(&self, object: usize) -> Option<u32>
        ensures answer { result ≡ own_of self.now object }
    {
        self.pairs()
            .iter()
            .find(|pair| pair.object == object)
            .map(|pair| pair.value)
    }

    /// Sets the write to an object, over an earlier one; a ninth object is refused.
    pub fn set(&mut self, object: usize, value: u32) -> Result<(), StoreFault>
        ensures answer { result ≡ done (set_own (own_of self.old) object value) }
        ensures after { own_of self.new ≡ own_left (set_own (own_of self.old) object value) (own_of self.old) }
    {
        if object >= OBJECTS {
            return Err(StoreFault::NoObject);
        }
        let pair = Pair { object, value };
        match self.position(object) {
            Some(i) => self.pairs[i] = pair,
            None => {
                if self.count == MOST_PAIRS {
                    return Err(StoreFault::NinthObject);
                }
                self.pairs[self.count] = pair;
                self.count += 1;
            }
        }
        Ok(())
    }

    /// How many objects are written.
    pub fn count(&self) -> u32
        ensures answer { result ≡ count_of (own_of self.now) }
    {
        self.count as u32
    }

    /// The lowest write from an object on; none past the last.
    pub fn first_from(&self, object: usize) -> Option<Pair>
        ensures answer { result ≡ first_from (own_of self.now) object (128 - object) }
    {
        // The pairs stand in no order.
        self.pairs()
            .iter()
            .copied()
            .filter(|pair| pair.object >= object)
            .min_by_key(|pair| pair.object)
    }
}
