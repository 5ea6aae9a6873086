// One more pair behind the others.
ghost use Rattle.std.specs.Prelude.{◌≡◌, [], ◌∷◌, ◌++◌, if◌then◌else◌};
ghost use Rattle.tickets.specs.WriteSets.{is_write_set};
ghost use Rattle.tickets.specs.Meaning.{pair_of, pairs, built, set_pairs};

use crate::board::OBJECTS;
use crate::pair::Pair;
use crate::write_set::{MOST_PAIRS, WriteSet};

impl WriteSet {
    /// The write set with one more pair behind the others, where that is a write set.
    pub fn with(mut self, pair: Pair) -> Option<WriteSet>
        ensures answer { set_pairs result ≡ built (pairs self ++ pair_of pair ∷ []) }
    {
        self.push(pair).then_some(self)
    }

    /// Puts one more pair behind the others, where that is a write set, and answers whether it did; else nothing changes. It writes
    /// the pair where the write set lies, and copies none of the others.
    pub fn push(&mut self, pair: Pair) -> bool
        ensures answer { result ≡ is_write_set (pairs self.old ++ pair_of pair ∷ []) }
        ensures after { pairs self.new ≡ (if result then pairs self.old ++ pair_of pair ∷ [] else pairs self.old) }
    {
        let n = self.len;
        if n >= MOST_PAIRS || pair.object >= OBJECTS {
            return false;
        }
        if self.pairs[n - 1].object >= pair.object {
            return false;
        }
        self.pairs[n] = pair;
        self.len = n + 1;
        true
    }
}
