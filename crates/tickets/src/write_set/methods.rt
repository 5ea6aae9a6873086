ghost use Rattle.std.specs.Prelude.{◌≡◌, ℕ, ◌+◌, ◌<◌, ◌≤◌, List, [], ◌∷◌, map, length, All, if◌then◌else◌, Some, None, nat_lt, slice_index_or};
ghost use Rattle.std.specs.Option.{option_map};
ghost use Rattle.tickets.specs.WriteSets.{lookup, shares, play};
ghost use Rattle.tickets.specs.Meaning.{pair_of, pairs, values, built, set_pairs};

use crate::board::{Board, OBJECTS};
use crate::pair::Pair;
use crate::write_set::{MOST_PAIRS, WriteSet};

impl WriteSet {
    /// The write set of one pair, where there is such an object.
    pub fn one(pair: Pair) -> Option<WriteSet>
        ensures answer { set_pairs result ≡ built (pair_of pair ∷ []) }
    {
        if pair.object >= OBJECTS {
            return None;
        }
        Some(WriteSet {
            pairs: [pair; MOST_PAIRS],
            len: 1,
        })
    }

    /// Its pairs, in order.
    pub fn pairs(&self) -> &[Pair]
        ensures answer { map pair_of result.now ≡ pairs self.now }
        ensures bounds { (1 ≤ length result.now) × (length result.now ≤ 8) }
        ensures objects { All (λ (p : Pair). p.object < 128) result.now }
    {
        &self.pairs[..self.len]
    }

    /// How many pairs it has.
    pub fn len(&self) -> usize
        ensures answer { result ≡ length (pairs self.now) }
        ensures bounds { (1 ≤ result) × (result ≤ 8) }
    {
        self.len
    }

    /// The pair at a place, from 0; none past the last.
    pub fn pair(&self, i: usize) -> Option<Pair>
        ensures answer { option_map pair_of result ≡ (if nat_lt i (length (pairs self.now)) then Some (slice_index_or (pairs self.now) i (0, 0)) else None) }
    {
        self.pairs().get(i).copied()
    }

    /// The value that it has for an object, if any.
    pub fn lookup(&self, object: usize) -> Option<u32>
        ensures answer { result ≡ lookup (pairs self.now) object }
    {
        self.pairs()
            .iter()
            .find(|pair| object == pair.object)
            .map(|pair| pair.value)
    }

    /// Whether some object stands in both.
    pub fn shares(&self, other: &WriteSet) -> bool
        ensures answer { result ≡ shares (pairs self.now) (pairs other.now) }
    {
        self.pairs()
            .iter()
            .any(|pair| other.lookup(pair.object).is_some())
    }

    /// Replaces the named values, and leaves the others.
    pub fn play(&self, board: &mut Board)
        ensures after { values board.new ≡ play (pairs self.now) (values board.old) }
    {
        for pair in self.pairs() {
            board.values[pair.object] = pair.value;
        }
    }
}
