ghost use Rattle.std.specs.Prelude.{◌≡◌, ℕ, ◌+◌, ◌-◌, ◌<◌, ◌≤◌, [], ◌∷◌, ◌++◌, length, set, IfOk, if◌then◌else◌, Some, None, nat_lt, slice_set};
ghost use Rattle.std.specs.Option.{option_map};
ghost use Rattle.ledger.specs.Words.{up_to};
ghost use Rattle.ledger.specs.Sets.{set_of, sets_of, nth_set, marked_set};

use crate::given::{Given, place};
use crate::numbered::Numbered;
use crate::write_sets::WriteSets;
use std::alloc::{AllocError, Global};

impl WriteSets {
    /// None yet, with the memory for all of them.
    pub fn new(heap: Global) -> Result<WriteSets, AllocError>
        ensures made { IfOk result (λ us. sets_of us ≡ []) }
    {
        let given = Given::new(heap)?;
        Ok(WriteSets { given })
    }

    /// How many have numbers.
    pub fn len(&self) -> usize
        ensures answer { result ≡ length (sets_of self.now) }
    {
        self.given.len()
    }

    /// A write set by its number; none where that was not given.
    pub fn get(&self, n: u32) -> Option<Numbered>
        ensures answer { option_map set_of result ≡ (if up_to (length (sets_of self.now)) n then Some (nth_set (sets_of self.now) n) else None) }
    {
        self.given.get(n as usize)
    }

    /// Gives a write set the next number; none where all are given.
    pub fn add(&mut self, x: Numbered) -> Option<u16>
        ensures answer { result ≡ (if nat_lt (length (sets_of self.old)) 256 then Some (length (sets_of self.old) + 1) else None) }
        ensures after { sets_of self.new ≡ (if nat_lt (length (sets_of self.old)) 256 then sets_of self.old ++ set_of x ∷ [] else sets_of self.old) }
    {
        Some(self.given.add(x)? as u16)
    }

    /// Marks a number as applied at a replica.
    pub fn mark(&mut self, n: u32, replica: u8)
        ensures after { sets_of self.new ≡ slice_set (sets_of self.old) (n - 1) (marked_set replica (nth_set (sets_of self.old) n)) }
    {
        if let Some(x) = self.given.items.get_mut(place(n)) {
            x.applied.mark(replica);
        }
    }
}
