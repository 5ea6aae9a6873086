// Things that were given numbers, from 1 on: at most so many, for which the memory is reserved.
ghost use Rattle.std.specs.Prelude.{◌≡◌, ℕ, ◌+◌, ◌-◌, ◌<◌, ◌≤◌, [], ◌∷◌, ◌++◌, length, IfOk, if◌then◌else◌, Some, None, nat_lt, vec_len, vec_capacity, vec_items};
ghost use Rattle.record_format.specs.Reading.{numbered};

use std::alloc::{AllocError, Global};

#[derive(Drop)]
pub(crate) struct Given<T, const MOST: usize> {
    pub(crate) items: Vec<T>,
    ghost room: { (vec_len items ≤ MOST) × (MOST ≤ vec_capacity items) },
}

// The place of a number. Number 0 was given to none, and falls to the first.
pub(crate) fn place(n: u32) -> usize
    ensures answer { result ≡ n - 1 }
{
    (n as usize).saturating_sub(1)
}

impl<T: Copy, const MOST: usize> Given<T, MOST> {
    /// None yet, with the memory for all of them.
    pub(crate) fn new(heap: Global) -> Result<Given<T, MOST>, AllocError>
        ensures made { IfOk result (λ g. vec_items g.items ≡ []) }
    {
        let items = Vec::with_capacity(heap, MOST)?;
        Ok(Given { items })
    }

    /// How many were given.
    pub(crate) fn len(&self) -> usize
        ensures answer { result ≡ length (vec_items self.now.items) }
    {
        self.items.len()
    }

    /// One by its number; none where that was not given.
    pub(crate) fn get(&self, n: usize) -> Option<T>
        ensures answer { result ≡ numbered (vec_items self.now.items) n }
    {
        self.items.get(n.checked_sub(1)?).copied()
    }

    /// Gives the next number; none where all are given.
    pub(crate) fn add(&mut self, x: T) -> Option<usize>
        ensures answer { result ≡ (if nat_lt (length (vec_items self.old.items)) MOST then Some (length (vec_items self.old.items) + 1) else None) }
        ensures after { vec_items self.new.items ≡ (if nat_lt (length (vec_items self.old.items)) MOST then vec_items self.old.items ++ x ∷ [] else vec_items self.old.items) }
    {
        if self.items.len() >= MOST {
            return None;
        }
        self.items.push_reserved(x);
        Some(self.items.len())
    }
}
