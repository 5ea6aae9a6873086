ghost use Rattle.std.specs.Prelude.{◌≡◌, ℕ, ◌+◌, ◌-◌, ◌<◌, ◌≤◌, [], ◌∷◌, ◌++◌, length, IfOk, if◌then◌else◌, Some, None, nat_lt, slice_set};
ghost use Rattle.ledger.specs.Words.{up_to};
ghost use Rattle.ledger.specs.Transactions.{txns_of, nth_transaction, moved, busy_count};

use crate::given::{Given, place};
use crate::transaction::{Event, Transaction};
use crate::transactions::Transactions;
use std::alloc::{AllocError, Global};

// How many are busy at home at a replica. A begin goes over all of them, so each item counts: `filter` and `count` take a fifth
// more steps for it than this loop, and a branch that the processor guesses.
fn busy_among(txns: &[Transaction], replica: u8) -> usize
    ensures answer { result ≡ busy_count txns.now replica }
{
    let mut busy = 0;
    for x in txns {
        if x.busy_at(replica) {
            busy += 1;
        }
    }
    busy
}

impl Transactions {
    /// None yet, with the memory for all of them.
    pub fn new(heap: Global) -> Result<Transactions, AllocError>
        ensures made { IfOk result (λ ts. txns_of ts ≡ []) }
    {
        let given = Given::new(heap)?;
        Ok(Transactions { given })
    }

    /// How many were given.
    pub fn len(&self) -> usize
        ensures answer { result ≡ length (txns_of self.now) }
    {
        self.given.len()
    }

    /// A transaction by its number; none where that was not given.
    pub fn get(&self, t: u32) -> Option<Transaction>
        ensures answer { result ≡ (if up_to (length (txns_of self.now)) t then Some (nth_transaction (txns_of self.now) t) else None) }
    {
        self.given.get(t as usize)
    }

    /// The place of a transaction at its home; 0 where the number was not given.
    pub fn place(&self, t: u32) -> usize
        ensures answer { result ≡ (nth_transaction (txns_of self.now) t).place }
    {
        self.given.items.get(place(t)).map_or(0, |x| x.place)
    }

    /// Gives a transaction the next number; none where all are given.
    pub fn add(&mut self, x: Transaction) -> Option<u32>
        ensures answer { result ≡ (if nat_lt (length (txns_of self.old)) 512 then Some (length (txns_of self.old) + 1) else None) }
        ensures after { txns_of self.new ≡ (if nat_lt (length (txns_of self.old)) 512 then txns_of self.old ++ x ∷ [] else txns_of self.old) }
    {
        Some(self.given.add(x)? as u32)
    }

    /// Tells a transaction of an event, which it takes where its state does.
    pub fn tell(&mut self, t: u32, event: Event)
        ensures after { txns_of self.new ≡ slice_set (txns_of self.old) (t - 1) (moved (nth_transaction (txns_of self.old) t) event) }
    {
        if let Some(x) = self.given.items.get_mut(place(t)) {
            x.take(event);
        }
    }

    /// How many are open or pending, and at home at a replica.
    pub fn busy_count(&self, replica: u8) -> usize
        ensures answer { result ≡ busy_count (txns_of self.now) replica }
    {
        busy_among(&self.given.items, replica)
    }
}
