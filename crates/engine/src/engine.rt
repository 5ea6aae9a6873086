// The middleware over a bank that it owns. It keeps no copy of a board but the starting one, and no writes but the numbered ones.
ghost use Rattle.std.specs.Prelude.{◌≡◌, false, [], replicate, MatchResult};
ghost use Rattle.engine.specs.Seen.{seen};

use banks::Bank;
use ledger::{Transactions, WriteSets};
use std::alloc::Global;

mod applies;
mod begins;
mod commits;
mod looks;
mod opens;
mod questions;
mod records;
mod works;

// The memory for all numbers is reserved when it is made, so no call asks for more.
// The contracts name what it means, `seen`, each time: a store's own writes mean a function, and no `Model` has a function in its value.
#[derive(Drop)]
pub struct Engine<B: Bank> {
    bank: B,
    // the board that every replica began with, once the bank is opened
    start: Option<[u32; 128]>,
    txns: Transactions,
    sets: WriteSets,
}

impl<B: Bank> Engine<B> {
    /// A middleware that is not opened; where there is no memory, the bank comes back.
    #[tactic(auto, unfolding(crate::specs::Seen::is_started, crate::specs::Seen::start_read))]
    pub fn new(heap: Global, bank: B) -> Result<Engine<B>, B>
        ensures made { MatchResult result (λ m. seen B.Bank.stores m ≡ record { opened = false; start = replicate 128 0; stores = B.Bank.stores bank; txns = []; sets = [] }) (λ b. b ≡ bank) }
    {
        // `map_err(|_| bank)?` would move the bank into a closure, and it is used below
        let Ok(txns) = Transactions::new(heap) else {
            return Err(bank);
        };
        let Ok(sets) = WriteSets::new(heap) else {
            return Err(bank);
        };
        Ok(Engine {
            bank,
            start: None,
            txns,
            sets,
        })
    }

    /// Lets the middleware go, and hands the bank back.
    pub fn into_bank(self) -> B
        ensures answer { B.Bank.stores result ≡ (seen B.Bank.stores self).stores }
    {
        let Engine {
            bank,
            start: _,
            txns: _,
            sets: _,
        } = self;
        bank
    }
}
