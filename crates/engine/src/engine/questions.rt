// The questions. They change nothing.
ghost use Rattle.std.specs.Prelude.{◌≡◌};
ghost use Rattle.machine.specs.Questions.{value_told, state_told, set_told, progress_told, numbers_told, start_told};
ghost use Rattle.engine.specs.Seen.{seen, set_seen};

use crate::engine::Engine;
use crate::engine::looks::object;
use banks::Bank;
use ledger::{Numbered, Progress, TransactionState};
use machine::Reason;

impl<B: Bank> Engine<B> {
    /// The current value of an object in a replica's own store.
    pub fn value(&self, k: u32, j: u32) -> Result<u32, Reason>
        ensures answer { result ≡ value_told (seen B.Bank.stores self.now) k j }
    {
        let replica = self.replica(k)?;
        let object = object(j)?;
        Ok(self.bank.value(replica, object)?)
    }

    /// The state of a transaction, and the number up to which its snapshot has seen the write sets.
    pub fn state(&self, t: u32) -> Result<(TransactionState, u16), Reason>
        ensures answer { result ≡ state_told (seen B.Bank.stores self.now) t }
    {
        let x = self.transaction(t)?;
        Ok((x.state, x.s))
    }

    /// The write set of a number, with its home and what its transaction had seen.
    pub fn write_set(&self, n: u32) -> Result<Numbered, Reason>
        ensures answer { set_seen result ≡ set_told (seen B.Bank.stores self.now) n }
    {
        self.opened()?;
        self.numbered(n)
    }

    /// How many numbers are applied at a replica, and whether without holes.
    pub fn progress(&self, k: u32) -> Result<Progress, Reason>
        ensures answer { result ≡ progress_told (seen B.Bank.stores self.now) k }
    {
        let replica = self.replica(k)?;
        Ok(self.sets.progress(replica))
    }

    /// How many write sets have numbers.
    pub fn numbers(&self) -> Result<usize, Reason>
        ensures answer { result ≡ numbers_told (seen B.Bank.stores self.now) }
    {
        self.opened()?;
        Ok(self.sets.len())
    }

    /// The board that every replica began with.
    pub fn starting_board(&self) -> Result<[u32; 128], Reason>
        ensures answer { result ≡ start_told (seen B.Bank.stores self.now) }
    {
        Ok(*self.opened()?)
    }
}
