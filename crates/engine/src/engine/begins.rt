// Begin.
ghost use Rattle.std.specs.Prelude.{◌≡◌, true, length, OnOk, nat_lt};
ghost use Rattle.machine.specs.Beginning.{snapshot_at, room_at, starting, beginning};
ghost use Rattle.engine.specs.Seen.{seen};

use crate::engine::Engine;
use banks::Bank;
use errands::places::vacant_place;
use ledger::{TRANSACTIONS, Transaction, TransactionState};
use machine::Reason;

// So many transactions may be open or pending at home at one replica: of its sixteen places one is left for an application.
const BUSY: usize = 15;

impl<B: Bank> Engine<B> {
    // The number up to which a replica has seen the write sets: 26.
    fn snapshot(&self, replica: u8) -> Result<u16, Reason>
        ensures answer { result ≡ snapshot_at (seen B.Bank.stores self.now) replica }
    {
        let progress = self.sets.progress(replica);
        if !progress.whole {
            return Err(Reason::Holes);
        }
        Ok(progress.applied)
    }

    // Room for one more transaction: 27, 28.
    fn room(&self, replica: u8) -> Result<(), Reason>
        ensures answer { result ≡ room_at (seen B.Bank.stores self.now) replica }
        ensures room { OnOk result (nat_lt (length (seen B.Bank.stores self.now).txns) 512 ≡ true) }
    {
        if self.txns.busy_count(replica) >= BUSY {
            return Err(Reason::Busy);
        }
        if self.txns.len() >= TRANSACTIONS {
            return Err(Reason::TransactionsGiven);
        }
        Ok(())
    }

    // The transaction that is to begin: 20, 1, 26, 27, 28.
    fn starting(&self, k: u32) -> Result<Transaction, Reason>
        ensures answer { result ≡ starting (seen B.Bank.stores self.now) k }
        ensures room { OnOk result (nat_lt (length (seen B.Bank.stores self.now).txns) 512 ≡ true) }
    {
        let home = self.replica(k)?;
        let s = self.snapshot(home)?;
        self.room(home)?;
        let place = vacant_place(&self.bank, home);
        Ok(Transaction {
            home,
            place,
            s,
            state: TransactionState::Open,
        })
    }

    /// Begins a transaction at a replica, and answers its number.
    pub fn begin(&mut self, k: u32) -> Result<u32, Reason>
        ensures answer { result ≡ (beginning (seen B.Bank.stores self.old) k).answer }
        ensures after { seen B.Bank.stores self.new ≡ (beginning (seen B.Bank.stores self.old) k).after }
    {
        let x = self.starting(k)?;
        self.bank.begin(x.home, x.place)?;
        self.txns.add(x).ok_or(Reason::TransactionsGiven)
    }
}
