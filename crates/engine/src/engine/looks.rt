// The checks that calls begin with.
ghost use Rattle.std.specs.Prelude.{◌≡◌, true, false, MatchResult};
ghost use Rattle.machine.specs.Machine.{replica_at, transaction_at, taking, object_at, set_at, told};
ghost use Rattle.engine.specs.Seen.{seen, set_seen};

use crate::engine::Engine;
use banks::Bank;
use ledger::{Event, Numbered, Transaction};
use machine::Reason;
use tickets::OBJECTS;

// An object of the board: 3.
pub(crate) fn object(j: u32) -> Result<usize, Reason>
    ensures answer { result ≡ object_at j }
{
    if j as usize >= OBJECTS {
        return Err(Reason::NoObject);
    }
    Ok(j as usize)
}

impl<B: Bank> Engine<B> {
    // The starting board of an opened bank: 20.
    #[tactic(auto, unfolding(crate::specs::Seen::is_started, crate::specs::Seen::start_read))]
    pub(crate) fn opened(&self) -> Result<&[u32; 128], Reason>
        ensures answer { MatchResult result (λ start. ((seen B.Bank.stores self.now).opened ≡ true) × (start.now ≡ (seen B.Bank.stores self.now).start)) (λ e. ((seen B.Bank.stores self.now).opened ≡ false) × (e ≡ Reason.NotOpened)) }
    {
        self.start.as_ref().ok_or(Reason::NotOpened)
    }

    // A replica of an opened bank: 20, 1.
    pub(crate) fn replica(&self, k: u32) -> Result<u8, Reason>
        ensures answer { result ≡ replica_at (seen B.Bank.stores self.now) k }
    {
        self.opened()?;
        if k as usize >= self.bank.count() {
            return Err(Reason::NoReplica);
        }
        Ok(k as u8)
    }

    // A transaction that was given: 20, 2.
    pub(crate) fn transaction(&self, t: u32) -> Result<Transaction, Reason>
        ensures answer { result ≡ transaction_at (seen B.Bank.stores self.now) t }
    {
        self.opened()?;
        self.txns.get(t).ok_or(Reason::NoTransaction)
    }

    // A transaction that takes an event: 20, 2, 29.
    pub(crate) fn taking(&self, t: u32, event: Event) -> Result<Transaction, Reason>
        ensures answer { result ≡ taking (seen B.Bank.stores self.now) t event }
    {
        let x = self.transaction(t)?;
        x.state.after(event).ok_or(Reason::TransactionNotOpen)?;
        Ok(x)
    }

    // A write set that has a number: 4.
    pub(crate) fn numbered(&self, n: u32) -> Result<Numbered, Reason>
        ensures answer { set_seen result ≡ set_at (seen B.Bank.stores self.now) n }
    {
        self.sets.get(n).ok_or(Reason::NoWriteSet)
    }

    // Tells a transaction of an event, which it takes where its state does.
    pub(crate) fn tell(&mut self, t: u32, event: Event)
        ensures after { seen B.Bank.stores self.new ≡ told (seen B.Bank.stores self.old) t event }
    {
        self.txns.tell(t, event);
    }
}
