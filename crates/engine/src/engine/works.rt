// Read, write and give-up.
ghost use Rattle.std.specs.Prelude.{◌≡◌};
ghost use Rattle.machine.specs.Working.{reading, value_at, write_checks, write_fault, writing, giving_up};
ghost use Rattle.engine.specs.Seen.{seen};

use crate::engine::Engine;
use crate::engine::looks::object;
use banks::{Bank, BankFault};
use ledger::{Event, Transaction};
use machine::Reason;
use stores::StoreFault;
use tickets::top;

// A value that the object takes: 5.
fn below_top(object: usize, value: u32) -> Result<u32, Reason>
    ensures answer { result ≡ value_at object value }
{
    if value > top(object) {
        return Err(Reason::AboveTop);
    }
    Ok(value)
}

// The ninth object is the store's to find: 30.
fn write_reason(fault: BankFault) -> Reason
    ensures answer { result ≡ write_fault fault }
{
    match fault {
        BankFault::At(_, StoreFault::NinthObject) => Reason::NinthObject,
        other => Reason::Store(other),
    }
}

impl<B: Bank> Engine<B> {
    /// The transaction's own write of an object, else its snapshot's value.
    pub fn read(&self, t: u32, j: u32) -> Result<u32, Reason>
        ensures answer { result ≡ reading (seen B.Bank.stores self.now) t j }
    {
        let x = self.taking(t, Event::Read)?;
        let object = object(j)?;
        Ok(self.bank.read(x.home, x.place, object)?)
    }

    // The checks of a write: 20, 2, 29, 3, 5.
    fn write_checks(&self, t: u32, j: u32, v: u32) -> Result<Transaction, Reason>
        ensures answer { result ≡ write_checks (seen B.Bank.stores self.now) t j v }
    {
        let x = self.taking(t, Event::Write)?;
        let object = object(j)?;
        below_top(object, v)?;
        Ok(x)
    }

    /// Sets an own write of the transaction.
    pub fn write(&mut self, t: u32, j: u32, v: u32) -> Result<(), Reason>
        ensures answer { result ≡ (writing (seen B.Bank.stores self.old) t j v).answer }
        ensures after { seen B.Bank.stores self.new ≡ (writing (seen B.Bank.stores self.old) t j v).after }
    {
        let x = self.write_checks(t, j, v)?;
        self.bank
            .write(x.home, x.place, j as usize, v)
            .map_err(write_reason)
    }

    /// Ends a transaction without a verdict.
    pub fn give_up(&mut self, t: u32) -> Result<(), Reason>
        ensures answer { result ≡ (giving_up (seen B.Bank.stores self.old) t).answer }
        ensures after { seen B.Bank.stores self.new ≡ (giving_up (seen B.Bank.stores self.old) t).after }
    {
        let x = self.taking(t, Event::GiveUp)?;
        self.bank.abort(x.home, x.place)?;
        self.tell(t, Event::GiveUp);
        Ok(())
    }
}
