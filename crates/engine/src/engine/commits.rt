// Commit: read-only, a number, or an abort by the lowest clash. A transaction goes through these steps beside its number, and in no
// struct with it: the steps need both apart again, as the ledger takes them.
ghost use Rattle.std.specs.Prelude.{◌≡◌};
ghost use Rattle.tickets.specs.Meaning.{pairs};
ghost use Rattle.machine.specs.Committing.{end_reading, end_clashing, register, validated, committing};
ghost use Rattle.engine.specs.Seen.{seen};

use crate::engine::Engine;
use banks::Bank;
use errands::gather::gather;
use ledger::{Applied, Event, Numbered, Transaction, Verdict};
use machine::Reason;
use tickets::WriteSet;

impl<B: Bank> Engine<B> {
    // Nothing was written: the place is committed, which frees it.
    fn end_reading(&mut self, t: u32, x: Transaction) -> Result<Verdict, Reason>
        ensures answer { result ≡ (end_reading (seen B.Bank.stores self.old) t x).answer }
        ensures after { seen B.Bank.stores self.new ≡ (end_reading (seen B.Bank.stores self.old) t x).after }
    {
        self.bank.commit(x.home, x.place)?;
        self.tell(t, Event::Commit(Verdict::ReadOnly));
        Ok(Verdict::ReadOnly)
    }

    // An earlier number stands in the way: the place is aborted.
    fn end_clashing(&mut self, t: u32, x: Transaction, n: u16) -> Result<Verdict, Reason>
        ensures answer { result ≡ (end_clashing (seen B.Bank.stores self.old) t x n).answer }
        ensures after { seen B.Bank.stores self.new ≡ (end_clashing (seen B.Bank.stores self.old) t x n).after }
    {
        self.bank.abort(x.home, x.place)?;
        self.tell(t, Event::Commit(Verdict::Clash(n)));
        Ok(Verdict::Clash(n))
    }

    // The write set gets the next number: 31.
    fn register(&mut self, t: u32, x: Transaction, set: WriteSet) -> Result<Verdict, Reason>
        ensures answer { result ≡ (register (seen B.Bank.stores self.old) t x (pairs set)).answer }
        ensures after { seen B.Bank.stores self.new ≡ (register (seen B.Bank.stores self.old) t x (pairs set)).after }
    {
        let numbered = Numbered {
            home: x.home,
            s: x.s,
            transaction: t,
            set,
            applied: Applied::nowhere(),
        };
        let n = self.sets.add(numbered).ok_or(Reason::WriteSetsGiven)?;
        self.tell(t, Event::Commit(Verdict::Numbered(n)));
        Ok(Verdict::Numbered(n))
    }

    // Validation: against every number above the transaction's s.
    fn validate(&mut self, t: u32, x: Transaction, set: WriteSet) -> Result<Verdict, Reason>
        ensures answer { result ≡ (validated (seen B.Bank.stores self.old) t x (pairs set)).answer }
        ensures after { seen B.Bank.stores self.new ≡ (validated (seen B.Bank.stores self.old) t x (pairs set)).after }
    {
        match self.sets.lowest_clash(x.s, &set) {
            Some(n) => self.end_clashing(t, x, n),
            None => self.register(t, x, set),
        }
    }

    /// Asks for a transaction's verdict.
    pub fn commit(&mut self, t: u32) -> Result<Verdict, Reason>
        ensures answer { result ≡ (committing (seen B.Bank.stores self.old) t).answer }
        ensures after { seen B.Bank.stores self.new ≡ (committing (seen B.Bank.stores self.old) t).after }
    {
        // whether a commit is taken does not hang on its verdict
        let x = self.taking(t, Event::Commit(Verdict::ReadOnly))?;
        match gather(&self.bank, x.home, x.place)? {
            None => self.end_reading(t, x),
            Some(set) => self.validate(t, x, set),
        }
    }
}
