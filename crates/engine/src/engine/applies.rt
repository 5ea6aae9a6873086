// Apply and drain.
ghost use Rattle.std.specs.Prelude.{◌≡◌, ℕ, ◌+◌, ◌-◌, ◌<◌, ◌≤◌, true, length, IfOk};
ghost use Rattle.tickets.specs.Meaning.{pairs};
ghost use Rattle.ledger.specs.Words.{up_to};
ghost use Rattle.machine.specs.Applying.{applicable, marked, play_home, play_away, playing, applying, drained, draining};
ghost use Rattle.engine.specs.Seen.{seen};

use crate::engine::Engine;
use banks::Bank;
use errands::places::vacant_place;
use errands::replay::replay;
use ledger::Event;
use machine::Reason;
use tickets::WriteSet;

impl<B: Bank> Engine<B> {
    // A number that may be applied at a replica: 4, 32, 33.
    fn applicable(&self, replica: u8, n: u32) -> Result<u32, Reason>
        ensures answer { result ≡ applicable (seen B.Bank.stores self.now) replica n }
        ensures given { IfOk result (λ m. up_to (length (seen B.Bank.stores self.now).sets) m ≡ true) }
    {
        let x = self.numbered(n)?;
        if x.applied.has(replica) {
            return Err(Reason::AlreadyApplied);
        }
        match self.sets.lowest_holding(replica, n, &x.set) {
            Some(m) => Err(Reason::HeldBack(m)),
            None => Ok(n),
        }
    }

    fn mark(&mut self, replica: u8, n: u32)
        ensures after { seen B.Bank.stores self.new ≡ marked (seen B.Bank.stores self.old) replica n }
    {
        self.sets.mark(n, replica);
    }

    // At home the own place of the transaction is committed.
    fn play_home(&mut self, replica: u8, n: u32, t: u32) -> Result<(), Reason>
        ensures answer { result ≡ (play_home (seen B.Bank.stores self.old) replica n t).answer }
        ensures after { seen B.Bank.stores self.new ≡ (play_home (seen B.Bank.stores self.old) replica n t).after }
    {
        let place = self.txns.place(t);
        self.bank.commit(replica, place)?;
        self.mark(replica, n);
        self.tell(t, Event::Applied);
        Ok(())
    }

    // Elsewhere a place is begun, written and committed.
    fn play_away(&mut self, replica: u8, n: u32, set: &WriteSet) -> Result<(), Reason>
        ensures answer { result ≡ (play_away (seen B.Bank.stores self.old) replica n (pairs set.now)).answer }
        ensures after { seen B.Bank.stores self.new ≡ (play_away (seen B.Bank.stores self.old) replica n (pairs set.now)).after }
    {
        let place = vacant_place(&self.bank, replica);
        replay(&mut self.bank, replica, place, set)?;
        self.mark(replica, n);
        Ok(())
    }

    // A given number played at a replica.
    fn play(&mut self, replica: u8, n: u32) -> Result<(), Reason>
        requires { up_to (length (seen B.Bank.stores self.old).sets) n ≡ true }
        ensures answer { result ≡ (playing (seen B.Bank.stores self.old) replica n).answer }
        ensures after { seen B.Bank.stores self.new ≡ (playing (seen B.Bank.stores self.old) replica n).after }
    {
        let x = self.numbered(n)?;
        if x.home == replica {
            return self.play_home(replica, n, x.transaction);
        }
        self.play_away(replica, n, &x.set)
    }

    /// Applies a number at a replica.
    pub fn apply(&mut self, k: u32, n: u32) -> Result<(), Reason>
        ensures answer { result ≡ (applying (seen B.Bank.stores self.old) k n).answer }
        ensures after { seen B.Bank.stores self.new ≡ (applying (seen B.Bank.stores self.old) k n).after }
    {
        let replica = self.replica(k)?;
        let n = self.applicable(replica, n)?;
        self.play(replica, n)
    }

    // Answers how many applications were made.
    fn drain_at(&mut self, replica: u8, m: u32) -> Result<u32, Reason>
        ensures answer { result ≡ (drained replica m 0 (seen B.Bank.stores self.old)).answer }
        ensures after { seen B.Bank.stores self.new ≡ (drained replica m 0 (seen B.Bank.stores self.old)).after }
    {
        for made in 0..m {
            let Some(n) = self.sets.lowest_unapplied(replica) else {
                return Ok(made);
            };
            self.play(replica, u32::from(n))?;
        }
        Ok(m)
    }

    /// Applies the lowest unapplied numbers at a replica, at most so many, and answers how many it applied.
    pub fn drain(&mut self, k: u32, m: u32) -> Result<u32, Reason>
        ensures answer { result ≡ (draining (seen B.Bank.stores self.old) k m).answer }
        ensures after { seen B.Bank.stores self.new ≡ (draining (seen B.Bank.stores self.old) k m).after }
    {
        let replica = self.replica(k)?;
        self.drain_at(replica, m)
    }
}
