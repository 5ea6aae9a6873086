// The calls of the board. Each answers as the plain board does, and leaves what the plain board comes to; a refused one leaves all as it was.
ghost use Rattle.std.specs.Prelude.{◌≡◌};
ghost use Rattle.calls.specs.declared.call.Call.TheVariants.{Begin, Read, Write, Commit, GiveUp, Apply, Drain, Value, State, WriteSet, Applied};
ghost use Rattle.ledger.specs.Sets.{set_of};
ghost use Rattle.law.specs.History.Answer.{told};
ghost use Rattle.refinement.specs.Answers.{quiet, verdict_listed, state_listed, set_listed, progress_listed};
ghost use Rattle.refinement.specs.Refusals.{Stays};
ghost use Rattle.machine.specs.Questions.{set_told};
ghost use Rattle.middleware.specs.Listing.{result_listed, asked_as, set_held};
ghost use Rattle.middleware.specs.Meaning.{held};
ghost use Rattle.middleware.specs.Serving.{Serves, Tells, GetsShutPlace, Names};
ghost use Rattle.middleware.specs.declared.fault.Asked.TheVariants.{Queued};

use crate::fault::{Asked, BoardFault, asked_to};
use crate::middleware::Middleware;
use banks::Bank;
use calls::Call;
use ledger::{Numbered, Progress, TransactionState, Verdict};
use machine::Reason;

// What was answered to a call of a queue.
fn asked<T>(call: Call, r: Result<T, Reason>) -> Result<T, BoardFault>
    ensures answer { result ≡ asked_as call r }
{
    asked_to(Asked::Queued(call), r)
}

impl<B: Bank> Middleware<B> {
    /// Begins a transaction at a replica: its number.
    pub fn begin(&mut self, k: u32) -> Result<u32, BoardFault>
        ensures law { Serves (Begin k) (held B.Bank.stores self.old) (result_listed told result) (held B.Bank.stores self.new) }
        ensures stays { Stays (held B.Bank.stores self.old) (result_listed told result) (held B.Bank.stores self.new) }
        ensures names { Names (Queued (Begin k)) result }
        ensures place { GetsShutPlace (held B.Bank.stores self.old) k result (held B.Bank.stores self.new) }
    {
        asked(Call::Begin(k), self.engine.begin(k))
    }

    /// The transaction's own write of an object, else its snapshot's value.
    pub fn read(&self, t: u32, j: u32) -> Result<u32, BoardFault>
        ensures law { Tells (Read t j) (held B.Bank.stores self.now) (result_listed told result) }
        ensures names { Names (Queued (Read t j)) result }
    {
        asked(Call::Read(t, j), self.engine.read(t, j))
    }

    /// Sets an own write of the transaction.
    pub fn write(&mut self, t: u32, j: u32, v: u32) -> Result<(), BoardFault>
        ensures law { Serves (Write t j v) (held B.Bank.stores self.old) (result_listed quiet result) (held B.Bank.stores self.new) }
        ensures stays { Stays (held B.Bank.stores self.old) (result_listed quiet result) (held B.Bank.stores self.new) }
        ensures names { Names (Queued (Write t j v)) result }
    {
        asked(Call::Write(t, j, v), self.engine.write(t, j, v))
    }

    /// Asks for the transaction's verdict.
    pub fn commit(&mut self, t: u32) -> Result<Verdict, BoardFault>
        ensures law { Serves (Commit t) (held B.Bank.stores self.old) (result_listed verdict_listed result) (held B.Bank.stores self.new) }
        ensures stays { Stays (held B.Bank.stores self.old) (result_listed verdict_listed result) (held B.Bank.stores self.new) }
        ensures names { Names (Queued (Commit t)) result }
    {
        asked(Call::Commit(t), self.engine.commit(t))
    }

    /// Ends a transaction without a verdict.
    pub fn give_up(&mut self, t: u32) -> Result<(), BoardFault>
        ensures law { Serves (GiveUp t) (held B.Bank.stores self.old) (result_listed quiet result) (held B.Bank.stores self.new) }
        ensures stays { Stays (held B.Bank.stores self.old) (result_listed quiet result) (held B.Bank.stores self.new) }
        ensures names { Names (Queued (GiveUp t)) result }
    {
        asked(Call::GiveUp(t), self.engine.give_up(t))
    }

    /// Plays the write set of a number over a replica.
    pub fn apply(&mut self, k: u32, n: u32) -> Result<(), BoardFault>
        ensures law { Serves (Apply k n) (held B.Bank.stores self.old) (result_listed quiet result) (held B.Bank.stores self.new) }
        ensures stays { Stays (held B.Bank.stores self.old) (result_listed quiet result) (held B.Bank.stores self.new) }
        ensures names { Names (Queued (Apply k n)) result }
    {
        asked(Call::Apply(k, n), self.engine.apply(k, n))
    }

    /// Applies the lowest unapplied numbers at a replica, at most m of them: how many.
    pub fn drain(&mut self, k: u32, m: u32) -> Result<u32, BoardFault>
        ensures law { Serves (Drain k m) (held B.Bank.stores self.old) (result_listed told result) (held B.Bank.stores self.new) }
        ensures stays { Stays (held B.Bank.stores self.old) (result_listed told result) (held B.Bank.stores self.new) }
        ensures names { Names (Queued (Drain k m)) result }
    {
        asked(Call::Drain(k, m), self.engine.drain(k, m))
    }

    /// The current value of an object in a replica's own store.
    pub fn value(&self, k: u32, j: u32) -> Result<u32, BoardFault>
        ensures law { Tells (Value k j) (held B.Bank.stores self.now) (result_listed told result) }
        ensures names { Names (Queued (Value k j)) result }
    {
        asked(Call::Value(k, j), self.engine.value(k, j))
    }

    /// The state of a transaction, and its snapshot number.
    pub fn state(&self, t: u32) -> Result<(TransactionState, u16), BoardFault>
        ensures law { Tells (State t) (held B.Bank.stores self.now) (result_listed state_listed result) }
        ensures names { Names (Queued (State t)) result }
    {
        asked(Call::State(t), self.engine.state(t))
    }

    /// The write set of a number, with its home and its snapshot number.
    pub fn write_set(&self, n: u32) -> Result<Numbered, BoardFault>
        ensures law { Tells (WriteSet n) (held B.Bank.stores self.now) (result_listed (λ w. set_listed (set_of w)) result) }
        ensures names { Names (Queued (WriteSet n)) result }
        ensures whole { set_held result ≡ asked_as (WriteSet n) (set_told (held B.Bank.stores self.now) n) }
    {
        asked(Call::WriteSet(n), self.engine.write_set(n))
    }

    /// How many numbers are applied at a replica, and whether without holes.
    pub fn progress(&self, k: u32) -> Result<Progress, BoardFault>
        ensures law { Tells (Applied k) (held B.Bank.stores self.now) (result_listed progress_listed result) }
        ensures names { Names (Queued (Applied k)) result }
    {
        asked(Call::Applied(k), self.engine.progress(k))
    }
}
