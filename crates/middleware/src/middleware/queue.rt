// The calls of a queue, one after the other.
ghost use Rattle.std.specs.Prelude.{◌≡◌, ◌≤◌, [], length, vec_len, vec_capacity};
ghost use Rattle.refinement.specs.Refusals.{Stays};
ghost use Rattle.middleware.specs.Listing.{listed, past};
ghost use Rattle.middleware.specs.Meaning.{held};
ghost use Rattle.middleware.specs.Serving.{Serves, Carries, AllCarry, RunsOn};

use crate::answer::Answer;
use crate::middleware::Middleware;
use banks::Bank;
use calls::Call;

impl<B: Bank> Middleware<B> {
    /// Answers any call of a queue.
    pub fn call(&mut self, call: Call) -> Answer
        ensures law { Serves call (held B.Bank.stores self.old) (listed result) (held B.Bank.stores self.new) }
        ensures stays { Stays (held B.Bank.stores self.old) (listed result) (held B.Bank.stores self.new) }
        ensures names { Carries call result }
    {
        match call {
            Call::Begin(k) => Answer::of(self.begin(k)),
            Call::Read(t, j) => Answer::of(self.read(t, j)),
            Call::Write(t, j, v) => Answer::of(self.write(t, j, v)),
            Call::Commit(t) => Answer::of(self.commit(t)),
            Call::GiveUp(t) => Answer::of(self.give_up(t)),
            Call::Apply(k, n) => Answer::of(self.apply(k, n)),
            Call::Drain(k, m) => Answer::of(self.drain(k, m)),
            Call::Value(k, j) => Answer::of(self.value(k, j)),
            Call::State(t) => Answer::of(self.state(t)),
            Call::WriteSet(n) => Answer::of(self.write_set(n)),
            Call::Applied(k) => Answer::of(self.progress(k)),
        }
    }

    // Answers a queue, each call as the one ahead left the board.
    pub(crate) fn serve(&mut self, queue: &[Call], answers: &mut Vec<Answer>)
        requires none { vec_len answers.old ≡ 0 }
        requires room { length queue.now ≤ vec_capacity answers.old }
        ensures law { RunsOn (held B.Bank.stores self.old) queue.now (past queue.now answers.new.items []) (held B.Bank.stores self.new) }
        ensures names { AllCarry queue.now answers.new.items }
    {
        for call in queue {
            answers.push_reserved(self.call(*call));
        }
    }
}
