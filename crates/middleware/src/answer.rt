// What the board answers to a call that stands in a queue.
ghost use Rattle.std.specs.Prelude.{◌≡◌, None};
ghost use Rattle.ledger.specs.Sets.{set_of};
ghost use Rattle.law.specs.History as law;
ghost use Rattle.law.specs.History.Answer.{told};
ghost use Rattle.refinement.specs.Answers.{quiet, verdict_listed, state_listed, set_listed, progress_listed};
ghost use Rattle.middleware.specs.Listing.{listed, result_listed, refusal_in, refusal_of};

use crate::fault::BoardFault;
use ledger::{Numbered, Progress, TransactionState, Verdict};

#[derive(Clone, Copy)]
pub enum Answer {
    Done,
    // a transaction, a value, the number given to a write set, or a count of applications
    Number(u32),
    // a commit without own writes
    ReadOnly,
    // a commit that clashes with the write set of this number, the lowest such
    Abort(u16),
    // the state of a transaction, and its snapshot number
    State(TransactionState, u16),
    WriteSet(Numbered),
    Applied(Progress),
    Refused(BoardFault),
}

// What an accepted call tells: how the law lists it, and the answer that it makes.
pub(crate) trait Told {
    ghost list: { Self → law.Answer };

    fn answer(self) -> Answer
        ensures answer { listed result ≡ list self }
        ensures accepted { refusal_in result ≡ None };
}

impl Told for () {
    ghost list = { quiet };

    fn answer(self) -> Answer {
        Answer::Done
    }
}

impl Told for u32 {
    ghost list = { told };

    fn answer(self) -> Answer {
        Answer::Number(self)
    }
}

impl Told for Verdict {
    ghost list = { verdict_listed };

    fn answer(self) -> Answer {
        match self {
            Verdict::ReadOnly => Answer::ReadOnly,
            Verdict::Numbered(n) => Answer::Number(u32::from(n)),
            Verdict::Clash(n) => Answer::Abort(n),
        }
    }
}

impl Told for (TransactionState, u16) {
    ghost list = { state_listed };

    fn answer(self) -> Answer {
        let (state, s) = self;
        Answer::State(state, s)
    }
}

impl Told for Numbered {
    ghost list = { λ w. set_listed (set_of w) };

    fn answer(self) -> Answer {
        Answer::WriteSet(self)
    }
}

impl Told for Progress {
    ghost list = { progress_listed };

    fn answer(self) -> Answer {
        Answer::Applied(self)
    }
}

impl Answer {
    pub(crate) fn of<T: Told>(r: Result<T, BoardFault>) -> Answer
        ensures answer { listed result ≡ result_listed T.list r }
        ensures refusal { refusal_in result ≡ refusal_of r }
    {
        r.map_or_else(Answer::Refused, T::answer)
    }
}
