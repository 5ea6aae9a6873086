// An answer as a program prints it.
ghost use Rattle.middleware.specs.Text.{answer_text};

use crate::answer::Answer;
use std::fmt;

impl fmt::Display for Answer {
    ghost output = { answer_text };

    fn fmt<W: fmt::Write>(&self, f: &mut fmt::Formatter<W>) -> fmt::Result {
        match *self {
            Answer::Done => write!(f, "ok"),
            Answer::Number(n) => write!(f, "{n}"),
            Answer::ReadOnly => write!(f, "read-only"),
            Answer::Abort(n) => write!(f, "abort {n}"),
            Answer::State(_, s) => write!(f, "its snapshot has seen {s}"),
            Answer::WriteSet(_) => write!(f, "a write set"),
            Answer::Applied(progress) => {
                let n = progress.applied;
                write!(f, "{n} applied")
            }
            Answer::Refused(fault) => {
                let reason = fault.reason;
                write!(f, "refused: {reason:?}")
            }
        }
    }
}
