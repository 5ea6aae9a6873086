// Why the board refuses a call: the reason, and with it the call and its transaction or number.
ghost use Rattle.std.specs.Prelude.{◌≡◌};
ghost use Rattle.middleware.specs.Listing.{asked_to};
ghost use Rattle.middleware.specs.declared.fault.BoardFault.{BoardFault};

use calls::Call;
use machine::Reason;

#[derive(Clone, Copy, PartialEq, Eq, Debug)]
pub enum Asked {
    Open,
    Queued(Call),
    Record,
}

#[derive(Clone, Copy, PartialEq, Eq, Debug)]
pub struct BoardFault {
    pub asked: Asked,
    pub reason: Reason,
}

impl From<(Asked, Reason)> for BoardFault {
    ghost from_gives = { λ e r. r ≡ record { asked = e.0; reason = e.1 } };

    fn from(e: (Asked, Reason)) -> BoardFault {
        BoardFault {
            asked: e.0,
            reason: e.1,
        }
    }
}

// What was answered, as the board answers it.
pub(crate) fn asked_to<T>(what: Asked, r: Result<T, Reason>) -> Result<T, BoardFault>
    ensures answer { result ≡ asked_to what r }
{
    r.map_err(|reason| BoardFault::from((what, reason)))
}
