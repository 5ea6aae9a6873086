// What can end the day early.
use middleware::BoardFault;
use std::error::Error;
use std::fmt;

#[derive(Clone, Copy, Debug)]
pub enum Trouble {
    Refused(BoardFault),
    // a job that clashed each time that it was tried
    Clashing,
}

impl fmt::Display for Trouble {
    fn fmt<W: fmt::Write>(&self, f: &mut fmt::Formatter<W>) -> fmt::Result {
        match self {
            Trouble::Refused(fault) => {
                let reason = fault.reason;
                write!(f, "refused: {reason:?}")
            }
            Trouble::Clashing => write!(f, "clashed each time"),
        }
    }
}

impl Error for Trouble {}

impl From<BoardFault> for Trouble {
    fn from(fault: BoardFault) -> Trouble {
        Trouble::Refused(fault)
    }
}
