// Why a script is not run, and why a line of it is refused.
ghost use Rattle.std.specs.Prelude.{◌≡◌};
ghost use Rattle.script.specs.declared.fault.ScriptFault.TheVariants.{Board};

use middleware::BoardFault;

// No line is run.
#[derive(Clone, Copy, PartialEq, Eq, Debug)]
pub enum Unfit {
    // more than 16,384 bytes or 1,024 lines
    TooLong,
    // the answer buffer is too short; the length needed, 32 bytes for each line
    BufferShort { needed: usize },
}

// A line is refused, and the run goes on.
#[derive(Clone, Copy, PartialEq, Eq, Debug)]
pub enum ScriptFault {
    // it has none of the eight forms
    NotUnderstood { line: u32 },
    // the board refuses its call
    Board { line: u32, fault: BoardFault },
}

impl From<(u32, BoardFault)> for ScriptFault {
    ghost from_gives = { λ e r. r ≡ Board e.0 e.1 };

    fn from(e: (u32, BoardFault)) -> ScriptFault {
        ScriptFault::Board {
            line: e.0,
            fault: e.1,
        }
    }
}
