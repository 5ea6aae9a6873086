// One line of a script, answered by the board.
ghost use Rattle.std.specs.Prelude.{◌≡◌};
ghost use Rattle.middleware.specs.Meaning.{held};
ghost use Rattle.refinement.specs.Sound.{Sound};
ghost use Rattle.script.specs.Lines.{spoken, said, Answers, Refuses};

use crate::fault::ScriptFault;
use answers::Printed;
use banks::Bank;
use lines::read_line;
use middleware::{Answer, BoardFault, Middleware};

// What an accepted answer prints; no line asks for what has several values.
fn spoken(answer: Answer) -> Result<Printed, BoardFault>
    ensures answer { result ≡ spoken answer }
{
    match answer {
        Answer::Number(n) => Ok(Printed::OkNumber(n)),
        Answer::ReadOnly => Ok(Printed::OkRead),
        Answer::Abort(n) => Ok(Printed::Abort(u32::from(n))),
        Answer::Done | Answer::State(_, _) | Answer::WriteSet(_) | Answer::Applied(_) => {
            Ok(Printed::Ok)
        }
        Answer::Refused(fault) => Err(fault),
    }
}

/// Answers one line: what is printed, or the refusal with its line.
pub fn answer_line<B: Bank>(
    board: &mut Middleware<B>,
    line: u32,
    bytes: &[u8],
) -> Result<Printed, ScriptFault>
    ensures law { Sound (held B.Bank.stores board.old) → Answers line bytes.now (held B.Bank.stores board.old) (said result) (held B.Bank.stores board.new) }
    ensures names { Refuses line bytes.now result }
{
    let call = read_line(bytes).ok_or(ScriptFault::NotUnderstood { line })?;
    spoken(board.call(call)).map_err(|fault| ScriptFault::from((line, fault)))
}
