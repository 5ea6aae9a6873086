// The call that a line of a script spells.
ghost use Rattle.std.specs.Prelude.{◌≡◌, Some, None};
ghost use Rattle.lines.specs.Reading.{asked, understood};
ghost use Rattle.lines.specs.Spelling.{Understands};
ghost use Rattle.lines.specs.Tokens.{left_of};

use crate::tokens::Tokens;
use calls::Call;

/// The call that a letter asks for, with the rest of the line as its numbers.
fn call(letter: u8, rest: &mut Tokens<'_>) -> Option<Call>
    ensures answer { result ≡ asked (Some letter) (left_of rest.old) }
{
    match letter {
        b'B' => {
            let [k] = rest.numbers::<1>()?;
            Some(Call::Begin(k))
        }
        b'R' => {
            let [t, j] = rest.numbers::<2>()?;
            Some(Call::Read(t, j))
        }
        b'W' => {
            let [t, j, v] = rest.numbers::<3>()?;
            Some(Call::Write(t, j, v))
        }
        b'C' => {
            let [t] = rest.numbers::<1>()?;
            Some(Call::Commit(t))
        }
        b'G' => {
            let [t] = rest.numbers::<1>()?;
            Some(Call::GiveUp(t))
        }
        b'A' => {
            let [k, n] = rest.numbers::<2>()?;
            Some(Call::Apply(k, n))
        }
        b'D' => {
            let [k, m] = rest.numbers::<2>()?;
            Some(Call::Drain(k, m))
        }
        b'V' => {
            let [k, j] = rest.numbers::<2>()?;
            Some(Call::Value(k, j))
        }
        _ => None,
    }
}

/// The call that a line spells, exactly; none where the line has any other form.
pub fn read_line(line: &[u8]) -> Option<Call>
    ensures answer { result ≡ understood line.now }
    ensures law { Understands line.now result }
{
    let mut tokens = Tokens::new(line);
    let letter = tokens.letter()?;
    call(letter, &mut tokens)
}
