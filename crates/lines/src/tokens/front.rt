// The token in front of what is left of a line.
ghost use Rattle.std.specs.Prelude.{◌≡◌, length};
ghost use Rattle.std.specs.Char.{is_ascii_digit};
ghost use Rattle.std.specs.List.{take_while};
ghost use Rattle.std.specs.Option.{option_map};
ghost use Rattle.lines.specs.Tokens.{piece, token_in_front, Placed, place_of, left_of};

use crate::token::Token;
use crate::tokens::Tokens;

/// How many digits stand in front.
fn digit_count(bytes: &[u8]) -> usize
    ensures { result ≡ length (take_while is_ascii_digit bytes.now) }
{
    bytes.iter().take_while(|b| b.is_ascii_digit()).count()
}

impl<'a> Tokens<'a> {
    /// The token in front of what is left: a letter, or a space and then all the digits there.
    pub(crate) fn front(&self) -> Option<Token<'a>>
        ensures answer { option_map piece result ≡ token_in_front (left_of self.now) }
        ensures place { Placed (place_of self.now) result }
    {
        let at = self.at;
        match &self.line[at..] {
            [letter, ..] if letter.is_ascii_alphabetic() => Some(Token::Letter {
                bytes: &self.line[at..at + 1],
                at,
            }),
            [b' ', behind @ ..] => {
                let digits = digit_count(behind);
                (digits > 0).then_some(Token::Number {
                    bytes: &behind[..digits],
                    at: at + 1,
                })
            }
            _ => None,
        }
    }
}
