// The letter and the numbers of a line, read off its front.
ghost use Rattle.std.specs.Prelude.{◌≡◌};
ghost use Rattle.lines.specs.Reading.{letter_in, number_in, numbers_in};
ghost use Rattle.lines.specs.Tokens.{token_in_front, behind_token, left_of};

use crate::numeral::number;
use crate::token::Token;
use crate::tokens::Tokens;

impl<'a> Tokens<'a> {
    /// The next token's letter; none where it is no letter.
    pub(crate) fn letter(&mut self) -> Option<u8>
        ensures answer { result ≡ letter_in (token_in_front (left_of self.old)) }
        ensures after { left_of self.new ≡ behind_token (left_of self.old) }
    {
        let Token::Letter { bytes, .. } = self.cut()? else {
            return None;
        };
        bytes.first().copied()
    }

    /// The next token's number; none where it is no number of 32 bits.
    fn number(&mut self) -> Option<u32>
        ensures answer { result ≡ number_in (token_in_front (left_of self.old)) }
        ensures after { left_of self.new ≡ behind_token (left_of self.old) }
    {
        let Token::Number { bytes, .. } = self.cut()? else {
            return None;
        };
        number(bytes)
    }

    /// As many numbers as are asked for; none where the rest of the line is anything else.
    pub(crate) fn numbers<const N: usize>(&mut self) -> Option<[u32; N]>
        ensures answer { result ≡ numbers_in N (left_of self.old) }
    {
        let mut found = [0; N];
        for n in found.iter_mut() {
            *n = self.number()?;
        }
        self.is_done().then_some(found)
    }
}
