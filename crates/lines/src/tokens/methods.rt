// Cutting a line, token by token.
ghost use Rattle.std.specs.Prelude.{◌≡◌, ◌+◌, ◌++◌, length, ◌==◌};
ghost use Rattle.std.specs.Option.{option_map};
ghost use Rattle.lines.specs.Tokens.{piece, token_in_front, taken_off, behind_token, Placed, place_of, left_of};

use crate::token::Token;
use crate::tokens::Tokens;

impl<'a> Tokens<'a> {
    /// A line, nothing of it cut off yet.
    pub fn new(line: &'a [u8]) -> Tokens<'a>
        ensures answer { left_of result ≡ line.now }
        ensures place { place_of result ≡ 0 }
    {
        Tokens { line, at: 0 }
    }

    /// Cuts off the token in front of what is left, as a part of the line; none at the end, and where no token stands.
    pub fn cut(&mut self) -> Option<Token<'a>>
        ensures answer { option_map piece result ≡ token_in_front (left_of self.old) }
        ensures place { Placed (place_of self.old) result }
        ensures after { (left_of self.new ≡ behind_token (left_of self.old)) × (place_of self.new ≡ place_of self.old + length (taken_off (option_map piece result))) }
        ensures law { left_of self.old ≡ taken_off (option_map piece result) ++ left_of self.new }
    {
        let token = self.front()?;
        self.at += token.width();
        Some(token)
    }

    /// Whether nothing is left of the line.
    pub fn is_done(&self) -> bool
        ensures answer { result ≡ (length (left_of self.now) == 0) }
    {
        self.at >= self.line.len()
    }
}
