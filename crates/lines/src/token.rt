// A token of a line: a letter, or a number behind a space. Its bytes are a part of the line, from the place `at` on.
ghost use Rattle.std.specs.Prelude.{◌≡◌, length, Some};
ghost use Rattle.lines.specs.Tokens.{piece, taken_off};

#[derive(Clone, Copy, Debug)]
pub enum Token<'a> {
    Letter { bytes: &'a [u8], at: usize },
    Number { bytes: &'a [u8], at: usize },
}

impl Token<'_> {
    /// How many bytes the cut takes off with the token: a number has one space before it.
    pub(crate) fn width(self) -> usize
        ensures answer { result ≡ length (taken_off (Some (piece self.entry))) }
    {
        match self {
            Token::Letter { bytes, .. } => bytes.len(),
            Token::Number { bytes, .. } => bytes.len() + 1,
        }
    }
}
