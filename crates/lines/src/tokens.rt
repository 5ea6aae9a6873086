// A line, cut into tokens from its front.
ghost use Rattle.std.specs.Prelude.{◌≤◌, length};

mod front;
mod methods;
mod words;

#[derive(Clone, Copy, Debug)]
pub struct Tokens<'a> {
    line: &'a [u8],
    // where the next token is to be cut
    at: usize,
    ghost within: { at ≤ length line.now },
}
