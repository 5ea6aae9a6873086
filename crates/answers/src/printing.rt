// How long an answer is, and printing it.
ghost use Rattle.std.specs.Prelude.{◌≡◌, ◌≤◌, length};
ghost use Rattle.answers.specs.Buffers.{Wrote, WroteIfRoom};
ghost use Rattle.answers.specs.Printing.{words, printed};

use crate::answer::Printed;
use crate::bytes::{digits, put, put_numbered};

impl Printed {
    /// How many bytes the answer has, its end of line among them: at most 32.
    pub fn length(self) -> usize
        ensures answer { result ≡ length (printed self) }
        ensures law { result ≤ 32 }
    {
        match self {
            Printed::Ok => 3,
            Printed::OkNumber(n) => 4 + digits(n),
            Printed::OkRead => 8,
            Printed::Abort(n) => 7 + digits(n),
            Printed::No { number, line } => 5 + digits(number) + digits(line),
        }
    }

    /// Prints the answer at a place of the buffer, and answers where it ends. Without room for all of it nothing is written.
    pub fn print(self, buf: &mut [u8], at: usize) -> Option<usize>
        ensures bytes { WroteIfRoom buf.old at (printed self) buf.new result }
        ensures law { length (printed self) ≤ 32 }
    {
        let length = self.length();
        let room = buf.len().checked_sub(at)?;
        if room < length {
            return None;
        }
        let end = at + length;
        let words_end = put(buf, end, b"\n");
        self.put_words(buf, words_end);
        Some(end)
    }

    /// Writes the answer's words so that they end at a place, and answers where they begin.
    fn put_words(self, buf: &mut [u8], end: usize) -> usize
        requires room { length (words self) ≤ end }
        requires within { end ≤ length buf.old }
        ensures bytes { Wrote buf.old result (words self) buf.new end }
    {
        match self {
            Printed::Ok => put(buf, end, b"ok"),
            Printed::OkNumber(n) => put_numbered(buf, end, b"ok ", n),
            Printed::OkRead => put(buf, end, b"ok read"),
            Printed::Abort(n) => put_numbered(buf, end, b"abort ", n),
            Printed::No { number, line } => {
                let middle = put_numbered(buf, end, b" ", line);
                put_numbered(buf, middle, b"no ", number)
            }
        }
    }
}
