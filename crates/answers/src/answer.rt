// What may be answered to a line.

// The most bytes that an answer takes: a caller that lends so many for each line never meets a refusal.
pub const ANSWER_BYTES: usize = 32;

// What is printed in answer to one line of a script.
#[derive(Clone, Copy, PartialEq, Eq, Debug)]
pub enum Printed {
    // done, and nothing to tell
    Ok,
    // done, and the number answered
    OkNumber(u32),
    // committed without own writes
    OkRead,
    // aborted by the write set of this number
    Abort(u32),
    // refused: the refusal's number, and the line, counted from 1; a number, for a line of answers has no other word for a refusal
    No { number: u32, line: u32 },
}
