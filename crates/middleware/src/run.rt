// What comes of a whole run.
use crate::answer::Answer;
use crate::fault::BoardFault;

// The answers, one to a call, and the bank as the queue left it.
#[derive(Drop)]
pub struct Run<B> {
    pub answers: Vec<Answer>,
    pub bank: B,
}

// A run that was not to be: there was no memory, or the opening was refused. The bank comes back as it was.
#[derive(Drop)]
pub enum Unrun<B> {
    NoMemory(B),
    Refused(BoardFault, B),
}
