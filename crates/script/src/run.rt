// What comes of a script that is run over a bank.
use crate::fault::Unfit;
use middleware::BoardFault;

// How many bytes of answers there are, and the bank as the script left it.
#[derive(Drop)]
pub struct Played<B> {
    pub length: usize,
    pub bank: B,
}

// No line was run: there was no memory, the script or the room for its answers was unfit, or the opening was refused. The bank comes back as it was.
#[derive(Drop)]
pub enum Unplayed<B> {
    NoMemory(B),
    Unfit(Unfit, B),
    NotOpened(BoardFault, B),
}
