// An open place: the count of commits at its begin, which is its whole snapshot, and its own writes.
use versions::OwnWrites;

#[derive(Clone, Copy)]
pub struct Place {
    pub begun: u32,
    pub own: OwnWrites,
}
