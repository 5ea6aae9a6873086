// A write set of a run, with its home and the number of write sets that its transaction had seen.
use tickets::WriteSet;

#[derive(Clone, Copy)]
pub struct NumberedSet {
    pub home: u8,
    pub s: u16,
    pub set: WriteSet,
}
