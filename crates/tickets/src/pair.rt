// An object and the value that it is to have.

#[derive(Clone, Copy, PartialEq, Eq, Debug)]
pub struct Pair {
    pub object: usize,
    pub value: u32,
}
