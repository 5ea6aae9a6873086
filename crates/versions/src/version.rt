// A version of an object: a committed value, its commit, and where the object's version before it stands. The pool has far fewer
// places than a link of 16 bits can name, and half of what a board asks of the heap is these versions, so a link is no wider.

#[derive(Clone, Copy)]
pub struct Version {
    pub commit: u32,
    pub value: u32,
    pub older: Option<u16>,
}
