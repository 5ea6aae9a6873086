// How many numbers are applied at a replica, and whether they are the first ones, without holes.
// A flag beside a count, and no `Option`: the count is told with holes too.

#[derive(Clone, Copy, PartialEq, Eq, Debug)]
pub struct Progress {
    pub applied: u16,
    pub whole: bool,
}
