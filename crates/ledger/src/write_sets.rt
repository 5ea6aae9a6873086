// The write sets that have numbers, from 1: at most 256.
use crate::given::Given;
use crate::numbered::Numbered;

mod lowest;
mod methods;
pub mod recorded;
mod scans;

pub const WRITE_SETS: usize = 256;

#[derive(Drop)]
pub struct WriteSets {
    given: Given<Numbered, WRITE_SETS>,
}
