// Writing the run record into a buffer that the caller lends.
#![tactic(auto)]

mod parts;
mod pen;
mod runs;
pub mod writes;

pub use writes::{write, write_run};
