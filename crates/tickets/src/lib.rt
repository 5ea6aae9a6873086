// Tickets: what a board holds, what a write set is, and what playing one does.
#![tactic(auto)]

pub mod board;
pub mod laws;
pub mod pair;
pub mod tops;
pub mod write_set;

pub use board::{Board, OBJECTS};
pub use pair::Pair;
pub use tops::top;
pub use write_set::{MOST_PAIRS, WriteSet};
