// The committed values of a board by the commits that they came from, and the own writes of a place.
#![tactic(auto)]

mod chains;
pub mod history;
pub mod own_writes;
mod version;
mod walk;

pub use history::History;
pub use own_writes::OwnWrites;
