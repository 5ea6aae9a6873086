// The calls that may stand in a queue: what stations ask of the board.
#![tactic(auto)]

pub mod call;

pub use call::Call;
