// A transaction held by a station's program: nothing but its verdict or giving it up spends it.
#![tactic(auto)]

pub mod held;

pub use held::{Held, Refused};
