// A bank of stores: a store's interface with a replica number in front.
#![tactic(auto)]

pub mod api;
pub mod fault;
pub mod single;
pub mod work;

pub use api::{Bank, MOST_TOLD};
pub use fault::BankFault;
pub use work::{Unfinished, Work};
