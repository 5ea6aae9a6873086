// The local store that a station's copy lives in: one interface, by what a store means.
#![tactic(auto)]

pub mod api;
pub mod fault;
pub mod seats;
pub mod work;

pub use api::Store;
pub use fault::StoreFault;
pub use seats::{SEATS, Seats};
pub use work::{Unfinished, Work};
