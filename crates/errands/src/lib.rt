// What the middleware does at its bank: it gathers own writes, finds a place, plays a write set, and looks copies over.
#![tactic(auto)]

pub mod copies;
pub mod gather;
pub mod places;
pub mod replay;
