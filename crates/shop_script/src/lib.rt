// A script over the bank of a shop: four stations, all zeros. The program and the entry for a host in C make this one call.
#![tactic(auto)]

pub mod fault;
pub mod runs;

pub use fault::ShopFault;
pub use runs::run_shop;
