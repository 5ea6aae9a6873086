// Clients of a store and of a bank, written and proved once for every kind of either.
#![tactic(auto)]

mod bank_client;
mod looks;
pub mod race;
mod store_client;

pub use bank_client::write_and_commit_at;
pub use looks::{look, read_and_end};
pub use race::{Entry, Order, Race, run_race};
pub use store_client::write_and_commit;
