// What the middleware holds: its transactions and its numbered write sets, with the loops over them.
#![tactic(auto)]

pub mod applied;
mod clash;
mod given;
pub mod numbered;
pub mod progress;
pub mod transaction;
pub mod transactions;
pub mod verdict;
pub mod write_sets;

pub use applied::Applied;
pub use numbered::Numbered;
pub use progress::Progress;
pub use transaction::{Event, Transaction, TransactionState};
pub use transactions::{TRANSACTIONS, Transactions};
pub use verdict::Verdict;
pub use write_sets::{WRITE_SETS, WriteSets};
