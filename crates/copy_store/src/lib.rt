// A store that keeps a whole board at each open place, and its sets of objects as marks.
#![tactic(auto)]

mod place;
pub mod store;

pub use store::CopyStore;
