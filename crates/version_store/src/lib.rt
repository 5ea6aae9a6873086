// A store that keeps each committed value with the commit that it came from; a snapshot is only a count of commits.
#![tactic(auto)]

mod place;
pub mod store;

pub use store::VersionStore;

#[cfg(test)]
mod tests;
