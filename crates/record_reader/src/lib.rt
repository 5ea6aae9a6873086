// Reading the run record: its items one by one, and its bodies as parts of it.
#![tactic(auto)]

mod bytes;
mod entry;
mod items;
pub mod reader;
mod walk;

pub use reader::{Body, Reader};
