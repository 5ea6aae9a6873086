// Sets of objects, a mark for each object, in words of 64 bits. Nothing else in the repository does bit work.
#![tactic(auto)]

pub mod marks;
pub mod objects;
mod words;

pub use marks::Marks;
pub use objects::Objects;
