// Answers to the lines of a script, printed into a buffer that the caller lends.
#![tactic(auto)]

pub mod answer;
mod bytes;
mod printing;

pub use answer::{ANSWER_BYTES, Printed};

#[cfg(test)]
mod tests;
