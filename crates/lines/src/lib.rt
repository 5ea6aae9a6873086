// A script cut into its lines, and a line into the call that it spells.
#![tactic(auto)]

pub mod limits;
pub mod lines;
mod numeral;
pub mod reading;
pub mod token;
pub mod tokens;

pub use limits::{SCRIPT_BYTES, SCRIPT_LINES, fits};
pub use lines::{Lines, line_count};
pub use reading::read_line;
pub use token::Token;
pub use tokens::Tokens;

#[cfg(test)]
mod tests;
