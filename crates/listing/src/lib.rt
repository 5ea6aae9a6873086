// What a record tells, as text: its write sets, and the tickets that they leave.
#![tactic(auto)]

mod items;
pub mod listing;
mod ticket;
mod ticket_lines;

pub use listing::list;
