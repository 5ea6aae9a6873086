// A script of calls, run over a board that it opens, and an answer a line.
#![tactic(auto)]

pub mod fault;
pub mod line;
mod numbers;
pub mod run;
pub mod scripts;

pub use fault::{ScriptFault, Unfit};
pub use line::answer_line;
pub use run::{Played, Unplayed};
pub use scripts::run_script;
