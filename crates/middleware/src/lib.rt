// The board: the calls that stations make, over any bank of stores, and the law of whole queues.
#![tactic(auto)]

pub mod answer;
mod display;
pub mod fault;
pub mod middleware;
pub mod queues;
pub mod run;

pub use answer::Answer;
pub use fault::{Asked, BoardFault};
pub use middleware::Middleware;
pub use queues::run_queue;
pub use run::{Run, Unrun};
