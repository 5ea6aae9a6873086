// The run record: what a run of the middleware leaves behind for others to read, play and check.
#![tactic(auto)]

pub mod reads;

pub use reads::{check, play, read};
pub use record_format::{LONGEST, NumberedSet, NumberedSets, RecordFault};
pub use record_reader::{Body, Reader};
pub use record_writer::{write, write_run};
