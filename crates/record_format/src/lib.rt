// The format of the run record, and the laws that every run and every record keep.
#![tactic(auto)]

ghost use Rattle.record_format.specs.Laws.{RoundTrips, SizeLaws, Examples};

pub mod fault;
pub mod numbered_set;
pub mod numbered_sets;
pub mod order;

pub use fault::RecordFault;
pub use numbered_set::NumberedSet;
pub use numbered_sets::NumberedSets;
pub use order::{InOrder, in_order};

/// The most items that a run has.
pub const MOST_ITEMS: usize = 256;

/// The highest home of a write set.
pub const LAST_HOME: u8 = 7;

/// The bytes of the count, and those of an item's entry in the contents.
pub const COUNT_BYTES: usize = 2;

pub const ENTRY_BYTES: usize = 4;

/// The bytes of a body's s, and those of each of its pairs.
pub const S_BYTES: usize = 2;

pub const PAIR_BYTES: usize = 5;

/// The bytes of the longest record: 256 items of eight pairs.
pub const LONGEST: usize = 11_778;

/// What is written of a run reads back as the same items, and what reads is written back as the same bytes.
pub fn round_trips_stand()
    ensures law { RoundTrips }
{}

/// No record is longer than 256 items of eight pairs, and every offset fits its two bytes.
pub fn sizes_stand()
    ensures law { SizeLaws }
{}

/// The worked examples of the format.
pub fn examples_stand()
    ensures law { Examples }
{}
