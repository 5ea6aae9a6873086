// Why a record is not read, or not written.
ghost use Rattle.std.specs.Prelude.{◌≡◌};
ghost use Rattle.record_format.specs.declared.fault.RecordFault.TheVariants.{NoMemory};

use std::alloc::AllocError;

#[derive(Clone, Copy, PartialEq, Eq, Debug)]
pub enum RecordFault {
    // the record's first bad item; 0 for the count or the contents, one past the last for bytes left over: the format gives one number
    // for each of these, and callers pass it on as it stands
    Malformed { item: usize },
    // a lent buffer is too short; the length needed
    BufferShort { needed: usize },
    // what is to be written is no run: its first item that may not stand there, 0 for more than 256 items, as the format numbers them
    NoRun { item: usize },
    // there is no memory for what is read
    NoMemory,
}

impl From<AllocError> for RecordFault {
    ghost from_gives = { λ e r. r ≡ NoMemory };

    fn from(_e: AllocError) -> RecordFault {
        RecordFault::NoMemory
    }
}
