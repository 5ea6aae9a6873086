// Numbers at this edge are 32 bits wide, as they come from a script; what they name is checked by the board.

#[derive(Clone, Copy, PartialEq, Eq, Debug)]
pub enum Call {
    // begin a transaction at a replica
    Begin(u32),
    // read: a transaction, an object
    Read(u32, u32),
    // write: a transaction, an object, a value
    Write(u32, u32, u32),
    // ask for a transaction's verdict
    Commit(u32),
    // end a transaction without one
    GiveUp(u32),
    // apply at a replica the write set of a number
    Apply(u32, u32),
    // apply at a replica the lowest unapplied numbers, at most so many
    Drain(u32, u32),
    // the current value at a replica of an object
    Value(u32, u32),
    // the state and the snapshot number of a transaction
    State(u32),
    // the write set of a number
    WriteSet(u32),
    // how many numbers are applied at a replica, and whether without holes
    Applied(u32),
}
