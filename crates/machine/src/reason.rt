// Why a call is refused. A case holds what the refusal names; who called is for the layer above to add.
ghost use Rattle.std.specs.Prelude.{◌≡◌};
ghost use Rattle.machine.specs.declared.reason.Reason.TheVariants.{Store, Record};

use banks::BankFault;
use record_format::RecordFault;

#[derive(Clone, Copy, PartialEq, Eq, Debug)]
pub enum Reason {
    NoReplica,
    NoTransaction,
    NoObject,
    NoWriteSet,
    AboveTop,
    // the bank has more than eight replicas
    TooManyReplicas,
    // the replica has an open place, or a commit wrote there
    ReplicaUsed(u8),
    // the replica's value of the object is above its top
    ReplicaAboveTop(u8, usize),
    // the replica's value of the object is not replica 0's
    ReplicaUnlike(u8, usize),
    NotOpened,
    AlreadyOpened,
    Holes,
    // fifteen open or pending transactions are at home there
    Busy,
    TransactionsGiven,
    TransactionNotOpen,
    NinthObject,
    WriteSetsGiven,
    AlreadyApplied,
    // the number, not applied there yet, that has to come first
    HeldBack(u16),
    // a store's own fault
    Store(BankFault),
    // the record's own fault
    Record(RecordFault),
}

impl From<BankFault> for Reason {
    ghost from_gives = { λ e r. r ≡ Store e };

    fn from(e: BankFault) -> Reason {
        Reason::Store(e)
    }
}

impl From<RecordFault> for Reason {
    ghost from_gives = { λ e r. r ≡ Record e };

    fn from(e: RecordFault) -> Reason {
        Reason::Record(e)
    }
}
