// Refusals by their numbers, as they are printed: the answers to a script have no words for them.
ghost use Rattle.std.specs.Prelude.{◌≡◌};
ghost use Rattle.banks.specs.Faults.{listed as bank-listed};
ghost use Rattle.machine.specs.Reasons.{with_number, listed as reason-listed};
ghost use Rattle.record_format.specs.Faults.{refusal_of};
ghost use Rattle.script.specs.Faults.{refusal};

use crate::fault::ScriptFault;
use answers::Printed;
use banks::BankFault;
use machine::Reason;
use record_format::RecordFault;

fn bank_number(fault: BankFault) -> u32
    ensures answer { result ≡ (bank-listed fault).0 }
{
    match fault {
        BankFault::NoReplica(_) => 1,
        BankFault::At(_, fault) => fault.number(),
    }
}

// A refusal that has no number is listed under 0.
fn record_number(fault: RecordFault) -> u32
    ensures answer { result ≡ (with_number (refusal_of fault)).0 }
{
    match fault {
        RecordFault::Malformed { item: _ } => 8,
        RecordFault::BufferShort { needed: _ } => 9,
        RecordFault::NoRun { item: _ } => 0,
        RecordFault::NoMemory => 0,
    }
}

/// The number of a refusal of the board.
fn reason_number(reason: Reason) -> u32
    ensures answer { result ≡ (reason-listed reason).0 }
{
    match reason {
        Reason::NoReplica => 1,
        Reason::NoTransaction => 2,
        Reason::NoObject => 3,
        Reason::NoWriteSet => 4,
        Reason::AboveTop => 5,
        Reason::TooManyReplicas => 10,
        Reason::ReplicaUsed(_) => 11,
        Reason::ReplicaAboveTop(_, _) => 12,
        Reason::ReplicaUnlike(_, _) => 13,
        Reason::NotOpened => 20,
        Reason::AlreadyOpened => 21,
        Reason::Holes => 26,
        Reason::Busy => 27,
        Reason::TransactionsGiven => 28,
        Reason::TransactionNotOpen => 29,
        Reason::NinthObject => 30,
        Reason::WriteSetsGiven => 31,
        Reason::AlreadyApplied => 32,
        Reason::HeldBack(_) => 33,
        Reason::Store(fault) => bank_number(fault),
        Reason::Record(fault) => record_number(fault),
    }
}

impl ScriptFault {
    /// The refusal as it is printed: its number, and its line.
    pub fn printed(self) -> Printed
        ensures answer { result ≡ refusal self }
    {
        let (number, line) = match self {
            ScriptFault::NotUnderstood { line } => (7, line),
            ScriptFault::Board { line, fault } => (reason_number(fault.reason), line),
        };
        Printed::No { number, line }
    }
}
