// A transaction, and the events that it takes.
ghost use Rattle.std.specs.Prelude.{◌≡◌};
ghost use Rattle.ledger.specs.Transactions.{judged, next, takes, moved, is_busy, busy_at};

use crate::verdict::Verdict;

#[derive(Clone, Copy, PartialEq, Eq, Debug)]
pub enum TransactionState {
    Open,
    // its write set has this number, and waits for its application at home
    Pending(u16),
    Committed,
    Aborted,
    GivenUp,
}

// What befalls a transaction. A commit comes with its verdict.
#[derive(Clone, Copy)]
pub enum Event {
    Read,
    Write,
    Commit(Verdict),
    GiveUp,
    Applied,
}

// The replica that it is at home at, its place there, and the number s up to which its snapshot has seen the write sets.
#[derive(Clone, Copy)]
pub struct Transaction {
    pub home: u8,
    pub place: usize,
    pub s: u16,
    pub state: TransactionState,
}

impl From<Verdict> for TransactionState {
    ghost from_gives = { λ v q. q ≡ judged v };

    fn from(verdict: Verdict) -> TransactionState {
        match verdict {
            Verdict::ReadOnly => TransactionState::Committed,
            Verdict::Numbered(n) => TransactionState::Pending(n),
            Verdict::Clash(_) => TransactionState::Aborted,
        }
    }
}

impl TransactionState {
    /// The state that an event leads to; none where it is not taken.
    pub fn after(self, event: Event) -> Option<TransactionState>
        ensures answer { result ≡ next self event }
    {
        match (self, event) {
            (TransactionState::Open, Event::Read | Event::Write) => Some(TransactionState::Open),
            (TransactionState::Open, Event::Commit(verdict)) => Some(verdict.into()),
            (TransactionState::Open, Event::GiveUp) => Some(TransactionState::GivenUp),
            (TransactionState::Pending(_), Event::Applied) => Some(TransactionState::Committed),
            _ => None,
        }
    }

    /// Whether it is open or pending.
    fn is_busy(self) -> bool
        ensures answer { result ≡ is_busy self }
    {
        matches!(self, TransactionState::Open | TransactionState::Pending(_))
    }
}

impl Transaction {
    /// Takes an event, where its state does, and tells whether.
    pub fn take(&mut self, event: Event) -> bool
        ensures answer { result ≡ takes self.old.state event }
        ensures after { self.new ≡ moved self.old event }
    {
        let Some(state) = self.state.after(event) else {
            return false;
        };
        self.state = state;
        true
    }

    /// Whether it is open or pending, and at home at a replica.
    pub(crate) fn busy_at(&self, replica: u8) -> bool
        ensures answer { result ≡ busy_at replica self.now }
    {
        self.home == replica && self.state.is_busy()
    }
}
