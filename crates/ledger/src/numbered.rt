// A write set with its number's facts: whose it is, what that had seen, and where it is applied.
ghost use Rattle.std.specs.Prelude.{◌≡◌};
ghost use Rattle.tickets.specs.Meaning.{pairs};
ghost use Rattle.ledger.specs.Sets.{set_of, clashes, holds_back};

use crate::applied::Applied;
use crate::clash::clash;
use tickets::WriteSet;

#[derive(Clone, Copy)]
pub struct Numbered {
    pub home: u8,
    pub s: u16,
    pub transaction: u32,
    pub set: WriteSet,
    pub applied: Applied,
}

impl Numbered {
    /// Whether it clashes with a later write set.
    pub(crate) fn clashes(&self, later: &WriteSet) -> bool
        ensures answer { result ≡ clashes (pairs later.now) (set_of self.now) }
    {
        clash(&self.set, later)
    }

    /// Whether it is not applied at a replica and clashes with a later write set.
    pub(crate) fn holds_back(&self, replica: u8, later: &WriteSet) -> bool
        ensures answer { result ≡ holds_back replica (pairs later.now) (set_of self.now) }
    {
        !self.applied.has(replica) && self.clashes(later)
    }
}
