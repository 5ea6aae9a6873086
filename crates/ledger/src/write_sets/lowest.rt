// What is asked of all numbered write sets.
ghost use Rattle.std.specs.Prelude.{◌≡◌, ℕ, ◌+◌, ◌-◌, ◌<◌, ◌≤◌, true, length, IfSome};
ghost use Rattle.tickets.specs.Meaning.{pairs};
ghost use Rattle.ledger.specs.Words.{up_to};
ghost use Rattle.ledger.specs.Sets.{sets_of, progress_at, lowest_clash, lowest_holding, lowest_unapplied};

use crate::given::place;
use crate::progress::Progress;
use crate::write_sets::WriteSets;
use crate::write_sets::scans::{first_clash, first_holding, first_unapplied};
use tickets::WriteSet;

// The number of the write set at a place.
fn number(place: usize) -> u16
    requires { place < 256 }
    ensures answer { result ≡ place + 1 }
{
    place as u16 + 1
}

impl WriteSets {
    /// How many numbers are applied at a replica, and whether without holes.
    pub fn progress(&self, replica: u8) -> Progress
        ensures answer { result ≡ progress_at (sets_of self.now) replica }
    {
        let mut applied = 0;
        let mut whole = true;
        for (i, x) in self.given.items.iter().enumerate() {
            if x.applied.has(replica) {
                whole = usize::from(applied) == i;
                applied += 1;
            }
        }
        Progress { applied, whole }
    }

    /// The lowest number above s that clashes with a write set.
    pub fn lowest_clash(&self, s: u16, set: &WriteSet) -> Option<u16>
        ensures answer { result ≡ lowest_clash (sets_of self.now) s (pairs set.now) }
    {
        let from = usize::from(s);
        first_clash(&self.given.items, from, set).map(|i| number(from + i))
    }

    /// The lowest number below n that is not applied at a replica and clashes with a write set.
    pub fn lowest_holding(&self, replica: u8, n: u32, set: &WriteSet) -> Option<u16>
        ensures answer { result ≡ lowest_holding (sets_of self.now) replica (n - 1) (pairs set.now) }
    {
        first_holding(&self.given.items, place(n), replica, set).map(number)
    }

    /// The lowest number that is not applied at a replica.
    pub fn lowest_unapplied(&self, replica: u8) -> Option<u16>
        ensures answer { result ≡ lowest_unapplied (sets_of self.now) replica }
        ensures given { IfSome result (λ n. up_to (length (sets_of self.now)) n ≡ true) }
    {
        first_unapplied(&self.given.items, replica).map(number)
    }
}
