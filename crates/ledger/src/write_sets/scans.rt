// The place of the first of some write sets that stands in the way. Each looks at a write set at most once.
ghost use Rattle.std.specs.Prelude.{◌≡◌, ℕ, ◌+◌, ◌-◌, ◌<◌, ◌≤◌, length, take, drop, position, IfSome};
ghost use Rattle.tickets.specs.Meaning.{pairs};
ghost use Rattle.ledger.specs.declared.numbered.Numbered.{Numbered as Held};
ghost use Rattle.ledger.specs.Sets.{set_of, clashes, holds_back, is_unapplied};

use crate::numbered::Numbered;
use tickets::WriteSet;

// What stands behind the first s: cut off in one step, where `skip` would go through them one by one.
#[tactic(auto, using(std::proofs::lemmas::List::drop_min))]
fn behind(sets: &[Numbered], s: usize) -> &[Numbered]
    ensures { result.now ≡ drop s sets.now }
{
    &sets[s.min(sets.len())..]
}

// Behind the first s, one that clashes with a write set.
pub(crate) fn first_clash(sets: &[Numbered], s: usize, set: &WriteSet) -> Option<usize>
    ensures place { result ≡ position (λ (x : Held). clashes (pairs set.now) (set_of x)) (drop s sets.now) }
    ensures within { IfSome result (λ i. s + i < length sets.now) }
{
    behind(sets, s).iter().position(|x| x.clashes(set))
}

// Of the first so many, one that is not applied at a replica and clashes with a write set.
pub(crate) fn first_holding(
    sets: &[Numbered],
    many: usize,
    replica: u8,
    set: &WriteSet,
) -> Option<usize>
    ensures place { result ≡ position (λ (x : Held). holds_back replica (pairs set.now) (set_of x)) (take many sets.now) }
    ensures within { IfSome result (λ i. i < length sets.now) }
{
    sets.iter()
        .take(many)
        .position(|x| x.holds_back(replica, set))
}

// One that is not applied at a replica.
pub(crate) fn first_unapplied(sets: &[Numbered], replica: u8) -> Option<usize>
    ensures place { result ≡ position (λ (x : Held). is_unapplied replica (set_of x)) sets.now }
    ensures within { IfSome result (λ i. i < length sets.now) }
{
    sets.iter().position(|x| !x.applied.has(replica))
}
