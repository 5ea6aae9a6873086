// The own writes of a place, told one by one, as a write set.
ghost use Rattle.std.specs.Prelude.{◌≡◌, [], ◌∷◌, ◌++◌};
ghost use Rattle.tickets.specs.Meaning.{pair_of, built, set_pairs};
ghost use Rattle.banks.specs.Model.{asked};
ghost use Rattle.errands.specs.Own.{pairs_in, own_answer, gathered};

use banks::{Bank, BankFault};
use tickets::{Pair, WriteSet};

// One more pair behind the others, where that is a write set.
fn added(set: Option<WriteSet>, pair: Pair) -> Option<WriteSet>
    ensures answer { set_pairs result ≡ built (pairs_in (set_pairs set) ++ pair_of pair ∷ []) }
{
    set.map_or_else(|| WriteSet::one(pair), |set| set.with(pair))
}

/// The write set of a place; none where it has no own writes.
pub fn gather<B: Bank>(bank: &B, replica: u8, place: usize) -> Result<Option<WriteSet>, BankFault>
    ensures answer { gathered result ≡ asked (B.Bank.stores bank.now) replica (λ m. own_answer m place) }
{
    // A bank tells one own write to a call, from an object on, and hands out no iterator of them: so the loop keeps that object.
    let mut set = None;
    let mut from = 0;
    while let Some(pair) = bank.own_from(replica, place, from)? {
        set = added(set, pair);
        from = pair.object + 1;
    }
    Ok(set)
}
