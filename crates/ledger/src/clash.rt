// When two write sets clash: the one rule that validation and the order of application go by.
ghost use Rattle.std.specs.Prelude.{◌≡◌};
ghost use Rattle.tickets.specs.Meaning.{pairs};
ghost use Rattle.ledger.specs.Sets.{clash};

use tickets::WriteSet;

/// Whether an earlier write set and a later one clash: whether they share an object.
pub(crate) fn clash(earlier: &WriteSet, later: &WriteSet) -> bool
    ensures answer { result ≡ clash (pairs earlier.now) (pairs later.now) }
{
    earlier.shares(later)
}
