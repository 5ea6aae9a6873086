// A write set played at a place of its own: begun, written and committed, and freed where something is refused.
ghost use Rattle.std.specs.Prelude.{◌≡◌};
ghost use Rattle.tickets.specs.Meaning.{pairs};
ghost use Rattle.banks.specs.Works.{replica_of, place_of};
ghost use Rattle.errands.specs.Replay.{fill, replay};

use banks::{Bank, BankFault, Work};
use tickets::WriteSet;

// Written and ended.
fn fill<B: Bank>(bank: &mut B, work: Work, set: &WriteSet) -> Result<(), BankFault>
    ensures answer { result ≡ (fill (replica_of work) (place_of work) (pairs set.now) (B.Bank.stores bank.old)).answer }
    ensures after { B.Bank.stores bank.new ≡ (fill (replica_of work) (place_of work) (pairs set.now) (B.Bank.stores bank.old)).after }
{
    if let Err(fault) = work.write_all(bank, set) {
        let _ = work.abort(bank);
        return Err(fault);
    }
    work.settle(bank)
}

/// Plays a write set at a place of a replica: all store calls of an application away from home, in their order.
pub fn replay<B: Bank>(
    bank: &mut B,
    replica: u8,
    place: usize,
    set: &WriteSet,
) -> Result<(), BankFault>
    ensures answer { result ≡ (replay replica place (pairs set.now) (B.Bank.stores bank.old)).answer }
    ensures after { B.Bank.stores bank.new ≡ (replay replica place (pairs set.now) (B.Bank.stores bank.old)).after }
{
    let work = Work::begin(bank, replica, place)?;
    fill(bank, work, set)
}
