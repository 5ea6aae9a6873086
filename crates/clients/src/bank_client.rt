// A write set that is committed in a place of its own, at a replica of any bank.
ghost use Rattle.std.specs.Prelude.{◌≡◌};
ghost use Rattle.tickets.specs.Meaning.{pairs};
ghost use Rattle.stores.specs.Model.{begin_answer};
ghost use Rattle.banks.specs.Model.{asked, changed, Others};
ghost use Rattle.banks.specs.Works.{begun};
ghost use Rattle.clients.specs.Committed.{opened_after, write_set_answer, write_set_after};
ghost use Rattle.clients.specs.AtBank.{LandsAt};

use banks::{Bank, BankFault, Work};
use tickets::WriteSet;

// Opens a place and writes the set there. A write set fits into a place that was just opened, so no write is refused.
pub(crate) fn open_with<B: Bank>(
    bank: &mut B,
    replica: u8,
    place: usize,
    set: &WriteSet,
) -> Result<Work, BankFault>
    ensures answer { result ≡ begun replica place (asked (B.Bank.stores bank.old) replica (λ m. begin_answer m place)) }
    ensures after { B.Bank.stores bank.new ≡ changed (B.Bank.stores bank.old) replica (λ m. opened_after m place (pairs set.now)) }
{
    let work = Work::begin(bank, replica, place)?;
    let Ok(()) = work.write_all(bank, set) else {
        unreachable!();
    };
    Ok(work)
}

/// Commits a write set in a place of a replica that is not open. A refusal leaves the bank as it was.
pub fn write_and_commit_at<B: Bank>(
    bank: &mut B,
    replica: u8,
    place: usize,
    set: &WriteSet,
) -> Result<(), BankFault>
    ensures answer { result ≡ asked (B.Bank.stores bank.old) replica (λ m. write_set_answer m place) }
    ensures after { B.Bank.stores bank.new ≡ changed (B.Bank.stores bank.old) replica (λ m. write_set_after m place (pairs set.now)) }
    ensures others { Others replica (B.Bank.stores bank.old) (B.Bank.stores bank.new) }
    ensures law { LandsAt (B.Bank.stores bank.old) replica place (pairs set.now) result (B.Bank.stores bank.new) }
{
    let work = open_with(bank, replica, place, set)?;
    work.settle(bank)
}
