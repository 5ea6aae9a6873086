// A look at an object through a place of its own, at a replica of any bank.
ghost use Rattle.std.specs.Prelude.{◌≡◌};
ghost use Rattle.stores.specs.Model.{read_answer, abort_after};
ghost use Rattle.banks.specs.Model.{asked, changed};
ghost use Rattle.banks.specs.Works.{replica_of, place_of};
ghost use Rattle.clients.specs.AtBank.{look_answer};

use banks::{Bank, BankFault, Work};

/// Reads an object and ends the work.
pub fn read_and_end<B: Bank>(bank: &mut B, work: Work, object: usize) -> Result<u32, BankFault>
    ensures answer { result ≡ asked (B.Bank.stores bank.old) (replica_of work) (λ m. read_answer m (place_of work) object) }
    ensures after { B.Bank.stores bank.new ≡ changed (B.Bank.stores bank.old) (replica_of work) (λ m. abort_after m (place_of work)) }
{
    let value = work.read(bank, object);
    let _ = work.abort(bank);
    value
}

/// Looks at an object through a place that is not open, and leaves the bank as it was.
/// What a place reads that was just opened is the current value.
pub fn look<B: Bank>(
    bank: &mut B,
    replica: u8,
    place: usize,
    object: usize,
) -> Result<u32, BankFault>
    ensures answer { result ≡ asked (B.Bank.stores bank.old) replica (λ m. look_answer m place object) }
    ensures after { B.Bank.stores bank.new ≡ B.Bank.stores bank.old }
{
    let work = Work::begin(bank, replica, place)?;
    read_and_end(bank, work, object)
}
