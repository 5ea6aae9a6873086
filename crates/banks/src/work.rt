// Work that is open at a replica of a bank. It is owed an end: nothing but a commit or an abort spends it.
ghost use Rattle.std.specs.Prelude.{◌≡◌, ◌≤◌};
ghost use Rattle.tickets.specs.Meaning.{pairs};
ghost use Rattle.stores.specs.Model.{begin_answer, begin_after, read_answer, write_answer, write_after, commit_answer, commit_after, abort_answer, abort_after};
ghost use Rattle.banks.specs.Model.{asked, changed};
ghost use Rattle.banks.specs.Works.{replica_of, place_of, begun, ended};
ghost use Rattle.banks.specs.Steps.{writes_answer, writes_after, settled_after};

use crate::api::Bank;
use crate::fault::BankFault;
use stores::StoreFault;
use tickets::WriteSet;

pub struct Work {
    replica: u8,
    place: usize,
}

// Letting work go asks for a place that no store has: each has at most 64. So no work that is open can be let go.
impl Drop for Work {
    fn drop(self)
        requires { 64 ≤ place_of self }
    {
        let Work {
            replica: _,
            place: _,
        } = self;
    }
}

// A commit that was refused: the place is freed, or it is still open and the work comes back.
pub enum Unfinished {
    Ended(BankFault),
    Back(Work, BankFault),
}

impl Work {
    /// Opens a place of a replica.
    pub fn begin<B: Bank>(bank: &mut B, replica: u8, place: usize) -> Result<Work, BankFault>
        ensures answer { result ≡ begun replica place (asked (B.Bank.stores bank.old) replica (λ m. begin_answer m place)) }
        ensures after { B.Bank.stores bank.new ≡ changed (B.Bank.stores bank.old) replica (λ m. begin_after m place) }
    {
        bank.begin(replica, place)?;
        Ok(Work { replica, place })
    }

    /// The replica that the work is at.
    pub fn replica(&self) -> u8
        ensures answer { result ≡ replica_of self.now }
    {
        self.replica
    }

    /// The place that is open.
    pub fn place(&self) -> usize
        ensures answer { result ≡ place_of self.now }
    {
        self.place
    }

    /// What the work reads of an object.
    pub fn read<B: Bank>(&self, bank: &B, object: usize) -> Result<u32, BankFault>
        ensures answer { result ≡ asked (B.Bank.stores bank.now) (replica_of self.now) (λ m. read_answer m (place_of self.now) object) }
    {
        bank.read(self.replica, self.place, object)
    }

    /// Writes a value to an object.
    pub fn write<B: Bank>(&self, bank: &mut B, object: usize, value: u32) -> Result<(), BankFault>
        ensures answer { result ≡ asked (B.Bank.stores bank.old) (replica_of self.now) (λ m. write_answer m (place_of self.now) object value) }
        ensures after { B.Bank.stores bank.new ≡ changed (B.Bank.stores bank.old) (replica_of self.now) (λ m. write_after m (place_of self.now) object value) }
    {
        bank.write(self.replica, self.place, object, value)
    }

    /// Writes each pair in turn, up to the first that is refused.
    pub fn write_all<B: Bank>(&self, bank: &mut B, set: &WriteSet) -> Result<(), BankFault>
        ensures answer { result ≡ asked (B.Bank.stores bank.old) (replica_of self.now) (λ m. writes_answer m (place_of self.now) (pairs set.now)) }
        ensures after { B.Bank.stores bank.new ≡ changed (B.Bank.stores bank.old) (replica_of self.now) (λ m. writes_after m (place_of self.now) (pairs set.now)) }
    {
        for pair in set.pairs() {
            self.write(bank, pair.object, pair.value)?;
        }
        Ok(())
    }

    /// Commits the work; where the store is full the place stays open and the work comes back.
    pub fn commit<B: Bank>(self, bank: &mut B) -> Result<(), Unfinished>
        ensures answer { result ≡ ended self (asked (B.Bank.stores bank.old) (replica_of self) (λ m. commit_answer m (place_of self))) }
        ensures after { B.Bank.stores bank.new ≡ changed (B.Bank.stores bank.old) (replica_of self) (λ m. commit_after m (place_of self)) }
    {
        let Work { replica, place } = self;
        bank.commit(replica, place).map_err(|fault| match fault {
            BankFault::At(_, StoreFault::Full) => Unfinished::Back(Work { replica, place }, fault),
            _ => Unfinished::Ended(fault),
        })
    }

    /// Commits the work, or aborts it where the store is full.
    pub fn settle<B: Bank>(self, bank: &mut B) -> Result<(), BankFault>
        ensures answer { result ≡ asked (B.Bank.stores bank.old) (replica_of self) (λ m. commit_answer m (place_of self)) }
        ensures after { B.Bank.stores bank.new ≡ changed (B.Bank.stores bank.old) (replica_of self) (λ m. settled_after m (place_of self)) }
    {
        let Err(unfinished) = self.commit(bank) else {
            return Ok(());
        };
        match unfinished {
            Unfinished::Ended(fault) => Err(fault),
            Unfinished::Back(work, fault) => {
                let _ = work.abort(bank);
                Err(fault)
            }
        }
    }

    /// Frees the place.
    pub fn abort<B: Bank>(self, bank: &mut B) -> Result<(), BankFault>
        ensures answer { result ≡ asked (B.Bank.stores bank.old) (replica_of self) (λ m. abort_answer m (place_of self)) }
        ensures after { B.Bank.stores bank.new ≡ changed (B.Bank.stores bank.old) (replica_of self) (λ m. abort_after m (place_of self)) }
    {
        let Work { replica, place } = self;
        bank.abort(replica, place)
    }
}
