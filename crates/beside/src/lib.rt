// Two banks side by side are a bank: the left one's replicas come first, then the right one's.
#![tactic(auto)]

ghost use Rattle.std.specs.Prelude.{◌≡◌, ◌++◌, length};
ghost use Rattle.beside.specs.Sides.{right_number, renumbered};
ghost use Rattle.beside.specs.Halves.{both_some, both_lawful};

use banks::{Bank, BankFault, MOST_TOLD};
use tickets::Pair;

#[derive(Drop)]
pub struct Beside<L, R> {
    pub left: L,
    pub right: R,
}

impl<L: Bank, R> Beside<L, R> {
    // The number that a replica has in the right bank; none where it is in the left one.
    fn in_right(&self, replica: u8) -> Option<u8>
        ensures answer { result ≡ right_number (length (L.Bank.stores self.now.left)) replica }
    {
        let count = self.left.count();
        (count <= replica as usize).then(|| replica - count as u8)
    }
}

// The right bank's answer, its fault under the number that the caller gave.
fn under<A>(replica: u8, r: Result<A, BankFault>) -> Result<A, BankFault>
    ensures answer { result ≡ renumbered replica r }
{
    r.map_err(|fault| match fault {
        BankFault::NoReplica(_) => BankFault::NoReplica(replica),
        BankFault::At(_, e) => BankFault::At(replica, e),
    })
}

// Each call chooses its bank where it stands: the two banks have types of their own, so no closure takes them both.
impl<L: Bank, R: Bank> Bank for Beside<L, R> {
    ghost stores = { λ b. L.Bank.stores b.left ++ R.Bank.stores b.right };

    ghost some = { λ b. both_some (L.Bank.stores b.left) (R.Bank.stores b.right) (L.Bank.some b.left) };

    ghost lawful = { λ b. both_lawful (L.Bank.stores b.left) (R.Bank.stores b.right) (L.Bank.lawful b.left) (R.Bank.lawful b.right) };

    fn count(&self) -> usize {
        (self.left.count() + self.right.count()).min(MOST_TOLD)
    }

    fn begin(&mut self, replica: u8, place: usize) -> Result<(), BankFault> {
        match self.in_right(replica) {
            None => self.left.begin(replica, place),
            Some(there) => under(replica, self.right.begin(there, place)),
        }
    }

    fn read(&self, replica: u8, place: usize, object: usize) -> Result<u32, BankFault> {
        match self.in_right(replica) {
            None => self.left.read(replica, place, object),
            Some(there) => under(replica, self.right.read(there, place, object)),
        }
    }

    fn write(
        &mut self,
        replica: u8,
        place: usize,
        object: usize,
        value: u32,
    ) -> Result<(), BankFault> {
        match self.in_right(replica) {
            None => self.left.write(replica, place, object, value),
            Some(there) => under(replica, self.right.write(there, place, object, value)),
        }
    }

    fn own_count(&self, replica: u8, place: usize) -> Result<u32, BankFault> {
        match self.in_right(replica) {
            None => self.left.own_count(replica, place),
            Some(there) => under(replica, self.right.own_count(there, place)),
        }
    }

    fn own_from(
        &self,
        replica: u8,
        place: usize,
        object: usize,
    ) -> Result<Option<Pair>, BankFault> {
        match self.in_right(replica) {
            None => self.left.own_from(replica, place, object),
            Some(there) => under(replica, self.right.own_from(there, place, object)),
        }
    }

    fn commit(&mut self, replica: u8, place: usize) -> Result<(), BankFault> {
        match self.in_right(replica) {
            None => self.left.commit(replica, place),
            Some(there) => under(replica, self.right.commit(there, place)),
        }
    }

    fn abort(&mut self, replica: u8, place: usize) -> Result<(), BankFault> {
        match self.in_right(replica) {
            None => self.left.abort(replica, place),
            Some(there) => under(replica, self.right.abort(there, place)),
        }
    }

    fn value(&self, replica: u8, object: usize) -> Result<u32, BankFault> {
        match self.in_right(replica) {
            None => self.left.value(replica, object),
            Some(there) => under(replica, self.right.value(there, object)),
        }
    }

    fn commits(&self, replica: u8) -> Result<u32, BankFault> {
        match self.in_right(replica) {
            None => self.left.commits(replica),
            Some(there) => under(replica, self.right.commits(there)),
        }
    }

    fn is_open(&self, replica: u8, place: usize) -> Result<bool, BankFault> {
        match self.in_right(replica) {
            None => self.left.is_open(replica, place),
            Some(there) => under(replica, self.right.is_open(there, place)),
        }
    }
}
