// A store is a bank of one: its replica is 0.
ghost use Rattle.std.specs.Prelude.{◌≡◌, [], ◌∷◌};
ghost use Rattle.banks.specs.Model.{only_answer};
ghost use Rattle.std.proofs.Common.{rules};

use crate::api::Bank;
use crate::fault::{BankFault, at_replica};
use stores::Store;
use tickets::Pair;

fn only(replica: u8) -> Result<(), BankFault>
    ensures answer { result ≡ only_answer replica }
{
    if replica != 0 {
        return Err(BankFault::NoReplica(replica));
    }
    Ok(())
}

// The check of the replica and the store's call stand apart: one helper for both would take the call as a closure, and there
// would be two of them, one for a store that is read and one for a store that is changed.
impl<S: Store> Bank for S {
    ghost stores = { λ s. S.Store.meaning s ∷ [] };

    ghost some = { Prim.search rules };

    ghost lawful = { Prim.search rules };

    fn count(&self) -> usize {
        1
    }

    fn begin(&mut self, replica: u8, place: usize) -> Result<(), BankFault> {
        only(replica)?;
        at_replica(replica, Store::begin(self, place))
    }

    fn read(&self, replica: u8, place: usize, object: usize) -> Result<u32, BankFault> {
        only(replica)?;
        at_replica(replica, Store::read(self, place, object))
    }

    fn write(
        &mut self,
        replica: u8,
        place: usize,
        object: usize,
        value: u32,
    ) -> Result<(), BankFault> {
        only(replica)?;
        at_replica(replica, Store::write(self, place, object, value))
    }

    fn own_count(&self, replica: u8, place: usize) -> Result<u32, BankFault> {
        only(replica)?;
        at_replica(replica, Store::own_count(self, place))
    }

    fn own_from(
        &self,
        replica: u8,
        place: usize,
        object: usize,
    ) -> Result<Option<Pair>, BankFault> {
        only(replica)?;
        at_replica(replica, Store::own_from(self, place, object))
    }

    fn commit(&mut self, replica: u8, place: usize) -> Result<(), BankFault> {
        only(replica)?;
        at_replica(replica, Store::commit(self, place))
    }

    fn abort(&mut self, replica: u8, place: usize) -> Result<(), BankFault> {
        only(replica)?;
        at_replica(replica, Store::abort(self, place))
    }

    fn value(&self, replica: u8, object: usize) -> Result<u32, BankFault> {
        only(replica)?;
        at_replica(replica, Store::value(self, object))
    }

    fn commits(&self, replica: u8) -> Result<u32, BankFault> {
        only(replica)?;
        Ok(Store::commits(self))
    }

    fn is_open(&self, replica: u8, place: usize) -> Result<bool, BankFault> {
        only(replica)?;
        at_replica(replica, Store::is_open(self, place))
    }
}
