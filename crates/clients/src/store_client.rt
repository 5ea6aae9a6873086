// A write set that is committed in a place of its own, at any store: at the one replica of the bank that a store is.
ghost use Rattle.std.specs.Prelude.{◌≡◌, Result};
ghost use Rattle.tickets.specs.Meaning.{pairs};
ghost use Rattle.stores.specs.declared.fault.StoreFault.{StoreFault as Fault};
ghost use Rattle.banks.specs.Model.{lifted};
ghost use Rattle.clients.specs.Committed.{write_set_answer, write_set_after, Lands};

use crate::bank_client::write_and_commit_at;
use banks::BankFault;
use stores::{Store, StoreFault};
use tickets::WriteSet;

// What a bank of one answered at replica 0, as its store answers it.
pub(crate) fn at_store<T>(answer: Result<T, BankFault>) -> Result<T, StoreFault>
    requires { (q : Result T Fault) × (answer ≡ lifted 0 q) }
    ensures { answer ≡ lifted 0 result }
{
    answer.map_err(|fault| match fault {
        BankFault::At(_, fault) => fault,
        BankFault::NoReplica(_) => unreachable!(),
    })
}

/// Commits a write set in a place that is not open. A refusal leaves the store as it was.
pub fn write_and_commit<S: Store>(
    store: &mut S,
    place: usize,
    set: &WriteSet,
) -> Result<(), StoreFault>
    ensures answer { result ≡ write_set_answer (S.Store.meaning store.old) place }
    ensures after { S.Store.meaning store.new ≡ write_set_after (S.Store.meaning store.old) place (pairs set.now) }
    ensures law { Lands (S.Store.meaning store.old) place (pairs set.now) result (S.Store.meaning store.new) }
{
    at_store(write_and_commit_at(store, 0, place, set))
}
