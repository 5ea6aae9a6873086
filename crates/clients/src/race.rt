// Two places opened on the same board, each with a write set to commit: the first committer wins.
ghost use Rattle.std.specs.Prelude.{◌≡◌};
ghost use Rattle.banks.specs.Works.{replica_of, place_of};
ghost use Rattle.clients.specs.Races.{first_of, second_of, settled_race, settled_both, race_answer, race_after, FirstCommitterWins};

use crate::bank_client::open_with;
use crate::store_client::at_store;
use banks::Work;
use stores::{Store, StoreFault};
use tickets::WriteSet;

/// A place to open, and the write set to commit there.
#[derive(Clone, Copy)]
pub struct Entry {
    pub place: usize,
    pub set: WriteSet,
}

/// Which of the two commits first.
#[derive(Clone, Copy)]
pub enum Order {
    LeftFirst,
    RightFirst,
}

impl Order {
    // The one that comes first, and the other one.
    fn sorted<T>(self, left: T, right: T) -> (T, T)
        ensures first { result.0 ≡ first_of self left right }
        ensures second { result.1 ≡ second_of self left right }
    {
        match self {
            Order::LeftFirst => (left, right),
            Order::RightFirst => (right, left),
        }
    }
}

/// What the first committer and then the second were answered.
#[derive(Clone, Copy)]
pub struct Race {
    pub first: Result<(), StoreFault>,
    pub second: Result<(), StoreFault>,
}

// Settles the one that comes first in the order, and then the other.
fn settle_both<S: Store>(store: &mut S, left: Work, right: Work, order: Order) -> Race
    requires { (replica_of left ≡ 0) × (replica_of right ≡ 0) }
    ensures answer { result ≡ settled_race (S.Store.meaning store.old) (first_of order (place_of left) (place_of right)) (second_of order (place_of left) (place_of right)) }
    ensures after { S.Store.meaning store.new ≡ settled_both (S.Store.meaning store.old) (first_of order (place_of left) (place_of right)) (second_of order (place_of left) (place_of right)) }
{
    let (winner, loser) = order.sorted(left, right);
    let first = at_store(winner.settle(store));
    let second = at_store(loser.settle(store));
    Race { first, second }
}

/// Opens both places, writes each one's set there, and commits them in the order given.
/// Where one cannot be opened, the store is left as it was.
pub fn run_race<S: Store>(
    store: &mut S,
    left: Entry,
    right: Entry,
    order: Order,
) -> Result<Race, StoreFault>
    ensures answer { result ≡ race_answer (S.Store.meaning store.old) left right order }
    ensures after { S.Store.meaning store.new ≡ race_after (S.Store.meaning store.old) left right order }
    ensures law { FirstCommitterWins (S.Store.meaning store.old) left right order result (S.Store.meaning store.new) }
{
    let a = at_store(open_with(store, 0, left.place, &left.set))?;
    match at_store(open_with(store, 0, right.place, &right.set)) {
        Ok(b) => Ok(settle_both(store, a, b, order)),
        Err(e) => {
            let _ = a.abort(store);
            Err(e)
        }
    }
}
