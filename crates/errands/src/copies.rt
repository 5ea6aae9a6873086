// What opening looks at: a replica's places, its commits and its values.
// A bank and a replica are two parameters, and no struct: between two of these calls the engine changes the bank, so it would make
// the struct anew for each.
ghost use Rattle.std.specs.Prelude.{◌≡◌, is_some, None, slice_index_or};
ghost use Rattle.tickets.specs.Boards.{value};
ghost use Rattle.banks.specs.Model.{store_at};
ghost use Rattle.errands.specs.Copies.{any_open, used, first_above_top, first_unlike};

use banks::Bank;
use tickets::{OBJECTS, top};

// A store has at most so many places.
const MOST_PLACES: usize = 64;

// Whether a place of a replica is there and open.
fn is_open<B: Bank>(bank: &B, replica: u8, place: usize) -> bool
    ensures answer { result ≡ is_some (slice_index_or (store_at (B.Bank.stores bank.now) replica).places place None) }
{
    bank.is_open(replica, place).unwrap_or(false)
}

// Whether some place of a replica is open.
fn has_open_place<B: Bank>(bank: &B, replica: u8) -> bool
    ensures answer { result ≡ any_open (store_at (B.Bank.stores bank.now) replica).places }
{
    (0..MOST_PLACES).any(|place| is_open(bank, replica, place))
}

// How many commits wrote at a replica.
fn commits<B: Bank>(bank: &B, replica: u8) -> u32
    ensures answer { result ≡ (store_at (B.Bank.stores bank.now) replica).commits }
{
    bank.commits(replica).unwrap_or(0)
}

/// Whether a replica has an open place, or a commit wrote there.
pub fn is_used<B: Bank>(bank: &B, replica: u8) -> bool
    ensures answer { result ≡ used (store_at (B.Bank.stores bank.now) replica) }
{
    has_open_place(bank, replica) || commits(bank, replica) > 0
}

// The value of an object at a replica.
fn value_at<B: Bank>(bank: &B, replica: u8, object: usize) -> u32
    ensures answer { result ≡ value (store_at (B.Bank.stores bank.now) replica).board object }
{
    bank.value(replica, object).unwrap_or(0)
}

/// The lowest object of a replica whose value is above its top.
pub fn lowest_above_top<B: Bank>(bank: &B, replica: u8) -> Option<usize>
    ensures answer { result ≡ first_above_top (store_at (B.Bank.stores bank.now) replica).board }
{
    (0..OBJECTS).find(|&object| top(object) < value_at(bank, replica, object))
}

/// The lowest object whose value at a replica is not that of a board.
pub fn lowest_unlike<B: Bank>(bank: &B, replica: u8, start: &[u32; 128]) -> Option<usize>
    ensures answer { result ≡ first_unlike start.now (store_at (B.Bank.stores bank.now) replica).board }
{
    start.iter().enumerate().position(|(object, value)| *value != value_at(bank, replica, object))
}

/// The board of replica 0.
pub fn starting_board<B: Bank>(bank: &B) -> [u32; 128]
    ensures answer { result ≡ (store_at (B.Bank.stores bank.now) 0).board }
{
    let mut start = [0; OBJECTS];
    for (object, value) in start.iter_mut().enumerate() {
        *value = value_at(bank, 0, object);
    }
    start
}
