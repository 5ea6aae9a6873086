// A place that is not open.
ghost use Rattle.std.specs.Prelude.{◌≡◌, ℕ, ◌<◌, false, None};
ghost use Rattle.std.specs.Option.{unwrap_or};
ghost use Rattle.errands.specs.Places.{vacant_at, first_vacant, vacant};

use banks::Bank;

// As many places are looked at as every store has.
const PLACES: usize = 16;

fn is_vacant<B: Bank>(bank: &B, replica: u8, place: usize) -> bool
    ensures answer { result ≡ vacant_at (B.Bank.stores bank.now) replica place }
{
    matches!(bank.is_open(replica, place), Ok(false))
}

/// The first place of a replica that is not open; none where all are.
pub fn first_vacant<B: Bank>(bank: &B, replica: u8) -> Option<usize>
    ensures answer { result ≡ first_vacant (B.Bank.stores bank.now) replica }
    ensures number { unwrap_or result 0 ≡ vacant (B.Bank.stores bank.now) replica }
    ensures none { result ≡ None → (p : ℕ) → p < 16 → vacant_at (B.Bank.stores bank.now) replica p ≡ false }
{
    (0..PLACES).find(|&place| is_vacant(bank, replica, place))
}

/// The first place of a replica that is not open; 0, which the store refuses, where all are.
pub fn vacant_place<B: Bank>(bank: &B, replica: u8) -> usize
    ensures answer { result ≡ vacant (B.Bank.stores bank.now) replica }
{
    first_vacant(bank, replica).unwrap_or(0)
}
