// The bank of a shop: four stations, with a version store, a copy store, a version store and a copy store.
#![tactic(auto)]

ghost use Rattle.std.specs.Prelude.{IfOk};
ghost use Rattle.shop.specs.Shop.{EmptyPair, EmptyShop};

use beside::Beside;
use copy_store::CopyStore;
use std::alloc::{AllocError, Global};
use version_store::VersionStore;

pub type Two = Beside<VersionStore, CopyStore>;

pub type ShopBank = Beside<Two, Two>;

// A version store and a copy store side by side, all zeros.
fn empty_pair(heap: Global) -> Result<Two, AllocError>
    ensures answer { IfOk result (λ b. EmptyPair b) }
{
    Ok(Beside {
        left: VersionStore::new(heap, [0; 128])?,
        right: CopyStore::new([0; 128]),
    })
}

/// Four stations, all zeros.
pub fn empty_bank(heap: Global) -> Result<ShopBank, AllocError>
    ensures answer { IfOk result (λ b. EmptyShop b) }
{
    Ok(Beside {
        left: empty_pair(heap)?,
        right: empty_pair(heap)?,
    })
}
