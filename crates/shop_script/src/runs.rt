// The run of a script over the bank of a shop.
ghost use Rattle.shop_script.specs.Promise.{ShopPromise};

use crate::fault::ShopFault;
use script::{Unplayed, run_script};
use shop::empty_bank;
use std::alloc::Global;

/// Opens four stations of zeros and answers the script's lines into the buffer: how many bytes the answers take.
pub fn run_shop(heap: Global, script: &[u8], buffer: &mut [u8]) -> Result<usize, ShopFault>
    ensures law { ShopPromise script.now buffer.old result buffer.new }
{
    let Ok(bank) = empty_bank(heap) else {
        return Err(ShopFault::NoMemory);
    };
    match run_script(heap, bank, script, buffer) {
        Ok(run) => Ok(run.length),
        Err(Unplayed::NoMemory(_)) => Err(ShopFault::NoMemory),
        Err(Unplayed::Unfit(fault, _)) => Err(ShopFault::Unfit(fault)),
        // four stations of zeros are opened
        Err(Unplayed::NotOpened(_, _)) => unreachable(),
    }
}
