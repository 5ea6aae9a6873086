// Tests of whole scripts over the bank of a shop.
#![tactic(auto)]

#[cfg(test)]
mod examples;
#[cfg(test)]
mod limits;

#[cfg(test)]
use shop_script::run_shop;
#[cfg(test)]
use std::alloc::Global;
use std::process::Abort;
#[cfg(test)]
use std::test::Fail;

// The most bytes that answers take.
#[cfg(test)]
const ROOM: usize = 32_768;

// The answers of a script, and the first byte behind them as it was.
#[cfg(test)]
fn answered(rt: &impl Abort, heap: Global, script: &[u8], answers: &[u8]) -> Result<(), Fail> {
    let mut buffer = vec![in heap; b'.'; ROOM]?;
    let length = run_shop(heap, script, &mut buffer)?;
    assert!(rt; buffer.get(0..length) == Some(answers));
    assert!(rt; buffer.get(length).copied() != Some(10));
    Ok(())
}
