// The write sets of a run, handed out one by one in the order of their numbers.
ghost use Rattle.std.specs.Prelude.{◌≡◌, length};

use crate::numbered_sets::NumberedSets;

mod handing;

pub use handing::in_order;

#[derive(Drop)]
pub struct InOrder<'a, R: NumberedSets> {
    run: &'a R,
    // how many the run has: asked once, since a caller's run may have to go over its items to tell
    count: usize,
    // how many were handed out
    passed: usize,
    ghost counted: { count ≡ length (R.NumberedSets.items run.now) },
}
