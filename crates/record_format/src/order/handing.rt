ghost use Rattle.std.specs.Prelude.{◌≡◌};
ghost use Rattle.std.specs.Iterator.{YieldsFirstBy, item_count};
ghost use Rattle.record_format.specs.Meaning.{item_of};
ghost use Rattle.record_format.specs.Order.{left_of};

use crate::numbered_set::NumberedSet;
use crate::numbered_sets::NumberedSets;
use crate::order::InOrder;

/// The write sets of a run in order, from the first.
pub fn in_order<R: NumberedSets>(run: &R) -> InOrder<R>
    ensures { left_of R.NumberedSets.items result ≡ R.NumberedSets.items run.now }
{
    let count = run.count();
    InOrder {
        run,
        count,
        passed: 0,
    }
}

impl<'a, R: NumberedSets> Iterator for InOrder<'a, R> {
    type Item = NumberedSet;

    ghost next_gives = { YieldsFirstBy item_of (left_of R.NumberedSets.items) };

    ghost remaining = { item_count (left_of R.NumberedSets.items) };

    fn next(&mut self) -> Option<NumberedSet> {
        if self.passed >= self.count {
            return None;
        }
        self.passed += 1;
        self.run.item(self.passed)
    }

    fn size_hint(&self) -> (usize, Option<usize>) {
        let left = self.len();
        (left, Some(left))
    }
}

impl<'a, R: NumberedSets> ExactSizeIterator for InOrder<'a, R> {
    fn len(&self) -> usize {
        self.count.saturating_sub(self.passed)
    }
}
