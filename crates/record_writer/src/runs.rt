// What may be written: the numbered write sets of a run.
ghost use Rattle.std.specs.Prelude.{◌≡◌};
ghost use Rattle.tickets.specs.Meaning.{pairs};
ghost use Rattle.record_format.specs.Items.{within_tops, fits};
ghost use Rattle.record_format.specs.Meaning.{item_of};
ghost use Rattle.record_format.specs.Faults.{listed};
ghost use Rattle.record_format.specs.Calls.{size_answer};

use record_format::{
    COUNT_BYTES, ENTRY_BYTES, LAST_HOME, MOST_ITEMS, NumberedSet, NumberedSets, PAIR_BYTES,
    RecordFault, S_BYTES, in_order,
};
use tickets::{WriteSet, top};

/// Whether no value is above its object's top.
fn within_tops(set: &WriteSet) -> bool
    ensures answer { result ≡ within_tops (pairs set.now) }
{
    set.pairs()
        .iter()
        .all(|pair| pair.value <= top(pair.object))
}

/// Whether a write set may stand at a number of a run.
fn may_stand(set: &NumberedSet, n: usize) -> bool
    ensures answer { result ≡ fits n (item_of set.now) }
{
    set.home <= LAST_HOME && usize::from(set.s) < n && within_tops(&set.set)
}

/// How long the record of the write sets is, where they are a run.
pub(crate) fn size<R: NumberedSets>(run: &R) -> Result<usize, RecordFault>
    ensures answer { listed result ≡ size_answer (R.NumberedSets.items run.now) }
{
    let sets = in_order(run);
    let count = sets.len();
    if count > MOST_ITEMS {
        return Err(RecordFault::NoRun { item: 0 });
    }
    let mut needed = COUNT_BYTES;
    for (set, n) in sets.zip(1..) {
        if !may_stand(&set, n) {
            return Err(RecordFault::NoRun { item: n });
        }
        needed += ENTRY_BYTES + S_BYTES + PAIR_BYTES * set.set.len();
    }
    Ok(needed)
}
