// One item of a record, with its body at a place.
ghost use Rattle.std.specs.Prelude.{◌≡◌, ◌≤◌, length, map};
ghost use Rattle.std.specs.Option.{option_map};
ghost use Rattle.tickets.specs.Meaning.{set_pairs};
ghost use Rattle.record_format.specs.Items.{accepted};
ghost use Rattle.record_format.specs.Written.{first_body};
ghost use Rattle.record_format.specs.Reading.{pair_in, item_at};
ghost use Rattle.record_format.specs.Meaning.{item_of};

use crate::bytes::{pair_in, two_of};
use crate::entry::{Entry, entry_of};
use record_format::{LAST_HOME, NumberedSet, PAIR_BYTES, S_BYTES};
use tickets::WriteSet;

/// The write set that the pairs make, where they are one within the tops.
// Inlined, as `item_at` is: handed on through calls, a write set of 136 bytes is copied twice, which takes longer than the reading.
#[inline(always)]
fn write_set(pairs: &[[u8; PAIR_BYTES]]) -> Option<WriteSet>
    ensures answer { set_pairs result ≡ accepted (map pair_in pairs.now) }
{
    let (first, others) = pairs.split_first()?;
    let mut set = WriteSet::one(pair_in(first)?)?;
    for pair in others {
        if !set.push(pair_in(pair)?) {
            return None;
        }
    }
    Some(set)
}

/// Item `n` with its body at a place, where it stands there.
// It takes the whole record and the place, not the part that begins there: the entry lies before it, and its offset is held against the place.
#[inline(always)]
pub(crate) fn item_at(bytes: &[u8], n: usize, at: usize) -> Option<NumberedSet>
    requires le_n { 1 ≤ n }
    requires n_in_bounds { first_body n ≤ length bytes.now }
    requires at_in_bounds { at ≤ length bytes.now }
    ensures answer { option_map item_of result ≡ item_at bytes.now n at }
{
    let Entry { home, size, offset } = entry_of(bytes, n);
    let rest = &bytes[at..];
    if offset != at || size > rest.len() || home > LAST_HOME {
        return None;
    }
    let s = two_of(rest);
    if usize::from(s) >= n {
        return None;
    }
    let (pairs, _) = rest[S_BYTES..size].as_chunks();
    let set = write_set(pairs)?;
    Some(NumberedSet { home, s, set })
}
