// The lines of write sets.
ghost use Rattle.std.specs.Prelude.{◌≡◌, ◌++◌, string_bytes, OnOk};
ghost use Rattle.std.specs.List.{flat_map};
ghost use Rattle.tickets.specs.Meaning.{pair_of, pairs};
ghost use Rattle.record_format.specs.Reading.{items_in};
ghost use Rattle.record_format.specs.Meaning.{item_of};
ghost use Rattle.record_reader.specs.Readers.{read_from};
ghost use Rattle.listing.specs.Listing.{pair_text, head_text, item_text, items_text};

use record::{NumberedSet, Reader};
use record_format::in_order;
use std::alloc::AllocError;
use tickets::{Pair, WriteSet};

fn put_pair(text: &mut String, pair: Pair) -> Result<(), AllocError>
    ensures bytes { OnOk result (string_bytes text.new ≡ string_bytes text.old ++ pair_text (pair_of pair)) }
{
    let Pair { object, value } = pair;
    write!(text, " {object}={value}")
}

fn put_pairs(text: &mut String, set: &WriteSet) -> Result<(), AllocError>
    ensures bytes { OnOk result (string_bytes text.new ≡ string_bytes text.old ++ flat_map pair_text (pairs set.now)) }
{
    for pair in set.pairs() {
        put_pair(text, *pair)?;
    }
    Ok(())
}

fn put_head(text: &mut String, n: usize, home: u8, s: u16) -> Result<(), AllocError>
    ensures bytes { OnOk result (string_bytes text.new ≡ string_bytes text.old ++ head_text n home s) }
{
    write!(text, "{n} home {home} s {s}:")
}

/// Adds the line of a write set: its number, home and s, and its pairs.
pub(crate) fn put_item(text: &mut String, n: usize, item: &NumberedSet) -> Result<(), AllocError>
    ensures bytes { OnOk result (string_bytes text.new ≡ string_bytes text.old ++ item_text n (item_of item.now)) }
{
    put_head(text, n, item.home, item.s)?;
    put_pairs(text, &item.set)?;
    writeln!(text)?;
    Ok(())
}

/// Adds a line for each write set of a record.
pub(crate) fn put_items(text: &mut String, reader: &Reader) -> Result<(), AllocError>
    ensures bytes { OnOk result (string_bytes text.new ≡ string_bytes text.old ++ items_text 1 (items_in (read_from reader.now))) }
{
    for (i, item) in in_order(reader).enumerate() {
        put_item(text, i + 1, &item)?;
    }
    Ok(())
}
