ghost use Rattle.std.specs.Prelude.{◌≡◌, ◌≤◌, IfSome};
ghost use Rattle.std.specs.Option.{option_map};
ghost use Rattle.record_format.specs.Reading.{items_in, bodies_in, numbered, span_in};
ghost use Rattle.record_format.specs.Calls.{check_answer};
ghost use Rattle.record_format.specs.Faults.{listed};
ghost use Rattle.record_format.specs.Meaning.{item_of};
ghost use Rattle.record_reader.specs.Readers.{read_from, part_of, span_of, PartOf};

use crate::entry::entry_of;
use crate::items::item_at;
use crate::reader::{Body, Reader};
use crate::walk::walk;
use record_format::{NumberedSet, NumberedSets, RecordFault};
use std::ops::Range;

impl<'a> Reader<'a> {
    /// Reads a record whole, whatever it holds.
    pub fn new(bytes: &'a [u8]) -> Reader<'a>
        ensures answer { read_from result ≡ bytes.now }
    {
        let verdict = walk(bytes);
        Reader { bytes, verdict }
    }

    /// How many items the record has, or why it does not read.
    pub fn count(&self) -> Result<usize, RecordFault>
        ensures answer { listed result ≡ check_answer (read_from self.now) }
    {
        self.verdict
    }

    /// Where the body of an item lies; none where there is no such item.
    fn span(&self, n: usize) -> Option<Range<usize>>
        ensures answer { option_map span_of result ≡ span_in (read_from self.now) n }
        ensures in_order { IfSome result (λ r. r.start ≤ r.end) }
    {
        let Ok(count) = self.verdict else {
            return None;
        };
        if n < 1 || n > count {
            return None;
        }
        let entry = entry_of(self.bytes, n);
        Some(entry.offset..entry.offset + entry.size)
    }

    /// The item of a number, counted from 1; none where there is no such item.
    // Inlined, as what it goes through is: else its write set is copied on the way to a loop over the items.
    #[inline(always)]
    pub fn item(&self, n: usize) -> Option<NumberedSet>
        ensures answer { option_map item_of result ≡ numbered (items_in (read_from self.now)) n }
    {
        let place = self.span(n)?;
        item_at(self.bytes, n, place.start)
    }

    /// The body of an item, as a part of the record with its place; none where there is no such item.
    pub fn body(&self, n: usize) -> Option<Body<'a>>
        ensures answer { option_map part_of result ≡ numbered (bodies_in (read_from self.now)) n }
        ensures part { PartOf (read_from self.now) result }
    {
        let span = self.span(n)?;
        Some(Body {
            at: span.start,
            bytes: &self.bytes[span],
        })
    }
}

// The items of a record that reads; none where it does not.
impl<'a> NumberedSets for Reader<'a> {
    ghost items = { λ r. items_in (read_from r) };

    fn count(&self) -> usize {
        self.verdict.unwrap_or(0)
    }

    #[inline(always)]
    fn item(&self, n: usize) -> Option<NumberedSet> {
        Reader::item(self, n)
    }
}
