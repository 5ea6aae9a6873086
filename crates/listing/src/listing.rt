// The listing of a whole record.
ghost use Rattle.std.specs.Prelude.{◌≡◌, ◌++◌, string_bytes, OnOk};
ghost use Rattle.tickets.specs.Meaning.{values};
ghost use Rattle.record_format.specs.Reading.{decoded, items_in};
ghost use Rattle.record_format.specs.Calls.{MadeOf};
ghost use Rattle.listing.specs.Listing.{items_text, tickets_text, ListingOf};

use crate::items::put_items;
use crate::ticket_lines::put_tickets;
use record::{Reader, RecordFault, play};
use std::alloc::{AllocError, Global};
use tickets::Board;

fn put_lines(text: &mut String, bytes: &[u8], board: &Board) -> Result<(), AllocError>
    ensures bytes { OnOk result (string_bytes text.new ≡ string_bytes text.old ++ (items_text 1 (items_in bytes.now) ++ tickets_text (values board.now) 0 16)) }
{
    let reader = Reader::new(bytes);
    put_items(text, &reader)?;
    put_tickets(text, board)
}

/// A line for each write set of the record, and then one for each ticket that the run left other than empty.
pub fn list(heap: Global, bytes: &[u8]) -> Result<String, RecordFault>
    ensures answer { MadeOf ListingOf (decoded bytes.now) result }
{
    let mut board = Board::zero();
    play(bytes, &mut board)?;
    let mut text = String::new(heap);
    put_lines(&mut text, bytes, &board)?;
    Ok(text)
}
