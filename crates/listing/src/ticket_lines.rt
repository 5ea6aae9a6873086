// The lines of tickets.
ghost use Rattle.std.specs.Prelude.{◌≡◌, ◌++◌, string_bytes, OnOk};
ghost use Rattle.tickets.specs.Meaning.{values};
ghost use Rattle.listing.specs.Listing.{ticket_text, tickets_text};

use crate::ticket::Ticket;
use std::alloc::AllocError;
use tickets::Board;

fn put_ticket(text: &mut String, n: usize, ticket: Ticket) -> Result<(), AllocError>
    ensures bytes { OnOk result (string_bytes text.new ≡ string_bytes text.old ++ ticket_text n ticket) }
{
    writeln!(text, "ticket {n}: {ticket}")
}

/// Adds a line for each ticket that is other than empty.
pub(crate) fn put_tickets(text: &mut String, board: &Board) -> Result<(), AllocError>
    ensures bytes { OnOk result (string_bytes text.new ≡ string_bytes text.old ++ tickets_text (values board.now) 0 16) }
{
    for (n, fields) in board.tickets().iter().enumerate() {
        if fields.iter().any(|value| *value != 0) {
            put_ticket(text, n, Ticket::from(*fields))?;
        }
    }
    Ok(())
}
