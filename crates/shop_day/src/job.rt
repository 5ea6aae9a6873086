// A station's job on one ticket, done in a transaction that it holds. Every path ends the transaction.
ghost use Rattle.std.specs.Prelude.{◌≡◌, ◌+◌, ◌*◌};

use crate::trouble::Trouble;
use banks::Bank;
use held::{Held, Refused};
use ledger::Verdict;
use middleware::{BoardFault, Middleware};

// How often a job that clashes is begun again.
const TRIES: u8 = 3;

// The fields of a ticket, in their order.
#[derive(Clone, Copy)]
pub enum Field {
    Stage,
    Pages,
    Sheets,
    Plates,
    Fold,
    Press,
    Paper,
    Waste,
}

// The values that a station writes on a ticket.
#[derive(Clone, Copy)]
pub struct Job<'a> {
    pub station: u32,
    pub ticket: u8,
    pub changes: &'a [(Field, u32)],
}

/// The object of a ticket's field.
pub fn object(ticket: u8, field: u8) -> u32
    ensures answer { result ≡ ticket * 8 + field }
{
    u32::from(ticket) * 8 + u32::from(field)
}

// Writes the job's values; where one is refused, the transaction is given up.
fn fill<B: Bank>(board: &mut Middleware<B>, held: Held, job: &Job<'_>) -> Result<Held, BoardFault> {
    for (field, value) in job.changes {
        if let Err(fault) = held.write(board, object(job.ticket, *field as u8), *value) {
            let _ = held.give_up(board);
            return Err(fault);
        }
    }
    Ok(held)
}

// Begins the job and writes its values.
fn start<B: Bank>(board: &mut Middleware<B>, job: &Job<'_>) -> Result<Held, BoardFault> {
    let held = Held::begin(board, job.station)?;
    fill(board, held, job)
}

// Asks for the verdict; where that is refused, the transaction is given up.
// The `Err` arm spends the work that comes back before it hands the fault on, so this is no `map_err`.
fn finish<B: Bank>(board: &mut Middleware<B>, held: Held) -> Result<Verdict, BoardFault> {
    match held.commit(board) {
        Ok(verdict) => Ok(verdict),
        Err(Refused { back, fault }) => {
            let _ = back.give_up(board);
            Err(fault)
        }
    }
}

/// Does a job, to its verdict.
pub fn work<B: Bank>(board: &mut Middleware<B>, job: &Job<'_>) -> Result<Verdict, Trouble> {
    let held = start(board, job)?;
    Ok(finish(board, held)?)
}

/// Does two jobs at the same time; the first one asks first for its verdict.
pub fn work_both<B: Bank>(
    board: &mut Middleware<B>,
    first: &Job<'_>,
    second: &Job<'_>,
) -> Result<(Verdict, Verdict), Trouble> {
    let one = start(board, first)?;
    let other = match start(board, second) {
        Ok(other) => other,
        Err(fault) => {
            let _ = one.give_up(board);
            return Err(Trouble::Refused(fault));
        }
    };
    let one = finish(board, one);
    let other = finish(board, other);
    Ok((one?, other?))
}

/// Does a job that clashed again: its station catches up, and begins another transaction.
pub fn work_again<B: Bank>(board: &mut Middleware<B>, job: &Job<'_>) -> Result<Verdict, Trouble> {
    for _ in 0..TRIES {
        board.drain(job.station, u32::MAX)?;
        match work(board, job)? {
            Verdict::Clash(_) => {}
            verdict => return Ok(verdict),
        }
    }
    Err(Trouble::Clashing)
}
