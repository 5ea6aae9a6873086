// What the day prints: verdicts, and tickets as a station has them.
use crate::job::object;
use crate::trouble::Trouble;
use banks::Bank;
use ledger::Verdict;
use middleware::Middleware;

/// A line for a station's verdict.
pub fn show_verdict(rt: &HostRuntime, station: u32, verdict: Verdict) -> anyhow::Result<()> {
    println!(rt; "station {station}: {verdict}")?;
    Ok(())
}

// The fields of a ticket, as a station's own store has them.
fn fields<B: Bank>(board: &Middleware<B>, station: u32, ticket: u8) -> Result<[u32; 8], Trouble> {
    let mut values = [0; 8];
    for (field, value) in (0..8u8).zip(values.iter_mut()) {
        *value = board.value(station, object(ticket, field))?;
    }
    Ok(values)
}

/// A line for a ticket at a station.
pub fn show_ticket<B: Bank>(
    rt: &HostRuntime,
    board: &Middleware<B>,
    station: u32,
    ticket: u8,
) -> anyhow::Result<()> {
    let [stage, pages, sheets, plates, fold, press, paper, waste] = fields(board, station, ticket)?;
    println!(rt;
        "ticket {ticket} at station {station}: stage {stage}, pages {pages}, sheets {sheets}, plates {plates}, fold {fold}, press {press}, paper {paper}, waste {waste}"
    )?;
    Ok(())
}
