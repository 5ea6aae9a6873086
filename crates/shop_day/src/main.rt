// A day in a shop: stations change tickets through transactions that they hold; the tickets touched are printed from every station.
#![tactic(auto)]

use anyhow::anyhow;
use banks::Bank;
use job::{Field, Job, work, work_again, work_both};
use ledger::Verdict;
use middleware::Middleware;
use shop::empty_bank;
use show::{show_ticket, show_verdict};
use trouble::Trouble;

mod job;
mod show;
mod trouble;

const STATIONS: u32 = 4;

const TOUCHED: [u8; 2] = [2, 9];

// The desk takes an order down.
const ORDER: Job<'static> = Job {
    station: 0,
    ticket: 2,
    changes: &[
        (Field::Stage, 1),
        (Field::Pages, 64),
        (Field::Sheets, 5_000),
        (Field::Paper, 130),
    ],
};

// Plates are burnt for another one.
const PLATES: Job<'static> = Job {
    station: 1,
    ticket: 9,
    changes: &[(Field::Stage, 3), (Field::Plates, 4)],
};

// The order is printed.
const PRINTED: Job<'static> = Job {
    station: 2,
    ticket: 2,
    changes: &[(Field::Stage, 5), (Field::Press, 3), (Field::Waste, 120)],
};

// The order is folded.
const FOLDED: Job<'static> = Job {
    station: 3,
    ticket: 2,
    changes: &[(Field::Fold, 16), (Field::Stage, 6)],
};

// A slip of the hand: there are twelve stages.
const SLIP: Job<'static> = Job {
    station: 1,
    ticket: 9,
    changes: &[(Field::Plates, 5), (Field::Stage, 13)],
};

fn drain_all<B: Bank>(board: &mut Middleware<B>) -> Result<(), Trouble> {
    for station in 0..STATIONS {
        board.drain(station, u32::MAX)?;
    }
    Ok(())
}

// Shows the verdict of a job, and does it again where it clashed.
fn settle<B: Bank>(
    rt: &HostRuntime,
    board: &mut Middleware<B>,
    job: &Job<'_>,
    verdict: Verdict,
) -> anyhow::Result<()> {
    show_verdict(rt, job.station, verdict)?;
    if let Verdict::Clash(_) = verdict {
        let verdict = work_again(board, job)?;
        show_verdict(rt, job.station, verdict)?;
    }
    Ok(())
}

// Two jobs at the same time.
fn meet<B: Bank>(
    rt: &HostRuntime,
    board: &mut Middleware<B>,
    first: &Job<'_>,
    second: &Job<'_>,
) -> anyhow::Result<()> {
    let (one, other) = work_both(board, first, second)?;
    settle(rt, board, first, one)?;
    settle(rt, board, second, other)
}

// A job alone, which may be refused.
fn attempt<B: Bank>(
    rt: &HostRuntime,
    board: &mut Middleware<B>,
    job: &Job<'_>,
) -> anyhow::Result<()> {
    match work(board, job) {
        Ok(verdict) => settle(rt, board, job, verdict),
        Err(trouble) => {
            let station = job.station;
            println!(rt; "station {station}: {trouble}")?;
            Ok(())
        }
    }
}

fn show_all<B: Bank>(rt: &HostRuntime, board: &Middleware<B>) -> anyhow::Result<()> {
    for ticket in TOUCHED {
        for station in 0..STATIONS {
            show_ticket(rt, board, station, ticket)?;
        }
    }
    Ok(())
}

fn day<B: Bank>(rt: &HostRuntime, board: &mut Middleware<B>) -> anyhow::Result<()> {
    meet(rt, board, &ORDER, &PLATES)?;
    drain_all(board)?;
    meet(rt, board, &PRINTED, &FOLDED)?;
    attempt(rt, board, &SLIP)?;
    drain_all(board)?;
    show_all(rt, board)
}

fn main(rt: HostRuntime) -> anyhow::Result<()> {
    let heap = rt.alloc();
    // no `map_err`: with the moves of a whole bank that it adds, LLVM takes many minutes
    let Ok(mut board) = Middleware::new(heap, empty_bank(heap)?) else {
        return Err(anyhow!("no memory"));
    };
    board.open().map_err(Trouble::from)?;
    day(&rt, &mut board)
}
