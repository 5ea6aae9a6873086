// Two places on each kind of store write the same object: one commits, and the other is refused.
#![tactic(auto)]

use anyhow::anyhow;
use clients::{Entry, Order, run_race};
use copy_store::CopyStore;
use std::fmt;
use stores::{Store, StoreFault};
use tickets::{Pair, WriteSet};
use version_store::VersionStore;

const OBJECT: usize = 8;

// What a committer was answered.
#[derive(Clone, Copy)]
struct Verdict(Result<(), StoreFault>);

impl fmt::Display for Verdict {
    fn fmt<W: fmt::Write>(&self, f: &mut fmt::Formatter<W>) -> fmt::Result {
        match self.0 {
            Ok(_) => write!(f, "done"),
            Err(fault) => {
                let refusal = fault.number();
                write!(f, "refused with {refusal}")
            }
        }
    }
}

fn entry(place: usize, value: u32) -> anyhow::Result<Entry> {
    let pair = Pair {
        object: OBJECT,
        value,
    };
    let set = WriteSet::one(pair).ok_or_else(|| anyhow!("no such object"))?;
    Ok(Entry { place, set })
}

fn show<S: Store>(rt: &HostRuntime, name: &str, store: &mut S, order: Order) -> anyhow::Result<()> {
    let race = run_race(store, entry(0, 5)?, entry(1, 7)?, order).map_err(|_| anyhow!(
        "a place cannot be opened"
    ))?;
    let value = store.value(OBJECT).map_err(|_| anyhow!("no such object"))?;
    let commits = store.commits();
    let first = Verdict(race.first);
    let second = Verdict(race.second);
    println!(rt; "{name}: places 0 and 1 write 5 and 7 to object {OBJECT}")?;
    println!(rt; "{name}: the first to commit is {first}, the second is {second}")?;
    println!(rt; "{name}: object {OBJECT} is {value}, commits {commits}")?;
    Ok(())
}

fn main(rt: HostRuntime) -> anyhow::Result<()> {
    let mut versions = VersionStore::new(rt.alloc(), [0; 128])?;
    let mut copies = CopyStore::new([0; 128]);
    println!(rt; "place 0 commits first")?;
    show(&rt, "version store", &mut versions, Order::LeftFirst)?;
    show(&rt, "copy store", &mut copies, Order::LeftFirst)?;
    println!(rt; "place 1 commits first")?;
    show(&rt, "version store", &mut versions, Order::RightFirst)?;
    show(&rt, "copy store", &mut copies, Order::RightFirst)
}
