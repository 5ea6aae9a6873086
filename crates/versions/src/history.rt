// The committed history of a board: the versions of every object, and how many commits made them.
ghost use Rattle.std.specs.Prelude.{ℕ, ◌*◌, ◌≤◌};
ghost use Rattle.versions.specs.Histories.{newest};
ghost use Rattle.versions.specs.Chained.{versions_of, size_of};

use crate::chains::Chains;

mod commits;
mod reads;

/// The most commits that write.
pub const MOST_COMMITS: u32 = 256;

// No version is from a commit to come.
#[derive(Drop)]
pub struct History {
    chains: Chains,
    commits: u32,
    ghost few: { commits ≤ 256 },
    ghost sized: { size_of chains ≤ 8 * commits },
    ghost past: { (j : ℕ) → newest (versions_of chains j) ≤ commits },
}
