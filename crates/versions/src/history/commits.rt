// Making a history, and committing own writes to it.
ghost use Rattle.std.specs.Prelude.{◌≡◌, ◌+◌, ◌≤◌, true, length, IfOk};
ghost use Rattle.versions.specs.Pairs.{own_in, each_once};
ghost use Rattle.versions.specs.Writes.{own_of};
ghost use Rattle.versions.specs.Histories.{started, after_commit};
ghost use Rattle.versions.specs.Chained.{versions_of, size_of};
ghost use Rattle.versions.specs.Meaning.{history_of, land_answer, land_after};

use crate::chains::Chains;
use crate::history::{History, MOST_COMMITS};
use crate::own_writes::OwnWrites;
use std::alloc::{AllocError, Global};
use stores::StoreFault;
use tickets::Pair;

impl History {
    /// A history of no commits, from these values; all memory is reserved here.
    pub fn new(heap: Global, values: [u32; 128]) -> Result<History, AllocError>
        ensures answer { IfOk result (λ h. history_of h ≡ record { commits = 0; versions = started values }) }
    {
        let chains = Chains::new(heap, values)?;
        Ok(History { chains, commits: 0 })
    }

    /// Makes these writes the next commit, where there is room for one more.
    pub fn land(&mut self, own: &OwnWrites) -> Result<(), StoreFault>
        ensures answer { result ≡ land_answer (history_of self.old) }
        ensures after { history_of self.new ≡ land_after (history_of self.old) (own_of own.now) }
    {
        if self.commits == MOST_COMMITS {
            return Err(StoreFault::Full);
        }
        let commit = self.commits + 1;
        add_all(&mut self.chains, own.pairs(), commit);
        self.commits = commit;
        Ok(())
    }
}

// Adds a version for each pair.
fn add_all(chains: &mut Chains, pairs: &[Pair], commit: u32)
    requires { (each_once pairs.now ≡ true) × (size_of chains.old + length pairs.now ≤ 2048) }
    ensures versions { versions_of chains.new ≡ after_commit (versions_of chains.old) commit (own_in pairs.now) }
    ensures size { size_of chains.new ≡ size_of chains.old + length pairs.now }
{
    for pair in pairs {
        chains.add(pair.object, commit, pair.value);
    }
}
