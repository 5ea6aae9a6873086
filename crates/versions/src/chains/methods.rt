// Reading a chain, and putting a version in front of it.
ghost use Rattle.std.specs.Prelude.{◌≡◌, ◌+◌, ◌<◌, cond, Some, None, IfOk, nat_lt};
ghost use Rattle.versions.specs.Histories.{started, seen, current, newest, with_version};
ghost use Rattle.versions.specs.Chained.{versions_of, size_of, linked_from, versions_left};

use crate::chains::{Chains, MOST_VERSIONS};
use crate::version::Version;
use crate::walk::Walk;
use std::alloc::{AllocError, Global};

impl Chains {
    pub fn new(heap: Global, start: [u32; 128]) -> Result<Chains, AllocError>
        ensures { IfOk result (λ s. (versions_of s ≡ started start) × (size_of s ≡ 0)) }
    {
        let pool = Vec::with_capacity(heap, MOST_VERSIONS)?;
        Ok(Chains {
            start,
            newest: [None; 128],
            pool,
        })
    }

    // The versions of an object that came from commits, from the newest back.
    pub fn versions(&self, object: usize) -> Walk<'_>
        ensures { versions_left result ≡ linked_from self.now object }
    {
        Walk {
            pool: &self.pool,
            next: self.newest.get(object).copied().flatten(),
        }
    }

    // The commit that the value of an object came from; 0 before the first.
    pub fn commit(&self, object: usize) -> u32
        ensures { result ≡ newest (versions_of self.now object) }
    {
        self.versions(object)
            .next()
            .map_or(0, |version| version.commit)
    }

    // The value of an object; none where there is no such object.
    pub fn value(&self, object: usize) -> Option<u32>
        ensures { result ≡ cond (nat_lt object 128) (Some (current (versions_of self.now object))) None }
    {
        let start = self.start.get(object)?;
        Some(
            self.versions(object)
                .next()
                .map_or(*start, |version| version.value),
        )
    }

    // The value of the newest version that came from the commit of this count or from one before it; none where there is no such object.
    pub fn seen(&self, object: usize, count: u32) -> Option<u32>
        ensures { result ≡ cond (nat_lt object 128) (Some (seen (versions_of self.now object) count)) None }
    {
        let start = self.start.get(object)?;
        Some(
            self.versions(object)
                .find(|version| version.commit <= count)
                .map_or(*start, |version| version.value),
        )
    }

    // Puts a version in front of an object's chain.
    pub fn add(&mut self, object: usize, commit: u32, value: u32)
        requires { (object < 128) × (size_of self.old < 2048) }
        ensures versions { versions_of self.new ≡ with_version (versions_of self.old) object commit value }
        ensures size { size_of self.new ≡ size_of self.old + 1 }
    {
        let older = self.newest[object];
        self.newest[object] = Some(self.pool.len() as u16);
        self.pool.push_reserved(Version {
            commit,
            value,
            older,
        });
    }
}
