// Following the links.
ghost use Rattle.std.specs.Iterator.{YieldsFirstRef, at_most};
ghost use Rattle.versions.specs.Links.{height};
ghost use Rattle.versions.specs.Chained.{versions_left};

use crate::version::Version;
use crate::walk::Walk;

// The versions in turn; none past the oldest.
impl<'a> Iterator for Walk<'a> {
    type Item = &'a Version;

    ghost next_gives = { YieldsFirstRef versions_left };

    ghost remaining = { λ s. at_most (height s.next) };

    fn next(&mut self) -> Option<&'a Version> {
        let version = self.pool.get(usize::from(self.next?))?;
        self.next = version.older;
        Some(version)
    }
}
