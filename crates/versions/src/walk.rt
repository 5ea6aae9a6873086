// The versions of an object in turn, from its newest back, as the links lead through the pool.
ghost use Rattle.std.specs.Prelude.{◌≡◌, true, reverse};
ghost use Rattle.versions.specs.Links.{falling};

use crate::version::Version;

mod steps;

// Every link leads to a version that came into the pool before, so each walk ends.
#[derive(Clone, Copy)]
pub struct Walk<'a> {
    pub pool: &'a [Version],
    pub next: Option<u16>,
    ghost falls: { falling (reverse pool.now) ≡ true },
}
