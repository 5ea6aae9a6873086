// Reading a history: its count, its values now and after a commit, and what has been overtaken since.
ghost use Rattle.std.specs.Prelude.{◌≡◌};
ghost use Rattle.versions.specs.Writes.{own_of};
ghost use Rattle.versions.specs.Meaning.{history_of, value_in, clash_since};

use crate::history::History;
use crate::own_writes::OwnWrites;

impl History {
    /// How many commits wrote.
    pub fn commits(&self) -> u32
        ensures answer { result ≡ (history_of self.now).commits }
    {
        self.commits
    }

    /// The current value of an object; none where there is no such object.
    pub fn value(&self, object: usize) -> Option<u32>
        ensures answer { result ≡ value_in (history_of self.now) (history_of self.now).commits object }
    {
        self.chains.value(object)
    }

    /// The value of an object after the commit of this count; none where there is no such object.
    pub fn value_at(&self, object: usize, count: u32) -> Option<u32>
        ensures answer { result ≡ value_in (history_of self.now) count object }
    {
        self.chains.seen(object, count)
    }

    /// Whether a commit after this count wrote an object of these writes.
    pub fn overtakes(&self, own: &OwnWrites, count: u32) -> bool
        ensures answer { result ≡ clash_since (history_of self.now) count (own_of own.now) }
    {
        own.pairs()
            .iter()
            .any(|pair| self.chains.commit(pair.object) > count)
    }
}
