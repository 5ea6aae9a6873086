ghost use Rattle.std.specs.Prelude.{◌≡◌, true, false, replicate, slice_index_or, slice_set};
ghost use Rattle.ledger.specs.Sets.{marks};

use crate::applied::{Applied, REPLICAS};

impl Applied {
    /// Applied nowhere.
    pub fn nowhere() -> Applied
        ensures answer { marks result ≡ replicate 8 false }
    {
        Applied { at: [false; 8] }
    }

    /// Whether it is applied at a replica.
    pub fn has(&self, replica: u8) -> bool
        ensures answer { result ≡ slice_index_or (marks self.now) replica false }
    {
        self.at.get(usize::from(replica)).copied().unwrap_or(false)
    }

    /// Marks it as applied at a replica.
    pub(crate) fn mark(&mut self, replica: u8)
        ensures after { marks self.new ≡ slice_set (marks self.old) replica true }
    {
        // by its place: a `get_mut` of a slice does not say what the array becomes
        let place = usize::from(replica);
        if place < REPLICAS {
            self.at[place] = true;
        }
    }
}
