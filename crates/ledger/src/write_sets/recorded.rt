// The numbered write sets as the writer of a record asks for them.
ghost use Rattle.ledger.specs.Sets.{sets_of};
ghost use Rattle.ledger.specs.Records.{items_of_sets};

use crate::write_sets::WriteSets;
use record_format::{NumberedSet, NumberedSets};

impl NumberedSets for WriteSets {
    ghost items = { λ us. items_of_sets (sets_of us) };

    fn count(&self) -> usize {
        self.given.len()
    }

    #[tactic(auto, using(crate::proofs::Items::item_is, crate::proofs::Items::no_item))]
    fn item(&self, n: usize) -> Option<NumberedSet> {
        let x = self.given.get(n)?;
        Some(NumberedSet {
            home: x.home,
            s: x.s,
            set: x.set,
        })
    }
}
