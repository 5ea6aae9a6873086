// Numbered write sets, however they are kept: what the writer of a record asks of them.
ghost use Rattle.std.specs.Prelude.{◌≡◌, List, length};
ghost use Rattle.std.specs.Option.{option_map};
ghost use Rattle.record_format.specs.Items.{Item};
ghost use Rattle.record_format.specs.Reading.{numbered};
ghost use Rattle.record_format.specs.Meaning.{item_of, items_of};

use crate::numbered_set::NumberedSet;

pub trait NumberedSets {
    ghost items: { Self → List Item };

    /// How many there are.
    fn count(&self) -> usize
        ensures answer { result ≡ length (items self.now) };

    /// The write set of a number, counted from 1; none where there is no such number.
    fn item(&self, n: usize) -> Option<NumberedSet>
        ensures answer { option_map item_of result ≡ numbered (items self.now) n };
}

impl NumberedSets for &[NumberedSet] {
    ghost items = { λ sets. items_of sets.now };

    fn count(&self) -> usize {
        self.len()
    }

    #[tactic(auto, using(crate::proofs::Numbering::got_by_number))]
    fn item(&self, n: usize) -> Option<NumberedSet> {
        self.get(n.checked_sub(1)?).copied()
    }
}
