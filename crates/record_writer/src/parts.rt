// The parts of a record, each laid behind the one before.
ghost use Rattle.std.specs.Prelude.{◌+◌, ◌*◌, ◌<◌, length};
ghost use Rattle.std.specs.List.{flat_map};
ghost use Rattle.tickets.specs.Meaning.{pairs};
ghost use Rattle.record_format.specs.Items.{Run};
ghost use Rattle.record_format.specs.Written.{pair_bytes, body, contents, bodies, first_body, encoded};
ghost use Rattle.record_format.specs.Meaning.{item_of};
ghost use Rattle.record_writer.specs.Pens.{HasRoom, SameBuffer, Puts};

use crate::pen::Pen;
use record_format::{
    COUNT_BYTES, ENTRY_BYTES, NumberedSet, NumberedSets, PAIR_BYTES, S_BYTES, in_order,
};
use tickets::WriteSet;

impl<'a> Pen<'a> {
    /// Writes the pairs of a write set.
    fn put_pairs(&mut self, set: &WriteSet)
        requires { HasRoom self.old (5 * length (pairs set.now)) }
        ensures same_buffer { SameBuffer self.old self.new }
        ensures bytes { Puts self.old (flat_map pair_bytes (pairs set.now)) self.new }
    {
        for pair in set.pairs() {
            let [a, b, c, d] = pair.value.to_be_bytes();
            self.put(&[pair.object as u8, a, b, c, d]);
        }
    }

    /// Writes a body: s, and the pairs.
    fn put_body(&mut self, set: &NumberedSet)
        requires { HasRoom self.old (length (body (item_of set.now))) }
        ensures same_buffer { SameBuffer self.old self.new }
        ensures bytes { Puts self.old (body (item_of set.now)) self.new }
    {
        self.put(&set.s.to_be_bytes());
        self.put_pairs(&set.set);
    }

    /// Writes the contents, an entry for each write set. Every offset fits its two bytes.
    fn put_contents<R: NumberedSets>(&mut self, run: &R)
        requires run_in_bounds { HasRoom self.old (4 * length (R.NumberedSets.items run.now)) }
        requires run_bound { first_body (length (R.NumberedSets.items run.now)) + length (bodies (R.NumberedSets.items run.now)) < 65536 }
        ensures same_buffer { SameBuffer self.old self.new }
        ensures bytes { Puts self.old (contents (first_body (length (R.NumberedSets.items run.now))) (R.NumberedSets.items run.now)) self.new }
    {
        let sets = in_order(run);
        let count = sets.len();
        let mut offset = COUNT_BYTES + ENTRY_BYTES * count;
        for set in sets {
            let pairs = set.set.len();
            let [high, low] = (offset as u16).to_be_bytes();
            self.put(&[set.home, pairs as u8, high, low]);
            offset += S_BYTES + PAIR_BYTES * pairs;
        }
    }

    /// Writes the bodies, in order and without gaps.
    fn put_bodies<R: NumberedSets>(&mut self, run: &R)
        requires { HasRoom self.old (length (bodies (R.NumberedSets.items run.now))) }
        ensures same_buffer { SameBuffer self.old self.new }
        ensures bytes { Puts self.old (bodies (R.NumberedSets.items run.now)) self.new }
    {
        for set in in_order(run) {
            self.put_body(&set);
        }
    }

    /// Writes the record of a run.
    pub(crate) fn put_record<R: NumberedSets>(&mut self, run: &R)
        requires run { Run (R.NumberedSets.items run.now) }
        requires run_in_bounds { HasRoom self.old (length (encoded (R.NumberedSets.items run.now))) }
        ensures same_buffer { SameBuffer self.old self.new }
        ensures bytes { Puts self.old (encoded (R.NumberedSets.items run.now)) self.new }
    {
        self.put(&(run.count() as u16).to_be_bytes());
        self.put_contents(run);
        self.put_bodies(run);
    }
}
