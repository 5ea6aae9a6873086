ghost use Rattle.std.specs.Prelude.{◌≡◌, replicate, if◌then◌else◌, Some, None, nat_lt};
ghost use Rattle.std.specs.Simd.{first_chunks};
ghost use Rattle.tickets.specs.Boards.{value};
ghost use Rattle.tickets.specs.Meaning.{values};

use crate::board::Board;

impl Board {
    /// The board of all zeros.
    pub fn zero() -> Board
        ensures answer { values result ≡ replicate 128 0 }
    {
        Board { values: [0; 128] }
    }

    /// The value of an object; none where there is no such object.
    pub fn value(&self, object: usize) -> Option<u32>
        ensures answer { result ≡ (if nat_lt object 128 then Some (value (values self.now) object) else None) }
    {
        self.values.get(object).copied()
    }

    /// The tickets by number, from 0: the eight fields of each.
    pub fn tickets(&self) -> &[[u32; 8]]
        ensures answer { result.now ≡ first_chunks 8 16 (values self.now) }
    {
        let (tickets, _) = self.values.as_chunks();
        tickets
    }
}
