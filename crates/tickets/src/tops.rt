// The eight fields of a ticket, and the most that each takes.
ghost use Rattle.std.specs.Prelude.{◌≡◌};
ghost use Rattle.tickets.specs.Boards.{top};

const TOPS: [u32; 8] = [12, 9_999, 1_000_000, 64, 255, 31, 65_535, 4_294_967_295];

/// The most that an object takes: the top of its field.
pub fn top(object: usize) -> u32
    ensures answer { result ≡ top object }
{
    TOPS[object % 8]
}
