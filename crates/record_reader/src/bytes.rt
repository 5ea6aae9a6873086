// Numbers and pairs of a record, high byte first.
ghost use Rattle.std.specs.Prelude.{◌≡◌, ◌≤◌, length};
ghost use Rattle.std.specs.Option.{option_map};
ghost use Rattle.tickets.specs.Meaning.{pair_of};
ghost use Rattle.record_format.specs.Items.{topped};
ghost use Rattle.record_format.specs.Reading.{two_of, pair_in};

use record_format::PAIR_BYTES;
use tickets::{Pair, top};

/// The number that the first two bytes give.
pub(crate) fn two_of(bytes: &[u8]) -> u16
    requires { 2 ≤ length bytes.now }
    ensures answer { result ≡ two_of bytes.now }
{
    u16::from_be_bytes([bytes[0], bytes[1]])
}

/// The pair that the bytes give, unless its value is above its object's top.
pub(crate) fn pair_in(bytes: &[u8; PAIR_BYTES]) -> Option<Pair>
    ensures answer { option_map pair_of result ≡ topped (pair_in bytes.now) }
{
    let [object, a, b, c, d] = *bytes;
    let object = usize::from(object);
    let value = u32::from_be_bytes([a, b, c, d]);
    if value > top(object) {
        return None;
    }
    Some(Pair { object, value })
}
