// Decimal numbers of 32 bits.
ghost use Rattle.std.specs.Prelude.{◌≡◌};
ghost use Rattle.lines.specs.Numerals.{numeral};

// The most digits of a number of 32 bits. The value of so many fits 64 bits, whatever they are.
const MOST_DIGITS: usize = 10;

/// The number that the bytes spell: decimal, of 32 bits, without leading zeros.
pub(crate) fn number(bytes: &[u8]) -> Option<u32>
    ensures answer { result ≡ numeral bytes.now }
{
    if bytes.is_empty() || bytes.len() > MOST_DIGITS {
        return None;
    }
    if bytes.len() > 1 && bytes[0] == b'0' {
        return None;
    }
    // digit by digit, and not by `parse`: that wants a text, goes over its digits twice and tests each sum, so that a line
    // takes twice the time
    let mut value = 0u64;
    for b in bytes {
        value = value * 10 + u64::from(char::from(*b).to_digit(10)?);
    }
    u32::try_from(value).ok()
}
