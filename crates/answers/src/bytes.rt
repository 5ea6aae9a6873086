// Bytes written into a lent buffer so that they end at a place: the parts of an answer go in from its last to its first, as
// the digits of a number come. The callers have seen that there is room.
ghost use Rattle.std.specs.Prelude.{◌≡◌, ◌+◌, ◌≤◌, ◌++◌, length, decimal};
ghost use Rattle.answers.specs.Buffers.{Wrote};

/// How many decimal digits a number has.
pub(crate) fn digits(n: u32) -> usize
    ensures answer { result ≡ length (decimal n) }
    ensures most { result ≤ 10 }
{
    if n < 10 {
        return 1;
    }
    digits(n / 10) + 1
}

/// Writes the bytes so that they end at a place, and answers where they begin.
pub(crate) fn put(buf: &mut [u8], end: usize, bytes: &[u8]) -> usize
    requires room { length bytes.now ≤ end }
    requires within { end ≤ length buf.old }
    ensures bytes { Wrote buf.old result bytes.now buf.new end }
{
    let at = end - bytes.len();
    buf[at..end].copy_from_slice(bytes);
    at
}

/// Writes the number's decimal digits so that they end at a place, and answers where they begin.
pub(crate) fn put_decimal(buf: &mut [u8], end: usize, n: u32) -> usize
    requires room { length (decimal n) ≤ end }
    requires within { end ≤ length buf.old }
    ensures bytes { Wrote buf.old result (decimal n) buf.new end }
{
    let last = end - 1;
    if n < 10 {
        buf[last] = b'0' + n as u8;
        return last;
    }
    buf[last] = b'0' + (n % 10) as u8;
    put_decimal(buf, last, n / 10)
}

/// Writes a word and then a number, so that they end at a place, and answers where they begin.
// Inlined, so that the length of the word is known where it is copied: without that the copy is a call of `memmove`.
#[inline(always)]
pub(crate) fn put_numbered(buf: &mut [u8], end: usize, word: &[u8], n: u32) -> usize
    requires room { length word.now + length (decimal n) ≤ end }
    requires within { end ≤ length buf.old }
    ensures bytes { Wrote buf.old result (word.now ++ decimal n) buf.new end }
{
    let middle = put_decimal(buf, end, n);
    put(buf, middle, word)
}
