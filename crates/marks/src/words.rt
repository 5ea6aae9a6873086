// Marks in however many words of 64 bits: the mark of object j is bit j mod 64, from the lowest, of word j div 64.
// Below 2^26 words a count of 32 bits holds every mark.
ghost use Rattle.std.specs.Prelude.{◌≡◌, ◌-◌, ◌*◌, ◌^◌, ◌<◌, length};
ghost use Rattle.marks.specs.Marked.{marked_in, with_mark, either, both, count_below, any_below, bit, lowest_from, Lowest};

const BITS: usize = 64;

/// Whether an object is marked.
pub(crate) fn has(words: &[u64], object: usize) -> bool
    ensures answer { result ≡ marked_in words.now object }
{
    words
        .get(object / BITS)
        .is_some_and(|word| *word >> (object % BITS) & 1 == 1)
}

/// Marks an object, or takes its mark off.
pub(crate) fn put(words: &mut [u64], object: usize, on: bool)
    ensures after { marked_in words.new ≡ with_mark (64 * length words.old) object on (marked_in words.old) }
{
    let word = object / BITS;
    let bit = 1 << (object % BITS);
    // by its index: behind a `get_mut` the proof knows none of the words
    if word < words.len() {
        words[word] = if on {
            words[word] | bit
        } else {
            words[word] & !bit
        };
    }
}

/// How many objects are marked.
pub(crate) fn count(words: &[u64]) -> u32
    requires { length words.now < 2 ^ 26 }
    ensures answer { result ≡ count_below (marked_in words.now) (64 * length words.now) }
{
    words.iter().map(|word| marks_in(*word)).sum()
}

/// The lowest marked object from an object on.
pub(crate) fn lowest_from(words: &[u64], object: usize) -> Option<usize>
    requires { length words.now < 2 ^ 26 }
    ensures answer { result ≡ lowest_from (marked_in words.now) object (64 * length words.now - object) }
    ensures lowest { Lowest (marked_in words.now) object result }
{
    // by their numbers: the walk begins at the object's word in one step, where `skip` would go through those before it
    for i in object / BITS..words.len() {
        // the bits of this word that lie before the object are cut off
        let from = object.max(i * BITS);
        let rest = words[i] >> (from % BITS);
        if rest != 0 {
            return Some(from + rest.trailing_zeros() as usize);
        }
    }
    None
}

/// Marks every object that is marked in the other words.
pub(crate) fn join(words: &mut [u64], other: &[u64])
    requires { length words.old ≡ length other.now }
    ensures after { marked_in words.new ≡ either (marked_in words.old) (marked_in other.now) }
{
    // with an index: where `iter_mut` is zipped, the proof knows none of the words behind the loop
    for (i, word) in words.iter_mut().enumerate() {
        *word |= other[i];
    }
}

/// Whether some object is marked in both.
pub(crate) fn meet(words: &[u64], other: &[u64]) -> bool
    requires { length words.now ≡ length other.now }
    ensures answer { result ≡ any_below (both (marked_in words.now) (marked_in other.now)) (64 * length words.now) }
{
    words
        .iter()
        .zip(other)
        .any(|(word, more)| share(*word, *more))
}

// How many objects a word marks.
fn marks_in(word: u64) -> u32
    ensures { result ≡ count_below (bit word) 64 }
{
    word.count_ones()
}

// Whether two words mark an object both.
fn share(word: u64, other: u64) -> bool
    ensures { result ≡ any_below (both (bit word) (bit other)) 64 }
{
    word & other != 0
}
