// A record that was read whole, and what the reading found.
ghost use Rattle.std.specs.Prelude.{◌≡◌, ℕ, ◌<◌, slice_index};
ghost use Rattle.record_format.specs.Reading.{decoded, count_of};
ghost use Rattle.record_format.specs.Calls.{verdict_of};

use record_format::RecordFault;

mod methods;

#[derive(Clone, Copy)]
pub struct Reader<'a> {
    bytes: &'a [u8],
    verdict: Result<usize, RecordFault>,
    ghost small: { (i : ℕ) → slice_index bytes.now i < 256 },
    ghost found: { verdict ≡ verdict_of (count_of (decoded bytes.now)) },
}

// A body as a part of its record, with its place there.
#[derive(Clone, Copy, Debug)]
pub struct Body<'a> {
    pub bytes: &'a [u8],
    pub at: usize,
}
