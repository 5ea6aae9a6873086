// How long a script may be.
ghost use Rattle.std.specs.Prelude.{◌≡◌};
ghost use Rattle.lines.specs.Scripts.{within_limits};

use crate::lines::line_count;

pub const SCRIPT_BYTES: usize = 16_384;

pub const SCRIPT_LINES: usize = 1_024;

/// Whether a script is short enough to be run.
pub fn fits(script: &[u8]) -> bool
    ensures answer { result ≡ within_limits script.now }
{
    script.len() <= SCRIPT_BYTES && line_count(script) <= SCRIPT_LINES
}
