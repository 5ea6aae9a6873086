// The lines of a script, handed out one by one from its front.
ghost use Rattle.std.specs.Prelude.{◌≡◌, length};
ghost use Rattle.std.specs.List.{take_while};
ghost use Rattle.std.specs.Option.{option_map};
ghost use Rattle.lines.specs.Fronts.{inside};
ghost use Rattle.lines.specs.Scripts.{lines_of, lines_left, parted, HandsOut};
ghost use Rattle.std.specs.Iterator.{at_most};

const END_OF_LINE: u8 = b'\n';

#[derive(Clone, Copy, Debug)]
pub struct Lines<'a> {
    // the part of the script whose lines are still to come
    rest: &'a [u8],
}

/// How many bytes stand before the first end of line, or before the end of all.
fn line_length(script: &[u8]) -> usize
    ensures { result ≡ length (take_while inside script.now) }
{
    script.iter().take_while(|b| **b != END_OF_LINE).count()
}

/// The first line without its end, which the last may lack, and what comes behind.
fn part<'a>(script: &'a [u8]) -> Option<(&'a [u8], &'a [u8])>
    ensures answer { parted result ≡ lines_of script.now }
{
    if script.is_empty() {
        return None;
    }
    let (line, behind) = script.split_at(line_length(script));
    Some((line, behind.get(1..).unwrap_or(behind)))
}

impl<'a> Lines<'a> {
    /// All the lines of a script.
    pub fn new(script: &'a [u8]) -> Lines<'a>
        ensures answer { lines_left result ≡ lines_of script.now }
    {
        Lines { rest: script }
    }
}

// The lines in turn, each without its end; none past the last.
impl<'a> Iterator for Lines<'a> {
    type Item = &'a [u8];

    ghost next_gives = { λ s r t. HandsOut (lines_left s) (option_map (λ x. x.now) r) (lines_left t) };

    ghost remaining = { λ s. at_most (length (lines_left s)) };

    fn next(&mut self) -> Option<&'a [u8]> {
        let (line, rest) = part(self.rest)?;
        self.rest = rest;
        Some(line)
    }
}

/// How many lines a script has.
pub fn line_count(script: &[u8]) -> usize
    ensures answer { result ≡ length (lines_of script.now) }
{
    Lines::new(script).count()
}
