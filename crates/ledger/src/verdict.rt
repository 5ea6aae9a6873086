// What a commit comes to: nothing was written; the write set got a number; or an earlier number stands in its way.
use std::fmt;

#[derive(Clone, Copy, PartialEq, Eq, Debug)]
pub enum Verdict {
    ReadOnly,
    Numbered(u16),
    Clash(u16),
}

impl fmt::Display for Verdict {
    ghost use Rattle.std.specs.Prelude.{Some};
    ghost use Rattle.ledger.specs.Verdicts.{verdict_text};

    ghost output = { λ v. Some (verdict_text v) };

    fn fmt<W: fmt::Write>(&self, f: &mut fmt::Formatter<W>) -> fmt::Result {
        match self {
            Verdict::ReadOnly => write!(f, "nothing written"),
            Verdict::Numbered(n) => write!(f, "number {n}"),
            Verdict::Clash(n) => write!(f, "clashes with number {n}"),
        }
    }
}
