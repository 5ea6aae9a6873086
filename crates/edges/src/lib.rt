// The edges of the rules, as theorems about the definitions that the calls' contracts cite.
#![tactic(auto)]

ghost use Rattle.edges.specs.Edges.{Edges, Longest};

use record_format::LONGEST;

/// Every edge holds, of every board and transaction that meets its premise.
pub fn edges_stand()
    ensures law { Edges }
{}

/// The bytes of the longest record: no run takes more, and one of 256 full write sets takes all of them.
pub fn longest_record() -> usize
    ensures law { Longest result }
{
    LONGEST
}
