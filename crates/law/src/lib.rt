// The plain board, the middleware over a bank of stores, and the law of whole queues: definitions, and the theorems about them.
#![tactic(auto)]

ghost use Rattle.law.specs.Clashes.{ClashAgrees, ClashIsSharing};
ghost use Rattle.law.specs.Corollaries.{SnapshotIsolation, AbortsExactly, SameApplied, WholeReplica};
ghost use Rattle.law.specs.Promise.{PlainQueue, EveryQueue};
ghost use Rattle.law.specs.Refutations.{Scene, Refuted};
ghost use Rattle.law.specs.Sound.{EveryMaking, EveryOpening, EveryCall};

/// The middleware answers as the plain board does, and every queue keeps the law.
pub fn law_stands()
    ensures making { EveryMaking }
    ensures opening { EveryOpening }
    ensures calls { EveryCall }
    ensures queues { EveryQueue }
    ensures plain { PlainQueue }
{}

/// When two write sets clash, in the form of the plain board and in that of the law.
pub fn clashes_stand()
    ensures agrees { ClashAgrees }
    ensures sharing { ClashIsSharing }
{}

/// What follows from the law.
pub fn corollaries_stand()
    ensures isolation { SnapshotIsolation }
    ensures aborts { AbortsExactly }
    ensures same { SameApplied }
    ensures whole { WholeReplica }
{}

/// What the law shuts out.
pub fn refutations_stand()
    ensures scene { Scene }
    ensures refuted { Refuted }
{}
