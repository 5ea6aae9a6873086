// The middleware's machine over its stores is the plain board: the theorems that the public calls lean on.
#![tactic(auto)]

ghost use Rattle.refinement.specs.Places.{EveryPlace};
ghost use Rattle.refinement.specs.Promise.{EveryQueue, OwnBoards};
ghost use Rattle.refinement.specs.Refusals.{EveryOpeningStays, EveryRefusalStays};
ghost use Rattle.refinement.specs.Sound.{EveryMaking, EveryOpening, EveryCall, NoStoreFault};
ghost use Rattle.refinement.specs.Tops.{EveryOpeningWithin, EveryCallWithin};

/// A machine just made is sound. Opening a sound machine, and every call of it, opened or not, gives the plain board's answer,
/// the plain board after it, and a sound machine again. None meets a store's fault. The place that a transaction gets was not open.
pub fn every_call_follows()
    ensures making { EveryMaking }
    ensures opening { EveryOpening }
    ensures calls { EveryCall }
    ensures faults { NoStoreFault }
    ensures places { EveryPlace }
{}

/// A refused call leaves the machine, and what its stores mean, as they were: the opening of any machine, every call of a sound one,
/// and every call of any machine unless a store's fault is the answer.
pub fn every_refusal_stays()
    ensures opening { EveryOpeningStays }
    ensures calls { EveryRefusalStays }
{}

/// What a plain board holds, own writes and numbered write sets, stays within the tops of its objects.
pub fn every_top_is_kept()
    ensures opening { EveryOpeningWithin }
    ensures calls { EveryCallWithin }
{}

/// A whole run keeps the law, and the copies that it speaks of are the stores' own boards.
pub fn every_queue_is_promised()
    ensures queues { EveryQueue }
    ensures boards { OwnBoards }
{}
