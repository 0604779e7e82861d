//! The theorem, sentence by sentence of `specs/Theorem.antt` of `ww_model`: every ring of waits has a condemned member,
//! no EDEADLK is spurious, the oldest never backs off, nobody is stuck for good, and nobody is interrupted but
//! by a cancel.

ghost use Rattle.ww_model.specs.Theorem.{RingsAreCondemned, CyclesAreCondemned, CyclesAreOfContexts, ReachedIsLawful, DeadlkWasMet, OldestNeverDies, OldestCanTake, OldestCanJoinAndTake, CanBeEmptied, CancelsAreCounted, RingsAreReached, EventsHappen};

/// Every ring of a reached state has a condemned member, whichever the kind.
#[tactic(auto, using(ww_model::proofs::Rings::rings_are_condemned))]
pub fn rings_are_condemned()
    ensures { RingsAreCondemned }
{}

/// Every cycle of waits of a lawful state, in which a seat may come more than once, has a condemned member.
#[tactic(auto, using(ww_model::proofs::Rings::cycles_are_condemned))]
pub fn cycles_are_condemned()
    ensures { CyclesAreCondemned }
{}

/// No seat without a context stands in a cycle of waits of a lawful state.
#[tactic(auto, using(ww_model::proofs::Rings::cycles_are_of_contexts))]
pub fn cycles_are_of_contexts()
    ensures { CyclesAreOfContexts }
{}

/// Every reached state is lawful.
pub fn reached_is_lawful()
    ensures { ReachedIsLawful }
{}

/// Each seat that gets EDEADLK dies, owns a lock, and met the older context whose stamp it gets.
#[tactic(auto, using(ww_model::proofs::Meetings::deadlk_was_met))]
pub fn deadlk_was_met()
    ensures { DeadlkWasMet }
{}

/// The oldest context of all, if in Wound-Wait it has no sign, is never signed and never told to back off, until it
/// ends. It may be interrupted.
pub fn oldest_never_dies()
    ensures { OldestNeverDies }
{}

/// Wherever the oldest context waits and has heeded no cancel, some run leads to it owning the lock in which nobody
/// begins anything new, and in which it neither dies nor is interrupted nor releases anything: the seats in its way
/// can be made to give way, and it never has to.
#[tactic(auto, using(crate::proofs::Taking::oldest_can_take))]
pub fn oldest_can_take()
    ensures { OldestCanTake }
{}

/// The same where the oldest context waits nowhere and wants a lock of another, with one Join, its own.
#[tactic(auto, using(crate::proofs::Joining::oldest_can_join_and_take))]
pub fn oldest_can_join_and_take()
    ensures { OldestCanJoinAndTake }
{}

/// From every reached state some run in which nobody begins anything new leads to one in which everything is free: a
/// way out exists.
#[tactic(auto, using(crate::proofs::Emptying::can_be_emptied))]
pub fn can_be_emptied()
    ensures { CanBeEmptied }
{}

/// In each run, each cancel that one seat set for another, or for itself, was answered by one interruption that names
/// it, is pending, or is heeded and not yet answered.
#[tactic(auto, using(ww_model::proofs::Counts::cancels_are_counted))]
pub fn cancels_are_counted()
    ensures { CancelsAreCounted }
{}

/// In each kind a state with a ring is reached.
#[tactic(auto, using(crate::proofs::Reaching::rings_are_reached))]
pub fn rings_are_reached()
    ensures { RingsAreReached }
{}

/// In each kind each of the seventeen events is possible in some reached state.
pub fn events_happen()
    ensures { EventsHappen }
{}
