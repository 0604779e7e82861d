//! Laws of views: each function's contract is one.

ghost use Rattle.ww_view.specs.Laws.{OthersKnow, QuietIsLeftAlone, ActorKnows, FoundIsKnown, KnowsAtStart, RestsAsAtStart, ShownIsPossible, ExitIsPossible, ViewDecides, SignIsTold, DeathIsShown, DeathIsNoted, NoOtherIsNoted, InterruptionIsNoted, NoOtherIsStopped, ShownDeathWasMet, WordsAreWritten, WordsAreTold, WordsAreValid};

/// What a seat knows stays, whatever the others do.
pub fn others_know()
    ensures { OthersKnow }
{}

/// Nobody else signs a seat whose view is quiet.
#[tactic(auto, using(crate::proofs::Others::quiet_is_left_alone))]
pub fn quiet_is_left_alone()
    ensures { QuietIsLeftAlone }
{}

/// After its own event a seat knows what that event makes of its view.
#[tactic(auto, using(crate::proofs::Events::actor_knows))]
pub fn actor_knows()
    ensures { ActorKnows }
{}

/// What a seat finds by a step that is no event, it knows.
pub fn found_is_known()
    ensures { FoundIsKnown }
{}

/// At the start each seat knows what its first view says.
#[tactic(auto, using(crate::proofs::Starts::knows_start))]
pub fn knows_at_start()
    ensures { KnowsAtStart }
{}

/// A seat that rests knows no more and no less than at the start, whatever it did before.
#[tactic(auto, using(crate::proofs::Starts::rests))]
pub fn rests_as_at_start()
    ensures { RestsAsAtStart }
{}

/// The event that a seat's view shows, with what the seat finds, is possible.
#[tactic(auto, using(crate::proofs::Events::shown_is_possible))]
pub fn shown_is_possible()
    ensures { ShownIsPossible }
{}

/// A seat whose view shows that it may leave the guard may leave it.
pub fn exit_is_possible()
    ensures { ExitIsPossible }
{}

/// Which waiter must die and which seats to sign is the same by the view as by the core.
pub fn view_decides()
    ensures { ViewDecides }
{}

/// The stamp that the view has for a sign is the one that is given.
pub fn sign_is_told()
    ensures { SignIsTold }
{}

/// The view of a seat that has to die shows the older context that it met.
pub fn death_is_shown()
    ensures { DeathIsShown }
{}

/// Its view names the lock and the stamp of the older context, once it has died.
#[tactic(auto, using(crate::proofs::Deaths::die_notes))]
pub fn death_is_noted()
    ensures { DeathIsNoted }
{}

/// No other event makes a view name one.
#[tactic(auto, using(crate::proofs::Deaths::others_note_none))]
pub fn no_other_is_noted()
    ensures { NoOtherIsNoted }
{}

/// The view of a seat that was interrupted names the lock, and the seat whose cancel it had heeded, beside all that it
/// named.
#[tactic(auto, using(crate::proofs::Interruptions::stop_notes))]
pub fn interruption_is_noted()
    ensures { InterruptionIsNoted }
{}

/// No other event changes which interruptions a view names.
#[tactic(auto, using(crate::proofs::Interruptions::others_stop_none))]
pub fn no_other_is_stopped()
    ensures { NoOtherIsStopped }
{}

/// A seat that has to die by its view met that context in the run.
pub fn shown_death_was_met()
    ensures { ShownDeathWasMet }
{}

/// Each event writes to the owner words what the definition says, and nothing else changes there.
#[tactic(auto, using(crate::proofs::Written::words_are_written))]
pub fn words_are_written()
    ensures { WordsAreWritten }
{}

/// A number found in an owner word is that of one owner.
#[tactic(auto, using(crate::proofs::Written::found_is))]
pub fn words_are_told()
    ensures { WordsAreTold }
{}

/// What the owner words of a reached state tell is valid.
pub fn words_are_valid()
    ensures { WordsAreValid }
{}
