//! Laws of what is no event of the core: each function's contract is one. A step's own call rests on the lemma that its
//! law does.

ghost use Rattle.ww_table_laws.specs.NoEvents.{LookIsNoEvent, GlanceIsNoEvent, OwnsIsNoEvent, WhoseIsNoEvent, CountIsNoEvent, OwnSignIsNoEvent, LostIsNoEvent, LostSignIsNoEvent, SplitIsNoEvent, JoinIsNoEvent};

/// A look at an owner word leaves core and commits as they are.
#[tactic(auto, using(crate::proofs::NoEvents::look_stays))]
pub fn look_is_no_event()
    ensures { LookIsNoEvent }
{}

/// So does a spin read of one.
#[tactic(auto, using(crate::proofs::NoEvents::glance_stays))]
pub fn glance_is_no_event()
    ensures { GlanceIsNoEvent }
{}

/// So does a look whether the seat owns one.
#[tactic(auto, using(crate::proofs::NoEvents::owns_stays))]
pub fn owns_is_no_event()
    ensures { OwnsIsNoEvent }
{}

/// So does a look whose one is, of which the view notes what was found.
#[tactic(auto, using(crate::proofs::NoEvents::whose_stays))]
pub fn whose_is_no_event()
    ensures { WhoseIsNoEvent }
{}

/// So does a spin read of the stamp word.
#[tactic(auto, using(crate::proofs::NoEvents::count_stays))]
pub fn count_is_no_event()
    ensures { CountIsNoEvent }
{}

/// So does a look at the own sign.
pub fn own_sign_is_no_event()
    ensures { OwnSignIsNoEvent }
{}

/// So does a try that finds another word than it expected, and a look for the own cancel that finds none.
pub fn lost_is_no_event()
    ensures { LostIsNoEvent }
{}

/// So does a sign for a seat that has one.
#[tactic(auto, using(crate::proofs::NoEvents::lost_sign_stays))]
pub fn lost_sign_is_no_event()
    ensures { LostSignIsNoEvent }
{}

/// So does cutting off a seat.
#[tactic(auto, using(ww_invariant::proofs::Seats::splits_on))]
pub fn split_is_no_event()
    ensures { SplitIsNoEvent }
{}

/// So does taking a seat in.
#[tactic(auto, using(ww_invariant::proofs::Seats::joins_on))]
pub fn join_is_no_event()
    ensures { JoinIsNoEvent }
{}
