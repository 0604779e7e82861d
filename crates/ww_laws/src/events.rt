//! Laws of one event: what it keeps, what it leaves to the seats whose event it isn't, and who comes to own a lock or
//! leaves it.

ghost use Rattle.ww_model.specs.Lawful.{OutsideIsKept};
ghost use Rattle.ww_model.specs.Alone.{OthersAreLeftAlone, OthersAreSignedOnce, OthersAreCancelledOnce, TakenLeavesByGiving, HandedLeavesByTaking};
ghost use Rattle.ww_model.specs.Laws.{BaseIsKept, LawfulIsKept, OnlyTheFirstAsks, HandedToTheFirst};

/// Each event that is possible as far as stamps, owners, wait lists and guards go keeps these in order.
pub fn keeps_base()
    ensures { BaseIsKept }
{}

/// Each possible event of a lawful state leads to a lawful state.
pub fn keeps_lawful()
    ensures { LawfulIsKept }
{}

/// Wait-Die: that a seat with a sign owns a lock whose guard it isn't inside of is kept by each possible event of a
/// lawful state.
#[tactic(auto, using(ww_model::proofs::Outside::keeps_outside))]
pub fn outside_is_kept()
    ensures { OutsideIsKept }
{}

/// A possible event of a lawful state leaves to each other seat its stamp, its locks, its guard and its places in the
/// lists, and to one that is inside a guard what it sees there.
pub fn others_are_left_alone()
    ensures { OthersAreLeftAlone }
{}

/// The sign of another seat changes only from 0, and by Sign.
#[tactic(auto, using(ww_model::proofs::Stays::others_are_signed_once))]
pub fn others_are_signed_once()
    ensures { OthersAreSignedOnce }
{}

/// The cancel of another seat changes only where none is pending, and by Cancel.
#[tactic(auto, using(ww_model::proofs::Stays::others_are_cancelled_once))]
pub fn others_are_cancelled_once()
    ensures { OthersAreCancelledOnce }
{}

/// An owner that has taken a lock leaves it only by its own FastGive or Give there.
#[tactic(auto, using(ww_model::proofs::Leaving::taken_leaves_by_giving))]
pub fn taken_leaves_by_giving()
    ensures { TakenLeavesByGiving }
{}

/// A lock that was handed to a seat leaves it only by its own Take there.
#[tactic(auto, using(ww_model::proofs::Leaving::handed_leaves_by_taking))]
pub fn handed_leaves_by_taking()
    ensures { HandedLeavesByTaking }
{}

/// Only the first waiter of a lock can ask that it be handed over.
#[tactic(auto, using(ww_model::proofs::Leaving::only_the_first_asks))]
pub fn only_the_first_asks()
    ensures { OnlyTheFirstAsks }
{}

/// A lock that is handed over goes to the first waiter of that moment.
#[tactic(auto, using(ww_model::proofs::Leaving::handed_to_the_first))]
pub fn handed_to_the_first()
    ensures { HandedToTheFirst }
{}
