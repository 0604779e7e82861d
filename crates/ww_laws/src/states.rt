//! Laws of one state, lawful or reached: what waits, guards, lists, signs and stamps are like in it.

ghost use Rattle.ww_model.specs.Lawful.{FreeGuardsOweNothing, SignedOwnsOutside};
ghost use Rattle.ww_model.specs.Run.{RunsAreLawful};
ghost use Rattle.ww_model.specs.Alone.{OutsidersOweNothing, StampsAreFew};
ghost use Rattle.ww_model.specs.Laws.{StartIsLawful, OfLawful, PlaceIsTheGuard, QueuesAscend, OnlyFirstIsUnsigned, EachWaitsForOne, RingsAreApart, OfReached, SignWasMet, WaitersAreSeats, CondemnedCanDie};
ghost use Rattle.ww_laws.specs.Condemned.{CondemnedStays, CondemnedLooks, LooksOn, WhoLooksGivesWay};

/// The start state is lawful.
#[tactic(auto, using(ww_model::proofs::Kept::start_is_lawful))]
pub fn start_is_lawful()
    ensures { StartIsLawful }
{}

/// Every state of a run is lawful.
pub fn runs_are_lawful()
    ensures { RunsAreLawful }
{}

/// Nobody waits for two, in every lawful state.
#[tactic(auto, using(ww_model::proofs::Chains::waits_once))]
pub fn each_waits_for_one()
    ensures { OfLawful EachWaitsForOne }
{}

/// In every lawful state at most one ring goes through a seat.
#[tactic(auto, using(ww_model::proofs::Chains::rings_are_apart))]
pub fn rings_are_apart()
    ensures { OfLawful RingsAreApart }
{}

/// A condemned seat can go inside the guard of the lock where it waits, if that is free, and die there, and gets the
/// stamp for which it has to die.
#[tactic(auto, using(ww_model::proofs::Leaving::condemned_can_die))]
pub fn condemned_can_die()
    ensures { OfReached CondemnedCanDie }
{}

/// A condemned seat stays so whatever the others do, for as long as the lock keeps its owner and, in Wait-Die, its
/// waiters ahead of that seat.
pub fn condemned_stays()
    ensures { OfReached CondemnedStays }
{}

/// A condemned seat can go inside the guard where it waits, if that is free, and looks condemned then.
pub fn condemned_looks()
    ensures { OfReached CondemnedLooks }
{}

/// A seat that looks condemned does so until it gives way: nobody else changes that.
pub fn looks_on()
    ensures { OfLawful LooksOn }
{}

/// A seat that looks condemned can't take the lock: it gets EDEADLK, or EINTR if it heeds a cancel.
#[tactic(auto, using(crate::proofs::Condemned::who_looks_gives_way))]
pub fn who_looks_gives_way()
    ensures { OfLawful WhoLooksGivesWay }
{}

/// Wound-Wait: the sign of a seat that owns a lock is the stamp of a context that it met.
#[tactic(auto, using(ww_model::proofs::Meetings::sign_was_met))]
pub fn sign_was_met()
    ensures { SignWasMet }
{}

/// Wait-Die: a seat with a sign owns a lock whose guard it isn't inside of, in every reached state.
#[tactic(auto, using(ww_model::proofs::Outside::signed_owns_outside))]
pub fn signed_owns_outside()
    ensures { OfReached SignedOwnsOutside }
{}

/// Wait-Die, in every lawful state: where a guard is free, each seat that must die there has a sign.
#[tactic(auto, using(ww_model::proofs::FreeGuards::free_guards_owe_nothing))]
pub fn free_guards_owe_nothing()
    ensures { OfLawful FreeGuardsOweNothing }
{}

/// Wait-Die, in every lawful state: where a guard is free, only the first of the waiting contexts may hold locks
/// unsigned.
#[tactic(auto, using(ww_model::proofs::FreeGuards::only_first_is_unsigned))]
pub fn only_first_is_unsigned()
    ensures { OfLawful OnlyFirstIsUnsigned }
{}

/// In every lawful state a seat inside a guard that neither waits there nor has taken the lock owes no unsigned seat.
#[tactic(auto, using(ww_model::proofs::FreeGuards::owes_nothing))]
pub fn outsiders_owe_nothing()
    ensures { OfLawful OutsidersOweNothing }
{}

/// In every lawful state the guard in which a seat is found is the one that it is inside of.
#[tactic(auto, using(ww_model::proofs::Ranges::lawful_place))]
pub fn place_is_the_guard()
    ensures { OfLawful PlaceIsTheGuard }
{}

/// The stamps of the contexts ascend in each wait list of a lawful state.
#[tactic(auto, using(ww_model::proofs::Leaving::queues_ascend))]
pub fn queues_ascend()
    ensures { OfLawful QueuesAscend }
{}

/// Each waiter in a reached state is one of the seats.
#[tactic(auto, using(ww_model::proofs::Leaving::waiters_are_seats))]
pub fn waiters_are_seats()
    ensures { OfReached WaitersAreSeats }
{}

/// The stamps drawn in a reached state fit an owner word.
#[tactic(auto, using(ww_model::proofs::Ranges::few_stamps))]
pub fn stamps_are_few()
    ensures { OfReached StampsAreFew }
{}
