//! Laws of wait lists and their rules: each function's contract is one.

ghost use Rattle.std.specs.Prelude.{◌≡◌};
ghost use Rattle.ww_queue.specs.Examples.{SixStand, OneLeaves, OneIsAhead, YoungerOwnerIsWounded, SignedHolderDies, YoungerWaiterIsSigned, YoungerWaiterDies};
ghost use Rattle.ww_queue.specs.Laws.{JoinTakesItsPosition, SoloJoinsLast, JoinKeepsEach, JoinKeepsOrder, LeaveTakesOneOut, LeaveKeepsOrder, EachSeatHasRoom, AheadIsFirstContext, WaitDieCondemns, WoundWaitCondemns, OnlyWaitersDie, DeathIsOfOlder, SignsAreDeaths, SignIsWound, OneWalkFindsAllSigns};

use crate::queue::MAX_WAITERS;

/// A list has room for 16 waiters.
pub fn limits()
    ensures { MAX_WAITERS ≡ 16 }
{}

/// A waiter that joins comes immediately before the first younger context, else last, and nobody else moves.
#[tactic(auto, using(crate::proofs::Joins::takes_its_position))]
pub fn join_takes_its_position()
    ensures { JoinTakesItsPosition }
{}

/// A waiter without a context goes last.
#[tactic(auto, using(crate::proofs::Joins::joined_last))]
pub fn solo_joins_last()
    ensures { SoloJoinsLast }
{}

/// After a join the list has those that were there and the new one, in the order in which they were.
#[tactic(auto, using(crate::proofs::Joins::joined_each, crate::proofs::Joins::before_joined))]
pub fn join_keeps_each()
    ensures { JoinKeepsEach }
{}

/// A join keeps the contexts in the order of their stamps, and no seat waits twice after it.
#[tactic(auto, using(crate::proofs::Joins::joined_ascends, crate::proofs::Joins::joined_once))]
pub fn join_keeps_order()
    ensures { JoinKeepsOrder }
{}

/// A waiter that leaves is taken out, and nobody else moves; if the seat doesn't wait, the list stays as it is.
#[tactic(auto, using(crate::proofs::Leaves::takes_one_out))]
pub fn leave_takes_one_out()
    ensures { LeaveTakesOneOut }
{}

/// A leave keeps the contexts in order, no seat waits twice after it, and the seat itself no longer waits.
pub fn leave_keeps_order()
    ensures { LeaveKeepsOrder }
{}

/// Where each waiter is another of 16 seats, there is room for a seat that doesn't wait yet.
pub fn each_seat_has_room()
    ensures { EachSeatHasRoom }
{}

/// The context ahead of a seat is the first one in the list, if the seat waits after it.
pub fn ahead_is_first_context()
    ensures { AheadIsFirstContext }
{}

/// In Wait-Die a waiter has to die iff it holds locks and an older owner or a context before it is the cause.
pub fn wait_die_condemns()
    ensures { WaitDieCondemns }
{}

/// In Wound-Wait a waiter has to die iff it holds locks and has a sign.
pub fn wound_wait_condemns()
    ensures { WoundWaitCondemns }
{}

/// A seat that doesn't wait doesn't have to die.
#[tactic(auto, using(crate::proofs::Deaths::only_waiters_die))]
pub fn only_waiters_die()
    ensures { OnlyWaitersDie }
{}

/// In Wait-Die a waiter dies of an older context only.
#[tactic(auto, using(crate::proofs::Deaths::death_is_of_older))]
pub fn death_is_of_older()
    ensures { DeathIsOfOlder }
{}

/// In Wait-Die exactly the waiters that have to die are signed, except the seat inside.
#[tactic(auto, using(crate::proofs::Signs::signs_are_deaths))]
pub fn signs_are_deaths()
    ensures { SignsAreDeaths }
{}

/// In Wound-Wait the owner alone is signed, iff it has taken the lock and an older waiter holds locks.
pub fn sign_is_wound()
    ensures { SignIsWound }
{}

/// One walk along a list in which each seat waits once finds the signs that are owed.
#[tactic(auto, using(crate::proofs::AnyLists::signs_all))]
pub fn one_walk_finds_all_signs()
    ensures { OneWalkFindsAllSigns }
{}

/// Examples of joins and leaves.
pub fn examples_of_lists()
    ensures stand { SixStand }
    ensures leaves { OneLeaves }
    ensures ahead { OneIsAhead }
{}

/// Examples of both rules.
pub fn examples_of_rules()
    ensures wounded { YoungerOwnerIsWounded }
    ensures signed { SignedHolderDies }
    ensures signs { YoungerWaiterIsSigned }
    ensures dies { YoungerWaiterDies }
{}
