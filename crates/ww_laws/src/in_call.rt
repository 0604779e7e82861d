//! What a seat does at the table, by its view, as steps of the scene.
ghost use Rattle.ww_laws.specs.InCall.{StartIsInCall, LeavingComesToRest, RestStays, RisingIsInCall, GuardForgetsTheLook, CondemnedFindNone, CondemnedMayNotLeave, ShownIsAStep, LeavingIsAStep, SignLookIsAStep, CancelLookIsAStep, OthersLeaveCallsAlone, ViewsTellWhomToWake, WakersMaySleep};

/// Whatever event a view shows to be possible at the table is a step of the scene.
pub fn shown_is_a_step()
    ensures { ShownIsAStep }
{}

/// Each waiter that the table lets out of a guard may go to sleep, if its call heeds no cancel or its view says that it
/// found none.
pub fn leaving_is_a_step()
    ensures { LeavingIsAStep }
{}

/// A look at the own sign that finds none is a step of the scene.
pub fn sign_look_is_a_step()
    ensures { SignLookIsAStep }
{}

/// So is a look at the own cancel that finds none.
pub fn cancel_look_is_a_step()
    ensures { CancelLookIsAStep }
{}

/// What other seats do leaves a seat in its call, with its view.
pub fn others_leave_calls_alone()
    ensures { OthersLeaveCallsAlone }
{}

/// At the start each seat is in its call, with the view of a seat that has done nothing yet.
pub fn start_is_in_call()
    ensures { StartIsInCall }
{}

/// A seat that leaves a guard in order to sleep rests then, and knows the core by its view.
pub fn leaving_comes_to_rest()
    ensures { LeavingComesToRest }
{}

/// It does so until it rises itself, whatever is done.
pub fn rest_stays()
    ensures { RestStays }
{}

/// Then it is in its call again.
pub fn rising_is_in_call()
    ensures { RisingIsInCall }
{}

/// A seat that goes inside a guard has found no sign there yet.
pub fn guard_forgets_the_look()
    ensures { GuardForgetsTheLook }
{}

/// In Wound-Wait a seat that looks at a lock where it has to give way doesn't come to find no sign, whatever is done.
pub fn condemned_find_none()
    ensures { CondemnedFindNone }
{}

/// So it may not leave the guard as a waiter.
pub fn condemned_may_not_leave()
    ensures { CondemnedMayNotLeave }
{}

/// A seat has to wake those that its view says: the seats that its signs condemned, and its heir.
pub fn views_tell_whom_to_wake()
    ensures { ViewsTellWhomToWake }
{}

/// A seat that goes to sleep, and wakes all that it has yet to wake, may fall asleep.
pub fn wakers_may_sleep()
    ensures { WakersMaySleep }
{}
