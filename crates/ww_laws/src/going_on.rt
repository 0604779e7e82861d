//! Threads go on.
ghost use Rattle.ww_laws.specs.GoingOn.{NoDeadlockLasts, CyclesAreBroken, SomebodyGoesOn, WaitsEnd, NoLivelock, DueLocksAreTaken, WoundedWaitNoMore, WhoWantsNoneRests, OldestNeverGivesWay, OldestIsServed, OldestEnds, ContextsAreServed, OldestWaitDieIsServed, DeadlocksAreReached};

/// Whenever seats are deadlocked, one of them gives up waiting in the end: it gets EDEADLK, or is cancelled.
pub fn no_deadlock_lasts()
    ensures { NoDeadlockLasts }
{}

/// Each cycle of waits is broken in the end by one of its members.
pub fn cycles_are_broken()
    ensures { CyclesAreBroken }
{}

/// Whenever somebody waits, somebody takes a lock inside its guard later, or gives up waiting, if each seat that has a
/// lock and waits for none releases it in the end or comes to wait.
pub fn somebody_goes_on()
    ensures { SomebodyGoesOn }
{}

/// Whenever somebody waits, some wait ends later, if besides each seat that looks again as the first in a list asks for
/// the lock.
pub fn waits_end()
    ensures { WaitsEnd }
{}

/// Whenever somebody waits, its own wait ends later, or somebody takes a lock or is cancelled: not only deaths go on,
/// if each seat that has died wants a lock again only once it has owned none.
pub fn no_livelock()
    ensures { NoLivelock }
{}

/// A lock that is available to a waiter is taken in the end: by that waiter if it was handed to it, and by that waiter
/// or another seat if it is free.
pub fn due_locks_are_taken()
    ensures { DueLocksAreTaken }
{}

/// In Wound-Wait a waiter that was wounded waits no more in the end.
pub fn wounded_wait_no_more()
    ensures { WoundedWaitNoMore }
{}

/// A context that has no lock and waits for none rests, if its seat wants no lock any more.
pub fn who_wants_none_rests()
    ensures { WhoWantsNoneRests }
{}

/// The oldest context of those that don't rest on, if it has no sign in Wound-Wait, is never signed and never dies.
pub fn oldest_never_gives_way()
    ensures { OldestNeverGivesWay }
{}

/// In Wound-Wait the oldest context of those that don't rest on, if it has no sign, gets each lock that it waits for once
/// it has one, unless it is cancelled.
pub fn oldest_is_served()
    ensures { OldestIsServed }
{}

/// So it comes to its end, or to rest, unless it is cancelled, if its program does, and it waits only while it owns a
/// lock.
pub fn oldest_ends()
    ensures { OldestEnds }
{}

/// In Wait-Die each context gets each lock that it waits for, unless it dies or is cancelled: if programs come to an
/// end, and each seat that dies takes the contended lock first.
pub fn contexts_are_served()
    ensures { ContextsAreServed }
{}

/// And the oldest of those that don't rest on, which never has to die, gets each of them, unless it is cancelled.
pub fn oldest_wait_die_is_served()
    ensures { OldestWaitDieIsServed }
{}

/// In each kind an endless run keeps all that is asked of it, and begins with a deadlock, and with an older context that
/// rests forever.
pub fn deadlocks_are_reached()
    ensures { DeadlocksAreReached }
{}
