//! What theorems come to, in words of the locks. Each function calls the theorems that it needs, so none of these may say less.
ghost use Rattle.ww_loops.specs.Uses.{EachLoopEnds, OldestLeavesItsLoop, EachContextIsOver, OldestHasItsLock, CallsGiveTheLock, DeadlocksGiveWay, DeadlockOfScenesGivesWay, SleepersWait, LooksSaw, DeadlkHadAReason};

use crate::calls::lock_calls_take_their_lock;
use crate::contexts::{contexts_are_over_in_drives, oldest_is_served_in_drives};
use crate::loops::{loops_back_off, loops_end, oldest_loop_ends};
use ww_callers::drives::{looks_are_true, no_deadlock_lasts_in_drives, no_wake_is_lost_in_drives};
use ww_laws::going_on::no_deadlock_lasts;
use ww_laws::theorem::deadlk_was_met;

/// Loops and their contexts are over, with their locks.
pub fn loops_are_over()
    ensures loops { EachLoopEnds }
    ensures oldest { OldestLeavesItsLoop }
    ensures contexts { EachContextIsOver }
    ensures served { OldestHasItsLock }
    ensures calls { CallsGiveTheLock }
{
    loops_end();
    oldest_loop_ends();
    loops_back_off();
    contexts_are_over_in_drives();
    oldest_is_served_in_drives();
    lock_calls_take_their_lock();
}

/// A deadlock gives way, whoever sleeps waits, looks saw what they tell, and EDEADLK had a reason.
pub fn callers_rely_on()
    ensures deadlocks { DeadlocksGiveWay }
    ensures scenes { DeadlockOfScenesGivesWay }
    ensures sleepers { SleepersWait }
    ensures looks { LooksSaw }
    ensures deadlk { DeadlkHadAReason }
{
    no_deadlock_lasts_in_drives();
    no_deadlock_lasts();
    no_wake_is_lost_in_drives();
    looks_are_true();
    deadlk_was_met();
}
