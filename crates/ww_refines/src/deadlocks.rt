//! No deadlock of threads lasts.
ghost use Rattle.ww_refines.specs.Deadlocks.{WaitersSleepInRuns, FirstsAskInRuns, NoDeadlockLastsInRuns, NoStandstillInRuns, WaitsEndInRuns, DeadlocksAreInEndlessRuns, WaitsAreInEndlessRuns};

/// Each waiter that leaves a guard does so in order to sleep.
pub fn waiters_sleep_in_runs()
    ensures { WaitersSleepInRuns }
{}

/// Whichever waiter has looked again, and is the first in its list, has asked for the lock when it goes to sleep, or
/// the lock is handed to somebody.
pub fn firsts_ask_in_runs()
    ensures { FirstsAskInRuns }
{}

/// Whenever threads are deadlocked, and scheduled while they wait, one of them gets EDEADLK or is cancelled in the
/// end.
pub fn no_deadlock_lasts_in_runs()
    ensures { NoDeadlockLastsInRuns }
{}

/// Threads that all sleep, have no token and are owed no wake aren't deadlocked.
pub fn no_standstill_in_runs()
    ensures { NoStandstillInRuns }
{}

/// Whenever a thread waits, some wait ends later, if all threads are scheduled while they wait, and whoever has a lock
/// and waits for none releases it in the end or comes to wait.
pub fn waits_end_in_runs()
    ensures { WaitsEndInRuns }
{}

/// In each kind an endless run of threads begins with a deadlock, of threads that are scheduled: so these laws speak of
/// some.
pub fn deadlocks_are_in_endless_runs()
    ensures { DeadlocksAreInEndlessRuns }
{}

/// In each kind a thread waits in an endless run in which all are scheduled and holders go on: so the law on waits speaks
/// of some.
pub fn waits_are_in_endless_runs()
    ensures { WaitsAreInEndlessRuns }
{}
