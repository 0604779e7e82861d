//! What is asked of runs, by what a seat does at the table.
ghost use Rattle.ww_laws.specs.Asking.{WhoLeavesHasAsked};
ghost use Rattle.ww_laws.specs.Views.{ViewedRunsAreRuns, ViewedWaitersSleep, ViewedDeadlocksEnd, ViewedRunsAreThere, LaterStays, ViewedRunsAsk};

/// Whatever waiter the table lets out of a guard, after a look again, has asked for the lock if it is the first, or the
/// lock is handed to somebody.
pub fn who_leaves_has_asked()
    ensures { WhoLeavesHasAsked }
{}

/// Each run of seats that go by their views is an endless run of the scene.
pub fn viewed_runs_are_runs()
    ensures { ViewedRunsAreRuns }
{}

/// In each such run a waiter leaves a guard only in order to sleep.
pub fn viewed_waiters_sleep()
    ensures { ViewedWaitersSleep }
{}

/// Whenever such seats are deadlocked, and scheduled, one of them gives up waiting in the end.
pub fn viewed_deadlocks_end()
    ensures { ViewedDeadlocksEnd }
{}

/// There are such runs, in each kind, with any number of locks and seats.
pub fn viewed_runs_are_there()
    ensures { ViewedRunsAreThere }
{}

/// Whether a seat looks again stays in its view from where it goes inside a guard to where it leaves it.
pub fn later_stays()
    ensures { LaterStays }
{}

/// In each such run the first in a list asks.
pub fn viewed_runs_ask()
    ensures { ViewedRunsAsk }
{}
