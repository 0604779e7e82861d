//! Desks whose callers wait by themselves, as runs of threads.
ghost use Rattle.ww_callers.specs.Drives.{OpenedWorldsBegin, DesksStandOutside, CallsSleepLast, DrivesKeepAccount, LooksAreTrue, DrivesAreRuns, NoWakeIsLostInDrives, NoStandstillInDrives, NobodySleepsInVainInDrives, NoDeadlockLastsInDrives, DrivesRunOn, WaitsEndInDrives};

/// Opening a world gives a first stage: a table whose seats were cut off, and have done nothing.
pub fn opened_worlds_begin()
    ensures { OpenedWorldsBegin }
{}

/// Each desk whose call doesn't stand inside a guard is outside of all.
pub fn desks_stand_outside()
    ensures { DesksStandOutside }
{}

/// A call left a guard as a waiter only if it answers `Sleeps`, then once, and made no event after that.
pub fn calls_sleep_last()
    ensures { CallsSleepLast }
{}

/// Each call keeps the account of wakes and sleeps, so whatever holds of drives whose calls do just that holds of each drive.
pub fn drives_keep_account()
    ensures { DrivesKeepAccount }
{}

/// What a desk's look at a lock told was true at some stage between the call and its answer.
pub fn looks_are_true()
    ensures { LooksAreTrue }
{}

/// Each deed of desks and their drivers is a move of threads, or none.
pub fn drives_are_runs()
    ensures { DrivesAreRuns }
{}

/// Each seat that sleeps has a token, is marked, named or owed a wake by a desk whose thread is awake, or has to wait.
pub fn no_wake_is_lost_in_drives()
    ensures { NoWakeIsLostInDrives }
{}

/// Seats that all sleep, and that nobody has yet to wake, aren't deadlocked.
pub fn no_standstill_in_drives()
    ensures { NoStandstillInDrives }
{}

/// Where each waking that a desk has to see to is made in the end, and each sleeper with a token rises in the end, whoever
/// sleeps without having to is awake later.
pub fn nobody_sleeps_in_vain_in_drives()
    ensures { NobodySleepsInVainInDrives }
{}

/// Whenever seats are deadlocked, and their drivers scheduled, one of them gets EDEADLK or is cancelled in the end.
pub fn no_deadlock_lasts_in_drives()
    ensures { NoDeadlockLastsInDrives }
{}

/// An endless drive is an endless run of threads, in which each seat is scheduled whose driver is: so whatever holds of
/// these holds of drives.
pub fn drives_run_on()
    ensures { DrivesRunOn }
{}

/// Whenever a seat waits, some wait ends later, if all drivers are scheduled, and whoever has a lock and waits for none
/// releases it in the end or comes to wait.
pub fn waits_end_in_drives()
    ensures { WaitsEndInDrives }
{}
