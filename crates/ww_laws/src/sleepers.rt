//! Each seat that sleeps has to wait.
ghost use Rattle.ww_laws.specs.Sleepers.{NoWakeIsLost, GuardsAreHeldAwake, SleepersAwaitSomebodyUp, SleepersAwaitAHolder, NobodySleepsInVain, SleepForEverIsAWait, SleepersAreReached, EndlessRunsHaveSleepers};

/// A seat that sleeps, and neither was woken nor is about to be by a seat that doesn't sleep, has to wait: its lock
/// isn't available to it, and it is neither condemned nor cancelled.
pub fn no_wake_is_lost()
    ensures { NoWakeIsLost }
{}

/// Each seat that is inside a guard acts.
pub fn guards_are_held_awake()
    ensures { GuardsAreHeldAwake }
{}

/// Each seat that sleeps waits, maybe through other sleepers, for somebody who is up.
pub fn sleepers_await_somebody_up()
    ensures { SleepersAwaitSomebodyUp }
{}

/// Where no wake is under way and all waiters sleep, each of them waits, maybe through others, for a seat that owns a
/// lock and neither sleeps nor waits.
pub fn sleepers_await_a_holder()
    ensures { SleepersAwaitAHolder }
{}

/// In each endless run in which every wake that is owed is made in the end, and every sleeper with a token rises in the
/// end, each seat that sleeps without having to is awake later.
pub fn nobody_sleeps_in_vain()
    ensures { NobodySleepsInVain }
{}

/// In such a run, a seat that sleeps forever stands in the list of one lock all the time, and has to wait at each moment.
pub fn sleep_for_ever_is_a_wait()
    ensures { SleepForEverIsAWait }
{}

/// In each kind some run comes to a sleeper that must wait, and then to where the lock is available to it and it is only
/// about to be woken.
pub fn sleepers_are_reached()
    ensures { SleepersAreReached }
{}

/// In each kind there is an endless run, in which wakes arrive, with a seat that sleeps forever, and another with one
/// that sleeps without having to: so the two laws of endless runs speak of some.
pub fn endless_runs_have_sleepers()
    ensures { EndlessRunsHaveSleepers }
{}
