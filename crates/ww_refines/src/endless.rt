//! Endless runs of threads, and the endless runs of the scene that they show.
ghost use Rattle.ww_refines.specs.Endless.{EndlessRunsShowScenes, NobodySleepsInVainInRuns, SleepForEverIsAWaitInRuns, SleepersAreInEndlessRuns};

/// Each endless run of threads shows an endless run of the scene, so what holds of all those holds of threads.
pub fn endless_runs_show_scenes()
    ensures { EndlessRunsShowScenes }
{}

/// If each wake that is owed is made in the end, and each sleeper with a token rises in the end, whichever thread
/// sleeps without having to is awake later.
pub fn nobody_sleeps_in_vain_in_runs()
    ensures { NobodySleepsInVainInRuns }
{}

/// Then each thread that sleeps forever has to wait at each moment.
pub fn sleep_for_ever_is_a_wait_in_runs()
    ensures { SleepForEverIsAWaitInRuns }
{}

/// In each kind there is an endless run of threads, in which wakes arrive, with a thread that sleeps forever, and
/// another with one that sleeps without having to: so these laws speak of some.
pub fn sleepers_are_in_endless_runs()
    ensures { SleepersAreInEndlessRuns }
{}
