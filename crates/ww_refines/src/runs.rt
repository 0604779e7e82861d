//! Runs of threads, and the scenes that they show.
ghost use Rattle.ww_refines.specs.Runs.{NewTablesBegin, StartIsStart, MovesAreSteps, OthersAreNone, RunsShowScenes, NoWakeIsLostInRuns, GuardsAreHeldAwakeInRuns};

/// A table that was made just now is that of a moment at which nothing was done yet.
pub fn new_tables_begin()
    ensures { NewTablesBegin }
{}

/// A moment at which nothing was done yet shows the start of the scene.
pub fn start_is_start()
    ensures { StartIsStart }
{}

/// Each event that a thread makes at the table, each look of it that finds no sign or no cancel, each exit in order to
/// sleep, each ring, park and rise is that step of the scene.
pub fn moves_are_steps()
    ensures { MovesAreSteps }
{}

/// Each other step at the table leaves the scene as it is.
pub fn others_are_none()
    ensures { OthersAreNone }
{}

/// So each moment of a run shows a scene that is reached.
pub fn runs_show_scenes()
    ensures { RunsShowScenes }
{}

/// A thread of a run that sleeps, has no token, and is owed no wake by a thread that doesn't sleep, has to wait.
pub fn no_wake_is_lost_in_runs()
    ensures { NoWakeIsLostInRuns }
{}

/// Each thread of a run that is inside a guard acts.
pub fn guards_are_held_awake_in_runs()
    ensures { GuardsAreHeldAwakeInRuns }
{}
