//! Retry loops end.
ghost use Rattle.ww_loops.specs.Loops.{LoopsBackOff, LoopsEnd, OldestLoopEnds};

/// Desks whose drivers lock in loops release all that they have after EDEADLK, and take the contended lock first.
pub fn loops_back_off()
    ensures { LoopsBackOff }
{}

/// In Wait-Die each loop ends, and its context owns exactly what its last round asked for, and what it owes: if drivers are
/// scheduled, programs go on, and no round asks for endlessly many locks.
pub fn loops_end()
    ensures { LoopsEnd }
{}

/// In Wound-Wait the loop of the oldest context of those that don't rest on ends, if nobody has signed that context, unless it waits
/// forever for its first lock, or is cancelled.
pub fn oldest_loop_ends()
    ensures { OldestLoopEnds }
{}
