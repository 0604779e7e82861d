//! Contexts are served.
ghost use Rattle.ww_refines.specs.Contexts.{OldestNeverGivesWayInRuns, OldestIsServedInRuns, OldestEndsInRuns, ContextsAreServedInRuns, OldestWaitDieIsServedInRuns, BackingOffEndsInRuns, ContextsAreOverInRuns};

/// The oldest context of those that don't rest on, if it has no sign in Wound-Wait, is never signed and gets no EDEADLK.
pub fn oldest_never_gives_way_in_runs()
    ensures { OldestNeverGivesWayInRuns }
{}

/// In Wound-Wait that one gets each lock that it waits for once it has one, unless it is cancelled.
pub fn oldest_is_served_in_runs()
    ensures { OldestIsServedInRuns }
{}

/// So it comes to its end, or to rest, unless it is cancelled, if its program does, and it waits only while it owns a
/// lock.
pub fn oldest_ends_in_runs()
    ensures { OldestEndsInRuns }
{}

/// In Wait-Die each context gets each lock that it waits for, unless it gets EDEADLK or is cancelled: if programs come
/// to an end, and each thread that gets EDEADLK takes the contended lock first.
pub fn contexts_are_served_in_runs()
    ensures { ContextsAreServedInRuns }
{}

/// And the oldest of those that don't rest on gets each of them, unless it is cancelled.
pub fn oldest_wait_die_is_served_in_runs()
    ensures { OldestWaitDieIsServedInRuns }
{}

/// In both kinds a context gets EDEADLK finitely often, if each older one is over in the end.
pub fn backing_off_ends_in_runs()
    ensures { BackingOffEndsInRuns }
{}

/// In Wait-Die each context is over in the end: if programs come to an end, and each thread that gets EDEADLK takes the
/// contended lock first.
pub fn contexts_are_over_in_runs()
    ensures { ContextsAreOverInRuns }
{}
