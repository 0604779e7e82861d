//! Contexts are over in the end.
ghost use Rattle.ww_loops.specs.Contexts.{ContextsAreOverInDrives, OldestIsServedInDrives};

/// In Wait-Die each context is over in the end: if programs come to an end, and each thread that gets EDEADLK takes the contended
/// lock first.
pub fn contexts_are_over_in_drives()
    ensures { ContextsAreOverInDrives }
{}

/// In Wound-Wait the oldest context of those that don't rest on gets each lock that it waits for once it has one, unless it is
/// cancelled.
pub fn oldest_is_served_in_drives()
    ensures { OldestIsServedInDrives }
{}
