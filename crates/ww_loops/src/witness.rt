//! The laws of loops and lock calls speak of something.
ghost use Rattle.ww_loops.specs.Witness.{LoopsAreInDrives, LoopsAreToldInDrives, ClaimsAreFalseWithoutSeats};

/// In each kind two desks lock in loops, in a drive that keeps all that is asked.
pub fn loops_are_in_drives()
    ensures { LoopsAreInDrives }
{}

/// In each kind two desks that lock in loops are deadlocked, and one is told EDEADLK.
pub fn loops_are_told_in_drives()
    ensures { LoopsAreToldInDrives }
{}

/// If desks needn't know their seats, a lock call may answer that it has a lock that it never took.
pub fn claims_are_false_without_seats()
    ensures { ClaimsAreFalseWithoutSeats }
{}
