//! A lock passes from one thread to another.
ghost use Rattle.ww_refines.specs.Handing.{OwnersHandOverInRuns};

/// Whenever a thread has a lock and later another has it, the first released it by a step of its own, and after that the other
/// took it by one, each a compare-exchange on the lock's owner word.
pub fn owners_hand_over_in_runs()
    ensures { OwnersHandOverInRuns }
{}
