//! A lock passes from one desk to another, and with it the data that it guards.
ghost use Rattle.ww_callers.specs.Handing.{DesksHoldWhatTheyOwn, OwnersHandOverInDrives};
ghost use Rattle.ww_callers.specs.Data.{DrivesAreGuarded, ReadsGetTheLastWriteInDrives};

/// What a desk holds is what its seat knows that it owns.
pub fn desks_hold_what_they_own()
    ensures { DesksHoldWhatTheyOwn }
{}

/// Whenever one desk has a lock, between two calls, and later another has it, the first made a step that released it, and
/// after that the other made one that took it.
pub fn owners_hand_over_in_drives()
    ensures { OwnersHandOverInDrives }
{}

/// Where each access to a place is made with the place's lock in hand, an endless drive is a sequence of owners.
pub fn drives_are_guarded()
    ensures { DrivesAreGuarded }
{}

/// So each of its reads is of the last write, if memory gives each read a write that is visible to it.
pub fn reads_get_the_last_write_in_drives()
    ensures { ReadsGetTheLastWriteInDrives }
{}
