//! The laws of endless drives speak of something.
ghost use Rattle.ww_callers.specs.Data.{DataIsHandedOver, DataIsStaleWithoutItsLock};
ghost use Rattle.ww_callers.specs.Witness.{DeadlocksAreInEndlessDrives, WaitsAreInEndlessDrives, LooksAreInDrives};

/// In each kind an endless drive of a world begins with a deadlock, of seats whose drivers are scheduled, and a call of
/// one of them answers EDEADLK.
pub fn deadlocks_are_in_endless_drives()
    ensures { DeadlocksAreInEndlessDrives }
{}

/// In each kind a seat waits at the beginning of an endless drive of a world in which the drivers of all seats are
/// scheduled, and holders go on.
pub fn waits_are_in_endless_drives()
    ensures { WaitsAreInEndlessDrives }
{}

/// In each kind a desk answers that a lock is free, and in another drive that it isn't.
pub fn looks_are_in_drives()
    ensures { LooksAreInDrives }
{}

/// In each kind one desk's caller writes, and later another's reads what that wrote, each with the lock in hand.
pub fn data_is_handed_over()
    ensures { DataIsHandedOver }
{}

/// Whoever reads without the lock may read what was there before the last write.
pub fn data_is_stale_without_its_lock()
    ensures { DataIsStaleWithoutItsLock }
{}
