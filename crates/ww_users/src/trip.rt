//! One trip through a list, as the fixed list and the reordered one make it in each round.

ghost use Rattle.ww_users.specs.Ways.{MayTakeList};
ghost use Rattle.ww_users.specs.Trips.{HoldsKept, IsTrip};

use crate::fault::UserFault;
use std::sync::Wait;
use ww_lock::{Acquiring, Backoff, Interruptible, Waits, World};

/// How a trip ended.
pub(crate) enum Trip {
    /// All of it is locked.
    Through(Acquiring),
    /// The context got EDEADLK at the entry of this position.
    Deadlk(Backoff, usize),
    /// An entry named a node that an earlier entry had locked, or the wait for a lock was cancelled.
    Failed(Acquiring, UserFault),
}

/// Locks the entries in the order of the list. The node that was kept from a slow lock is skipped once.
pub(crate) fn lock_entries<R: Wait>(
    world: &World,
    acquiring: Acquiring,
    rt: &R,
    list: &[u8],
    kept: Option<u8>,
    waits: Waits,
) -> Trip
    requires may { MayTakeList list.now acquiring world.now }
    requires kept { HoldsKept kept list.now acquiring }
    ensures { IsTrip waits acquiring list.now kept result }
{
    let mut acquiring = acquiring;
    let mut kept = kept;
    for (position, n) in list.iter().enumerate() {
        if kept == Some(*n) {
            kept = None;
            continue;
        }
        acquiring = match acquiring.lock_as(rt, world, *n, waits) {
            Interruptible::Locked(acquiring) => acquiring,
            Interruptible::Already(acquiring) => {
                return Trip::Failed(acquiring, UserFault::Already(*n));
            }
            Interruptible::Deadlk(backoff) => return Trip::Deadlk(backoff, position),
            Interruptible::Interrupted(acquiring, by) => {
                return Trip::Failed(acquiring, UserFault::Interrupted(by));
            }
        };
    }
    Trip::Through(acquiring)
}
