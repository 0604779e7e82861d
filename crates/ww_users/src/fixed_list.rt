//! Method 1: a list, always in its order.

ghost use Rattle.ww_lock.specs.Waits.TheVariants.{ToTheEnd, UntilCancelled};
ghost use Rattle.ww_users.specs.Ways.{MayTakeList, IsListAnswer};

use crate::context::{back_off, begin, give_up};
use crate::fault::Taken;
use crate::trip::{Trip, lock_entries};
use std::sync::Wait;
use ww_lock::{Pass, Waits, World};

/// Method 1: locks the nodes in the order of the list. On EDEADLK it releases all, takes the contended lock by
/// the slow path, and starts again with that entry skipped once. A list that names a node twice is refused with the
/// first entry whose node stands earlier; then, as with a spent pass, no lock is held and nothing is recorded.
pub fn lock_list<R: Wait>(world: &World, pass: Pass, rt: &R, list: &[u8]) -> Taken
    requires { MayTakeList list.now pass world.now }
    ensures { IsListAnswer ToTheEnd pass list.now result }
{
    lock_list_as(world, pass, rt, list, Waits::ToTheEnd)
}

/// Method 1, but each wait may be cancelled. All is released then, too.
pub fn lock_list_interruptible<R: Wait>(world: &World, pass: Pass, rt: &R, list: &[u8]) -> Taken
    requires { MayTakeList list.now pass world.now }
    ensures { IsListAnswer UntilCancelled pass list.now result }
{
    lock_list_as(world, pass, rt, list, Waits::UntilCancelled)
}

/// Method 1; the last argument says how its lock calls wait.
pub fn lock_list_as<R: Wait>(world: &World, pass: Pass, rt: &R, list: &[u8], waits: Waits) -> Taken
    requires { MayTakeList list.now pass world.now }
    ensures { IsListAnswer waits pass list.now result }
{
    let mut acquiring = begin(world, pass)?;
    let mut kept = None;
    for _ in rt.forever() {
        match lock_entries(world, acquiring, rt, list, kept, waits) {
            Trip::Through(acquiring) => return Ok(acquiring.done()),
            Trip::Failed(acquiring, fault) => return Err((give_up(world, acquiring, rt), fault)),
            Trip::Deadlk(backoff, _) => {
                kept = Some(backoff.contended());
                acquiring = back_off(world, backoff, rt, waits)?;
            }
        }
    }
    unreachable!()
}
