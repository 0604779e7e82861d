//! Method 2: a list, with the contended node moved to its head.

ghost use Rattle.std.specs.Prelude.{◌≤◌, length};
ghost use Rattle.ww_lock.specs.Waits.TheVariants.{ToTheEnd, UntilCancelled};
ghost use Rattle.ww_users.specs.Ways.{MayTakeList, IsOrderAnswer};

use crate::context::{back_off, begin, give_up};
use crate::fault::Taken;
use crate::trip::{Trip, lock_entries};
use arrayvec::ArrayVec;
use std::sync::Wait;
use ww_lock::{Pass, Waits, World};
use ww_plain::MAX_NODES;

/// Method 2: as method 1, but after the slow lock the contended entry is moved to the head of the list, and the
/// trip goes on after it. So an entry that was contended is locked first from then on. The duplicate that a refusal
/// names is that of the list as it was given, not of the reordered one.
pub fn lock_order<R: Wait>(world: &World, pass: Pass, rt: &R, list: &[u8]) -> Taken
    requires may { MayTakeList list.now pass world.now }
    requires few { length list.now ≤ 64 }
    ensures { IsOrderAnswer ToTheEnd pass list.now result }
{
    lock_order_as(world, pass, rt, list, Waits::ToTheEnd)
}

/// Method 2, but each wait may be cancelled. All is released then, too.
pub fn lock_order_interruptible<R: Wait>(world: &World, pass: Pass, rt: &R, list: &[u8]) -> Taken
    requires may { MayTakeList list.now pass world.now }
    requires few { length list.now ≤ 64 }
    ensures { IsOrderAnswer UntilCancelled pass list.now result }
{
    lock_order_as(world, pass, rt, list, Waits::UntilCancelled)
}

/// Method 2; the last argument says how its lock calls wait.
pub fn lock_order_as<R: Wait>(world: &World, pass: Pass, rt: &R, list: &[u8], waits: Waits) -> Taken
    requires may { MayTakeList list.now pass world.now }
    requires few { length list.now ≤ 64 }
    ensures { IsOrderAnswer waits pass list.now result }
{
    let Ok(mut order) = ArrayVec::<u8, MAX_NODES>::try_from(list) else {
        unreachable!()
    };
    let mut acquiring = begin(world, pass)?;
    let mut kept = None;
    for _ in rt.forever() {
        match lock_entries(world, acquiring, rt, &order, kept, waits) {
            Trip::Through(acquiring) => return Ok(acquiring.done()),
            Trip::Failed(acquiring, fault) => return Err((give_up(world, acquiring, rt), fault)),
            Trip::Deadlk(backoff, position) => {
                let contended = backoff.contended();
                order.remove(position);
                order.insert(0, contended);
                kept = Some(contended);
                acquiring = back_off(world, backoff, rt, waits)?;
            }
        }
    }
    unreachable!()
}
