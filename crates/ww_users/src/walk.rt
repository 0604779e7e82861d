//! Method 3: a walk, whose nodes are known only once they are locked.

ghost use Rattle.std.specs.Prelude.{◌≡◌, ◌<◌, false, length, Some, IfOk, IfErr, IfSome, IsTrue};
ghost use Rattle.ww_plain.specs.Graph.{port_of};
ghost use Rattle.ww_plain.specs.Numbers.{is_among};
ghost use Rattle.ww_plain.specs.Transaction.{IsCourse};
ghost use Rattle.ww_plain.specs.Walk.{IsWalkEnd, GoesOnTo};
ghost use Rattle.ww_lock.specs.Holding.{IsAtHome};
ghost use Rattle.ww_lock.specs.Waits.TheVariants.{UntilCancelled};
ghost use Rattle.ww_users.specs.Ways.{IsContext, IsSameContext, HoldsWalk, IsWalkAnswer};
ghost use Rattle.ww_users.specs.Trips.{IsHalt};

use crate::context::{back_off, begin, give_up, lock_one};
use crate::fault::{Taken, UserFault};
use arrayvec::ArrayVec;
use std::sync::Wait;
use ww_lock::{Acquiring, Done, Halt, Pass, Waits, World};
use ww_plain::{MAX_NODES, PORTS};

/// Method 3: locks the walk from a node along a port, of at most this many nodes, and its stop, as it finds them. On
/// EDEADLK it releases all, takes the contended lock by the slow path, keeps it, and starts the walk again:
/// others may have changed the ports along it. A spent pass is returned.
pub fn lock_walk<R: Wait>(
    world: &World,
    pass: Pass,
    rt: &R,
    start: u8,
    port: u8,
    most: u8,
) -> Result<Done, Pass>
    requires home { IsAtHome pass world.now }
    requires course { IsCourse (length world.now.first) start port most }
    ensures context { IfOk result (IsContext pass) }
    ensures holds { IfOk result (HoldsWalk start port most) }
    ensures err { IfErr result (λ p. (pass.left ≡ 0) × (p ≡ pass)) }
{
    match lock_walk_as(world, pass, rt, start, port, most, Waits::ToTheEnd) {
        Ok(done) => Ok(done),
        Err((pass, UserFault::PassSpent)) => Err(pass),
        Err(_) => unreachable!(),
    }
}

/// Method 3, but each wait may be cancelled. All is released then.
pub fn lock_walk_interruptible<R: Wait>(
    world: &World,
    pass: Pass,
    rt: &R,
    start: u8,
    port: u8,
    most: u8,
) -> Taken
    requires home { IsAtHome pass world.now }
    requires course { IsCourse (length world.now.first) start port most }
    ensures { IsWalkAnswer UntilCancelled pass start port most result }
{
    lock_walk_as(world, pass, rt, start, port, most, Waits::UntilCancelled)
}

/// Method 3; the last argument says how its lock calls wait.
pub fn lock_walk_as<R: Wait>(
    world: &World,
    pass: Pass,
    rt: &R,
    start: u8,
    port: u8,
    most: u8,
    waits: Waits,
) -> Taken
    requires home { IsAtHome pass world.now }
    requires course { IsCourse (length world.now.first) start port most }
    ensures { IsWalkAnswer waits pass start port most result }
{
    let mut acquiring = begin(world, pass)?;
    for _ in rt.forever() {
        match lock_along(world, acquiring, rt, start, port, most, waits) {
            Ok(acquiring) => return Ok(acquiring.done()),
            Err(Halt::Interrupted(acquiring, by)) => {
                return Err((give_up(world, acquiring, rt), UserFault::Interrupted(by)));
            }
            Err(Halt::Deadlk(backoff)) => acquiring = back_off(world, backoff, rt, waits)?,
        }
    }
    unreachable!()
}

/// One walk, with the stop, or as far as it gets. A node that is held already ends it where that is one of the
/// walk. Where it is the one kept from a slow lock, and the walk hasn't come to it before, the walk goes on from
/// it.
fn lock_along<R: Wait>(
    world: &World,
    acquiring: Acquiring,
    rt: &R,
    start: u8,
    port: u8,
    most: u8,
    waits: Waits,
) -> Result<Acquiring, Halt>
    requires home { IsAtHome acquiring world.now }
    requires course { IsCourse (length world.now.first) start port most }
    ensures ok { IfOk result (λ a. IsSameContext acquiring a × HoldsWalk start port most a) }
    ensures err { IfErr result (IsHalt waits acquiring) }
{
    let mut acquiring = lock_one(world, acquiring, rt, start, waits)?;
    let mut walk = ArrayVec::<u8, MAX_NODES>::new();
    walk.push(start);
    let mut stop = target_of(world, &acquiring, start, port);
    while let Some(next) = stop {
        acquiring = lock_one(world, acquiring, rt, next, waits)?;
        if is_over(&walk, most, next) {
            return Ok(acquiring);
        }
        walk.push(next);
        stop = target_of(world, &acquiring, next, port);
    }
    Ok(acquiring)
}

/// Whether a walk of at most this many nodes ends after these, if the port of the last one names this node.
fn is_over(walk: &[u8], most: u8, next: u8) -> bool
    ensures over { IsTrue result → IsWalkEnd walk.now most (Some next) }
    ensures goes_on { result ≡ false → GoesOnTo walk.now most (Some next) next }
{
    walk.len() >= usize::from(most) || walk.contains(&next)
}

/// Where a port of a held node leads.
fn target_of(world: &World, acquiring: &Acquiring, n: u8, port: u8) -> Option<u8>
    requires home { IsAtHome acquiring.now world.now × (n < length world.now.first) }
    requires held { IsTrue (is_among n acquiring.now.held) × (port < PORTS) }
    ensures leads { result ≡ port_of acquiring.now.seen n port }
    ensures there { IfSome result (λ target. target < length world.now.first) }
{
    acquiring.read(world, n)?.ports[usize::from(port)]
}
