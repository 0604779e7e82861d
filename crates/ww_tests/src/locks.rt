//! What one thread sees that takes several passes of a world. A state isn't dropped: a helper that meets another answer
//! than it must meet stops the test.

ghost use Rattle.std.specs.Prelude.{◌<◌, length, IfOk};
ghost use Rattle.ww_lock.specs.Holding.{IsAtHome, AreAtHome};

use crate::{ended, graph_of, one_pass};
use std::alloc::{AllocError, Global};
use std::process::Abort;
use std::sync::Wait;
use std::test::Fail;
use ww_lock::{Acquiring, Backoff, History, Lock, Pass, World};
use ww_plain::{Graph, Node, PORTS};
use ww_queue::Kind;

/// A world of these nodes, with two passes, each of which may begin once.
pub(crate) fn two_passes(
    alloc: Global,
    kind: Kind,
    nodes: &[(u64, Option<u8>)],
) -> Result<(World, Pass, Pass), AllocError>
    ensures { IfOk result (λ r. IsAtHome r.1 r.0 × IsAtHome r.2 r.0) }
{
    let graph = graph_of(alloc, nodes)?;
    let Ok((world, mut passes)) = World::open(alloc, kind, graph, 2, 1) else {
        return Err(AllocError);
    };
    let (Some(one), Some(zero)) = (passes.pop(), passes.pop()) else {
        return Err(AllocError);
    };
    Ok((world, zero, one))
}

/// Begins a context with what the pass has left.
pub(crate) fn begun<R: Abort>(rt: &R, world: &World, pass: Pass) -> Acquiring
    requires home { IsAtHome pass world.now }
    ensures home { IsAtHome result world.now }
{
    match pass.begin(world) {
        Ok(acquiring) => acquiring,
        Err(_) => panic!(rt; "the pass is spent"),
    }
}

/// Takes a lock that is free.
pub(crate) fn locked<R: Wait + Abort>(
    rt: &R,
    world: &World,
    acquiring: Acquiring,
    n: u8,
) -> Acquiring
    requires home { IsAtHome acquiring world.now }
    requires node { n < length world.now.first }
    ensures home { IsAtHome result world.now }
{
    let lock = acquiring.lock(rt, world, n);
    assert!(rt; lock.code() == 0);
    match lock {
        Lock::Locked(acquiring) | Lock::Already(acquiring) => acquiring,
        Lock::Deadlk(_backoff) => panic!(rt; "an older context was met"),
    }
}

/// Asks for a lock for which it has to back off.
fn refused<R: Wait + Abort>(rt: &R, world: &World, acquiring: Acquiring, n: u8) -> Backoff
    requires home { IsAtHome acquiring world.now }
    requires node { n < length world.now.first }
    ensures home { IsAtHome result.holding world.now }
{
    let lock = acquiring.lock(rt, world, n);
    assert!(rt; lock.code() == 35);
    match lock {
        Lock::Deadlk(backoff) => backoff,
        Lock::Locked(_acquiring) => panic!(rt; "the lock was free"),
        Lock::Already(_acquiring) => panic!(rt; "the lock was held"),
    }
}

/// Closes a world with all its passes.
pub(crate) fn closed<R: Abort>(rt: &R, world: World, passes: Vec<Pass>) -> History
    requires { AreAtHome passes.items world }
{
    match world.close(passes) {
        Ok(history) => history,
        Err((_, _, fault)) => panic!(rt; "{fault:?}"),
    }
}

/// A graph of 64 nodes, each of which differs from all others.
pub(crate) fn full_graph(alloc: Global) -> Result<Graph, AllocError> {
    let mut nodes = Vec::new(alloc);
    for n in 0..64 {
        let mut ports = [None; PORTS];
        ports[1] = Some(63 - n);
        ports[PORTS - 1] = Some(n);
        nodes.push(Node {
            value: u64::from(n) * 3,
            ports,
        })?;
    }
    Graph::new(nodes).ok().ok_or(AllocError)
}

/// How often a pass lost a try, looked, slept and backed off.
fn waits_of(pass: &Pass) -> (u64, u64, u64, u64) {
    let waited = pass.waited();
    (waited.lost, waited.looks, waited.sleeps, waited.back_offs)
}

/// The younger one loses its try for a lock, and gets EDEADLK in its only look. The older one took its lock at once, and
/// didn't wait.
#[test]
fn younger_holder_backs_off(rt: HostRuntime) -> Result<(), Fail> {
    let (world, zero, one) = two_passes(rt.alloc(), Kind::WaitDie, &[(7, None), (8, None)])?;
    assert!(rt; world.size() == 2);
    let zero = locked(&rt, &world, begun(&rt, &world, zero), 0);
    let one = locked(&rt, &world, begun(&rt, &world, one), 1);
    let one = refused(&rt, &world, one, 0);
    assert_eq!(rt; (one.contended(), one.met()), (0, 1));
    let one = one.unlock_all(&rt, &world);
    let zero = ended(&rt, &world, zero);
    let one = one.lock_slow(&rt, &world);
    assert_eq!(rt; one.stamp(), 2);
    assert_eq!(rt; (one.held(0), one.held(1)), (true, false));
    let one = ended(&rt, &world, one);
    assert_eq!(rt; waits_of(&zero), (0, 0, 0, 0));
    assert_eq!(rt; waits_of(&one), (1, 1, 0, 1));
    Ok(())
}

/// Pass 1 takes node 1, and then begins anew with node 0: its stamp is what it was, and node 1 is free again.
#[test]
fn starting_over_keeps_the_stamp(rt: HostRuntime) -> Result<(), Fail> {
    let (world, zero, one) = two_passes(rt.alloc(), Kind::WoundWait, &[(7, None), (8, None)])?;
    assert!(rt; world.size() == 2);
    let zero = begun(&rt, &world, zero);
    let one = locked(&rt, &world, begun(&rt, &world, one), 1);
    let one = one.start_over(&rt, &world, 0);
    assert_eq!(rt; one.stamp(), 2);
    assert_eq!(rt; (one.held(0), one.held(1)), (true, false));
    let zero = locked(&rt, &world, zero, 1);
    ended(&rt, &world, zero);
    ended(&rt, &world, one);
    Ok(())
}

/// A lock that was taken without a context, and is released with nothing committed.
#[test]
fn a_solo_that_commits_nothing_is_released(rt: HostRuntime) -> Result<(), Fail> {
    let alloc = rt.alloc();
    let (world, pass) = one_pass(alloc, Kind::WaitDie, graph_of(alloc, &[(7, None)])?, 2)?;
    assert!(rt; world.size() == 1);
    let Ok(solo) = pass.lock_solo(&rt, &world, 0) else {
        panic!(rt; "it had two left")
    };
    let acquiring = begun(&rt, &world, solo.unlock(&rt, &world));
    ended(&rt, &world, locked(&rt, &world, acquiring, 0));
    Ok(())
}
