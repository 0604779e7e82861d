//! Two threads in step: one waits for a lock, and the other releases it only once the first was cancelled. So a
//! cancel that is lost, or the wake-up for it, makes this hang.

ghost use Rattle.ww_lock.specs.Holding.{IsAtHome};

use crate::sides::{Side, Sides, pause};
use std::alloc::Global;
use std::process::Abort;
use std::sync::Wait;
use std::test::Fail;
use std::thread;
use std::thread::Threads;
use ww_lock::{Interruptible, Pass, World};
use ww_queue::Kind;
use ww_tests::{first_locked, three_passes};

const ROUNDS: u32 = 10_000;

/// In how many ways a cancel is late: at once where the other thread begins to ask, and up to when it mostly sleeps.
const DELAYS: u32 = 4;

/// For how many yields each way waits longer than the one before.
const YIELDS: u32 = 30;

/// Gives the other thread a while to come to wait.
fn delay(round: u32) {
    pause(round % DELAYS * YIELDS);
}

/// Holds node 0 until pass 0, which asks for it, was cancelled by pass 2.
fn holds<R: Wait>(
    rt: &R,
    world: &World,
    pass: Pass,
    mut two: Pass,
    round: u32,
    sides: &Sides,
) -> (Pass, Pass, bool)
    requires pass { IsAtHome pass world.now }
    requires two { IsAtHome two world.now }
    ensures pass { IsAtHome result.0 world.now }
    ensures two { IsAtHome result.1 world.now }
{
    if world.size() == 0 || world.passes() == 0 {
        return (pass, two, false);
    }
    match first_locked(rt, world, pass, 0) {
        Ok(acquiring) => {
            let is_asked = sides.meet();
            delay(round);
            let is_set = two.cancel(world, 0);
            let is_told = sides.meet();
            let pass = acquiring.unlock_all(rt, world).fini(world);
            (pass, two, is_asked && is_set && is_told)
        }
        Err(pass) => (pass, two, false),
    }
}

/// Asks for node 0, which another holds until this call is cancelled. It returns whether pass 2 did that.
fn asks<R: Wait>(rt: &R, world: &World, pass: Pass, sides: &Sides) -> (Pass, bool)
    requires home { IsAtHome pass world.now }
    ensures home { IsAtHome result.0 world.now }
{
    if world.size() == 0 {
        return (pass, false);
    }
    let acquiring = match pass.begin(world) {
        Ok(acquiring) => acquiring,
        Err(pass) => return (pass, false),
    };
    let is_held = sides.meet();
    let lock = acquiring.lock_interruptible(rt, world, 0);
    let is_told = sides.meet();
    match lock {
        Interruptible::Interrupted(acquiring, by) => {
            let is_right = by == 2 && !acquiring.held(0);
            let pass = acquiring.unlock_all(rt, world).fini(world);
            (pass, is_held && is_told && is_right)
        }
        Interruptible::Locked(acquiring) | Interruptible::Already(acquiring) => {
            (acquiring.unlock_all(rt, world).fini(world), false)
        }
        Interruptible::Deadlk(backoff) => (backoff.unlock_all(rt, world).fini(world), false),
    }
}

/// In how many of its rounds all came as it must to the thread that holds.
fn all_holds<R: Wait>(rt: &R, world: &World, mut pass: Pass, mut two: Pass, sides: &Sides) -> u32
    requires pass { IsAtHome pass world.now }
    requires two { IsAtHome two world.now }
{
    let mut good = 0u32;
    for round in 0..ROUNDS {
        let (next, next_two, is_good) = holds(rt, world, pass, two, round, sides);
        pass = next;
        two = next_two;
        good = good.saturating_add(u32::from(is_good));
    }
    good
}

/// In how many of its rounds all came as it must to the thread that asks.
fn all_asks<R: Wait>(rt: &R, world: &World, mut pass: Pass, sides: &Sides) -> u32
    requires home { IsAtHome pass world.now }
{
    let mut good = 0u32;
    for _ in 0..ROUNDS {
        let (next, is_good) = asks(rt, world, pass, sides);
        pass = next;
        good = good.saturating_add(u32::from(is_good));
    }
    good
}

/// Two threads at once: that which holds has two passes, as only a pass that does nothing else calls anybody off.
fn in_step<R: Threads + Wait + Abort + Sync>(
    rt: &R,
    alloc: Global,
    kind: Kind,
) -> Result<(), Fail> {
    let (world, zero, one, two) = three_passes(alloc, kind, ROUNDS)?;
    let (asking, holding) = (Side::new(), Side::new());
    let (shared, asking, holding) = (&world, &asking, &holding);
    let goods = thread::join(
        rt,
        move || -> u32
            requires { IsAtHome zero shared.now }
        { all_asks(rt, shared, zero, &Sides::new(asking, holding)) },
        move || -> u32
            requires { IsAtHome one shared.now × IsAtHome two shared.now }
        { all_holds(rt, shared, one, two, &Sides::new(holding, asking)) },
    );
    assert_eq!(rt; goods, (ROUNDS, ROUNDS));
    Ok(())
}

#[test]
fn a_waiter_is_called_off_wound_and_wait(rt: HostRuntime) -> Result<(), Fail> {
    in_step(&rt, rt.alloc(), Kind::WoundWait)
}

#[test]
fn a_waiter_is_called_off_wait_and_die(rt: HostRuntime) -> Result<(), Fail> {
    in_step(&rt, rt.alloc(), Kind::WaitDie)
}
