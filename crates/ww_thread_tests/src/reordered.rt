//! A list whose order changes. In Wait-Die it is stopped at its second entry, and then at its third: from then on it
//! takes both of them before its first one. A list that is taken in its order has one of them at most then.

ghost use Rattle.std.specs.Prelude.{◌≡◌, length};
ghost use Rattle.ww_lock.specs.Holding.{IsAtHome};

use crate::sides::{Side, Sides, pause};
use std::alloc::Global;
use std::process::Abort;
use std::sync::Wait;
use std::test::Fail;
use std::thread;
use std::thread::Threads;
use ww_lock::{Acquiring, Pass, Try, World};
use ww_queue::Kind;
use ww_tests::{ended, first_locked, three_passes, tries};
use ww_users::lock_order;

/// How many lists may be stopped elsewhere, since they came too late.
const LISTS: u32 = 100;

/// For how many yields more than the one before each of them is given time.
const YIELDS: u32 = 100;

/// How often somebody looks whether both entries are taken.
const TRIES: u32 = 2_000;

/// Locks the list, and releases it.
fn lists<R: Wait>(rt: &R, world: &World, pass: Pass, sides: &Sides) -> bool
    requires home { IsAtHome pass world.now }
{
    let is_met = sides.meet();
    if world.size() != 3 {
        return false;
    }
    match lock_order(world, pass, rt, &[0, 1, 2]) {
        Ok(done) => {
            done.unlock_all(rt, world).fini(world);
            is_met
        }
        Err((_pass, _)) => false,
    }
}

/// Whether nodes 1 and 2 come to be busy.
fn are_busy<R: Wait + Abort>(rt: &R, world: &World, mut pass: Pass) -> bool
    requires home { IsAtHome pass world.now }
{
    assert!(rt; world.size() > 2);
    for _ in 0..TRIES {
        let (next, one) = tries(rt, world, pass, 1);
        let (next, two) = tries(rt, world, next, 2);
        assert!(rt; one.is_some() && two.is_some());
        pass = next;
        if one == Some(true) && two == Some(true) {
            return true;
        }
        pause(1);
    }
    false
}

/// Takes node 0 while the list waits for node 2, and keeps it while that is released. It returns whether the list took
/// both other nodes meanwhile.
fn first_is_kept<R: Wait + Abort>(rt: &R, world: &World, pass: Pass, second: Acquiring) -> bool
    requires pass { IsAtHome pass world.now }
    requires second { IsAtHome second world.now }
    requires size { length world.now.first ≡ 3 }
{
    let Ok(acquiring) = pass.begin(world) else {
        panic!(rt; "the pass is spent")
    };
    match acquiring.try_lock(world, 0) {
        Try::Locked(first) => {
            let pass = ended(rt, world, second);
            let are_busy = are_busy(rt, world, pass);
            ended(rt, world, first);
            are_busy
        }
        Try::Busy(none) => {
            ended(rt, world, second);
            ended(rt, world, none);
            false
        }
    }
}

/// Two older contexts have a node each, which they release one after the other.
fn stops<R: Wait + Abort>(
    rt: &R,
    world: &World,
    one: Pass,
    two: Pass,
    sides: &Sides,
    yields: u32,
) -> bool
    requires one { IsAtHome one world.now }
    requires two { IsAtHome two world.now }
{
    assert!(rt; world.size() == 3);
    let Ok(first) = first_locked(rt, world, one, 1) else {
        panic!(rt; "node 1 isn't free")
    };
    let Ok(second) = first_locked(rt, world, two, 2) else {
        panic!(rt; "node 2 isn't free")
    };
    let is_met = sides.meet();
    pause(yields);
    let pass = ended(rt, world, first);
    pause(yields);
    let has_both = first_is_kept(rt, world, pass, second);
    is_met && has_both
}

/// One list, and whether it was seen to take both entries before its first one.
fn in_another_order<R: Threads + Wait + Abort + Sync>(
    rt: &R,
    alloc: Global,
    yields: u32,
) -> Result<bool, Fail> {
    let (world, zero, one, two) = three_passes(alloc, Kind::WaitDie, u32::MAX)?;
    let (listing, stopping) = (Side::new(), Side::new());
    let (shared, listing, stopping) = (&world, &listing, &stopping);
    let (is_listed, is_seen) = thread::join(
        rt,
        move || -> bool
            requires { IsAtHome zero shared.now }
        { lists(rt, shared, zero, &Sides::new(listing, stopping)) },
        move || -> bool
            requires { IsAtHome one shared.now × IsAtHome two shared.now }
        { stops(rt, shared, one, two, &Sides::new(stopping, listing), yields) },
    );
    assert!(rt; is_listed);
    Ok(is_seen)
}

#[test]
fn a_contended_entry_comes_first_from_then_on(rt: HostRuntime) -> Result<(), Fail> {
    for list in 1..=LISTS {
        if in_another_order(&rt, rt.alloc(), list.saturating_mul(YIELDS))? {
            return Ok(());
        }
    }
    Err(Fail::from("no list was seen in another order"))
}
