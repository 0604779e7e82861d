//! A back-off that is cancelled. In Wound-Wait the younger of two threads takes nodes 0 and 1 by a way that may be
//! cancelled; the older one holds node 1, and asks for node 0 once the younger has it, so it gets that only when the
//! younger has backed off. Then it has the younger cancelled, and releases nothing before the younger is told: only a
//! slow lock that heeds the cancel ends the wait, and one that doesn't makes this fail.

ghost use Rattle.std.specs.Prelude.{◌≡◌, length};
ghost use Rattle.ww_lock.specs.Holding.{IsAtHome};
ghost use Rattle.ww_users.specs.Rounds.{IsHaltingRound};

use crate::sides::{Side, Sides, pause};
use std::alloc::Global;
use std::process::Abort;
use std::sync::Wait;
use std::test::Fail;
use std::thread;
use std::thread::Threads;
use ww_lock::{Acquiring, Lock, Pass, Try, World};
use ww_plain::Txn;
use ww_queue::Kind;
use ww_tests::{ended, first_locked, three_passes};
use ww_txn::{Open, TxnFault, transact_interruptible};
use ww_users::{
    UserFault, lock_list_interruptible, lock_order_interruptible, lock_until_interruptible,
    lock_walk_interruptible,
};

/// How often the younger may come too late, since it hadn't run when the older one looked for it.
const ROUNDS: u32 = 1_000;

/// For how many yields more than the time before the older one waits for it each time.
const YIELDS: u32 = 100;

/// By which way the younger takes both nodes.
#[derive(Clone, Copy)]
enum Way {
    List,
    Order,
    Walk,
    Body,
    Transaction,
}

const WAYS: [Way; 5] = [
    Way::List,
    Way::Order,
    Way::Walk,
    Way::Body,
    Way::Transaction,
];

/// Takes both nodes in the rounds of a body.
fn in_rounds<R: Wait>(rt: &R, world: &World, pass: Pass) -> Result<(), UserFault>
    requires home { IsAtHome pass world.now }
    requires size { length world.now.first ≡ 3 }
{
    let Ok(acquiring) = pass.begin(world) else {
        return Err(UserFault::PassSpent);
    };
    let body = |acquiring: Acquiring|
        requires home { IsAtHome acquiring world.now }
        requires size { length world.now.first ≡ 3 }
        ensures round { IsHaltingRound acquiring result }
    {
        let acquiring = acquiring.lock_interruptible(rt, world, 0).going_on()?;
        acquiring.lock_interruptible(rt, world, 1).going_on()
    };
    match lock_until_interruptible(rt, world, acquiring, body) {
        Ok(acquiring) => {
            ended(rt, world, acquiring);
            Ok(())
        }
        Err((_, by)) => Err(UserFault::Interrupted(by)),
    }
}

/// Moves a part of one node's value to the other in one call.
fn in_a_call<R: Wait>(rt: &R, world: &World, pass: Pass) -> Result<(), UserFault>
    requires home { IsAtHome pass world.now }
    requires size { length world.now.first ≡ 3 }
{
    match transact_interruptible(world, pass, rt, &Open, Txn::Move(0, 1, 1)).1 {
        Ok(_) => Ok(()),
        Err(TxnFault::Interrupted(by)) => Err(UserFault::Interrupted(by)),
        Err(_) => Err(UserFault::PassSpent),
    }
}

/// Takes nodes 0 and 1, in this order at first, and releases them.
fn takes<R: Wait>(rt: &R, world: &World, pass: Pass, way: Way) -> Result<(), UserFault>
    requires home { IsAtHome pass world.now }
    requires size { length world.now.first ≡ 3 }
{
    let locked = match way {
        Way::List => lock_list_interruptible(world, pass, rt, &[0, 1]),
        Way::Order => lock_order_interruptible(world, pass, rt, &[0, 1]),
        Way::Walk => lock_walk_interruptible(world, pass, rt, 0, 0, 2),
        Way::Body => return in_rounds(rt, world, pass),
        Way::Transaction => return in_a_call(rt, world, pass),
    };
    match locked {
        Ok(done) => {
            done.unlock_all(rt, world).fini(world);
            Ok(())
        }
        Err((_, fault)) => Err(fault),
    }
}

/// What the younger is told, once the older one holds node 1; and whether both have met.
fn younger<R: Wait>(
    rt: &R,
    world: &World,
    pass: Pass,
    way: Way,
    sides: &Sides,
) -> (Result<(), UserFault>, bool)
    requires home { IsAtHome pass world.now }
{
    let is_held = sides.meet();
    if world.size() != 3 {
        return (Err(UserFault::PassSpent), false);
    }
    let told = takes(rt, world, pass, way);
    let is_told = sides.meet();
    (told, is_held && is_told)
}

/// Gets node 0, for which the younger backs off, and releases it once the younger, which was cancelled since, is told.
fn calls_off<R: Wait + Abort>(
    rt: &R,
    world: &World,
    acquiring: Acquiring,
    mut two: Pass,
    sides: &Sides,
) -> bool
    requires acquiring { IsAtHome acquiring world.now }
    requires two { IsAtHome two world.now }
{
    assert!(rt; world.size() == 3 && world.passes() == 3);
    let acquiring = match acquiring.lock(rt, world, 0) {
        Lock::Locked(acquiring) => acquiring,
        Lock::Already(_acquiring) => panic!(rt; "node 0 was held"),
        Lock::Deadlk(_backoff) => panic!(rt; "the older one has to back off"),
    };
    assert!(rt; two.cancel(world, 0));
    let is_told = sides.meet();
    ended(rt, world, acquiring);
    is_told
}

/// The older one. It returns whether the younger had node 0, and whether both have met.
fn older<R: Wait + Abort>(
    rt: &R,
    world: &World,
    one: Pass,
    two: Pass,
    sides: &Sides,
    yields: u32,
) -> (bool, bool)
    requires one { IsAtHome one world.now }
    requires two { IsAtHome two world.now }
{
    assert!(rt; world.size() == 3);
    let Ok(acquiring) = first_locked(rt, world, one, 1) else {
        panic!(rt; "node 1 isn't free")
    };
    let is_held = sides.meet();
    pause(yields);
    match acquiring.try_lock(world, 0) {
        Try::Busy(acquiring) => {
            let is_told = calls_off(rt, world, acquiring, two, sides);
            (true, is_held && is_told)
        }
        Try::Locked(acquiring) => {
            ended(rt, world, acquiring);
            (false, is_held && sides.meet())
        }
    }
}

/// One try, and whether the younger had node 0 in time. Then its back-off is cancelled; else it gets both nodes.
fn is_called_off<R: Threads + Wait + Abort + Sync>(
    rt: &R,
    alloc: Global,
    way: Way,
    yields: u32,
) -> Result<bool, Fail> {
    let (world, zero, one, two) = three_passes(alloc, Kind::WoundWait, 1)?;
    let (asking, holding) = (Side::new(), Side::new());
    let (shared, asking, holding) = (&world, &asking, &holding);
    let ((told, is_met), (is_in_time, is_kept)) = thread::join(
        rt,
        move || -> (Result<(), UserFault>, bool)
            requires { IsAtHome zero shared.now }
        { younger(rt, shared, zero, way, &Sides::new(asking, holding)) },
        move || -> (bool, bool)
            requires { IsAtHome one shared.now × IsAtHome two shared.now }
        { older(rt, shared, one, two, &Sides::new(holding, asking), yields) },
    );
    assert!(rt; is_met && is_kept);
    match told {
        Ok(()) => assert!(rt; !is_in_time),
        Err(fault) => assert!(rt; is_in_time && fault == UserFault::Interrupted(2)),
    }
    Ok(is_in_time)
}

/// Tries until the younger has node 0 in time.
fn in_time<R: Threads + Wait + Abort + Sync>(rt: &R, alloc: Global, way: Way) -> Result<(), Fail> {
    for round in 1..=ROUNDS {
        if is_called_off(rt, alloc, way, round.saturating_mul(YIELDS))? {
            return Ok(());
        }
    }
    Err(Fail::from("the younger never came in time"))
}

#[test]
fn the_back_off_of_each_way_is_called_off(rt: HostRuntime) -> Result<(), Fail> {
    for way in WAYS {
        in_time(&rt, rt.alloc(), way)?;
    }
    Ok(())
}
