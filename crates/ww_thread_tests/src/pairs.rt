//! Two threads in step, at the same two nodes. What each is told, whatever the timing, goes by the stamps and the kind.

ghost use Rattle.std.specs.Prelude.{◌<◌, length};
ghost use Rattle.ww_lock.specs.Holding.{IsAtHome};

use crate::sides::{Side, Sides, pause};
use std::alloc::Global;
use std::process::Abort;
use std::sync::Wait;
use std::test::Fail;
use std::thread;
use std::thread::Threads;
use ww_lock::{Acquiring, Backoff, Lock, Pass, World};
use ww_queue::Kind;
use ww_tests::{first_locked, graph_of};

const ROUNDS: u32 = 10_000;

/// For how many yields the older one keeps its lock in Wound-Wait. By then the younger one mostly waits for it.
const YIELDS: u32 = 5_000;

/// What the two do in each round, of which there are so many.
#[derive(Clone, Copy)]
enum Play {
    /// They lock both nodes in opposite orders: both hold their first node before either asks for its second. The
    /// younger alone gets EDEADLK.
    Crossed,
    /// The older holds a node and asks for nothing more, and the younger, which holds another node, asks for that one.
    /// In Wound-Wait it waits and gets it; in Wait-Die it gets EDEADLK, with the older one's stamp.
    Asked(Kind),
}

impl Play {
    const fn rounds(self) -> u32 {
        match self {
            Play::Crossed => ROUNDS,
            Play::Asked(_) => 1,
        }
    }
}

/// Releases all, takes the lock that it couldn't get, and ends. It returns whether it then held that lock and not its
/// first.
fn gives_way<R: Wait>(
    rt: &R,
    world: &World,
    backoff: Backoff,
    first: u8,
    second: u8,
) -> (Pass, bool)
    requires home { IsAtHome backoff.holding world.now }
    ensures home { IsAtHome result.0 world.now }
{
    let acquiring = backoff.unlock_all(rt, world).lock_slow(rt, world);
    let is_moved = acquiring.held(second) && !acquiring.held(first);
    (acquiring.unlock_all(rt, world).fini(world), is_moved)
}

/// Locks its second node, and ends. It returns whether that came as the stamps have it: the older one gets it, and the
/// younger gets EDEADLK, with the older one's stamp.
fn second_locked<R: Wait>(
    rt: &R,
    world: &World,
    acquiring: Acquiring,
    first: u8,
    second: u8,
    other: u64,
) -> (Pass, bool)
    requires home { IsAtHome acquiring world.now }
    requires node { second < length world.now.first }
    ensures home { IsAtHome result.0 world.now }
{
    let is_older = acquiring.stamp() < other;
    match acquiring.lock(rt, world, second) {
        Lock::Locked(acquiring) => {
            let has_both = acquiring.held(first) && acquiring.held(second);
            let pass = acquiring.unlock_all(rt, world).fini(world);
            (pass, is_older && has_both)
        }
        Lock::Already(acquiring) => (acquiring.unlock_all(rt, world).fini(world), false),
        Lock::Deadlk(backoff) => {
            let is_told = backoff.contended() == second && backoff.met() == other;
            let (pass, is_moved) = gives_way(rt, world, backoff, first, second);
            (pass, !is_older && is_told && is_moved)
        }
    }
}

/// A round in which each locks both nodes. Whatever comes, the other thread is met twice.
fn crosses<R: Wait>(
    rt: &R,
    world: &World,
    pass: Pass,
    first: u8,
    second: u8,
    sides: &Sides,
) -> (Pass, bool)
    requires home { IsAtHome pass world.now }
    requires first { first < length world.now.first }
    requires second { second < length world.now.first }
    ensures home { IsAtHome result.0 world.now }
{
    let has_begun = sides.meet();
    match first_locked(rt, world, pass, first) {
        Ok(acquiring) => {
            sides.show(acquiring.stamp());
            let hold_both = sides.meet();
            let other = sides.shown();
            let (pass, is_told) = second_locked(rt, world, acquiring, first, second, other);
            (pass, has_begun && hold_both && is_told)
        }
        Err(pass) => {
            sides.meet();
            (pass, false)
        }
    }
}

/// Keeps what is held: in Wait-Die until the other one is told.
fn stays(kind: Kind, sides: &Sides) -> bool {
    match kind {
        Kind::WoundWait => {
            pause(YIELDS);
            true
        }
        Kind::WaitDie => sides.meet(),
    }
}

/// The older one holds node 0 while the younger one asks for it.
fn holds<R: Wait>(rt: &R, world: &World, pass: Pass, kind: Kind, sides: &Sides) -> (Pass, bool)
    requires home { IsAtHome pass world.now }
    requires node { 0 < length world.now.first }
    ensures home { IsAtHome result.0 world.now }
{
    match first_locked(rt, world, pass, 0) {
        Ok(acquiring) => {
            sides.show(acquiring.stamp());
            let has_begun = sides.meet();
            let is_asked = sides.meet();
            let has_stayed = stays(kind, sides);
            let pass = acquiring.unlock_all(rt, world).fini(world);
            (pass, has_begun && is_asked && has_stayed)
        }
        Err(pass) => (pass, false),
    }
}

/// The younger one holds node 1 and asks for node 0. It returns whether the answer was that of the kind.
fn asks<R: Wait>(rt: &R, world: &World, pass: Pass, kind: Kind, sides: &Sides) -> (Pass, bool)
    requires home { IsAtHome pass world.now }
    requires node { 1 < length world.now.first }
    ensures home { IsAtHome result.0 world.now }
{
    let is_younger = sides.meet();
    let acquiring = match first_locked(rt, world, pass, 1) {
        Ok(acquiring) => acquiring,
        Err(pass) => return (pass, false),
    };
    let is_asking = sides.meet();
    let older = sides.shown();
    let lock = acquiring.lock(rt, world, 0);
    let is_told = kind == Kind::WoundWait || sides.meet();
    let is_right = is_younger && is_asking && is_told;
    match lock {
        Lock::Locked(acquiring) => {
            let has_both = acquiring.held(0) && acquiring.held(1);
            let pass = acquiring.unlock_all(rt, world).fini(world);
            (pass, is_right && has_both && kind == Kind::WoundWait)
        }
        Lock::Already(acquiring) => (acquiring.unlock_all(rt, world).fini(world), false),
        Lock::Deadlk(backoff) => {
            let names_older = backoff.contended() == 0 && backoff.met() == older;
            let pass = backoff.unlock_all(rt, world).fini(world);
            (pass, is_right && names_older && kind == Kind::WaitDie)
        }
    }
}

/// One round, and whether it came as it must.
fn round<R: Wait>(rt: &R, world: &World, pass: Pass, play: Play, sides: &Sides) -> (Pass, bool)
    requires home { IsAtHome pass world.now }
    ensures home { IsAtHome result.0 world.now }
{
    if world.size() != 2 {
        return (pass, false);
    }
    match (play, pass.caller()) {
        (Play::Crossed, 0) => crosses(rt, world, pass, 0, 1, sides),
        (Play::Crossed, _) => crosses(rt, world, pass, 1, 0, sides),
        (Play::Asked(kind), 0) => holds(rt, world, pass, kind, sides),
        (Play::Asked(kind), _) => asks(rt, world, pass, kind, sides),
    }
}

/// What a thread returns: its pass, and in how many of its rounds all came as it must.
#[derive(Drop)]
struct Work {
    pass: Pass,
    good: u32,
}

/// All rounds of a thread.
fn rounds<R: Wait>(rt: &R, world: &World, mut pass: Pass, play: Play, sides: &Sides) -> Work
    requires home { IsAtHome pass world.now }
    ensures home { IsAtHome result.pass world.now }
{
    let mut good = 0u32;
    for _ in 0..play.rounds() {
        let (next, is_good) = round(rt, world, pass, play, sides);
        pass = next;
        good = good.saturating_add(u32::from(is_good));
    }
    Work { pass, good }
}

/// Two threads at the same time.
fn in_step<R: Threads + Wait + Abort + Sync>(
    rt: &R,
    alloc: Global,
    kind: Kind,
    play: Play,
) -> Result<(), Fail> {
    let graph = graph_of(alloc, &[(0, None); 2])?;
    let Ok((world, passes)) = World::open(alloc, kind, graph, 2, play.rounds()) else {
        return Err(Fail::from("it opens"));
    };
    let (zero, one) = (Side::new(), Side::new());
    let (shared, zero, one) = (&world, &zero, &one);
    let works = thread::map_vec(
        rt,
        passes,
        &|pass: Pass| -> Work
            requires { IsAtHome pass shared.now }
            ensures { IsAtHome result.pass shared.entry.now }
        {
            let (own, other) = if pass.caller() == 0 {
                (zero, one)
            } else {
                (one, zero)
            };
            rounds(rt, shared, pass, play, &Sides::new(own, other))
        },
    )?;
    assert!(rt; works.len() == 2);
    for Work { pass: _, good } in &works {
        assert_eq!(rt; *good, play.rounds());
    }
    Ok(())
}

#[test]
fn younger_gives_way_wound_and_wait(rt: HostRuntime) -> Result<(), Fail> {
    in_step(&rt, rt.alloc(), Kind::WoundWait, Play::Crossed)
}

#[test]
fn younger_gives_way_wait_and_die(rt: HostRuntime) -> Result<(), Fail> {
    in_step(&rt, rt.alloc(), Kind::WaitDie, Play::Crossed)
}

#[test]
fn younger_waits_in_wound_and_wait(rt: HostRuntime) -> Result<(), Fail> {
    let kind = Kind::WoundWait;
    in_step(&rt, rt.alloc(), kind, Play::Asked(kind))
}

#[test]
fn younger_dies_in_wait_and_die(rt: HostRuntime) -> Result<(), Fail> {
    let kind = Kind::WaitDie;
    in_step(&rt, rt.alloc(), kind, Play::Asked(kind))
}
