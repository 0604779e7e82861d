//! A walk that keeps a node from a slow lock, though the list doesn't lead there any more: it was cut in between.

ghost use Rattle.std.specs.Prelude.{◌≡◌, length};
ghost use Rattle.ww_lock.specs.Holding.{IsAtHome};

use crate::sides::{is_reached, rest};
use std::alloc::Global;
use std::process::Abort;
use std::sync::Wait;
use std::sync::atomic::{AtomicU64, Ordering};
use std::test::Fail;
use std::thread;
use std::thread::Threads;
use ww_lock::{Lock, Pass, World};
use ww_plain::{Reply, Txn};
use ww_queue::Kind;
use ww_tests::{KINDS, commit, first_locked, graph_of, is_possible, tries};
use ww_users::lock_walk;

/// What the threads wait for, one after another.
const LAST_IS_HELD: u64 = 1;

const CUTTER_HAS_BEGUN: u64 = 2;

const WALK_IS_AWAY: u64 = 3;

const LIST_IS_CUT: u64 = 4;

/// How often somebody looks whether the walk has come to the middle.
const TRIES: u32 = 10_000;

/// How many walks may miss the last node, since the list was cut too early for them.
const WALKS: u32 = 100;

/// What a thread returns: its pass, whether all came as it must, and whether it kept the last node.
#[derive(Drop)]
struct Work {
    pass: Pass,
    good: bool,
    kept: bool,
}

/// The oldest context holds the last node until the list is cut.
fn holds<R: Wait>(rt: &R, world: &World, pass: Pass, stage: &AtomicU64) -> (Pass, bool)
    requires home { IsAtHome pass world.now }
    requires size { length world.now.first ≡ 4 }
    ensures home { IsAtHome result.0 world.now }
{
    match first_locked(rt, world, pass, 2) {
        Ok(acquiring) => {
            stage.store(LAST_IS_HELD, Ordering::SeqCst);
            let is_cut = is_reached(stage, LIST_IS_CUT);
            (acquiring.unlock_all(rt, world).fini(world), is_cut)
        }
        Err(pass) => (pass, false),
    }
}

/// The second oldest takes the middle node from the walk, and cuts the list behind it. It holds a node that nobody else
/// wants, since a context that holds nothing lets a younger one go on.
fn cuts<R: Wait>(rt: &R, world: &World, pass: Pass, stage: &AtomicU64) -> (Pass, bool)
    requires home { IsAtHome pass world.now }
    requires size { length world.now.first ≡ 4 }
    ensures home { IsAtHome result.0 world.now }
{
    let is_second = is_reached(stage, LAST_IS_HELD);
    let acquiring = match first_locked(rt, world, pass, 3) {
        Ok(acquiring) => acquiring,
        Err(pass) => return (pass, false),
    };
    stage.store(CUTTER_HAS_BEGUN, Ordering::SeqCst);
    let is_away = is_reached(stage, WALK_IS_AWAY);
    match acquiring.lock(rt, world, 1) {
        Lock::Locked(acquiring) => {
            let (pass, receipt) = commit(rt, world, acquiring.done(), Txn::Link(1, 0, None));
            stage.store(LIST_IS_CUT, Ordering::SeqCst);
            (pass, is_second && is_away && receipt.is_some())
        }
        Lock::Already(acquiring) => (acquiring.unlock_all(rt, world).fini(world), false),
        Lock::Deadlk(backoff) => (backoff.unlock_all(rt, world).fini(world), false),
    }
}

/// The walk along the list, of which two nodes are left, and whether it holds the last one beside them.
fn walks<R: Wait>(rt: &R, world: &World, pass: Pass, stage: &AtomicU64) -> (Pass, bool, bool)
    requires home { IsAtHome pass world.now }
    requires size { length world.now.first ≡ 4 }
    ensures home { IsAtHome result.0 world.now }
{
    let is_third = is_reached(stage, CUTTER_HAS_BEGUN);
    let done = match lock_walk(world, pass, rt, 0, 0, 64) {
        Ok(done) => done,
        Err(pass) => return (pass, false, false),
    };
    let has_kept = is_possible(world, &done, &Txn::Peek(2));
    let (pass, receipt) = commit(rt, world, done, Txn::Sum(0, 0, 64));
    let is_short = receipt.is_some_and(|told| told.reply == Reply::Sum(2, 3));
    (pass, is_third && is_short, has_kept)
}

/// Tries for the middle node until the walk has it, or until it mostly has backed off already, as in Wait-Die it does
/// at once.
fn looks<R: Wait + Abort>(rt: &R, world: &World, mut pass: Pass, stage: &AtomicU64) -> (Pass, bool)
    requires home { IsAtHome pass world.now }
    ensures home { IsAtHome result.0 world.now }
{
    assert!(rt; world.size() > 1);
    let is_third = is_reached(stage, CUTTER_HAS_BEGUN);
    for round in 0..TRIES {
        let (next, told) = tries(rt, world, pass, 1);
        assert!(rt; told.is_some());
        pass = next;
        if told == Some(true) {
            break;
        }
        rest(round);
    }
    stage.store(WALK_IS_AWAY, Ordering::SeqCst);
    (pass, is_third)
}

/// What the thread of a pass does.
fn plays<R: Wait + Abort>(rt: &R, world: &World, pass: Pass, stage: &AtomicU64) -> Work
    requires home { IsAtHome pass world.now }
    ensures home { IsAtHome result.pass world.now }
{
    assert!(rt; world.size() == 4);
    let (pass, good, kept) = match pass.caller() {
        0 => {
            let (pass, good) = holds(rt, world, pass, stage);
            (pass, good, false)
        }
        1 => {
            let (pass, good) = cuts(rt, world, pass, stage);
            (pass, good, false)
        }
        2 => walks(rt, world, pass, stage),
        _ => {
            let (pass, good) = looks(rt, world, pass, stage);
            (pass, good, false)
        }
    };
    Work { pass, good, kept }
}

/// One walk, and whether it kept the last node.
fn walk_once<R: Threads + Wait + Abort + Sync>(
    rt: &R,
    alloc: Global,
    kind: Kind,
) -> Result<bool, Fail> {
    let graph = graph_of(alloc, &[(1, Some(1)), (2, Some(2)), (3, None), (0, None)])?;
    let Ok((world, passes)) = World::open(alloc, kind, graph, 4, u32::MAX) else {
        return Err(Fail::from("it opens"));
    };
    let stage = AtomicU64::new(0);
    let (shared, stage) = (&world, &stage);
    let works = thread::map_vec(
        rt,
        passes,
        &|pass: Pass| -> Work
            requires { IsAtHome pass shared.now }
            ensures { IsAtHome result.pass shared.entry.now }
        { plays(rt, shared, pass, stage) },
    )?;
    assert!(rt; works.len() == 4);
    assert!(rt; works.iter().all(|work| work.good));
    Ok(works.iter().any(|work| work.kept))
}

/// Walks until one does.
fn keeps<R: Threads + Wait + Abort + Sync>(
    rt: &R,
    alloc: Global,
    kind: Kind,
) -> Result<bool, Fail> {
    for _ in 0..WALKS {
        if walk_once(rt, alloc, kind)? {
            return Ok(true);
        }
    }
    Ok(false)
}

#[test]
fn a_walk_keeps_what_it_waited_for(rt: HostRuntime) -> Result<(), Fail> {
    for kind in KINDS {
        assert!(rt; keeps(&rt, rt.alloc(), kind)?);
    }
    Ok(())
}
