//! Two threads whose lists, walks or transactions begin at opposite ends of a chain. Each of their rounds commits, so
//! what comes of all of them is the same whatever the schedule.

ghost use Rattle.std.specs.Prelude.{◌≡◌, ◌<◌, length, IsTrue, IfOk, IfErr};
ghost use Rattle.ww_plain.specs.Numbers.{is_among};
ghost use Rattle.ww_lock.specs.Holding.{IsAtHome};
ghost use Rattle.ww_users.specs.Rounds.{IsRound};

use std::alloc::{AllocError, Global};
use std::process::Abort;
use std::sync::Wait;
use std::test::Fail;
use std::thread;
use std::thread::Threads;
use ww_lock::{Acquiring, Done, Pass, World};
use ww_plain::{By, Graph, Txn, replays};
use ww_queue::Kind;
use ww_tests::{add, chain, commit, graph_of};
use ww_txn::{Open, transact};
use ww_users::{lock_list, lock_order, lock_until, lock_walk};

/// For how many rounds the threads lock and commit by themselves, and for how many each makes its transaction in one
/// call.
const WAY_ROUNDS: u32 = 200;

const CALL_ROUNDS: u32 = 2_000;

/// Which way two threads take their locks.
#[derive(Clone, Copy)]
enum Way {
    List,
    Order,
    Walk,
    Until,
}

/// Takes the locks of both nodes, in this order at first.
fn both<R: Wait>(rt: &R, world: &World, acquiring: Acquiring, one: u8, other: u8) -> Acquiring
    requires home { IsAtHome acquiring world.now }
    requires one { one < length world.now.first }
    requires other { other < length world.now.first }
    ensures home { IsAtHome result world.now }
    ensures held { IsTrue (is_among other result.held) }
{
    let body = |acquiring: Acquiring|
        requires home { IsAtHome acquiring world.now }
        requires one { one < length world.now.first }
        requires other { other < length world.now.first }
        ensures round { IsRound acquiring result }
        ensures held { IfOk result (λ a. IsTrue (is_among other a.held)) }
    {
        let acquiring = acquiring.lock(rt, world, one).going_on()?;
        acquiring.lock(rt, world, other).going_on()
    };
    lock_until(rt, world, acquiring, body)
}

/// The locks of a round. The other thread's list is this one's turned round, and its walk begins at the other end.
fn taken<R: Wait>(rt: &R, world: &World, pass: Pass, way: Way) -> Result<Done, Pass>
    requires home { IsAtHome pass world.now }
    requires size { length world.now.first ≡ 3 }
    ensures ok { IfOk result (λ d. IsAtHome d world.now) }
    ensures err { IfErr result (λ p. IsAtHome p world.now) }
{
    let list = if pass.caller() == 0 {
        [0, 1, 2]
    } else {
        [2, 1, 0]
    };
    let answer = match way {
        Way::List => lock_list(world, pass, rt, &list),
        Way::Order => lock_order(world, pass, rt, &list),
        Way::Walk => return lock_walk(world, pass, rt, list[0], 0, 64),
        Way::Until => {
            let acquiring = pass.begin(world)?;
            return Ok(both(rt, world, acquiring, list[0], list[2]).done());
        }
    };
    match answer {
        Ok(done) => Ok(done),
        Err((pass, _)) => Err(pass),
    }
}

/// What a round commits. Each walk turns the other's.
fn change_of(way: Way, is_first: bool) -> Txn {
    match (way, is_first) {
        (Way::Walk, true) => Txn::Reverse(0, 0, 64),
        (Way::Walk, false) => Txn::Reverse(2, 0, 64),
        (_, true) => Txn::Move(0, 2, 1),
        (_, false) => Txn::Move(2, 0, 3),
    }
}

/// One commit, if it comes to that.
fn taken_and_changed<R: Wait>(rt: &R, world: &World, pass: Pass, way: Way) -> Pass
    requires home { IsAtHome pass world.now }
    ensures home { IsAtHome result world.now }
{
    if world.size() != 3 {
        return pass;
    }
    let is_first = pass.caller() == 0;
    match taken(rt, world, pass, way) {
        Ok(done) => commit(rt, world, done, change_of(way, is_first)).0,
        Err(pass) => pass,
    }
}

/// Adds 1 to both ends in one call, the first caller in this order, the other in the opposite one.
fn called<R: Wait>(rt: &R, alloc: Global, world: &World, pass: Pass) -> Pass
    requires home { IsAtHome pass world.now }
    ensures home { IsAtHome result world.now }
{
    let amounts = if pass.caller() == 0 {
        [(0, 1), (2, 1)]
    } else {
        [(2, 1), (0, 1)]
    };
    match add(alloc, By::List, &amounts) {
        Ok(txn) if txn.fits(world.size()) => transact(world, pass, rt, &Open, txn).0,
        _ => pass,
    }
}

/// All rounds of a thread: each takes its locks this way, or is one call.
fn rounds<R: Wait>(rt: &R, alloc: Global, world: &World, mut pass: Pass, way: Option<Way>) -> Pass
    requires home { IsAtHome pass world.now }
    ensures home { IsAtHome result world.now }
{
    for _ in 0..count(way) {
        pass = match way {
            Some(way) => taken_and_changed(rt, world, pass, way),
            None => called(rt, alloc, world, pass),
        };
    }
    pass
}

const fn count(way: Option<Way>) -> u32 {
    match way {
        Some(_) => WAY_ROUNDS,
        None => CALL_ROUNDS,
    }
}

/// Whether that is what all rounds come to: the moves and the additions add up, and the chain leads one way or the
/// other.
fn is_last(alloc: Global, graph: &Graph, way: Option<Way>) -> Result<bool, AllocError> {
    let values = match way {
        Some(Way::List | Way::Order | Way::Until) => [1400, 1000, 600],
        Some(Way::Walk) => [1000; 3],
        None => [5000, 1000, 5000],
    };
    let turned = [(1000, None), (1000, Some(0)), (1000, Some(1))];
    Ok(
        graph.is_same(&chain(alloc, values)?)
            || matches!(way, Some(Way::Walk)) && graph.is_same(&graph_of(alloc, &turned)?),
    )
}

/// Two threads at the same time.
fn race<R: Threads + Wait + Abort + Sync>(
    rt: &R,
    alloc: Global,
    kind: Kind,
    way: Option<Way>,
) -> Result<(), Fail> {
    let graph = chain(alloc, [1000; 3])?;
    let Ok((world, passes)) = World::open(alloc, kind, graph, 2, count(way)) else {
        return Err(Fail::from("it opens"));
    };
    let shared = &world;
    let passes = thread::map_vec(
        rt,
        passes,
        &|pass: Pass| -> Pass
            requires { IsAtHome pass shared.now }
            ensures { IsAtHome result shared.entry.now }
        { rounds(rt, alloc, shared, pass, way) },
    )?;
    let Ok(history) = world.close(passes) else {
        panic!(rt; "the world doesn't close")
    };
    assert!(rt; history.records.len() == 2 * count(way) as usize);
    assert!(rt; is_last(alloc, &history.graph, way)?);
    match replays(alloc, chain(alloc, [1000; 3])?, &history.records)? {
        Some(last) => assert!(rt; last.is_same(&history.graph)),
        None => panic!(rt; "the history isn't legal"),
    }
    Ok(())
}

#[test]
fn lists_in_opposite_orders_commit(rt: HostRuntime) -> Result<(), Fail> {
    race(&rt, rt.alloc(), Kind::WoundWait, Some(Way::List))?;
    race(&rt, rt.alloc(), Kind::WaitDie, Some(Way::List))
}

#[test]
fn reordered_lists_commit(rt: HostRuntime) -> Result<(), Fail> {
    race(&rt, rt.alloc(), Kind::WoundWait, Some(Way::Order))?;
    race(&rt, rt.alloc(), Kind::WaitDie, Some(Way::Order))
}

#[test]
fn walks_that_turn_each_other_commit(rt: HostRuntime) -> Result<(), Fail> {
    race(&rt, rt.alloc(), Kind::WoundWait, Some(Way::Walk))?;
    race(&rt, rt.alloc(), Kind::WaitDie, Some(Way::Walk))
}

#[test]
fn bodies_in_opposite_orders_commit(rt: HostRuntime) -> Result<(), Fail> {
    race(&rt, rt.alloc(), Kind::WoundWait, Some(Way::Until))?;
    race(&rt, rt.alloc(), Kind::WaitDie, Some(Way::Until))
}

#[test]
fn transactions_in_opposite_orders_commit(rt: HostRuntime) -> Result<(), Fail> {
    race(&rt, rt.alloc(), Kind::WoundWait, None)?;
    race(&rt, rt.alloc(), Kind::WaitDie, None)
}
