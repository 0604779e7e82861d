//! What a pass gets, and what it is refused: worlds with too many passes or too few, locks that are held, each way of taking
//! many, and each call by a pass that has nothing left. Clauses say most of it; these are small cases to read it from.

ghost use Rattle.std.specs.Prelude.{◌≡◌, ◌<◌, ◌≤◌, length, IfOk, Err};
ghost use Rattle.ww_lock.specs.Holding.{IsAtHome, AreAtHome};

use crate::locks::{begun, closed, full_graph, locked, two_passes};
use crate::transactions::{asked, values};
use crate::{KINDS, add, chain, commit_alone, ended, graph_of, is_possible, one_pass};
use std::alloc::{AllocError, Global};
use std::process::Abort;
use std::sync::Wait;
use std::test::Fail;
use ww_lock::{Acquiring, CloseFault, Done, Lock, OpenFault, Pass, Try, World};
use ww_plain::{By, Node, PORTS, Reply, Txn};
use ww_queue::Kind;
use ww_txn::{Open, TxnFault};
use ww_users::{Taken, UserFault, lock_list, lock_order, lock_walk};

#[test]
fn seventeen_passes_are_too_many(rt: HostRuntime) -> Result<(), Fail> {
    let alloc = rt.alloc();
    let opened = World::open(alloc, Kind::WaitDie, full_graph(alloc)?, 17, 1);
    let (graph, fault) = opened.err().ok_or("a world has 16")?;
    assert!(rt; fault == OpenFault::BadSize && fault.number() == 1);
    assert!(rt; graph.is_same(&full_graph(alloc)?));
    Ok(())
}

/// Divides the passes of a world: so many, and the others.
fn divided(
    _world: &World,
    mut passes: Vec<Pass>,
    count: usize,
) -> Result<(Vec<Pass>, Vec<Pass>), AllocError>
    requires count { count ≤ length passes.items }
    requires home { AreAtHome passes.items _world.now }
    ensures there { IfOk result (λ r. AreAtHome r.0.items _world.now) }
    ensures missing { IfOk result (λ r. AreAtHome r.1.items _world.now) }
{
    let missing = passes.split_off(count)?;
    Ok((passes, missing))
}

/// Puts the passes of a world together.
fn together(
    _world: &World,
    mut passes: Vec<Pass>,
    mut others: Vec<Pass>,
) -> Result<Vec<Pass>, AllocError>
    requires passes { AreAtHome passes.items _world.now }
    requires others { AreAtHome others.items _world.now }
    ensures { IfOk result (λ all. AreAtHome all.items _world.now) }
{
    passes.append(&mut others)?;
    Ok(passes)
}

/// Tries to close a world with so many of its passes and not the others. All comes back.
fn close_with_some<R: Abort>(
    rt: &R,
    world: World,
    passes: Vec<Pass>,
    count: usize,
) -> Result<(World, Vec<Pass>), AllocError>
    requires { AreAtHome passes.items world }
    ensures { IfOk result (λ r. AreAtHome r.1.items r.0) }
{
    let all = passes.len();
    assert!(rt; count < all && all <= 16);
    let (there, missing) = divided(&world, passes, count)?;
    let Err((world, there, fault)) = world.close(there) else {
        panic!(rt; "some are missing")
    };
    assert!(rt; fault == CloseFault::Missing((all - count) as u8));
    assert!(rt; fault.number() == 5 && there.len() == count);
    let passes = together(&world, there, missing)?;
    Ok((world, passes))
}

/// A world with so many passes closes with all of them, and not with fewer.
fn closes_with_all<R: Abort>(rt: &R, alloc: Global, kind: Kind, count: u8) -> Result<(), Fail> {
    let opened = World::open(alloc, kind, full_graph(alloc)?, count, 1);
    let (mut world, mut passes) = opened.ok().ok_or("it opens")?;
    for some in 0..usize::from(count) {
        let (open, all) = close_with_some(rt, world, passes, some)?;
        world = open;
        passes = all;
    }
    assert!(rt; passes.len() == usize::from(count));
    let history = closed(rt, world, passes);
    assert!(rt; history.records.is_empty() && history.graph.is_same(&full_graph(alloc)?));
    Ok(())
}

#[test]
fn a_world_closes_with_all_its_passes(rt: HostRuntime) -> Result<(), Fail> {
    for kind in KINDS {
        closes_with_all(&rt, rt.alloc(), kind, 2)?;
        closes_with_all(&rt, rt.alloc(), kind, 16)?;
    }
    Ok(())
}

/// Tries for a lock that it must get, or that must be busy.
fn tried<R: Abort>(rt: &R, world: &World, acquiring: Acquiring, n: u8, is_busy: bool) -> Acquiring
    requires home { IsAtHome acquiring world.now }
    requires node { n < length world.now.first }
    ensures home { IsAtHome result world.now }
{
    let (acquiring, told) = match acquiring.try_lock(world, n) {
        Try::Locked(acquiring) => (acquiring, false),
        Try::Busy(acquiring) => (acquiring, true),
    };
    assert!(rt; told == is_busy, "node {n}");
    acquiring
}

/// Pass 0 holds node 0. Pass 1 tries for it, takes node 1, and asks for that again; it can read only what it holds.
#[test]
fn what_is_held_is_busy(rt: HostRuntime) -> Result<(), Fail> {
    for kind in KINDS {
        let (world, zero, one) = two_passes(rt.alloc(), kind, &[(7, None), (8, None)])?;
        assert!(rt; world.size() == 2);
        let zero = locked(&rt, &world, begun(&rt, &world, zero), 0);
        let one = tried(&rt, &world, begun(&rt, &world, one), 0, true);
        let one = tried(&rt, &world, one, 1, false);
        let one = tried(&rt, &world, one, 1, true);
        let lock = one.lock(&rt, &world, 1);
        assert!(rt; lock.code() == 114);
        let Lock::Already(one) = lock else {
            panic!(rt; "it holds node 1")
        };
        let ports = [None; PORTS];
        assert!(rt; one.read(&world, 1) == Some(Node { value: 8, ports }));
        assert!(rt; one.read(&world, 0) == None);
        ended(&rt, &world, zero);
        ended(&rt, &world, one);
    }
    Ok(())
}

#[test]
fn a_solo_peeks(rt: HostRuntime) -> Result<(), Fail> {
    let alloc = rt.alloc();
    for kind in KINDS {
        let (world, pass) = one_pass(alloc, kind, graph_of(alloc, &[(0, None), (9, None)])?, 1)?;
        assert!(rt; world.size() == 2);
        let Ok(solo) = pass.lock_solo(&rt, &world, 1) else {
            panic!(rt; "it had one left")
        };
        let (_pass, told) = commit_alone(&rt, &world, solo, Txn::Peek(1));
        let told = told.ok_or("its transaction is committed")?;
        assert!(rt; told.reply == values(alloc, &[9])?);
    }
    Ok(())
}

/// Releases all, where the transaction can be made with what is held.
fn covered<R: Wait + Abort>(rt: &R, world: &World, done: Done, txn: &Txn) -> Pass
    requires home { IsAtHome done world.now }
    ensures home { IsAtHome result world.now }
{
    assert!(rt; is_possible(world, &done, txn));
    done.unlock_all(rt, world).fini(world)
}

/// The pass that came back with this fault.
fn refused<R: Abort>(rt: &R, taken: Taken, fault: UserFault) -> Pass
    ensures { taken ≡ Err (result, fault) }
{
    match taken {
        Ok(_done) => panic!(rt; "it was locked"),
        Err((pass, told)) => {
            assert!(rt; told == fault);
            pass
        }
    }
}

/// Each way of taking many in turn. A list that names a node twice costs a context, too.
#[test]
fn each_way_locks_what_it_names(rt: HostRuntime) -> Result<(), Fail> {
    for kind in KINDS {
        let (world, pass) = one_pass(rt.alloc(), kind, chain(rt.alloc(), [1, 2, 3])?, 3)?;
        assert!(rt; world.size() == 3);
        let Ok(done) = lock_list(&world, pass, &rt, &[2, 0]) else {
            panic!(rt; "a list is locked")
        };
        let pass = covered(&rt, &world, done, &Txn::Move(2, 0, 1));
        let doubled = lock_order(&world, pass, &rt, &[1, 1]);
        let pass = refused(&rt, doubled, UserFault::Already(1));
        assert!(rt; pass.left() == 1 && UserFault::Already(1).number() == 9);
        let Ok(done) = lock_walk(&world, pass, &rt, 0, 0, 64) else {
            panic!(rt; "a walk is locked")
        };
        let pass = covered(&rt, &world, done, &Txn::Reverse(0, 0, 64));
        assert!(rt; pass.left() == 0 && UserFault::PassSpent.number() == 4);
        refused(
            &rt,
            lock_list(&world, pass, &rt, &[0]),
            UserFault::PassSpent,
        );
    }
    Ok(())
}

/// A transaction spends a pass that had one context left. The same transaction is refused then, and nothing of it stays.
#[test]
fn a_spent_pass_commits_nothing_more(rt: HostRuntime) -> Result<(), Fail> {
    let alloc = rt.alloc();
    for kind in KINDS {
        let (world, pass) = one_pass(alloc, kind, graph_of(alloc, &[(0, None)])?, 1)?;
        let (pass, told) = asked(&rt, &world, pass, &Open, add(alloc, By::List, &[(0, 1)])?);
        let told = told.ok().ok_or("it had one left")?;
        assert!(rt; told.place == 0 && told.seq == 0 && told.reply == Reply::Done);
        let (pass, told) = asked(&rt, &world, pass, &Open, add(alloc, By::List, &[(0, 1)])?);
        assert!(rt; told.err() == Some(TxnFault::PassSpent) && TxnFault::PassSpent.number() == 4);
        let history = closed(&rt, world, vec![in alloc; pass]?);
        assert!(rt; history.records.len() == 1);
        assert!(rt; history.graph.is_same(&graph_of(alloc, &[(1, None)])?));
    }
    Ok(())
}

/// So is each other call that starts something, made twice by a pass that had one left.
#[test]
fn a_spent_pass_starts_nothing_more(rt: HostRuntime) -> Result<(), Fail> {
    for kind in KINDS {
        let (world, zero, one) = two_passes(rt.alloc(), kind, &[(7, None), (8, None)])?;
        assert!(rt; world.size() == 2);
        let zero = ended(&rt, &world, begun(&rt, &world, zero));
        let zero = match zero.begin(&world) {
            Ok(_acquiring) => panic!(rt; "it had nothing left"),
            Err(zero) => zero,
        };
        let Ok(solo) = one.lock_solo(&rt, &world, 1) else {
            panic!(rt; "it had one left")
        };
        let one = match solo.unlock(&rt, &world).lock_solo(&rt, &world, 1) {
            Ok(_solo) => panic!(rt; "it had nothing left"),
            Err(one) => one,
        };
        assert!(rt; (zero.left(), one.left()) == (0, 0));
        let (world, zero, one) = two_passes(rt.alloc(), kind, &[(7, None), (8, None)])?;
        assert!(rt; world.size() == 2);
        let Ok(done) = lock_list(&world, zero, &rt, &[1, 0]) else {
            panic!(rt; "it had one left")
        };
        let zero = covered(&rt, &world, done, &Txn::Move(1, 0, 1));
        refused(
            &rt,
            lock_list(&world, zero, &rt, &[1, 0]),
            UserFault::PassSpent,
        );
        let Ok(done) = lock_order(&world, one, &rt, &[1, 0]) else {
            panic!(rt; "it had one left")
        };
        let one = covered(&rt, &world, done, &Txn::Move(1, 0, 1));
        refused(
            &rt,
            lock_order(&world, one, &rt, &[1, 0]),
            UserFault::PassSpent,
        );
        let (world, zero, _one) = two_passes(rt.alloc(), kind, &[(7, Some(1)), (8, None)])?;
        assert!(rt; world.size() == 2);
        let Ok(done) = lock_walk(&world, zero, &rt, 0, 0, 64) else {
            panic!(rt; "it had one left")
        };
        let zero = covered(&rt, &world, done, &Txn::Reverse(0, 0, 64));
        let zero = match lock_walk(&world, zero, &rt, 0, 0, 64) {
            Ok(_done) => panic!(rt; "it had nothing left"),
            Err(zero) => zero,
        };
        assert!(rt; zero.left() == 0);
    }
    Ok(())
}
