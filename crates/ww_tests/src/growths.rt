//! The calls that may want memory, each of them where a growth is refused: what came back is looked at, and the same
//! call, made once more, gives its answer. With all the memory that they want these tests show that the calls succeed;
//! `checks/refuse_library_growths` refuses each growth of each of them in turn.

ghost use Rattle.std.specs.Prelude.{IfOk};
ghost use Rattle.ww_lock.specs.Holding.{IsAtHome, AreAtHome};

use crate::called_off::cancelled;
use crate::locks::{begun, full_graph, locked};
use crate::transactions::{counted, get, values};
use crate::{KINDS, add, graph_of, is_possible, is_possible_alone};
use std::alloc::{AllocError, Global};
use std::process::Abort;
use std::sync::Wait;
use std::test::Fail;
use ww_lock::{CloseFault, Done, History, OpenFault, Pass, Prepared, Receipt, Solo, Waits, World};
use ww_plain::{By, Graph, Reply, Txn, replays};
use ww_queue::Kind;
use ww_txn::TxnFault;

/// How many transactions each of two passes makes that take turns.
const ROUNDS: u32 = 100;

/// A graph of nodes with these values. Where a growth is refused, it is made once more.
fn nodes_of(alloc: Global, nodes: &[(u64, Option<u8>)]) -> Result<Graph, AllocError> {
    graph_of(alloc, nodes).or_else(|_| graph_of(alloc, nodes))
}

/// The same graph, in the same way.
fn copied(alloc: Global, graph: &Graph) -> Result<Graph, AllocError> {
    graph.copy(alloc).or_else(|_| graph.copy(alloc))
}

/// Asks for the values of these nodes, in the same way.
fn asks(alloc: Global, nodes: &[u8]) -> Result<Txn, AllocError> {
    get(alloc, By::List, nodes).or_else(|_| get(alloc, By::List, nodes))
}

/// Adds these amounts, in the same way.
fn adds(alloc: Global, amounts: &[(u8, u64)]) -> Result<Txn, AllocError> {
    add(alloc, By::List, amounts).or_else(|_| add(alloc, By::List, amounts))
}

/// A reply of these values, in the same way.
fn tells(alloc: Global, told: &[u64]) -> Result<Reply, AllocError> {
    values(alloc, told).or_else(|_| values(alloc, told))
}

/// A world of this graph with so many passes, each of which may start so many contexts and solos. Where a growth is
/// refused, the graph comes back.
fn opened<R: Abort>(
    rt: &R,
    alloc: Global,
    kind: Kind,
    graph: Graph,
    count: u8,
    budget: u32,
) -> (World, Vec<Pass>)
    ensures { AreAtHome result.1.items result.0 }
{
    let Ok(copy) = copied(alloc, &graph) else {
        panic!(rt; "no memory")
    };
    match World::open(alloc, kind, graph, count, budget) {
        Ok(opened) => opened,
        Err((graph, fault)) => {
            assert!(rt;
                fault == OpenFault::NoMemory && fault.number() == 3 && graph.is_same(&copy)
            );
            match World::open(alloc, kind, graph, count, budget) {
                Ok(opened) => opened,
                Err((_, fault)) => panic!(rt; "{fault:?}"),
            }
        }
    }
}

/// Closes a world with its passes. Where a growth is refused, all comes back.
fn closed<R: Abort>(rt: &R, world: World, passes: Vec<Pass>) -> History
    requires { AreAtHome passes.items world }
{
    let before = (world.size(), passes.len());
    match world.close(passes) {
        Ok(history) => history,
        Err((world, passes, fault)) => {
            assert!(rt; fault == CloseFault::NoMemory && fault.number() == 6);
            assert!(rt; (world.size(), passes.len()) == before);
            match world.close(passes) {
                Ok(history) => history,
                Err((_, _, fault)) => panic!(rt; "{fault:?}"),
            }
        }
    }
}

#[test]
fn a_full_world_is_opened_and_closed(rt: HostRuntime) -> Result<(), Fail> {
    let alloc = rt.alloc();
    for kind in KINDS {
        let graph = full_graph(alloc).or_else(|_| full_graph(alloc))?;
        let copy = copied(alloc, &graph)?;
        let (world, passes) = opened(&rt, alloc, kind, graph, 16, 1);
        assert!(rt; world.size() == 64 && passes.len() == 16);
        let history = closed(&rt, world, passes);
        assert!(rt; history.records.is_empty() && history.graph.is_same(&copy));
    }
    Ok(())
}

/// The only pass of a world.
fn only<R: Abort>(rt: &R, _world: &World, mut passes: Vec<Pass>) -> Pass
    requires { AreAtHome passes.items _world.now }
    ensures { IsAtHome result _world.now }
{
    match passes.pop() {
        Some(pass) => pass,
        None => panic!(rt; "there is a pass"),
    }
}

/// Prepares a transaction in a context. Where a growth is refused, the transaction comes back, and can be prepared.
fn prepared<R: Abort>(rt: &R, world: &World, done: &mut Done, txn: Txn, same: &Txn) -> Prepared
    requires home { IsAtHome done.old world.now }
    ensures home { IsAtHome done.new world.now }
{
    assert!(rt; is_possible(world, done, &txn));
    match done.prepare(world, txn) {
        Ok(prepared) => prepared,
        Err((txn, _)) => {
            assert!(rt; txn == *same && is_possible(world, done, &txn));
            match done.prepare(world, txn) {
                Ok(prepared) => prepared,
                Err(_) => panic!(rt; "no memory"),
            }
        }
    }
}

#[test]
fn a_context_prepares_an_add(rt: HostRuntime) -> Result<(), Fail> {
    let alloc = rt.alloc();
    let txn = adds(alloc, &[(0, 1)])?;
    let same = adds(alloc, &[(0, 1)])?;
    let (world, passes) = opened(
        &rt,
        alloc,
        Kind::WoundWait,
        nodes_of(alloc, &[(0, None)])?,
        1,
        1,
    );
    assert!(rt; world.size() == 1);
    let acquiring = begun(&rt, &world, only(&rt, &world, passes));
    let mut done = locked(&rt, &world, acquiring, 0).done();
    let prepared = prepared(&rt, &world, &mut done, txn, &same);
    assert!(rt; done.made(&prepared));
    let (committed, told) = done.commit(&world, prepared);
    committed.unlock_all(&rt, &world).fini(&world);
    assert!(rt; told.place == 0 && told.seq == 0 && told.reply == Reply::Done);
    Ok(())
}

/// Prepares a transaction without a context, as [`prepared`].
fn prepared_alone<R: Abort>(
    rt: &R,
    world: &World,
    solo: &mut Solo,
    txn: Txn,
    same: &Txn,
) -> Prepared
    requires home { IsAtHome solo.old world.now }
    ensures home { IsAtHome solo.new world.now }
{
    assert!(rt; is_possible_alone(world, solo, &txn));
    match solo.prepare(world, txn) {
        Ok(prepared) => prepared,
        Err((txn, _)) => {
            assert!(rt; txn == *same && is_possible_alone(world, solo, &txn));
            match solo.prepare(world, txn) {
                Ok(prepared) => prepared,
                Err(_) => panic!(rt; "no memory"),
            }
        }
    }
}

#[test]
fn a_solo_prepares_a_peek(rt: HostRuntime) -> Result<(), Fail> {
    let alloc = rt.alloc();
    let graph = nodes_of(alloc, &[(0, None), (9, None)])?;
    let (world, passes) = opened(&rt, alloc, Kind::WaitDie, graph, 1, 1);
    assert!(rt; world.size() == 2);
    let Ok(mut solo) = only(&rt, &world, passes).lock_solo(&rt, &world, 1) else {
        panic!(rt; "the pass is spent")
    };
    let prepared = prepared_alone(&rt, &world, &mut solo, Txn::Peek(1), &Txn::Peek(1));
    assert!(rt; solo.made(&prepared));
    let (committed, told) = solo.commit(&world, prepared);
    committed.unlock(&rt, &world);
    assert!(rt; told.place == 0 && told.seq == 0 && told.reply == tells(alloc, &[9])?);
    Ok(())
}

/// Makes a transaction. Where a growth is refused, one context or solo is spent, and nothing is committed.
fn made<R: Wait + Abort>(
    rt: &R,
    world: &World,
    pass: Pass,
    txns: [Txn; 2],
    waits: Waits,
) -> (Pass, Receipt)
    requires home { IsAtHome pass world.now }
    ensures home { IsAtHome result.0 world.now }
{
    let [txn, again] = txns;
    let before = (pass.left(), pass.commits());
    let (pass, told) = counted(rt, world, pass, txn, waits);
    let fault = match told {
        Ok(receipt) => return (pass, receipt),
        Err(fault) => fault,
    };
    assert!(rt; fault == TxnFault::NoMemory && fault.number() == 6);
    assert!(rt; (pass.left().saturating_add(1), pass.commits()) == before);
    match counted(rt, world, pass, again, waits) {
        (pass, Ok(receipt)) => (pass, receipt),
        (_, Err(fault)) => panic!(rt; "{fault:?}"),
    }
}

/// Makes it in a world of budget 2, whose history has it then. A cancel is pending where its waits may be called off, and
/// stays so, since it waits for nothing.
fn made_once<R: Wait + Abort>(
    rt: &R,
    alloc: Global,
    graph: Graph,
    txns: [Txn; 2],
    waits: Waits,
    reply: &Reply,
) -> Result<Graph, Fail> {
    let (world, mut passes) = opened(rt, alloc, Kind::WoundWait, graph, 1, 2);
    let Some(pass) = passes.pop() else {
        return Err(Fail::from("there is a pass"));
    };
    let is_pending = waits == Waits::UntilCancelled;
    let pass = if is_pending {
        let pass = cancelled(rt, &world, pass, 0, false);
        cancelled(rt, &world, pass, 0, true)
    } else {
        pass
    };
    let (pass, told) = made(rt, &world, pass, txns, waits);
    let pass = cancelled(rt, &world, pass, 0, is_pending);
    assert!(rt; told.place == 0 && told.seq == 0 && told.reply == *reply);
    assert!(rt; pass.commits() == 1);
    passes.push(pass)?;
    let history = closed(rt, world, passes);
    assert!(rt; history.records.len() == 1);
    assert!(rt;
        history
            .records
            .first()
            .is_some_and(|record| record.reply == *reply)
    );
    Ok(history.graph)
}

/// Asks for the values of both nodes.
fn asks_once<R: Wait + Abort>(rt: &R, alloc: Global, waits: Waits) -> Result<(), Fail> {
    let graph = nodes_of(alloc, &[(7, None), (9, None)])?;
    let copy = copied(alloc, &graph)?;
    let txns = [asks(alloc, &[1, 0])?, asks(alloc, &[1, 0])?];
    let reply = tells(alloc, &[9, 7])?;
    let last = made_once(rt, alloc, graph, txns, waits, &reply)?;
    assert!(rt; last.is_same(&copy));
    Ok(())
}

#[test]
fn a_get_is_made(rt: HostRuntime) -> Result<(), Fail> {
    asks_once(&rt, rt.alloc(), Waits::ToTheEnd)
}

#[test]
fn an_interruptible_get_is_made(rt: HostRuntime) -> Result<(), Fail> {
    asks_once(&rt, rt.alloc(), Waits::UntilCancelled)
}

/// Adds 1 to the only node.
fn adds_once<R: Wait + Abort>(rt: &R, alloc: Global, waits: Waits) -> Result<(), Fail> {
    let graph = nodes_of(alloc, &[(0, None)])?;
    let txns = [adds(alloc, &[(0, 1)])?, adds(alloc, &[(0, 1)])?];
    let last = made_once(rt, alloc, graph, txns, waits, &Reply::Done)?;
    assert!(rt; last.is_same(&nodes_of(alloc, &[(1, None)])?));
    Ok(())
}

#[test]
fn an_add_is_made(rt: HostRuntime) -> Result<(), Fail> {
    adds_once(&rt, rt.alloc(), Waits::ToTheEnd)
}

#[test]
fn an_interruptible_add_is_made(rt: HostRuntime) -> Result<(), Fail> {
    adds_once(&rt, rt.alloc(), Waits::UntilCancelled)
}

#[test]
fn a_peek_is_made(rt: HostRuntime) -> Result<(), Fail> {
    let alloc = rt.alloc();
    let graph = nodes_of(alloc, &[(0, None), (9, None)])?;
    let copy = copied(alloc, &graph)?;
    let reply = tells(alloc, &[9])?;
    let last = made_once(
        &rt,
        alloc,
        graph,
        [Txn::Peek(1), Txn::Peek(1)],
        Waits::ToTheEnd,
        &reply,
    )?;
    assert!(rt; last.is_same(&copy));
    Ok(())
}

/// Two passes take turns, a hundred times: each adds 1 to both nodes, in an order of its own.
fn take_turns<R: Wait + Abort>(
    rt: &R,
    alloc: Global,
    world: &World,
    mut zero: Pass,
    mut one: Pass,
) -> Result<(Pass, Pass), AllocError>
    requires zero { IsAtHome zero world.now }
    requires one { IsAtHome one world.now }
    ensures zero { IfOk result (λ r. IsAtHome r.0 world.now) }
    ensures one { IfOk result (λ r. IsAtHome r.1 world.now) }
{
    let (up, down) = ([(0, 1), (1, 1)], [(1, 1), (0, 1)]);
    for _ in 0..ROUNDS {
        zero = made(
            rt,
            world,
            zero,
            [adds(alloc, &up)?, adds(alloc, &up)?],
            Waits::ToTheEnd,
        )
        .0;
        one = made(
            rt,
            world,
            one,
            [adds(alloc, &down)?, adds(alloc, &down)?],
            Waits::ToTheEnd,
        )
        .0;
    }
    Ok((zero, one))
}

/// These two passes. A growth that is refused is asked for once more.
fn both(alloc: Global, _world: &World, zero: Pass, one: Pass) -> Result<Vec<Pass>, AllocError>
    requires zero { IsAtHome zero _world.now }
    requires one { IsAtHome one _world.now }
    ensures { IfOk result (λ passes. AreAtHome passes.items _world.now) }
{
    let mut passes = Vec::new(alloc);
    if passes.reserve(2).is_err() {
        passes.reserve(2)?;
    }
    passes.push_reserved(zero);
    passes.push_reserved(one);
    Ok(passes)
}

/// What two passes made of this graph of two nodes.
fn made_in_turns<R: Wait + Abort>(rt: &R, alloc: Global, graph: Graph) -> Result<History, Fail> {
    let (world, mut passes) = opened(rt, alloc, Kind::WaitDie, graph, 2, ROUNDS + 1);
    let (Some(one), Some(zero)) = (passes.pop(), passes.pop()) else {
        return Err(Fail::from("there are two passes"));
    };
    let (zero, one) = take_turns(rt, alloc, &world, zero, one)?;
    let passes = both(alloc, &world, zero, one)?;
    Ok(closed(rt, world, passes))
}

#[test]
fn what_two_made_in_turns_replays(rt: HostRuntime) -> Result<(), Fail> {
    let alloc = rt.alloc();
    let graph = nodes_of(alloc, &[(0, None), (0, None)])?;
    let history = made_in_turns(&rt, alloc, copied(alloc, &graph)?)?;
    assert!(rt; history.records.len() == 200);
    assert!(rt;
        history
            .graph
            .is_same(&nodes_of(alloc, &[(200, None), (200, None)])?)
    );
    let last = match replays(alloc, copied(alloc, &graph)?, &history.records) {
        Ok(last) => last,
        Err(_) => replays(alloc, graph, &history.records)?,
    };
    assert!(rt; last.is_some_and(|last| last.is_same(&history.graph)));
    Ok(())
}
