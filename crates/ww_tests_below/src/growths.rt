//! The calls that may want memory, each of them where a growth is refused: what came back is looked at, and the same
//! call, made once more, gives its answer. With all the memory that they want these tests show that the calls succeed;
//! `checks/refuse_library_growths` refuses each growth of each of them in turn.

ghost use Rattle.std.specs.Prelude.{◌≡◌, IfOk};
ghost use Rattle.ww_model.specs.Snapshot.{state_of};

use crate::cores::{RING, RING_ANSWERS, is_ring, replayed};
use crate::plain::{graph_of, node};
use std::alloc::{AllocError, Global};
use std::test::Fail;
use ww_model::{Answer, Core, Event, ReplayFault};
use ww_plain::{By, Graph, Record, Reply, Txn, apply, first_double, replays};
use ww_queue::Kind;
use ww_script::{
    Act, Input, InputFault, Outcome, ScriptAnswer, Version, outcome_text, read_input, schedule_text,
};

/// What a call gives, or gives the second time if memory was refused to the first.
pub(crate) fn twice<T, F: Fn() -> Result<T, AllocError>>(call: F) -> Result<T, AllocError>
    requires { F.IsAlwaysCallable call }
{
    match call() {
        Ok(made) => Ok(made),
        Err(_) => call(),
    }
}

/// A graph of nodes of 7 and 9.
pub(crate) fn pair(alloc: Global) -> Result<Graph, AllocError> {
    twice(|| graph_of(alloc, &[node(7, None), node(9, None)]))
}

pub(crate) fn is_pair(graph: &Graph) -> bool {
    graph.size() == 2 && graph.node(0).value == 7 && graph.node(1).value == 9
}

/// The graph on which two scripts make a hundred adds each.
#[test]
fn a_graph_is_copied(rt: HostRuntime) -> Result<(), Fail> {
    let alloc = rt.alloc();
    let graph = twice(|| graph_of(alloc, &[node(0, None); 2]))?;
    let copy = twice(|| graph.copy(alloc))?;
    assert!(rt; copy.size() == 2 && copy.is_same(&graph));
    assert!(rt; copy.node(0) == node(0, None) && copy.node(1) == node(0, None));
    Ok(())
}

/// Asks for the values of both nodes, the last first.
fn get(alloc: Global) -> Result<Txn, AllocError> {
    Ok(Txn::Get(By::List, Vec::from_slice(alloc, &[1, 0])?))
}

/// What that is told of the pair.
fn values(alloc: Global) -> Result<Reply, AllocError> {
    Ok(Reply::Values(Vec::from_slice(alloc, &[9, 7])?))
}

/// Applies a transaction that can be made.
fn applied(alloc: Global, graph: &mut Graph, txn: &Txn) -> Result<Reply, AllocError> {
    if !txn.fits(graph.size()) || first_double(txn).is_some() {
        return Err(AllocError);
    }
    apply(alloc, graph, txn)
}

#[test]
fn a_transaction_is_applied(rt: HostRuntime) -> Result<(), Fail> {
    let alloc = rt.alloc();
    let mut graph = pair(alloc)?;
    let txn = twice(|| get(alloc))?;
    let reply = match applied(alloc, &mut graph, &txn) {
        Ok(reply) => reply,
        Err(_) => {
            assert!(rt; is_pair(&graph));
            applied(alloc, &mut graph, &txn)?
        }
    };
    assert!(rt; reply == twice(|| values(alloc))? && is_pair(&graph));
    Ok(())
}

/// Adds an amount to a node.
fn add(alloc: Global, n: u8, amount: u64) -> Result<Txn, AllocError> {
    Ok(Txn::Add(By::List, Vec::from_slice(alloc, &[(n, amount)])?))
}

/// Adds that wrap, and moves: none of them wants memory, so each is made once, whatever was refused before.
#[test]
fn only_values_want_memory(rt: HostRuntime) -> Result<(), Fail> {
    let alloc = rt.alloc();
    let nodes = [node(0, None), node(3, None), node(u64::MAX, None)];
    let mut graph = twice(|| graph_of(alloc, &nodes))?;
    for (txn, reply) in [
        (twice(|| add(alloc, 0, u64::MAX))?, Reply::Done),
        (twice(|| add(alloc, 0, 1))?, Reply::Done),
        (Txn::Move(1, 2, 4), Reply::Short),
        (Txn::Move(1, 2, 1), Reply::Full),
        (Txn::Move(2, 1, 5), Reply::Moved),
    ] {
        assert!(rt; applied(alloc, &mut graph, &txn)? == reply);
    }
    let last = [node(0, None), node(8, None), node(u64::MAX - 5, None)];
    assert!(rt; graph.is_same(&twice(|| graph_of(alloc, &last))?));
    Ok(())
}

/// The history of one transaction.
fn history(alloc: Global) -> Result<Vec<Record>, AllocError> {
    Ok(vec![in alloc;
        Record {
            caller: 0,
            seq: 0,
            txn: get(alloc)?,
            reply: values(alloc)?,
        },
    ]?)
}

#[test]
fn a_history_replays(rt: HostRuntime) -> Result<(), Fail> {
    let alloc = rt.alloc();
    let records = twice(|| history(alloc))?;
    let last = twice(|| replays(alloc, pair(alloc)?, &records))?;
    assert!(rt; last.is_some_and(|graph| is_pair(&graph)));
    Ok(())
}

#[test]
fn a_core_is_made(rt: HostRuntime) -> Result<(), Fail> {
    let alloc = rt.alloc();
    let mut core = twice(|| Core::new(alloc, Kind::WaitDie, 64, 16))?;
    assert!(rt; core.locks() == 64 && core.seats() == 16);
    assert!(rt; core.step(Event::Begin(15)).ok() == Some(Answer::Stamp(1)));
    assert!(rt; core.step(Event::Fast(15, 63)).ok() == Some(Answer::Locked));
    Ok(())
}

#[test]
fn the_core_of_a_ring_is_made(rt: HostRuntime) -> Result<(), Fail> {
    let alloc = rt.alloc();
    let mut core = twice(|| Core::new(alloc, Kind::WoundWait, 2, 2))?;
    for (event, answer) in RING.into_iter().zip(RING_ANSWERS) {
        assert!(rt; core.step(event).ok() == Some(answer));
    }
    Ok(())
}

/// The core of a ring. Where a growth was refused, the events are replayed once more.
fn ring(alloc: Global) -> Result<Core, ReplayFault>
    ensures locks { IfOk result (λ core. (state_of core).locks ≡ 2) }
    ensures seats { IfOk result (λ core. (state_of core).seats ≡ 2) }
{
    match replayed(alloc, &RING) {
        Err(ReplayFault::NoMemory) => replayed(alloc, &RING),
        told => told,
    }
}

#[test]
fn events_are_replayed(rt: HostRuntime) -> Result<(), Fail> {
    let core = ring(rt.alloc()).ok().ok_or("each event is possible")?;
    assert!(rt; is_ring(&core));
    Ok(())
}

const SCRIPTS: &str =
    r#"{"version":1,"kind":"wait-die","history":true,"nodes":[{"value":5,"ports":[null,null,null,null]}],
    "scripts":[[["get","order",[0]],["get","list",[0]],["add","order",[[0,3]]]],[]]}"#;

/// One empty script on one node of 5.
const EMPTY_SCRIPT: &str = r#"{"version":1,"kind":"wound-wait","history":false,
    "nodes":[{"value":5,"ports":[null,null,null,null]}],"scripts":[[]]}"#;

/// The schedule of the ring.
const SCHEDULE: &str =
    r#"{"version":1,"kind":"wound-wait","locks":2,"seats":2,"events":[["begin",0],["begin",1],
    ["fast",0,0],["fast",1,1],["guard",1,0],["join",1,0],["unguard",1,0],
    ["guard",0,1],["join",0,1],["sign",0,1],["unguard",0,1]]}"#;

const RING_TEXT: &str = r"event 0 stamp 1
event 1 stamp 2
event 2 locked
event 3 locked
event 4 ok
event 5 ok
event 6 ok
event 7 ok
event 8 ok
event 9 met 1
event 10 ok
ring 0 1
condemned 1
lock 0 0/1 : 1/2+
lock 1 1/2 : 0/1+
seat 0 1 0
seat 1 2 1
";

/// What a text asks for. Where a growth was refused, it is read once more.
fn asked(alloc: Global, text: &str) -> Result<Input, InputFault> {
    match read_input(alloc, text.as_bytes()) {
        Err(InputFault::NoMemory) => read_input(alloc, text.as_bytes()),
        told => told,
    }
}

#[test]
fn scripts_are_read(rt: HostRuntime) -> Result<(), Fail> {
    let Some(Input::Scripts(input)) = asked(rt.alloc(), SCRIPTS).ok() else {
        return Err(Fail::from("scripts"));
    };
    assert!(rt; input.kind == Kind::WaitDie && input.history && input.graph.size() == 1);
    assert!(rt; input.scripts.len() == 2);
    let script = input.scripts.first().ok_or("a script")?;
    assert!(rt;
        matches!(script.first(), Some(Act::Do(Txn::Get(By::Order, nodes))) if nodes.as_slice() == [0].as_slice())
    );
    assert!(rt;
        matches!(script.get(1), Some(Act::Do(Txn::Get(By::List, nodes))) if nodes.as_slice() == [0].as_slice())
    );
    assert!(rt;
        matches!(script.last(), Some(Act::Do(Txn::Add(By::Order, amounts))) if amounts.as_slice() == [(0, 3)].as_slice())
    );
    Ok(())
}

#[test]
fn an_empty_script_is_read(rt: HostRuntime) -> Result<(), Fail> {
    let Some(Input::Scripts(input)) = asked(rt.alloc(), EMPTY_SCRIPT).ok() else {
        return Err(Fail::from("scripts"));
    };
    assert!(rt; input.kind == Kind::WoundWait && !input.history && input.graph.size() == 1);
    assert!(rt; input.graph.node(0) == node(5, None));
    assert!(rt; input.scripts.len() == 1);
    assert!(rt;
        input
            .scripts
            .first()
            .is_some_and(|script| script.is_empty())
    );
    Ok(())
}

#[test]
fn a_schedule_has_its_text(rt: HostRuntime) -> Result<(), Fail> {
    let alloc = rt.alloc();
    let Some(Input::Schedule(schedule)) = asked(alloc, SCHEDULE).ok() else {
        return Err(Fail::from("a schedule"));
    };
    let text = twice(|| schedule_text(alloc, &schedule))?;
    assert!(rt; text.as_slice() == RING_TEXT.as_bytes());
    Ok(())
}

/// What came of two scripts' transactions, whose parts of the history take turns.
fn outcome(alloc: Global) -> Result<Outcome, AllocError> {
    let first = vec![in alloc; ScriptAnswer::Reply(values(alloc)?)]?;
    let second = vec![in alloc;
        ScriptAnswer::Reply(Reply::Moved),
        ScriptAnswer::Reply(Reply::Done),
    ]?;
    Ok(Outcome {
        replies: vec![in alloc; first, second]?,
        places: Some(vec![in alloc; (1, 0), (0, 0), (1, 1)]?),
        ports: Version::One.ports(),
        graph: graph_of(alloc, &[node(7, None), node(9, None)])?,
    })
}

const OUTCOME: &str = r"reply 0 0 values 9 7
reply 1 0 moved
reply 1 1 done
at 0 1 0
at 1 0 0
at 2 1 1
node 0 7 - - - -
node 1 9 - - - -
";

#[test]
fn an_outcome_has_its_text(rt: HostRuntime) -> Result<(), Fail> {
    let alloc = rt.alloc();
    let outcome = twice(|| outcome(alloc))?;
    let text = twice(|| outcome_text(alloc, &outcome))?;
    assert!(rt; text.as_slice() == OUTCOME.as_bytes());
    Ok(())
}

/// What came of one empty script on one node of 5.
fn empty_outcome(alloc: Global, version: Version) -> Result<Outcome, AllocError> {
    Ok(Outcome {
        replies: vec![in alloc; Vec::new(alloc)]?,
        places: None,
        ports: version.ports(),
        graph: graph_of(alloc, &[node(5, None)])?,
    })
}

#[test]
fn an_empty_outcome_has_its_text(rt: HostRuntime) -> Result<(), Fail> {
    let alloc = rt.alloc();
    let one = twice(|| empty_outcome(alloc, Version::One))?;
    let text = twice(|| outcome_text(alloc, &one))?;
    assert!(rt; text.as_slice() == b"node 0 5 - - - -\n".as_slice());
    let two = twice(|| empty_outcome(alloc, Version::Two))?;
    let text = twice(|| outcome_text(alloc, &two))?;
    assert!(rt; text.as_slice() == b"node 0 5 - - - - - - - -\n".as_slice());
    Ok(())
}
