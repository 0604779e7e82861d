//! Small worlds, and their graphs.

ghost use Rattle.std.specs.Prelude.{IfOk};
ghost use Rattle.ww_lock.specs.Holding.{IsAtHome};

use std::alloc::{AllocError, Global};
use ww_lock::{Pass, World};
use ww_plain::{Graph, Node, PORTS};
use ww_queue::Kind;

pub const KINDS: [Kind; 2] = [Kind::WoundWait, Kind::WaitDie];

/// A node of this value, whose port 0 leads to this target.
fn node(value: u64, target: Option<u8>) -> Node {
    let mut ports = [None; PORTS];
    ports[0] = target;
    Node { value, ports }
}

/// A graph of nodes with these values, of which port 0 leads to these targets.
pub fn graph_of(alloc: Global, nodes: &[(u64, Option<u8>)]) -> Result<Graph, AllocError> {
    let mut all = Vec::new(alloc);
    for (value, target) in nodes {
        all.push(node(*value, *target))?;
    }
    Graph::new(all).ok().ok_or(AllocError)
}

/// Three nodes with these values. Port 0 leads from 0 to 1, and from 1 to 2.
pub fn chain(alloc: Global, values: [u64; 3]) -> Result<Graph, AllocError> {
    let [zero, one, two] = values;
    graph_of(alloc, &[(zero, Some(1)), (one, Some(2)), (two, None)])
}

/// A world of this graph, with one pass.
pub fn one_pass(
    alloc: Global,
    kind: Kind,
    graph: Graph,
    budget: u32,
) -> Result<(World, Pass), AllocError>
    ensures { IfOk result (λ r. IsAtHome r.1 r.0) }
{
    let Ok((world, mut passes)) = World::open(alloc, kind, graph, 1, budget) else {
        return Err(AllocError);
    };
    let pass = passes.pop().ok_or(AllocError)?;
    Ok((world, pass))
}

/// A world of three nodes in a chain, with three passes.
pub fn three_passes(
    alloc: Global,
    kind: Kind,
    budget: u32,
) -> Result<(World, Pass, Pass, Pass), AllocError>
    ensures { IfOk result (λ r. IsAtHome r.1 r.0 × IsAtHome r.2 r.0 × IsAtHome r.3 r.0) }
{
    let graph = chain(alloc, [1, 2, 3])?;
    let Ok((world, mut passes)) = World::open(alloc, kind, graph, 3, budget) else {
        return Err(AllocError);
    };
    let (Some(two), Some(one), Some(zero)) = (passes.pop(), passes.pop(), passes.pop()) else {
        return Err(AllocError);
    };
    Ok((world, zero, one, two))
}
