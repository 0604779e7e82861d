//! Which nodes a transaction depends on and may change: those whose locks it needs.

ghost use Rattle.std.specs.Prelude.{◌≡◌, ◌≤◌, length, map};
ghost use Rattle.ww_plain.specs.Numbers.{with_number, distinct_of};
ghost use Rattle.ww_plain.specs.Transaction.{transaction_of, Fits, IsCourse};
ghost use Rattle.ww_plain.specs.Graph.{IsGraph};
ghost use Rattle.ww_plain.specs.Walk.{walk_of};
ghost use Rattle.ww_plain.specs.Footprint.{with_target, walked, footprint_of};

use crate::graph::{Graph, MAX_NODES};
use crate::node::Node;
use crate::transaction::{Listed, Txn};
use crate::walk::{Walk, walk_from};
use arrayvec::ArrayVec;

/// The nodes that the transaction depends on and may change, each once: those of its list in their order; for a
/// link its node and then the target; or those of its walk and then the walk's stop.
pub fn footprint(graph: &Graph, txn: &Txn) -> ArrayVec<u8, MAX_NODES>
    requires { Fits (length graph.now) (transaction_of txn.now) }
    ensures { result.items ≡ footprint_of graph.now (transaction_of txn.now) }
{
    match txn {
        Txn::Get(_, nodes) => distinct_nodes(nodes),
        Txn::Add(_, amounts) => distinct_nodes(amounts),
        Txn::Move(from, to, _) => {
            let mut nodes = ArrayVec::new();
            join(&mut nodes, *from);
            join(&mut nodes, *to);
            nodes
        }
        Txn::Link(node, _, target) => {
            let mut nodes = ArrayVec::new();
            nodes.push(*node);
            join_target(&mut nodes, *target);
            nodes
        }
        Txn::Sum(start, port, most) => walk_footprint(&graph.nodes, *start, *port, *most),
        Txn::Reverse(start, port, most) => walk_footprint(&graph.nodes, *start, *port, *most),
        Txn::Peek(node) => {
            let mut nodes = ArrayVec::new();
            nodes.push(*node);
            nodes
        }
    }
}

/// The nodes of a walk, and then its stop.
fn walk_footprint(graph: &[Node], start: u8, port: u8, most: u8) -> ArrayVec<u8, MAX_NODES>
    requires graph { IsGraph graph.now }
    requires course { IsCourse (length graph.now) start port most }
    ensures { result.items ≡ walked graph.now port (walk_of graph.now start port most) }
{
    let Walk { mut nodes, stop } = walk_from(graph, start, port, most);
    join_target(&mut nodes, stop);
    nodes
}

/// The nodes of a list, each once, in the order in which they first come.
fn distinct_nodes<T: Listed>(items: &[T]) -> ArrayVec<u8, MAX_NODES>
    requires { length items.now ≤ MAX_NODES }
    ensures { result.items ≡ distinct_of (map T.names items.now) }
{
    let mut nodes = ArrayVec::new();
    for item in items {
        join(&mut nodes, item.node());
    }
    nodes
}

/// The target joins the nodes, where there is one.
fn join_target(nodes: &mut ArrayVec<u8, MAX_NODES>, target: Option<u8>)
    requires { length (with_target nodes.old.items target) ≤ MAX_NODES }
    ensures { nodes.new.items ≡ with_target nodes.old.items target }
{
    if let Some(target) = target {
        join(nodes, target);
    }
}

/// The node joins the others, where it isn't among them.
fn join(nodes: &mut ArrayVec<u8, MAX_NODES>, node: u8)
    requires { length (with_number nodes.old.items node) ≤ MAX_NODES }
    ensures { nodes.new.items ≡ with_number nodes.old.items node }
{
    if !nodes.contains(&node) {
        nodes.push(node);
    }
}
