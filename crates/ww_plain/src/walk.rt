//! Walks along one port from node to node, until one comes again.

ghost use Rattle.std.specs.Prelude.{◌≡◌, ◌<◌, length, MatchOption};
ghost use Rattle.std.specs.List.{AllByRecursion};
ghost use Rattle.ww_plain.specs.Graph.{port_of, IsGraph};
ghost use Rattle.ww_plain.specs.Transaction.{IsCourse};
ghost use Rattle.ww_plain.specs.Seen.{Marks};
ghost use Rattle.ww_plain.specs.Walk.{walk_of, stop_of, IsWalkEnd, GoesOnTo};

use crate::graph::MAX_NODES;
use crate::node::{Node, PORTS};
use crate::seen::Seen;
use arrayvec::ArrayVec;

/// A walk's nodes in their order, and where the port of the last one leads.
#[derive(Drop)]
pub(crate) struct Walk {
    pub(crate) nodes: ArrayVec<u8, MAX_NODES>,
    pub(crate) stop: Option<u8>,
}

/// The walk from a node along a port, of at most this many nodes.
pub(crate) fn walk_from(graph: &[Node], start: u8, port: u8, most: u8) -> Walk
    requires graph { IsGraph graph.now }
    requires course { IsCourse (length graph.now) start port most }
    ensures nodes { result.nodes.items ≡ walk_of graph.now start port most }
    ensures there { AllByRecursion (λ node. node < length graph.now) result.nodes.items }
    ensures stop { result.stop ≡ stop_of graph.now port (walk_of graph.now start port most) }
{
    let mut nodes = ArrayVec::new();
    let mut seen = Seen::new();
    nodes.push(start);
    seen.insert(start);
    let mut stop = target_of(graph, start, port);
    while let Some(next) = new_node(&nodes, &seen, most, stop) {
        nodes.push(next);
        seen.insert(next);
        stop = target_of(graph, next, port);
    }
    Walk { nodes, stop }
}

/// The node at which a walk goes on, or `None` where it ends.
fn new_node(nodes: &[u8], seen: &Seen, most: u8, stop: Option<u8>) -> Option<u8>
    requires { Marks seen.now.came nodes.now }
    ensures { MatchOption result (IsWalkEnd nodes.now most stop) (GoesOnTo nodes.now most stop) }
{
    match stop {
        Some(next) if nodes.len() < usize::from(most) && !seen.contains(next) => Some(next),
        _ => None,
    }
}

/// Where a port of a node leads.
fn target_of(graph: &[Node], node: u8, port: u8) -> Option<u8>
    requires node { node < length graph.now }
    requires port { port < PORTS }
    ensures { result ≡ port_of graph.now node port }
{
    graph[usize::from(node)].ports[usize::from(port)]
}
