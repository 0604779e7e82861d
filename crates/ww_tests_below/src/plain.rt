//! Graphs of a few nodes, for the tests of the other files.

ghost use Rattle.std.specs.Prelude.{◌≡◌, IfOk};

use std::alloc::{AllocError, Global};
use ww_plain::{Graph, Node, PORTS};

/// A node of this value, whose port 0 leads to this target.
pub(crate) fn node(value: u64, target: Option<u8>) -> Node {
    let mut ports = [None; PORTS];
    ports[0] = target;
    Node { value, ports }
}

/// The graph of these nodes.
pub(crate) fn graph_of(alloc: Global, nodes: &[Node]) -> Result<Graph, AllocError>
    ensures { IfOk result (λ g. g ≡ nodes.now) }
{
    Graph::new(Vec::from_slice(alloc, nodes)?)
        .ok()
        .ok_or(AllocError)
}
