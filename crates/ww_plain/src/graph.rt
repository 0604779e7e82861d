//! Graphs, each port of which leads to a node that is there.

ghost use Rattle.std.specs.Prelude.{◌≡◌, ◌≤◌, ◌<◌, ◌↔◌, length, IsTrue, IsOk, IfOk, IfErr, slice_get, slice_set, Some};

use crate::node::Node;
use std::alloc::{AllocError, Global};
use std::marker::Model;
use thiserror::Error;

/// How many nodes a graph has at most.
pub const MAX_NODES: usize = 64;

/// Why some nodes are no graph.
#[derive(Clone, Copy, Debug, PartialEq, Eq, Drop, Error)]
pub enum GraphFault {
    /// There is no node, or there are more than [`MAX_NODES`].
    #[error("a graph has 1 to 64 nodes")]
    BadSize = 1,
    /// A port names a node that isn't there.
    #[error("a port names a node that isn't there")]
    BadGraph = 2,
}

impl GraphFault {
    ghost use Rattle.ww_plain.specs.Graph.{graph_fault_number};

    /// The number of the fault.
    pub fn number(self) -> u8
        ensures { result ≡ graph_fault_number self }
    {
        self as u8
    }
}

/// A graph of 1 to 64 nodes, of which each port names one that is there. Contracts see it as the list of its nodes.
#[derive(Debug, Drop)]
pub struct Graph {
    pub(crate) nodes: Vec<Node>,
}

impl Model for Graph {
    ghost use Rattle.std.specs.Prelude.{List};
    ghost use Rattle.ww_plain.specs.declared.node.Node.{Node};
    ghost use Rattle.ww_plain.specs.Graph.{IsGraph};

    ghost Value = { List Node };

    ghost view = { λ graph. graph.nodes.items };

    ghost invariant = { λ graph. IsGraph graph.nodes.items };
}

impl Graph {
    ghost use Rattle.ww_plain.specs.Graph.{IsGraph, IsNoGraph, IsNodeOf, node_at};

    /// Takes the nodes for a graph. It looks at their number first, and returns them if they are none.
    pub fn new(nodes: Vec<Node>) -> Result<Graph, (Vec<Node>, GraphFault)>
        ensures ok { IsOk result ↔ IsGraph nodes.items }
        ensures kept { IfOk result (λ graph. graph ≡ nodes.items) }
        ensures fault { IfErr result (λ e. IsNoGraph nodes.items e.1) }
        ensures back { IfErr result (λ e. e.0 ≡ nodes) }
    {
        let size = nodes.len();
        if size < 1 || MAX_NODES < size {
            return Err((nodes, GraphFault::BadSize));
        }
        if nodes.iter().all(|node| node.is_of(size)) {
            Ok(Graph { nodes })
        } else {
            Err((nodes, GraphFault::BadGraph))
        }
    }

    /// How many nodes there are.
    pub fn size(&self) -> u8
        ensures size { result ≡ length self.now }
        ensures graph { IsGraph self.now }
    {
        self.nodes.len() as u8
    }

    pub fn node(&self, n: u8) -> Node
        requires { n < length self.now }
        ensures { slice_get self.now n ≡ Some result }
    {
        self.nodes[usize::from(n)]
    }

    /// Puts a node in the place of another.
    pub fn put(&mut self, n: u8, node: Node)
        requires there { n < length self.old }
        requires node { IsNodeOf (length self.old) node }
        ensures { self.new ≡ slice_set self.old n node }
    {
        self.nodes[usize::from(n)] = node;
    }

    /// A second graph with the same nodes.
    pub fn copy(&self, alloc: Global) -> Result<Graph, AllocError>
        ensures { IfOk result (λ graph. graph ≡ self.now) }
    {
        let nodes = Vec::from_slice(alloc, &self.nodes)?;
        Ok(Graph { nodes })
    }

    /// Whether it is the same graph.
    #[tactic(auto, using(crate::proofs::Sames::nodes_same))]
    pub fn is_same(&self, other: &Graph) -> bool
        ensures { IsTrue result ↔ self.now ≡ other.now }
    {
        self.nodes == other.nodes
    }
}
