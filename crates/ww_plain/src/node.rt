//! A node: a value, and ports that name other nodes.

/// How many ports a node has.
pub const PORTS: usize = 8;

/// A node of a graph: a number, and for each port the node that it names, if any.
#[derive(Clone, Copy, Debug, PartialEq, Eq)]
pub struct Node {
    pub value: u64,
    pub ports: [Option<u8>; PORTS],
}

impl Node {
    ghost use Rattle.std.specs.Prelude.{◌≡◌, ◌↔◌, IsTrue};
    ghost use Rattle.ww_plain.specs.Graph.{IsNodeOf};

    /// Each port is empty, or names one of `size` nodes.
    pub(crate) fn is_of(&self, size: usize) -> bool
        ensures { IsTrue result ↔ IsNodeOf size self.now }
    {
        self.ports.iter().all(|port| port.is_none_or(|target| usize::from(target) < size))
    }

    /// Whether it is the same node.
    #[tactic(auto, using(crate::proofs::Sames::node_same))]
    pub fn is_same(&self, other: &Node) -> bool
        ensures { IsTrue result ↔ self.now ≡ other.now }
    {
        self == other
    }
}
