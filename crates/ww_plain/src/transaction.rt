//! Transactions: what they ask for, and which of them a graph admits.

ghost use Rattle.std.specs.Prelude.{◌≡◌, ◌<◌, ◌≤◌, ◌↔◌, ℕ, map, IsTrue};
ghost use Rattle.ww_plain.specs.Transaction.{transaction_of, listed, FirstDouble};

use crate::graph::MAX_NODES;
use crate::node::PORTS;
use crate::seen::Seen;
use std::alloc::{AllocError, Global};

/// Which way of taking many locks a transaction asks for. The plain graph treats both alike.
#[derive(Clone, Copy, Debug, PartialEq, Eq)]
pub enum By {
    /// Along the fixed list.
    List,
    /// Along the list, with a contended node moved to its head.
    Order,
}

/// A transaction on the nodes of a graph.
#[derive(Debug, PartialEq, Eq, Drop)]
pub enum Txn {
    /// Asks for the values of the nodes, in the order of the list.
    Get(By, Vec<u8>),
    /// Adds each amount to its node, wrapping at 2^64.
    Add(By, Vec<(u8, u64)>),
    /// Moves an amount from the first node to the second.
    Move(u8, u8, u64),
    /// Sets a port of a node to a target.
    Link(u8, u8, Option<u8>),
    /// Counts the nodes of the walk from a start along a port, of at most this many nodes, and sums their values.
    Sum(u8, u8, u8),
    /// Turns the walk from a start along a port, of at most this many nodes.
    Reverse(u8, u8, u8),
    /// Asks for the value of one node.
    Peek(u8),
}

impl Txn {
    ghost use Rattle.std.specs.Prelude.{IfOk};
    ghost use Rattle.ww_plain.specs.Transaction.{transaction_of, Fits};

    /// Whether all of the transaction's numbers are within the limits of a graph of `size` nodes.
    pub fn fits(&self, size: u8) -> bool
        ensures { IsTrue result ↔ Fits size (transaction_of self.now) }
    {
        match self {
            Txn::Get(_, nodes) => {
                has_length(nodes.len()) && nodes.iter().all(|node| *node < size)
            }
            Txn::Add(_, amounts) => {
                has_length(amounts.len()) && amounts.iter().all(|(node, _)| *node < size)
            }
            Txn::Move(from, to, _) => *from < size && *to < size,
            Txn::Link(node, port, target) => {
                *node < size
                    && usize::from(*port) < PORTS
                    && target.is_none_or(|target| target < size)
            }
            Txn::Sum(start, port, most) | Txn::Reverse(start, port, most) => {
                *start < size && usize::from(*port) < PORTS && has_length(usize::from(*most))
            }
            Txn::Peek(node) => *node < size,
        }
    }

    /// A second transaction that asks for the same.
    pub fn copy(&self, alloc: Global) -> Result<Txn, AllocError>
        ensures { IfOk result (λ txn. transaction_of txn ≡ transaction_of self.now) }
    {
        Ok(match self {
            Txn::Get(by, nodes) => Txn::Get(*by, Vec::from_slice(alloc, nodes)?),
            Txn::Add(by, amounts) => Txn::Add(*by, Vec::from_slice(alloc, amounts)?),
            Txn::Move(from, to, amount) => Txn::Move(*from, *to, *amount),
            Txn::Link(node, port, target) => Txn::Link(*node, *port, *target),
            Txn::Sum(start, port, most) => Txn::Sum(*start, *port, *most),
            Txn::Reverse(start, port, most) => Txn::Reverse(*start, *port, *most),
            Txn::Peek(node) => Txn::Peek(*node),
        })
    }

    /// Whether it asks for the same.
    pub fn is_same(&self, other: &Txn) -> bool
        ensures { IsTrue result ↔ transaction_of self.now ≡ transaction_of other.now }
    {
        self == other
    }
}

/// Whether a list or a walk may have this many nodes.
fn has_length(length: usize) -> bool
    ensures { IsTrue result ↔ (1 ≤ length) × (length ≤ MAX_NODES) }
{
    1 <= length && length <= MAX_NODES
}

/// The first node of the transaction's list that stands at an earlier position too.
pub fn first_double(txn: &Txn) -> Option<u8>
    ensures { FirstDouble (listed (transaction_of txn.now)) result }
{
    match txn {
        Txn::Get(_, nodes) => first_double_of(nodes),
        Txn::Add(_, amounts) => first_double_of(amounts),
        Txn::Move(from, to, _) => (from == to).then_some(*to),
        Txn::Link(..) => None,
        Txn::Sum(..) => None,
        Txn::Reverse(..) => None,
        Txn::Peek(..) => None,
    }
}

/// What stands in a transaction's list, and names a node.
pub(crate) trait Listed {
    /// The node's number.
    ghost names: { Self → ℕ };

    fn node(&self) -> u8
        ensures { result ≡ names self.now };
}

impl Listed for u8 {
    ghost names = { λ node. node };

    fn node(&self) -> u8 {
        *self
    }
}

impl Listed for (u8, u64) {
    ghost names = { λ pair. pair.0 };

    fn node(&self) -> u8 {
        self.0
    }
}

/// The first node of a list that stands at an earlier position too.
fn first_double_of<T: Listed>(items: &[T]) -> Option<u8>
    ensures { FirstDouble (map T.names items.now) result }
{
    let mut seen = Seen::new();
    for item in items {
        let node = item.node();
        if !seen.insert(node) {
            return Some(node);
        }
    }
    None
}
