//! What each transaction does to a graph, alone and in one step: everything else is measured by this.

ghost use Rattle.std.specs.Prelude.{◌≡◌, ◌≢◌, ◌<◌, ◌≤◌, length, map, fold, IfOk, OnErr};
ghost use Rattle.std.specs.List.{AllByRecursion};
ghost use Rattle.ww_plain.specs.Walk.{stop_of};
ghost use Rattle.ww_plain.specs.Transaction.{transaction_of, Fits, HasNoDouble};
ghost use Rattle.ww_plain.specs.Graph.{value_of, port_of, with_port};
ghost use Rattle.ww_plain.specs.Meaning.{was, summing, answer_of, raised, moving, turning, meaning};

use crate::graph::{Graph, MAX_NODES};
use crate::node::{Node, PORTS};
use crate::reply::Reply;
use crate::transaction::Txn;
use crate::walk::walk_from;
use std::alloc::{AllocError, Global};

/// The value of a node.
fn value_at(graph: &[Node], node: u8) -> u64
    requires { node < length graph.now }
    ensures { result ≡ value_of graph.now node }
{
    graph[usize::from(node)].value
}

/// The values of the nodes, in their order.
fn values(alloc: Global, graph: &[Node], nodes: &[u8]) -> Result<Vec<u64>, AllocError>
    requires { AllByRecursion (λ node. node < length graph.now) nodes.now }
    ensures { IfOk result (λ values. values.items ≡ map (value_of graph.now) nodes.now) }
{
    let mut values = Vec::with_capacity(alloc, nodes.len())?;
    for node in nodes {
        values.push(value_at(graph, *node))?;
    }
    Ok(values)
}

/// Adds each amount to its node.
fn add(nodes: &mut [Node], amounts: &[(u8, u64)])
    requires { AllByRecursion (λ pair. pair.0 < length nodes.old) amounts.now }
    ensures { nodes.new ≡ fold raised nodes.old amounts.now }
{
    for (node, amount) in amounts {
        let node = &mut nodes[usize::from(*node)];
        node.value = node.value.wrapping_add(*amount);
    }
}

/// Moves an amount from one node to another, if the one has it and the other has room for it.
fn move_amount(nodes: &mut [Node], from: u8, to: u8, amount: u64) -> Reply
    requires from { from < length nodes.old }
    requires to { to < length nodes.old }
    requires apart { from ≢ to }
    ensures { moving nodes.old from to amount ≡ (answer_of result, nodes.new) }
{
    let (from, to) = (usize::from(from), usize::from(to));
    let Some(rest) = nodes[from].value.checked_sub(amount) else {
        return Reply::Short;
    };
    let Some(sum) = nodes[to].value.checked_add(amount) else {
        return Reply::Full;
    };
    nodes[from].value = rest;
    nodes[to].value = sum;
    Reply::Moved
}

/// Sets a port of a node.
fn link(nodes: &mut [Node], node: u8, port: u8, target: Option<u8>) -> Reply
    requires node { node < length nodes.old }
    requires port { port < PORTS }
    ensures reply { answer_of result ≡ was (port_of nodes.old node port) }
    ensures graph { nodes.new ≡ with_port nodes.old node port target }
{
    let ports = &mut nodes[usize::from(node)].ports;
    let before = ports[usize::from(port)];
    ports[usize::from(port)] = target;
    Reply::Was(before)
}

/// Counts the nodes of a walk, and sums their values.
fn sum(graph: &[Node], walk: &[u8]) -> Reply
    requires nodes { AllByRecursion (λ node. node < length graph.now) walk.now }
    requires few { length walk.now ≤ MAX_NODES }
    ensures { answer_of result ≡ summing graph.now walk.now }
{
    let mut total = 0;
    for node in walk {
        total += u128::from(value_at(graph, *node));
    }
    Reply::Sum(walk.len() as u8, total)
}

/// Turns the nodes of a walk, the first one to the walk's stop.
fn turn(nodes: &mut [Node], port: u8, walk: &[u8], stop: Option<u8>) -> Reply
    requires port { port < PORTS }
    requires nodes { AllByRecursion (λ node. node < length nodes.old) walk.now }
    requires stop { stop ≡ stop_of nodes.old port walk.now }
    ensures { turning nodes.old port walk.now ≡ (answer_of result, nodes.new) }
{
    let mut before = stop;
    let mut last = 0;
    for node in walk {
        nodes[usize::from(*node)].ports[usize::from(port)] = before;
        before = Some(*node);
        last = *node;
    }
    Reply::End(last)
}

/// Applies the transaction to the graph. Only the values of a `Get` or a `Peek` take memory.
pub fn apply(alloc: Global, graph: &mut Graph, txn: &Txn) -> Result<Reply, AllocError>
    requires fits { Fits (length graph.old) (transaction_of txn.now) }
    requires no_double { HasNoDouble (transaction_of txn.now) }
    ensures ok { IfOk result (λ reply. meaning graph.old (transaction_of txn.now) ≡ (answer_of reply, graph.new)) }
    ensures err { OnErr result (graph.new ≡ graph.old) }
{
    match txn {
        Txn::Get(_, nodes) => Ok(Reply::Values(values(alloc, &graph.nodes, nodes)?)),
        Txn::Add(_, amounts) => {
            add(&mut graph.nodes, amounts);
            Ok(Reply::Done)
        }
        Txn::Move(from, to, amount) => Ok(move_amount(&mut graph.nodes, *from, *to, *amount)),
        Txn::Link(node, port, target) => Ok(link(&mut graph.nodes, *node, *port, *target)),
        Txn::Sum(start, port, most) => {
            let walk = walk_from(&graph.nodes, *start, *port, *most);
            Ok(sum(&graph.nodes, &walk.nodes))
        }
        Txn::Reverse(start, port, most) => {
            let walk = walk_from(&graph.nodes, *start, *port, *most);
            Ok(turn(&mut graph.nodes, *port, &walk.nodes, walk.stop))
        }
        Txn::Peek(node) => Ok(Reply::Values(values(alloc, &graph.nodes, &[*node])?)),
    }
}
