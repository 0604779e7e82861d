//! What a transaction makes of the nodes of its footprint: they alone are copied.

ghost use Rattle.std.specs.Prelude.{◌≡◌, ◌<◌, length, map, IfOk};
ghost use Rattle.std.specs.List.{AllByRecursion};
ghost use Rattle.ww_plain.specs.Footprint.{footprint_of};
ghost use Rattle.ww_plain.specs.Transaction.{transaction_of, Fits, HasNoDouble};
ghost use Rattle.ww_plain.specs.Meaning.{answer_of, answer_to};
ghost use Rattle.ww_seat.specs.Commits.{change_at, changes_of};

use std::alloc::{AllocError, Global};
use ww_plain::{Graph, Reply, Txn, apply, footprint};
use ww_seat::NodeChange;

/// The transaction's reply, and the changes of its footprint. It is applied to the graph itself, and then each node is
/// put back.
pub(crate) fn changes(
    alloc: Global,
    graph: &mut Graph,
    txn: &Txn,
) -> Result<(Reply, Vec<NodeChange>), AllocError>
    requires fits { Fits (length graph.old) (transaction_of txn.now) }
    requires no_double { HasNoDouble (transaction_of txn.now) }
    requires there { AllByRecursion (λ n. n < length graph.old) (footprint_of graph.old (transaction_of txn.now)) }
    ensures same { graph.new ≡ graph.old }
    ensures answer { IfOk result (λ r. answer_of r.0 ≡ answer_to graph.old (transaction_of txn.now)) }
    ensures changes { IfOk result (λ r. r.1.items ≡ changes_of graph.old (transaction_of txn.now)) }
{
    // Its contract says that this is a graph.
    let _size = graph.size();
    let nodes = footprint(graph, txn);
    let mut changes = unchanged(alloc, graph, &nodes)?;
    let reply = apply(alloc, graph, txn)?;
    for change in changes.iter_mut() {
        change.after = graph.node(change.number);
        graph.put(change.number, change.before);
    }
    Ok((reply, changes))
}

/// These nodes, each as if it stays as it is.
fn unchanged(alloc: Global, graph: &Graph, nodes: &[u8]) -> Result<Vec<NodeChange>, AllocError>
    requires { AllByRecursion (λ n. n < length graph.now) nodes.now }
    ensures { IfOk result (λ changes. changes.items ≡ map (change_at graph.now graph.now) nodes.now) }
{
    let mut changes = Vec::with_capacity(alloc, nodes.len())?;
    for n in nodes {
        let node = graph.node(*n);
        changes.push_reserved(NodeChange {
            number: *n,
            before: node,
            after: node,
        });
    }
    Ok(changes)
}
