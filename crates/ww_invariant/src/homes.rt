//! What lies in the slots of a table before its first step and after its last.
ghost use Rattle.std.specs.Prelude.{ℕ, ◌≡◌, ◌<◌, ◌≤◌, [], length, IfOk, vec_len, vec_capacity};
ghost use mathlib.Core.Option.{some};
ghost use lib.ListN.{get_elem?};
ghost use Rattle.std.specs.Slots.{slots_items, slots_filled, slots_len, IsFull};
ghost use Rattle.ww_plain.specs.declared.node.Node.{Node};
ghost use Rattle.ww_plain.specs.Graph.{node_at};
ghost use Rattle.ww_invariant.specs.declared.cells.Cell.TheVariants.{Content, Line};
ghost use Rattle.ww_invariant.specs.Layout.{slots_for};
ghost use Rattle.ww_invariant.specs.Rule.{nodes_of};
ghost use Rattle.ww_invariant.specs.Homes.{AreSlots, AreTakenBelow};

use crate::cells::Cell;
use crate::layout;
use crate::pages::Waiters;
use atomic_table::Closed;
use std::alloc::{AllocError, Global};
use ww_plain::{Graph, Node};

/// What the slots have at the start, where the locks guard the nodes of the graph, or none does.
pub fn slots(alloc: Global, graph: &Graph, bare: bool, locks: u32) -> Result<Vec<Cell>, AllocError>
    requires { locks ≤ 16777216 }
    ensures { IfOk result (λ slots. AreSlots (nodes_of bare graph.now) (slots_for locks) slots.items) }
{
    let count = layout::slots(locks);
    let mut slots = Vec::with_capacity(alloc, count)?;
    for n in 0..count {
        slots.push_reserved(cell(graph, bare, n));
    }
    Ok(slots)
}

/// What a slot has at the start.
fn cell(graph: &Graph, bare: bool, n: usize) -> Cell
    ensures node { n < length (nodes_of bare graph.now) → result ≡ Content (node_at (nodes_of bare graph.now) n) }
    ensures list { length (nodes_of bare graph.now) ≤ n → result ≡ Line [] }
{
    if bare {
        return Cell::Line(Waiters::new());
    }
    if n < usize::from(graph.size()) {
        Cell::Content(graph.node(n as u8))
    } else {
        Cell::Line(Waiters::new())
    }
}

/// The nodes that a closed table has at home, of so many.
pub fn nodes_of(
    mut closed: Closed<Cell, Global>,
    count: usize,
    size: u8,
    mut nodes: Vec<Node>,
) -> Vec<Node>
    requires full { IsFull closed.slots × (slots_len closed.slots ≡ count) }
    requires few { (size ≤ 64) × (64 ≤ count) }
    requires nodes { (n : ℕ) → n < size → (x : Node) × (get_elem? (slots_items closed.slots) n ≡ some (Content x)) }
    requires room { (nodes.items ≡ []) × (vec_len nodes ≡ 0) × (size ≤ vec_capacity nodes) }
    ensures many { length result.items ≡ size }
    ensures same { (n : ℕ) (x : Node) → n < size → get_elem? (slots_items closed.slots) n ≡ some (Content x) → get_elem? result.items n ≡ some x }
{
    for n in 0..size {
        match closed.take(usize::from(n)) {
            Cell::Content(node) => nodes.push_reserved(node),
            Cell::Line(_) => unreachable!(),
        }
    }
    discard(closed, count, usize::from(size));
    nodes
}

/// Frees what is left of a closed table after this many slots were taken.
fn discard(mut closed: Closed<Cell, Global>, count: usize, taken: usize)
    requires taken { AreTakenBelow taken count (slots_filled closed.slots) }
    requires few { (taken ≤ count) × (slots_len closed.slots ≡ count) }
{
    for i in taken..count {
        drop(closed.take(i));
    }
    closed.free();
}
