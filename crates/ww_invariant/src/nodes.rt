//! The node that a seat took last, read and written in its slot. None of this is a step: nobody else sees it.
ghost use Rattle.std.specs.Prelude.{◌≡◌, ◌∷◌};
ghost use Rattle.atomic_table.specs.Table.{rest};
ghost use Rattle.ww_plain.specs.declared.node.Node.{Node};
ghost use Rattle.ww_invariant.specs.declared.cells.Cell.TheVariants.{Content};

use crate::cells::{Cell, TableSeat, Top};
use std::mem;
use ww_plain::Node;

/// The node of a lock whose slot was taken last.
pub fn node_there(seat: &mut TableSeat, shared: &Top, lock: u32) -> Node
    requires home { seat.old.table_id ≡ shared.now.table_id }
    requires top { (x : Node) × (seat.old.me.1 ≡ (lock, Content x) ∷ rest seat.old.me.1) }
    ensures home { (seat.new.table_id ≡ seat.old.table_id) × (seat.new.id ≡ seat.old.id) }
    ensures same { seat.new.me ≡ seat.old.me }
    ensures node { (x : Node) → seat.old.me.1 ≡ (lock, Content x) ∷ rest seat.old.me.1 → result ≡ x }
{
    match seat.slot_mut(shared, lock as usize) {
        Cell::Content(node) => *node,
        Cell::Line(_) => unreachable!(),
    }
}

/// Writes the node of a lock whose slot was taken last, and gives what was there.
pub fn swap_there(seat: &mut TableSeat, shared: &Top, lock: u32, new: Node) -> Node
    requires home { seat.old.table_id ≡ shared.now.table_id }
    requires top { (x : Node) × (seat.old.me.1 ≡ (lock, Content x) ∷ rest seat.old.me.1) }
    ensures home { (seat.new.table_id ≡ seat.old.table_id) × (seat.new.id ≡ seat.old.id) }
    ensures view { seat.new.me.0 ≡ seat.old.me.0 }
    ensures swapped { (x : Node) → seat.old.me.1 ≡ (lock, Content x) ∷ rest seat.old.me.1 → (result ≡ x) × (seat.new.me.1 ≡ (lock, Content new) ∷ rest seat.old.me.1) }
{
    match seat.slot_mut(shared, lock as usize) {
        Cell::Content(node) => mem::replace(node, new),
        Cell::Line(_) => unreachable!(),
    }
}
