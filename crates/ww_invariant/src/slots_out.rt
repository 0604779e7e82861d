//! The slots that a seat has out. Bringing one to the front is no step: nobody else sees it.
ghost use Rattle.std.specs.Prelude.{ℕ, ◌≡◌, ◌≤◌, ◌∷◌, ◌++◌, [], List, length, Some};
ghost use Rattle.ww_invariant.specs.declared.cells.Cell.{Cell};
ghost use Rattle.ww_invariant.specs.Out.{AreOthers, numbers_of, slot_of};

use crate::cells::TableSeat;
use arrayvec::ArrayVec;

/// How many slots a seat can have out: all nodes, and the wait list of one lock.
pub const MAX_OUT: usize = 65;

/// Rotates the slots that are out until this one is the last taken. It is no step, and costs nothing where it is that
/// already.
#[inline(always)]
pub fn bring(seat: &mut TableSeat, order: &mut ArrayVec<u32, MAX_OUT>, slot: u32)
    requires order { order.old.items ≡ numbers_of seat.old.me.1 }
    requires out { (y : Cell) × (slot_of seat.old.me.1 slot ≡ Some y) }
    ensures home { (seat.new.table_id ≡ seat.old.table_id) × (seat.new.id ≡ seat.old.id) }
    ensures view { seat.new.me.0 ≡ seat.old.me.0 }
    ensures slots { (y : Cell) × (others : List (ℕ × Cell)) × (slot_of seat.old.me.1 slot ≡ Some y) × AreOthers seat.old.me.1 slot y others × (seat.new.me.1 ≡ (slot, y) ∷ others) }
    ensures order { order.new.items ≡ numbers_of seat.new.me.1 }
{
    if order[order.len() - 1] != slot {
        turn_to(seat, order, slot);
    }
}

/// Rotates the slots that are out until this one is the last taken.
#[cold]
fn turn_to(seat: &mut TableSeat, order: &mut ArrayVec<u32, MAX_OUT>, slot: u32)
    requires order { order.old.items ≡ numbers_of seat.old.me.1 }
    requires out { (y : Cell) × (slot_of seat.old.me.1 slot ≡ Some y) }
    ensures home { (seat.new.table_id ≡ seat.old.table_id) × (seat.new.id ≡ seat.old.id) }
    ensures view { seat.new.me.0 ≡ seat.old.me.0 }
    ensures slots { (y : Cell) × (others : List (ℕ × Cell)) × (slot_of seat.old.me.1 slot ≡ Some y) × AreOthers seat.old.me.1 slot y others × (seat.new.me.1 ≡ (slot, y) ∷ others) }
    ensures order { order.new.items ≡ numbers_of seat.new.me.1 }
{
    for _ in 0..order.len() {
        if order[order.len() - 1] == slot {
            return;
        }
        turn_numbers(order);
        seat.turn();
    }
}

/// The number at the end goes to the front, and each other one up by one place. They go one at a time: a copy of several
/// at once would wait for the one that was written last.
fn turn_numbers(order: &mut ArrayVec<u32, MAX_OUT>)
    requires { 1 ≤ length order.old.items }
    ensures { (ns : List ℕ) (n : ℕ) → order.old.items ≡ ns ++ n ∷ [] → order.new.items ≡ n ∷ ns }
{
    let mut carried = order[order.len() - 1];
    for at in 0..order.len() {
        let before = order[at];
        order[at] = carried;
        carried = before;
    }
}
