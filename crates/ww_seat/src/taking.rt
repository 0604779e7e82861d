//! Taking a lock that is free or was handed to the seat.
ghost use Rattle.std.specs.Prelude.{ℕ, ◌≡◌, ◌<◌, Bool, true, Some};
ghost use Rattle.ww_view.specs.View.{owns};
ghost use Rattle.ww_table.specs.Seat.{IsSeatOf, locks_of, size_of, view_of};
ghost use Rattle.ww_invariant.specs.Layout.{list_at};
ghost use Rattle.ww_invariant.specs.Out.{slot_of};
ghost use Rattle.ww_invariant.specs.declared.cells.Cell.TheVariants.{Line};
ghost use Rattle.ww_seat.specs.Orderly.{IsOrderly};
ghost use Rattle.ww_seat.specs.Work.{AreMarksOf, HasReadNode, HasTriedInside, IsAtWorkHere, IsOwnWord, IsSameSeat, IsTakingInside, SeesFree};

use crate::fast::blank;
use crate::leaving::leave;
use crate::signs::sign_all;
use ww_plain::Node;
use ww_table::{Board, Stepper};
use ww_word::WAITERS;
use ww_word::wide::Owner;

/// The owner word of a lock that this seat took, with the wait list as it is.
fn own_word(seat: &mut Stepper, board: &Board, lock: u32) -> Owner
    requires at { IsSeatOf board.now seat.old × (lock < locks_of board.now) }
    requires list { slot_of seat.old.seat.me.1 (list_at lock) ≡ Some (Line (view_of seat.old).list) }
    ensures same { IsSameSeat board.now seat.old seat.new }
    ensures word { IsOwnWord lock seat.old.seat.me result seat.new.seat.me }
{
    let flags = match seat.first(board, lock) {
        Some(_) => WAITERS,
        None => 0,
    };
    Owner::of(Some(seat.who()), seat.stamp(), flags)
}

/// Takes the lock, if its owner word is still the one seen. The seat is inside the guard still.
fn take_seen(seat: &mut Stepper, board: &Board, lock: u32, seen: Owner) -> bool
    requires at { (s l : Bool) × IsAtWorkHere board.now lock s l seat.old }
    requires seen { SeesFree seen (view_of seat.old) }
    ensures same { IsSameSeat board.now seat.old seat.new }
    ensures tried { HasTriedInside (size_of board.now) lock seat.old.seat.me result seat.new.seat.me }
{
    if lock < u32::from(board.size()) {
        seat.take(board, lock, seen)
    } else {
        seat.take_bare_inside(board, lock, seen)
    }
}

/// The node of a lock that the seat owns; a blank one where the lock guards none.
fn node_or_blank(seat: &mut Stepper, board: &Board, lock: u32) -> Node
    requires at { IsSeatOf board.now seat.old × IsOrderly (size_of board.now) seat.old.seat.me }
    requires owner { lock < size_of board.now → owns (view_of seat.old) lock ≡ true }
    ensures same { IsSameSeat board.now seat.old seat.new }
    ensures read { HasReadNode (size_of board.now) lock seat.old.seat.me result seat.new.seat.me }
{
    if lock < u32::from(board.size()) {
        seat.node(board, lock)
    } else {
        blank()
    }
}

/// Takes the lock, if its owner word is still the one seen, gives the signs that its owner owes, and leaves the guard.
pub(crate) fn take_inside(
    seat: &mut Stepper,
    board: &Board,
    lock: u32,
    seen: Owner,
    wake: &mut [u64],
) -> Option<Node>
    requires at { (s l : Bool) × IsAtWorkHere board.now lock s l seat.old }
    requires seen { SeesFree seen (view_of seat.old) }
    requires marks { AreMarksOf (view_of seat.old) wake.old }
    ensures same { IsSameSeat board.now seat.old seat.new }
    ensures came { IsTakingInside board.now lock seat.old.seat.me wake.old result seat.new.seat.me wake.new }
{
    if !take_seen(seat, board, lock, seen) {
        return None;
    }
    let word = own_word(seat, board, lock);
    sign_all(seat, board, lock, word, wake);
    leave(seat, board, lock);
    Some(node_or_blank(seat, board, lock))
}
