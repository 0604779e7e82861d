//! The lock is another's: the seat stands in its wait list, asks for it, and stays or dies there.
ghost use Rattle.std.specs.Prelude.{ℕ, ◌≡◌, Bool, true, length};
ghost use Rattle.ww_model.specs.State.{any_below};
ghost use Rattle.ww_view.specs.View.{owns};
ghost use Rattle.ww_word.specs.AnySeats.{IsValid};
ghost use Rattle.ww_view.specs.May.{MayDie};
ghost use Rattle.ww_table.specs.Seat.{size_of, view_of};
ghost use Rattle.ww_seat.specs.Work.{has_joined, looks_again, AreMarksOf, HasAskedIfFirst, HasBackedOff, IsAtWorkHere, IsSameSeat, IsStand, IsStay, SeesOther, SeesWaited, StandsHere};

use crate::leaving::leave;
use crate::look::{Arrival, Attempt, Look};
use crate::signs::{death, sign_all};
use ww_table::{Board, Stepper};
use ww_word::wide::Owner;
use ww_word::{HANDOFF, WAITERS};

/// Joins the wait list unless the seat stands in it, and gives the owner word afterwards; `None` if the word has
/// changed.
pub(crate) fn stand(
    seat: &mut Stepper,
    board: &Board,
    lock: u32,
    seen: Owner,
    arrival: Arrival,
    holds: bool,
) -> Option<Owner>
    requires at { (l : Bool) × IsAtWorkHere board.now lock (has_joined arrival) l seat.old }
    requires holds { any_below (length (view_of seat.old).owned) (owns (view_of seat.old)) ≡ holds }
    requires seen { SeesOther seen (view_of seat.old) }
    ensures same { IsSameSeat board.now seat.old seat.new }
    ensures stands { IsStand (size_of board.now) lock (has_joined arrival) seen seat.old.seat.me result seat.new.seat.me }
{
    if arrival.has_joined() {
        return Some(seen);
    }
    if !seat.join(board, lock, seen, holds) {
        return None;
    }
    Some(seen.with_waiters())
}

/// Asks for the lock as the first waiter that looks again, if the owner word is still the one seen and nobody asked
/// yet, and gives the word as it is then.
fn ask_if_first(
    seat: &mut Stepper,
    board: &Board,
    lock: u32,
    seen: Owner,
    arrival: Arrival,
) -> Option<Owner>
    requires at { IsAtWorkHere board.now lock true (looks_again arrival) seat.old }
    requires seen { SeesWaited seen (looks_again arrival) (view_of seat.old) }
    ensures same { IsSameSeat board.now seat.old seat.new }
    ensures asked { HasAskedIfFirst (size_of board.now) (looks_again arrival) seat.old.seat.me result seat.new.seat.me }
{
    if !arrival.looks_again() {
        return Some(seen);
    }
    if seen.flags() != WAITERS {
        return Some(seen);
    }
    let first = seat.first(board, lock)?;
    if first.seat() != seat.who() {
        return Some(seen);
    }
    if !seat.ask(board, lock, seen) {
        return None;
    }
    Some(seen.with_flags(WAITERS | HANDOFF))
}

/// Leaves the wait list and the guard, as the context has to back off, if the owner word is still the one seen.
fn back_off(seat: &mut Stepper, board: &Board, lock: u32, seen: Owner) -> bool
    requires at { StandsHere board.now lock seat.old }
    requires may { IsValid seen × ((k : ℕ) × MayDie (view_of seat.old) lock seen k) }
    ensures same { IsSameSeat board.now seat.old seat.new }
    ensures backed_off { HasBackedOff (size_of board.now) lock seen seat.old.seat.me result seat.new.seat.me }
{
    if !seat.die(board, lock, seen) {
        return false;
    }
    leave(seat, board, lock);
    true
}

/// The rest of a look of a seat in the wait list: it asks for the lock if it looks again, signs the seats to which it
/// owes signs, and then stays or backs off.
pub(crate) fn stay_or_back_off(
    seat: &mut Stepper,
    board: &Board,
    lock: u32,
    seen: Owner,
    arrival: Arrival,
    wake: &mut [u64],
) -> Attempt
    requires at { IsAtWorkHere board.now lock true (looks_again arrival) seat.old }
    requires seen { SeesWaited seen (looks_again arrival) (view_of seat.old) }
    requires marks { AreMarksOf (view_of seat.old) wake.old }
    ensures same { IsSameSeat board.now seat.old seat.new }
    ensures came { IsStay board.now lock (looks_again arrival) seat.old.seat.me wake.old result seat.new.seat.me wake.new }
{
    let Some(word) = ask_if_first(seat, board, lock, seen, arrival) else {
        return Attempt::Lost;
    };
    sign_all(seat, board, lock, word, wake);
    match death(seat, board, lock, word) {
        None => {
            leave(seat, board, lock);
            Attempt::Ended(Look::Waits)
        }
        Some(met) => {
            if !back_off(seat, board, lock, word) {
                return Attempt::Lost;
            }
            Attempt::Ended(Look::Deadlk(met))
        }
    }
}
