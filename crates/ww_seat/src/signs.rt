//! Which seats this one condemns, and whether it is condemned itself.
ghost use Rattle.ww_table.specs.Seat.{size_of, view_of};
ghost use Rattle.ww_seat.specs.Work.{AreMarksOf, AreOwed, HasLookedForDeath, HasMarked, HasNoted, HasSigned, IsInsideHere, IsSameSeat, SeesOther, SeesSeats, StandsHere};

use crate::wake::mark;
use ww_queue::Kind;
use ww_table::{Board, Stepper};
use ww_word::wide::Owner;

/// Sets some of the signs that the seat owes by the word it saw.
fn sign_some(seat: &mut Stepper, board: &Board, lock: u32, owed: &[(u16, u64)], wake: &mut [u64])
    requires at { IsInsideHere board.now lock seat.old }
    requires owed { AreOwed (view_of seat.old) owed.now }
    requires marks { AreMarksOf (view_of seat.old) wake.old }
    ensures same { IsSameSeat board.now seat.old seat.new }
    ensures signed { HasNoted (size_of board.now) owed.now seat.old.seat.me seat.new.seat.me × HasMarked wake.old (view_of seat.old) (view_of seat.new) wake.new }
{
    let who = seat.who();
    for pair in owed {
        let (victim, stamp) = *pair;
        let is_condemned = seat.sign(board, lock, victim, stamp);
        mark(wake, who, victim, is_condemned);
    }
}

/// Sets all signs that the seat owes by the word it saw. The seats that this call condemned have to be woken by it; a
/// seat that was signed before is woken by the one that signed it.
pub(crate) fn sign_all(seat: &mut Stepper, board: &Board, lock: u32, seen: Owner, wake: &mut [u64])
    requires at { IsInsideHere board.now lock seat.old }
    requires seen { SeesSeats seen (view_of seat.old) }
    requires marks { AreMarksOf (view_of seat.old) wake.old }
    ensures same { IsSameSeat board.now seat.old seat.new }
    ensures signed { HasSigned (size_of board.now) seen seat.old.seat.me seat.new.seat.me × HasMarked wake.old (view_of seat.old) (view_of seat.new) wake.new }
{
    let mut next = Some(0);
    while let Some(from) = next {
        let (owed, more) = seat.owed_signs(board, lock, seen, from);
        sign_some(seat, board, lock, owed.as_slice(), wake);
        next = more;
    }
}

/// The stamp for which the seat has to die. In Wound-Wait it looks for its sign only where a sign would make it die.
pub(crate) fn death(seat: &mut Stepper, board: &Board, lock: u32, seen: Owner) -> Option<u64>
    requires at { StandsHere board.now lock seat.old }
    requires seen { SeesOther seen (view_of seat.old) }
    ensures same { IsSameSeat board.now seat.old seat.new }
    ensures looked { HasLookedForDeath (size_of board.now) lock seen seat.old.seat.me result seat.new.seat.me }
{
    match seat.kind() {
        Kind::WaitDie => seat.must_die(board, lock, seen, 0),
        Kind::WoundWait => {
            seat.must_die(board, lock, seen, 1)?;
            let sign = seat.own_sign(board);
            if sign == 0 {
                return None;
            }
            Some(sign)
        }
    }
}
