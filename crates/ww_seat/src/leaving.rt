//! Out of the guard.
ghost use Rattle.std.specs.Prelude.{◌≡◌};
ghost use Rattle.ww_queue.specs.declared.kind.Kind.TheVariants.{WaitDie};
ghost use Rattle.ww_table.specs.Seat.{IsSeatOf, size_of, view_of};
ghost use Rattle.ww_seat.specs.Work.{IsCleared, IsHere, HasLeftGuard, IsSameSeat, MayGo, MayTakeSignBack};

use ww_queue::Kind;
use ww_table::{Board, Stepper};

/// In Wait-Die a context takes its own sign back, where it has one. Inside a guard nobody can sign it again.
fn take_sign_back(seat: &mut Stepper, board: &Board)
    requires seat { IsSeatOf board.now seat.old }
    requires may { MayTakeSignBack (view_of seat.old) }
    ensures same { IsSameSeat board.now seat.old seat.new }
    ensures cleared { IsCleared seat.old.seat.me seat.new.seat.me }
{
    match seat.kind() {
        Kind::WoundWait => {}
        Kind::WaitDie => clear_if_signed(seat, board),
    }
}

/// Takes the own sign back, where it isn't 0.
fn clear_if_signed(seat: &mut Stepper, board: &Board)
    requires seat { IsSeatOf board.now seat.old }
    requires kind { (view_of seat.old).kind ≡ WaitDie }
    requires may { MayTakeSignBack (view_of seat.old) }
    ensures same { IsSameSeat board.now seat.old seat.new }
    ensures cleared { IsCleared seat.old.seat.me seat.new.seat.me }
{
    if seat.stamp() == 0 {
        return;
    }
    if seat.own_sign(board) == 0 {
        return;
    }
    seat.clear(board);
}

/// Leaves the guard. In Wait-Die the seat takes back its own sign first: the seat that condemned it was met.
pub(crate) fn leave(seat: &mut Stepper, board: &Board, lock: u32)
    requires at { IsHere board.now lock seat.old }
    requires may { MayGo lock (view_of seat.old) }
    ensures same { IsSameSeat board.now seat.old seat.new }
    ensures out { HasLeftGuard (size_of board.now) seat.old.seat.me seat.new.seat.me }
{
    take_sign_back(seat, board);
    seat.exit(board, lock);
}
