//! A cancel ends a wait.
ghost use Rattle.std.specs.Prelude.{◌≡◌, ◌<◌, true, false};
ghost use Rattle.ww_table.specs.Seat.{size_of, view_of};
ghost use Rattle.ww_seat.specs.Work.{IsSameSeat, IsStop, SeesOther, StandsHere};

use crate::bell::Bell;
use crate::leaving::leave;
use crate::seats::Seat;
use crate::waits::Waits;
use crate::wake::wake_seat;
use ww_table::{Board, Stepper};
use ww_word::wide::Owner;

impl Seat {
    ghost use Rattle.ww_seat.specs.Bells.{AreBellsOf};
    ghost use Rattle.ww_seat.specs.Standings.{IsAt, MayCancel, IsCancel};

    /// Sets the cancel of a seat and wakes it, so that it looks; false if one is pending already, which stays. A waiter
    /// reads its cancel before it parks: one that is set earlier is heeded in that look, and one that is set later wakes
    /// the seat.
    pub fn cancel(&mut self, board: &Board, victim: u16, bells: &mut [Bell]) -> bool
        requires at { IsAt board.now self.old × AreBellsOf board.now bells.old }
        requires may { MayCancel board.now victim self.old }
        ensures { IsCancel self.old victim bells.old result self.new bells.new }
    {
        if !self.cancel_once(board, victim) {
            return false;
        }
        wake_seat(victim, bells);
        true
    }
}

/// Leaves the wait list and the guard where a cancel of the seat is pending and its wait is one that a cancel calls off, and tells whose it
/// was. While the seat stands in the list inside the guard nobody else writes the owner word, so it is still the one
/// seen.
pub(crate) fn stop_if_cancelled(
    seat: &mut Stepper,
    board: &Board,
    lock: u32,
    seen: Owner,
    waits: Waits,
) -> Option<u16>
    requires at { StandsHere board.now lock seat.old }
    requires seen { SeesOther seen (view_of seat.old) }
    ensures same { IsSameSeat board.now seat.old seat.new }
    ensures stopped { IsStop board.now.table.shared.key.places (size_of board.now) lock waits seat.old.seat.me result seat.new.seat.me }
{
    match waits {
        Waits::ToTheEnd => return None,
        Waits::UntilCancelled => {}
    }
    let mark = seat.heed(board, lock);
    if mark == 0 {
        return None;
    }
    if !seat.leave(board, lock, seen) {
        unreachable!();
    }
    leave(seat, board, lock);
    Some(mark as u16 - 1)
}
