//! A lock that somebody may wait for is released.

use crate::bell::Bell;
use crate::seats::Seat;
use crate::wake::wake_first;
use std::sync::Wait;
use ww_table::Board;

impl Seat {
    ghost use Rattle.std.specs.Prelude.{◌<◌};
    ghost use Rattle.ww_table.specs.Seat.{locks_of};
    ghost use Rattle.ww_seat.specs.Bells.{AreBellsOf};
    ghost use Rattle.ww_seat.specs.Standings.{view_in, IsAt, MayRelease, IsGivingThere, IsGiven};

    /// Releases a lock that somebody may wait for. The first waiter is woken, whether the lock was handed to it or is
    /// free: a waiter that parks looks only when it is woken.
    #[cold]
    pub fn give_waited<R: Wait>(&mut self, rt: &R, board: &Board, lock: u32, bells: &mut [Bell])
        requires at { IsAt board.now self.old × AreBellsOf board.now bells.old }
        requires may { MayRelease board.now lock self.old }
        ensures { IsGiven self.old lock bells.old self.new bells.new }
    {
        self.spin_into_owned(rt, board, lock);
        self.give_and_wake(board, lock, bells);
    }

    /// Releases the lock inside its guard, leaves, and wakes the first waiter. It may not wait, so it ends: whoever was given
    /// the lock is woken.
    fn give_and_wake(&mut self, board: &Board, lock: u32, bells: &mut [Bell])
        requires at { IsAt board.now self.old × AreBellsOf board.now bells.old }
        requires may { (lock < locks_of board.now) × IsGivingThere lock (view_in self.old) }
        ensures { IsGiven self.old lock bells.old self.new bells.new }
    {
        let first = self.give_on(board, lock);
        wake_first(first, bells);
    }
}
