//! Into the guard of a lock. A seat inside it makes a few steps and never waits there, so others spin to get in.

use crate::seats::Seat;
use crossbeam_utils::Backoff as Pause;
use std::sync::Wait;
use ww_table::Board;

impl Seat {
    ghost use Rattle.ww_seat.specs.Standings.{view_in, IsAt, MayGoIn, IsIn, MayRelease, HasGoneIn, IsGivingThere};

    /// Tries to go inside the guard of a lock that the seat wants, until it is there.
    #[cold]
    pub(crate) fn spin_into_wanted<R: Wait>(&mut self, rt: &R, board: &Board, lock: u32)
        requires at { IsAt board.now self.old }
        requires may { MayGoIn board.now lock self.old }
        ensures { IsIn self.old lock self.new }
    {
        let pause = Pause::new();
        for _ in rt.forever() {
            if self.enter_wanted(board, lock) {
                return;
            }
            pause.snooze();
        }
        unreachable!()
    }

    /// The same of a lock that it owns.
    #[cold]
    pub(crate) fn spin_into_owned<R: Wait>(&mut self, rt: &R, board: &Board, lock: u32)
        requires at { IsAt board.now self.old }
        requires may { MayRelease board.now lock self.old }
        ensures { HasGoneIn self.old self.new × IsGivingThere lock (view_in self.new) }
    {
        let pause = Pause::new();
        for _ in rt.forever() {
            if self.enter_owned(board, lock) {
                return;
            }
            pause.snooze();
        }
        unreachable!()
    }
}
