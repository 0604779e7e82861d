//! Contexts: one is begun with the next stamp, and ends where it holds nothing.

use crate::seats::Seat;
use ww_table::Board;

impl Seat {
    ghost use Rattle.ww_invariant.specs.Steps.{MayDraw, MayEnd};
    ghost use Rattle.ww_seat.specs.Standings.{view_in, IsAt, IsBegin, IsEnd};

    /// Starts a context, and gives its stamp: one more than the stamp drawn last. None where all stamps are spent.
    #[inline(always)]
    pub fn begin(&mut self, board: &Board) -> Option<u64>
        requires at { IsAt board.now self.old }
        requires may { MayDraw self.old.me.0.part }
        ensures { IsBegin board.now self.old result self.new }
    {
        self.seat.draw(board)
    }

    /// Ends the context. A sign that it still has is taken back first: nobody signs a seat that holds nothing.
    #[inline(always)]
    pub fn end(&mut self, board: &Board)
        requires at { IsAt board.now self.old }
        requires may { MayEnd (view_in self.old) }
        ensures { IsEnd self.old self.new }
    {
        if self.seat.end(board) {
            return;
        }
        self.seat.clear(board);
        if !self.seat.end(board) {
            unreachable!();
        }
    }
}
