//! The steps on a cancel word: it is set, and taken by its own seat.

ghost use Rattle.std.specs.Prelude.{◌<◌};
ghost use Rattle.ww_view.specs.View.{IsAway};
ghost use Rattle.ww_view.specs.May.{MayHeed};
ghost use Rattle.ww_table.specs.Seat.{IsSeatOf, view_of};
ghost use Rattle.ww_invariant.specs.Cancels.{cancelling, finding_pending};
ghost use Rattle.ww_table.specs.Steps.{IsEither, HasHeeded};

use crate::board::Board;
use crate::seat::Stepper;
use ww_invariant::layout::cancel_word;
use ww_invariant::plays_inside::{Heed, SetCancel};

impl Stepper {
    /// Sets the cancel of a seat, which may be the own one, and returns whether this call did so: a cancel that is
    /// pending stays as it is.
    pub fn set_cancel(&mut self, board: &Board, victim: u16) -> bool
        requires at { IsSeatOf board.now self.old }
        requires may { (victim < (view_of self.old).seats) × IsAway (view_of self.old) }
        ensures { IsEither board.now self.old (cancelling self.old.seat.me.0 victim) (finding_pending self.old.seat.me.0) result self.new }
    {
        let own = u64::from(self.who) + 1;
        let shared = &board.table.shared;
        shared.compare_exchange::<SetCancel>(&mut self.seat, cancel_word(self.room, victim), 0, own)
            == 0
    }

    /// Takes the own cancel, which only a waiter inside the guard may do, while another seat has the lock. It gives the
    /// number of the seat that set it plus 1, or 0 if none is pending, which the view notes. A seat that found one can get out of the guard
    /// only by `leave`.
    pub fn heed(&mut self, board: &Board, lock: u32) -> u64
        requires at { IsSeatOf board.now self.old }
        requires may { MayHeed (view_of self.old) lock }
        ensures { HasHeeded board.now self.old result self.new }
    {
        let shared = &board.table.shared;
        shared.swap::<Heed>(&mut self.seat, cancel_word(self.room, self.who), 0)
    }
}
