//! The steps on a sign word: a seat is condemned, sees it, and takes it back.

ghost use Rattle.std.specs.Prelude.{◌<◌};
ghost use Rattle.ww_view.specs.May.{MayClear, MaySign};
ghost use Rattle.ww_table.specs.Seat.{IsSeatOf, view_of};
ghost use Rattle.ww_invariant.specs.Signs.{clearing, condemning, noting};
ghost use Rattle.ww_table.specs.Steps.{IsEither, HasStepped, HasReadSign};

use crate::board::Board;
use crate::seat::Stepper;
use ww_invariant::layout::sign_word;
use ww_invariant::plays_inside::{Clear, OwnSign, Sign};

impl Stepper {
    /// Condemns another seat by the stamp of the older context that it meets here, and returns whether this call did
    /// so: a seat that has a sign keeps it. Either way the victim has one.
    pub fn sign(&mut self, board: &Board, lock: u32, victim: u16, stamp: u64) -> bool
        requires at { IsSeatOf board.now self.old }
        requires may { (victim < (view_of self.old).seats) × MaySign (view_of self.old) lock victim stamp }
        ensures { IsEither board.now self.old (condemning self.old.seat.me.0 victim) (noting self.old.seat.me.0 victim) result self.new }
    {
        let shared = &board.table.shared;
        shared.compare_exchange::<Sign>(&mut self.seat, sign_word(self.room, victim), 0, stamp) == 0
    }

    /// What the own sign says: 0, or the stamp of the older context that condemned the seat. Any sign but 0 stays; so
    /// does 0 while nobody may sign the seat.
    pub fn own_sign(&mut self, board: &Board) -> u64
        requires at { IsSeatOf board.now self.old }
        ensures { HasReadSign board.now self.old result self.new }
    {
        let shared = &board.table.shared;
        shared.load::<OwnSign>(&mut self.seat, self.sign)
    }

    /// Takes the own sign back. A store costs as much as any other locked step, so it is for a seat that found a sign.
    pub fn clear(&mut self, board: &Board)
        requires at { IsSeatOf board.now self.old }
        requires may { MayClear (view_of self.old) }
        ensures { HasStepped board.now self.old (clearing self.old.seat.me.0) self.new }
    {
        let shared = &board.table.shared;
        shared.store::<Clear>(&mut self.seat, self.sign, 0);
    }
}
