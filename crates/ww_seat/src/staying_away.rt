//! Whoever has just lost its first try for a lock stays away from it for a while, before it joins the wait list: one
//! waiter there makes everybody else go through the guard.

use crate::patience::Patience;
use crate::resting::{BREATH, MOST_GLANCES, Rest, Stay};
use crate::seats::Seat;
use std::{hint, thread};
use ww_table::Board;

pub(crate) fn pause_for(pauses: u32) {
    for _ in 0..pauses {
        hint::spin_loop();
    }
}

impl Seat {
    ghost use Rattle.ww_seat.specs.Bells.{SleepsNot};
    ghost use Rattle.ww_seat.specs.Standings.{view_in, IsAt, MayWait, HasStayedAway, MayGlanceOn};

    /// Whether the call sees that it is late, once it has let other threads run.
    fn sees_late(&mut self, board: &Board, stay: &mut Stay) -> bool
        requires at { IsAt board.now self.old }
        requires may { MayGlanceOn stay.old (view_in self.old) }
        ensures stayed { HasStayedAway self.old self.new }
        ensures may { MayGlanceOn stay.new (view_in self.new) }
    {
        if !stay.yielded() {
            return false;
        }
        let begun = self.seat.begun(board);
        stay.is_late(begun)
    }

    /// Rests as it is told to, and lets other threads run meanwhile. Where these ran for so long that the call is late, it
    /// ends the rest and returns true.
    fn take_rest(&mut self, board: &Board, stay: &mut Stay, rest: Rest) -> bool
        requires at { IsAt board.now self.old }
        requires may { MayGlanceOn stay.old (view_in self.old) }
        ensures stayed { HasStayedAway self.old self.new }
        ensures may { MayGlanceOn stay.new (view_in self.new) }
    {
        for _ in 0..rest.yields {
            pause_for(BREATH);
            thread::yield_now();
            if self.sees_late(board, stay) {
                return true;
            }
        }
        pause_for(rest.pauses % BREATH);
        false
    }

    /// Stays away from a lock that it has just tried in vain, until nobody owns it, or for as long as its patience says.
    pub(crate) fn stay_away(&mut self, board: &Board, lock: u32, patience: &mut Patience)
        requires at { IsAt board.now self.old }
        requires may { MayWait board.now lock self.old }
        ensures { HasStayedAway self.old self.new × SleepsNot patience.old patience.new }
    {
        patience.lose();
        let mut stay = Stay::new(self.holds());
        for _ in 0..MOST_GLANCES {
            let owner = self.glance(board, lock);
            let Some(rest) = patience.next(&mut stay, owner) else {
                return;
            };
            if self.take_rest(board, &mut stay, rest) {
                return;
            }
        }
    }
}
