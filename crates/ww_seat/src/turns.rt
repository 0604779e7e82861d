//! What one round of each loop of a call does: a few steps, and it waits for nobody. The calls that wait are loops over
//! these steps; others make the steps themselves, and wait between them as they like.
ghost use Rattle.std.specs.Prelude.{◌≡◌, ◌<◌, Some};
ghost use Rattle.ww_word.specs.AnySeats.{IsValid};
ghost use Rattle.ww_table.specs.Seat.{IsSeatOf, locks_of, size_of, view_of};
ghost use Rattle.ww_seat.specs.Guards.{HasLet, IsGiving};

use crate::seats::Seat;
use ww_queue::wide::Entry;
use ww_table::{Board, Stepper, Tried};
use ww_word::wide::Owner;

impl Seat {
    ghost use Rattle.std.specs.Prelude.{◌<◌, IfSome};
    ghost use Rattle.ww_table.specs.Seat.{giving_of, locks_of};
    ghost use Rattle.ww_seat.specs.Standings.{view_in, IsAt, MayGoIn, IsGoneIn, MayReleaseNode, IsGive, MayReleaseBare, IsGiveBare, MayRelease, IsGoneInToGive, IsGivingThere, HasGivenOn, MayCancel, HasCancelled};

    /// One try to go inside the guard of a lock that the seat wants.
    pub fn enter_wanted(&mut self, board: &Board, lock: u32) -> bool
        requires at { IsAt board.now self.old }
        requires may { MayGoIn board.now lock self.old }
        ensures { IsGoneIn self.old lock result self.new }
    {
        self.seat.enter(board, lock)
    }

    /// One try to release, by one step, a lock that guards a node, which only an empty wait list allows.
    #[inline(always)]
    pub fn give(&mut self, board: &Board, lock: u32) -> bool
        requires at { IsAt board.now self.old }
        requires may { MayReleaseNode board.now lock self.old }
        ensures { IsGive self.old lock result self.new }
    {
        self.seat.give_free(board, lock)
    }

    /// The same of a lock that guards no node. The lock's word says whether the seat has it.
    #[inline(always)]
    pub fn give_bare(&mut self, board: &Board, lock: u32) -> Tried
        requires at { IsAt board.now self.old }
        requires may { MayReleaseBare board.now lock self.old }
        ensures { IsGiveBare self.old lock (giving_of result) self.new }
    {
        self.seat.give_bare(board, lock)
    }

    /// One try to go inside the guard of a lock that the seat owns.
    pub fn enter_owned(&mut self, board: &Board, lock: u32) -> bool
        requires at { IsAt board.now self.old }
        requires may { MayRelease board.now lock self.old }
        ensures { IsGoneInToGive self.old lock result self.new }
    {
        self.seat.enter(board, lock)
    }

    /// Releases the lock inside its guard, and leaves. The result is the first waiter, which is to be woken.
    pub fn give_on(&mut self, board: &Board, lock: u32) -> Option<Entry>
        requires at { IsAt board.now self.old }
        requires may { (lock < locks_of board.now) × IsGivingThere lock (view_in self.old) }
        ensures on { HasGivenOn self.old lock result self.new }
        ensures few { IfSome result (λ first. first.seat < board.now.table.shared.key.places) }
    {
        let seen = self.seat.look(board, lock);
        let first = self.seat.first(board, lock);
        give_seen(&mut self.seat, board, lock, seen);
        self.seat.exit(board, lock);
        first
    }

    /// Sets the cancel of a seat, which is to be woken then; false where one is pending, which stays.
    pub fn cancel_once(&mut self, board: &Board, victim: u16) -> bool
        requires at { IsAt board.now self.old }
        requires may { MayCancel board.now victim self.old }
        ensures { HasCancelled self.old victim result self.new }
    {
        self.seat.set_cancel(board, victim)
    }
}

/// Releases the lock, whose owner word the seat saw last. The seat is inside the guard still.
fn give_seen(seat: &mut Stepper, board: &Board, lock: u32, seen: Owner)
    requires at { IsSeatOf board.now seat.old × (lock < locks_of board.now) }
    requires giving { IsGiving (size_of board.now) lock seat.old.seat.me }
    requires seen { IsValid seen × ((view_of seat.old).seen ≡ Some seen) }
    ensures at { IsSeatOf board.now seat.new × (seat.new.records ≡ seat.old.records) }
    ensures gave { HasLet (size_of board.now) lock seat.old.seat.me seat.new.seat.me }
{
    if lock < u32::from(board.size()) {
        seat.give(board, lock, seen);
    } else {
        seat.give_bare_inside(board, lock, seen);
    }
}
