//! The steps of a waiter, and of the owner that it waits for, inside the guard.

ghost use Rattle.std.specs.Prelude.{ℕ, ◌≡◌, ◌<◌, true, Some};
ghost use Rattle.ww_view.specs.May.{MayDie};
ghost use Rattle.ww_view.specs.Made.{taken};
ghost use Rattle.ww_invariant.specs.Steps.{knowing};
ghost use Rattle.ww_invariant.specs.Waiting.{dying};
ghost use Rattle.ww_invariant.specs.Cancels.{stopping};
ghost use Rattle.ww_table.specs.Seat.{IsSeatOf, view_of};
ghost use Rattle.ww_table.specs.Inside.{MayAskAt, MayDieAt, MayGiveAt, MayGiveBareAt, MayJoinAt, MayLeaveAt, MayTakeAt, MayTakeBareAt, HasGivenBareInside, HasGivenInside, HasTriedToAsk, HasTriedToGo, HasTriedToJoin, HasTriedToTakeInside};

use crate::board::Board;
use crate::seat::Stepper;
use ww_invariant::bring;
use ww_invariant::layout::{list_slot, owner_word};
use ww_invariant::lists::{join_list, leave_list};
use ww_invariant::plays_inside::{
    Ask, Die, Give, GiveBareInside, Join, Leave, Take, TakeBareInside,
};
use ww_queue::wide::Entry;
use ww_word::wide::{Owner, pack};
use ww_word::{HANDOFF, WAITERS};

/// The steps on an owner word inside its guard. Each succeeds if the word is still the one expected. It is if the seat
/// saw that word last and somebody waits (`sure`), since nobody else writes it then; and nobody but its owner writes the
/// word of a lock while that is inside the guard, so a release there always succeeds.
impl Stepper {
    /// Stands in the wait list of the lock, if its owner word is still the one seen.
    pub fn join(&mut self, board: &Board, lock: u32, seen: Owner, holds: bool) -> bool
        requires at { IsSeatOf board.now self.old }
        requires may { MayJoinAt board.now lock seen holds self.old }
        ensures { HasTriedToJoin board.now self.old lock seen result self.new }
    {
        let shared = &board.table.shared;
        let old = pack(seen);
        let new = pack(seen.with_waiters());
        let found = shared.compare_exchange::<Join>(
            &mut self.seat,
            owner_word(board.locks, lock),
            old,
            new,
        );
        if found != old {
            return false;
        }
        let entry = Entry::of(self.who, self.stamp, holds);
        let slot = list_slot(lock);
        bring(&mut self.seat, &mut self.order, slot);
        let Some(page) = self.page.take() else {
            unreachable!()
        };
        join_list(&mut self.seat, shared, slot, page, entry);
        true
    }

    /// Asks the owner of the lock to hand it over, if its owner word is still the one seen.
    pub fn ask(&mut self, board: &Board, lock: u32, seen: Owner) -> bool
        requires at { IsSeatOf board.now self.old }
        requires may { MayAskAt board.now lock seen self.old }
        ensures { HasTriedToAsk board.now self.old seen result self.new }
    {
        let old = pack(seen);
        let new = pack(seen.with_flags(WAITERS | HANDOFF));
        let shared = &board.table.shared;
        shared.compare_exchange::<Ask>(&mut self.seat, owner_word(board.locks, lock), old, new)
            == old
    }

    /// Takes the lock, if its owner word is still the one seen: that of a free lock, or of one handed to the seat. The
    /// node comes with it, and the seat leaves the wait list.
    pub fn take(&mut self, board: &Board, lock: u32, seen: Owner) -> bool
        requires at { IsSeatOf board.now self.old }
        requires may { MayTakeAt board.now lock seen self.old }
        ensures { HasTriedToTakeInside board.now self.old lock seen result self.new }
    {
        let owner = self.own_left(board, lock);
        let old = pack(seen);
        let new = pack(owner);
        let shared = &board.table.shared;
        let found = shared.compare_exchange::<Take>(
            &mut self.seat,
            owner_word(board.locks, lock),
            old,
            new,
        );
        if found != old {
            return false;
        }
        let slot = list_slot(lock);
        self.order.pop();
        self.order.push(lock);
        self.order.push(slot);
        let page = self.page.take();
        self.page = leave_list(&mut self.seat, shared, slot, self.who, page);
        true
    }

    /// Takes a lock that guards no node, if its owner word is still the one seen, and leaves the wait list.
    pub fn take_bare_inside(&mut self, board: &Board, lock: u32, seen: Owner) -> bool
        requires at { IsSeatOf board.now self.old }
        requires may { MayTakeBareAt board.now lock seen self.old }
        ensures { HasTriedToGo board.now self.old lock seen (knowing self.old.seat.me.0 (taken (view_of self.old) lock)) result self.new }
    {
        let owner = self.own_left(board, lock);
        let old = pack(seen);
        let new = pack(owner);
        let shared = &board.table.shared;
        let found = shared.compare_exchange::<TakeBareInside>(
            &mut self.seat,
            owner_word(board.locks, lock),
            old,
            new,
        );
        if found != old {
            return false;
        }
        let page = self.page.take();
        self.page = leave_list(&mut self.seat, shared, list_slot(lock), self.who, page);
        true
    }

    /// Releases a lock that guards no node, and whose owner word the seat saw last: to the first waiter if that asked
    /// for it.
    pub fn give_bare_inside(&mut self, board: &Board, lock: u32, seen: Owner)
        requires at { IsSeatOf board.now self.old }
        requires may { MayGiveBareAt board.now lock seen self.old }
        ensures { HasGivenBareInside board.now self.old lock seen self.new }
    {
        let owner = self.next_owner(board, lock, seen.flags() == WAITERS | HANDOFF);
        let old = pack(seen);
        let new = pack(owner);
        let shared = &board.table.shared;
        shared.compare_exchange::<GiveBareInside>(
            &mut self.seat,
            owner_word(board.locks, lock),
            old,
            new,
        );
    }

    /// Leaves the wait list, as the context has to back off, if the owner word is still the one seen.
    pub fn die(&mut self, board: &Board, lock: u32, seen: Owner) -> bool
        requires at { IsSeatOf board.now self.old }
        requires may { MayDieAt board.now lock seen self.old }
        ensures gone { HasTriedToGo board.now self.old lock seen (dying self.old.seat.me.0 seen) result self.new }
        ensures older { (k : ℕ) → MayDie (view_of self.old) lock seen k → k < (view_of self.old).stamp }
    {
        let rest = self.owner_left(board, lock, seen);
        let old = pack(seen);
        let new = pack(rest);
        let shared = &board.table.shared;
        let found = shared.compare_exchange::<Die>(
            &mut self.seat,
            owner_word(board.locks, lock),
            old,
            new,
        );
        if found != old {
            return false;
        }
        let page = self.page.take();
        self.page = leave_list(&mut self.seat, shared, list_slot(lock), self.who, page);
        true
    }

    /// Leaves the wait list for the cancel that the seat has heeded, if the owner word is still the one seen. It is,
    /// where that is the word that the seat saw last (`sure`): while a waiter is inside the guard, nobody else writes
    /// it. So a seat that has heeded a cancel needs no way back.
    pub fn leave(&mut self, board: &Board, lock: u32, seen: Owner) -> bool
        requires at { IsSeatOf board.now self.old }
        requires may { MayLeaveAt board.now lock seen self.old }
        ensures gone { HasTriedToGo board.now self.old lock seen (stopping self.old.seat.me.0 seen) result self.new }
        ensures sure { (view_of self.old).seen ≡ Some seen → result ≡ true }
    {
        let rest = self.owner_left(board, lock, seen);
        let old = pack(seen);
        let new = pack(rest);
        let shared = &board.table.shared;
        let found = shared.compare_exchange::<Leave>(
            &mut self.seat,
            owner_word(board.locks, lock),
            old,
            new,
        );
        if found != old {
            return false;
        }
        let page = self.page.take();
        self.page = leave_list(&mut self.seat, shared, list_slot(lock), self.who, page);
        true
    }

    /// Releases the lock, whose owner word the seat saw last: to the first waiter, if that was asked for. The node goes
    /// home.
    pub fn give(&mut self, board: &Board, lock: u32, seen: Owner)
        requires at { IsSeatOf board.now self.old }
        requires may { MayGiveAt board.now lock seen self.old }
        ensures { HasGivenInside board.now self.old lock seen self.new }
    {
        let owner = self.next_owner(board, lock, seen.flags() == WAITERS | HANDOFF);
        bring(&mut self.seat, &mut self.order, lock);
        let old = pack(seen);
        let new = pack(owner);
        let shared = &board.table.shared;
        shared.compare_exchange::<Give>(&mut self.seat, owner_word(board.locks, lock), old, new);
        self.order.pop();
    }
}
