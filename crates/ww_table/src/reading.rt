//! What a seat inside a guard reads in the wait list. None of this is a step: nobody else sees it.
ghost use Rattle.ww_queue.specs.Queue.{left};
ghost use Rattle.ww_word.specs.AnySeats.{IsValid};
ghost use Rattle.ww_view.specs.Word.{given_word, rest_word, taken_word};
ghost use Rattle.ww_table.specs.Seat.{IsSeatOf, view_of};
ghost use Rattle.ww_table.specs.Inside.{MayReadList, HasReadDeath, HasReadDebts, HasReadFirst, HasReadFlag, HasReadOwner, HasReadValid};

use crate::board::Board;
use crate::seat::Stepper;
use arrayvec::ArrayVec;
use ww_invariant::lists::{death_there, first_there, flag_there, owed_there, owner_there};
use ww_queue::wide::{Entry, SOME_SIGNS};
use ww_word::wide::Owner;

impl Stepper {
    /// The stamp for which the seat has to die, by the owner that it saw and the wait list.
    pub fn must_die(&mut self, board: &Board, lock: u32, seen: Owner, sign: u64) -> Option<u64>
        requires at { IsSeatOf board.now self.old }
        requires may { MayReadList board.now lock self.old }
        ensures { HasReadDeath board.now self.old lock seen sign result self.new }
    {
        let slot = self.bring_list(lock);
        death_there(
            &mut self.seat,
            &board.table.shared,
            slot,
            self.kind,
            seen,
            self.who,
            sign,
        )
    }

    /// Some of those to whom the seat owes a sign, by the owner that it saw and the wait list, of the waiters from a place
    /// on; and from which place on there are more.
    pub fn owed_signs(
        &mut self,
        board: &Board,
        lock: u32,
        seen: Owner,
        from: usize,
    ) -> (ArrayVec<(u16, u64), SOME_SIGNS>, Option<usize>)
        requires at { IsSeatOf board.now self.old }
        requires may { MayReadList board.now lock self.old }
        ensures { HasReadDebts board.now self.old lock seen from result.0.items result.1 self.new }
    {
        let slot = self.bring_list(lock);
        owed_there(
            &mut self.seat,
            &board.table.shared,
            slot,
            self.kind,
            seen,
            self.who,
            from,
        )
    }

    /// The first waiter.
    pub fn first(&mut self, board: &Board, lock: u32) -> Option<Entry>
        requires at { IsSeatOf board.now self.old }
        requires may { MayReadList board.now lock self.old }
        ensures { HasReadFirst board.now self.old lock result self.new }
    {
        let slot = self.bring_list(lock);
        first_there(&mut self.seat, &board.table.shared, slot)
    }

    /// The flag of the waiters that are left once the seat has gone.
    pub(crate) fn flag_left(&mut self, board: &Board, lock: u32) -> u8
        requires at { IsSeatOf board.now self.old }
        requires may { MayReadList board.now lock self.old }
        ensures { HasReadFlag board.now self.old lock result self.new }
    {
        let slot = self.bring_list(lock);
        flag_there(&mut self.seat, &board.table.shared, slot, self.who)
    }

    /// The owner word of the seat itself, once it has taken the lock and left the wait list.
    pub(crate) fn own_left(&mut self, board: &Board, lock: u32) -> Owner
        requires at { IsSeatOf board.now self.old }
        requires may { MayReadList board.now lock self.old }
        ensures { HasReadValid board.now self.old lock (taken_word (view_of self.old).who (view_of self.old).stamp (left (view_of self.old).list (view_of self.old).who)) result self.new }
    {
        let flags = self.flag_left(board, lock);
        Owner::of(Some(self.who), self.stamp, flags)
    }

    /// The owner word once the seat has gone, by the one that it saw: without flags if nobody waits then.
    pub(crate) fn owner_left(&mut self, board: &Board, lock: u32, seen: Owner) -> Owner
        requires at { IsSeatOf board.now self.old }
        requires may { MayReadList board.now lock self.old × IsValid seen }
        ensures { HasReadValid board.now self.old lock (rest_word (left (view_of self.old).list (view_of self.old).who) seen) result self.new }
    {
        if self.flag_left(board, lock) == 0 {
            return seen.with_flags(0);
        }
        seen
    }

    /// The owner of the lock after it is released: the first waiter if HANDOFF is set, else nobody.
    pub(crate) fn next_owner(&mut self, board: &Board, lock: u32, is_asked: bool) -> Owner
        requires at { IsSeatOf board.now self.old }
        requires may { MayReadList board.now lock self.old }
        ensures { HasReadOwner board.now self.old lock (given_word is_asked (view_of self.old).list) result self.new }
    {
        let slot = self.bring_list(lock);
        owner_there(&mut self.seat, &board.table.shared, slot, is_asked)
    }
}
