//! The steps into a guard and out of it, and the reads of an owner word as an owner.

ghost use Rattle.std.specs.Prelude.{◌≡◌, ◌<◌, ◌+◌};
ghost use Rattle.ww_word.specs.AnySeats.{IsValid};
ghost use Rattle.ww_view.specs.May.{MayGlance};
ghost use Rattle.ww_invariant.specs.Guards.{glancing};
ghost use Rattle.ww_table.specs.Seat.{IsSeatOf, locks_of, view_of};
ghost use Rattle.ww_table.specs.Steps.{HasAskedWhose, HasStepped};
ghost use Rattle.ww_table.specs.Inside.{MayBringList, MayEnterAt, MayExitAt, HasBroughtList, HasExited, HasSeen, HasTriedToEnter};

use crate::board::Board;
use crate::seat::Stepper;
use ww_invariant::bring;
use ww_invariant::layout::{STAMP, guard_word, list_slot, owner_word};
use ww_invariant::plays::Whose;
use ww_invariant::plays_inside::{Count, Enter, Exit, Glance, Look};
use ww_word::wide::{Owner, unpack};

impl Stepper {
    /// Rotates the slots that are out until the wait list of the lock is the last taken, and gives the slot's number.
    pub(crate) fn bring_list(&mut self, lock: u32) -> u32
        requires may { MayBringList lock self.old }
        ensures { HasBroughtList self.old lock result self.new }
    {
        let slot = list_slot(lock);
        bring(&mut self.seat, &mut self.order, slot);
        slot
    }

    /// One try to go inside the guard of a lock. The wait list comes with it.
    pub fn enter(&mut self, board: &Board, lock: u32) -> bool
        requires at { IsSeatOf board.now self.old }
        requires may { MayEnterAt board.now lock self.old }
        ensures { HasTriedToEnter board.now self.old lock result self.new }
    {
        let own = u64::from(self.who) + 1;
        let shared = &board.table.shared;
        let found = shared.compare_exchange::<Enter>(
            &mut self.seat,
            guard_word(board.locks, lock),
            0,
            own,
        );
        if found != 0 {
            return false;
        }
        self.order.push(list_slot(lock));
        true
    }

    /// Leaves the guard, and the wait list goes home as the view has it.
    pub fn exit(&mut self, board: &Board, lock: u32)
        requires at { IsSeatOf board.now self.old }
        requires may { MayExitAt board.now lock self.old }
        ensures { HasExited board.now self.old lock self.new }
    {
        self.bring_list(lock);
        let shared = &board.table.shared;
        shared.store::<Exit>(&mut self.seat, guard_word(board.locks, lock), 0);
        self.order.pop();
    }

    /// The owner word of the lock whose guard the seat is inside of.
    pub fn look(&mut self, board: &Board, lock: u32) -> Owner
        requires at { IsSeatOf board.now self.old }
        requires may { (lock < locks_of board.now) × ((view_of self.old).inside ≡ lock + 1) }
        ensures { HasSeen board.now self.old lock result self.new }
    {
        let shared = &board.table.shared;
        let word = shared.load::<Look>(&mut self.seat, owner_word(board.locks, lock));
        match unpack(word) {
            Some(owner) => owner,
            None => unreachable!(),
        }
    }

    /// The owner word of a lock, read from outside its guard. It is a guess: others may change the word any time, and no
    /// clause says what it was.
    pub fn glance(&mut self, board: &Board, lock: u32) -> Owner
        requires at { IsSeatOf board.now self.old }
        requires may { (lock < locks_of board.now) × MayGlance (view_of self.old) }
        ensures glanced { HasStepped board.now self.old (glancing self.old.seat.me.0) self.new }
        ensures valid { IsValid result }
    {
        let shared = &board.table.shared;
        let word = shared.load::<Glance>(&mut self.seat, owner_word(board.locks, lock));
        match unpack(word) {
            Some(owner) => owner,
            None => unreachable!(),
        }
    }

    /// Whose a lock is, by a look at its word. Others may change the word any time.
    pub fn whose(&mut self, board: &Board, lock: u32) -> Owner
        requires at { IsSeatOf board.now self.old }
        requires there { lock < locks_of board.now }
        ensures { HasAskedWhose board.now self.old lock result self.new }
    {
        let shared = &board.table.shared;
        let word = shared.load::<Whose>(&mut self.seat, owner_word(board.locks, lock));
        match unpack(word) {
            Some(owner) => owner,
            None => unreachable!(),
        }
    }

    /// How many contexts have begun, as the stamp word told from outside all guards. It is a guess as well, and counts
    /// as a spin read.
    pub fn begun(&mut self, board: &Board) -> u64
        requires at { IsSeatOf board.now self.old }
        requires may { MayGlance (view_of self.old) }
        ensures { HasStepped board.now self.old (glancing self.old.seat.me.0) self.new }
    {
        board.table.shared.load::<Count>(&mut self.seat, STAMP)
    }
}
