//! The wait for a lock: looks at it, with a sleep between two, until one ends it.

use crate::bell::Bell;
use crate::look::{Arrival, Attempt, Look};
use crate::patience::Patience;
use crate::seats::Seat;
use crate::waits::Waits;
use crate::wake::deliver;
use std::sync::Wait;
use ww_plain::Node;
use ww_table::Board;

/// Why a waiter came without the lock.
#[derive(Clone, Copy)]
pub enum NoLock {
    /// It had to die, for this older stamp.
    Deadlk(u64),
    /// This seat called it off.
    Interrupted(u16),
}

impl Seat {
    ghost use Rattle.std.specs.Prelude.{◌≡◌, ◌≤◌};
    ghost use Rattle.ww_seat.specs.Bells.{AreBellsOf};
    ghost use Rattle.ww_seat.specs.Work.{AreOnlyWoken, ComesOutside};
    ghost use Rattle.ww_seat.specs.Standings.{view_in, OwnsNodes, IsAt, MayGoIn, MayWait, MayWaitWith, IsWait, StaysEven, IsVisit, IsAtWorkThere, HasLooked};

    /// Waits for a lock after a try has failed, and gives its node; or else the older stamp that was met, or, if the
    /// call heeds its cancel, the seat that cancelled the wait. It stays away for a while, and then looks and parks until
    /// a look ends the wait.
    #[cold]
    pub fn wait_for<R: Wait>(
        &mut self,
        rt: &R,
        board: &Board,
        lock: u32,
        waits: Waits,
        patience: &mut Patience,
        bells: &mut [Bell],
    ) -> Result<Node, NoLock>
        requires at { IsAt board.now self.old × MayWaitWith board.now self.old patience.old bells.old }
        requires may { MayWait board.now lock self.old }
        ensures waited { IsWait board.now self.old lock waits result self.new }
        ensures even { StaysEven patience.old bells.old self.new patience.new bells.new }
    {
        self.stay_away(board, lock, patience);
        self.wait(rt, board, lock, waits, patience, bells)
    }

    /// Waits for a lock: it looks, and sleeps, until a look ends its waiting. It reads no word outside the guard, and its
    /// cancel only where it is to be heeded.
    fn wait<R: Wait>(
        &mut self,
        rt: &R,
        board: &Board,
        lock: u32,
        waits: Waits,
        patience: &mut Patience,
        bells: &mut [Bell],
    ) -> Result<Node, NoLock>
        requires at { IsAt board.now self.old × MayWaitWith board.now self.old patience.old bells.old }
        requires may { MayGoIn board.now lock self.old × ((view_in self.old).waits ≡ 0) × OwnsNodes self.old }
        ensures waited { IsWait board.now self.old lock waits result self.new }
        ensures even { StaysEven patience.old bells.old self.new patience.new bells.new }
    {
        let mut arrival = Arrival::Came;
        for _ in rt.forever() {
            patience.look();
            match self.visit(rt, board, lock, arrival, waits, bells) {
                Look::Locked(node) => return Ok(node),
                Look::Deadlk(met) => {
                    patience.back_off();
                    return Err(NoLock::Deadlk(met));
                }
                Look::Interrupted(by) => return Err(NoLock::Interrupted(by)),
                Look::Waits => {
                    patience.sleep(rt, self, bells, waits);
                    arrival = Arrival::Woken;
                }
            }
        }
        unreachable!()
    }

    /// One look at a lock. Others are woken once the seat is outside the guard again, where they may go.
    pub fn visit<R: Wait>(
        &mut self,
        rt: &R,
        board: &Board,
        lock: u32,
        arrival: Arrival,
        waits: Waits,
        bells: &mut [Bell],
    ) -> Look
        requires at { IsAt board.now self.old × AreBellsOf board.now bells.old × (board.now.table.shared.key.places ≤ 16) }
        requires may { MayGoIn board.now lock self.old × ComesOutside arrival (view_in self.old) × OwnsNodes self.old }
        ensures { IsVisit board.now.table.shared.key.places self.old lock waits bells.old result self.new bells.new }
    {
        let holds = self.holds();
        self.spin_into_wanted(rt, board, lock);
        let mut wake = [0; 1];
        let look = self.look_at(rt, board, lock, arrival, waits, holds, &mut wake);
        deliver(&wake, bells);
        look
    }

    /// One look at a lock whose guard the seat has just entered, until it is outside again. A compare-exchange that finds
    /// another word makes the seat look at the word again.
    fn look_at<R: Wait>(
        &mut self,
        rt: &R,
        board: &Board,
        lock: u32,
        arrival: Arrival,
        waits: Waits,
        holds: bool,
        wake: &mut [u64],
    ) -> Look
        requires at { IsAt board.now self.old }
        requires may { IsAtWorkThere board.now lock arrival holds wake.old self.old × AreOnlyWoken (view_in self.old) wake.old }
        ensures { HasLooked board.now.table.shared.key.places self.old lock waits wake.old result self.new wake.new }
    {
        let mut arrival = arrival;
        for _ in rt.forever() {
            match self.look_once(board, lock, &mut arrival, waits, holds, wake) {
                Attempt::Ended(look) => return look,
                Attempt::Lost => {}
            }
        }
        unreachable!()
    }
}
