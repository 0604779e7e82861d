//! What the calls of the states do at the table of the world, by the seat that each state carries.

use crate::hand::{Hand, add};
use crate::world::World;
use std::sync::Wait;
use ww_seat::{NoLock, Waits};

impl Hand {
    ghost use Rattle.std.specs.Prelude.{◌≡◌, ◌<◌, ◌≤◌, ◌∷◌, [], true, false, length, None};
    ghost use Rattle.ww_plain.specs.Numbers.{is_among};
    ghost use Rattle.ww_lock.specs.Holding.{Holding, IsAtHome};
    ghost use Rattle.ww_lock.specs.Carried.{holding_of, held_of, stamp_of, met_of, MayStillCommit, MayBegin, MayLock, MayLockAlone};
    ghost use Rattle.ww_lock.specs.Moves.{tried, found_pending, emptied, IsTaken, IsCancelling, HasBegun, HasLost, IsTried, HasReturned, HasLetOrKept, HasLetGo};

    /// Starts a context: it draws a stamp.
    pub(crate) fn begin(&mut self, world: &World)
        requires home { IsAtHome (holding_of self.old) world.now }
        requires may { MayBegin self.old }
        ensures { HasBegun self.old self.new }
    {
        match self.seat.begin(&world.board) {
            Some(_) => {}
            None => unreachable!(),
        }
    }

    /// Ends the context.
    pub(crate) fn end(&mut self, world: &World)
        requires home { IsAtHome (holding_of self.old) world.now }
        requires may { (0 < stamp_of self.old) × (held_of self.old ≡ []) }
        ensures { holding_of self.new ≡ record (holding_of self.old) { stamp = 0 } }
    {
        self.seat.end(&world.board);
    }

    /// One try to take a lock, without waiting. Where it fails the seat may go on to wait for the lock.
    #[inline(always)]
    pub(crate) fn try_take(&mut self, world: &World, n: u8) -> bool
        requires home { IsAtHome (holding_of self.old) world.now }
        requires may { MayLock n self.old }
        ensures { IsTried self.old n result self.new }
    {
        match self.seat.try_take(&world.board, u32::from(n)) {
            Some(node) => {
                add(&mut self.marks, &mut self.seen, n, node);
                true
            }
            None => false,
        }
    }

    /// Waits for a lock after a first try that failed. It ends with the lock, or with the stamp of the older context
    /// that was met, or with the seat that called the wait off. The contract compares this with the state before that
    /// try.
    #[cold]
    pub(crate) fn wait_for<R: Wait>(
        &mut self,
        rt: &R,
        world: &World,
        n: u8,
        waits: Waits,
    ) -> Result<(), NoLock>
        requires home { IsAtHome (holding_of self.old) world.now }
        requires may { HasLost n self.old }
        ensures { (s : Holding) → holding_of self.old ≡ tried s → HasReturned s n waits result self.new }
    {
        let node = self.seat.wait_for(
            rt,
            &world.board,
            u32::from(n),
            waits,
            &mut self.patience,
            &mut self.bells,
        )?;
        add(&mut self.marks, &mut self.seen, n, node);
        Ok(())
    }

    /// Takes a lock that isn't held, by one try, or else after waiting for it; or returns why it wasn't taken.
    #[inline(always)]
    pub(crate) fn take<R: Wait>(
        &mut self,
        rt: &R,
        world: &World,
        n: u8,
        waits: Waits,
    ) -> Result<(), NoLock>
        requires home { IsAtHome (holding_of self.old) world.now }
        requires may { MayLock n self.old }
        ensures { HasReturned (holding_of self.old) n waits result self.new }
    {
        if self.try_take(world, n) {
            return Ok(());
        }
        self.wait_for(rt, world, n, waits)
    }

    /// Calls off the wait of a caller.
    pub(crate) fn cancel(&mut self, world: &World, who: u8) -> bool
        requires home { IsAtHome (holding_of self.old) world.now }
        requires caller { who < world.now.passes }
        ensures set { result ≡ true → IsCancelling (holding_of self.old) who (holding_of self.new) }
        ensures pending { result ≡ false → holding_of self.new ≡ found_pending (holding_of self.old) }
    {
        self.seat
            .cancel(&world.board, u16::from(who), &mut self.bells)
    }

    /// Takes a lock where nothing is held: nobody gets EDEADLK there.
    pub(crate) fn take_alone<R: Wait>(&mut self, rt: &R, world: &World, n: u8)
        requires home { IsAtHome (holding_of self.old) world.now }
        requires may { MayLockAlone n self.old }
        ensures fresh { MayStillCommit self.new × (met_of self.new ≡ None) }
        ensures taken { IsTaken (holding_of self.old) n (holding_of self.new) }
    {
        if self.take(rt, world, n, Waits::ToTheEnd).is_err() {
            unreachable!()
        }
    }

    /// One try to release the lock of a node that is held, without waiting. Where it fails the lock is still held.
    #[inline(always)]
    fn give(&mut self, world: &World, n: u32) -> bool
        requires home { IsAtHome (holding_of self.old) world.now }
        requires held { is_among n (held_of self.old) ≡ true }
        ensures { HasLetOrKept self.old result self.new }
    {
        let gave = self.seat.give(&world.board, n);
        if gave {
            self.marks[n as usize] = false;
        }
        gave
    }

    /// Releases the lock of a node that is held, where somebody may wait for it.
    #[cold]
    fn give_waited<R: Wait>(&mut self, rt: &R, world: &World, n: u32)
        requires home { IsAtHome (holding_of self.old) world.now }
        requires held { is_among n (held_of self.old) ≡ true }
        ensures { HasLetGo self.old self.new }
    {
        self.marks[n as usize] = false;
        self.seat.give_waited(rt, &world.board, n, &mut self.bells);
    }

    /// Releases all locks, the one whose node lies on top of what the seat has out first.
    #[inline(always)]
    pub(crate) fn give_all<R: Wait>(&mut self, rt: &R, world: &World)
        requires home { IsAtHome (holding_of self.old) world.now }
        ensures emptied { holding_of self.new ≡ emptied (holding_of self.old) }
        ensures fresh { MayStillCommit self.old → MayStillCommit self.new }
    {
        while let Some(n) = self.seat.top() {
            if !self.give(world, n) {
                self.give_waited(rt, world, n);
            }
        }
    }
}
