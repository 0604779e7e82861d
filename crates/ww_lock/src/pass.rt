//! The state of a thread that has neither a context nor a lock, from which all others begin.

use crate::acquiring::Acquiring;
use crate::hand::Hand;
use crate::held::Held;
use crate::solo::Solo;
use crate::world::World;
use std::marker::{Model, PhantomData};
use std::sync::Wait;
use ww_seat::Waited;

/// A pass that does nothing now: it holds no lock and has no context. It may be dropped, but a world is closed only
/// with all of its passes. Contracts see it, as each state that it becomes, as what it holds.
#[derive(Drop)]
pub struct Pass {
    pub(crate) hand: Box<Hand>,
}

impl Model for Pass {
    ghost use Rattle.std.specs.Prelude.{◌≡◌, []};
    ghost use Rattle.ww_lock.specs.Holding.{Holding};
    ghost use Rattle.ww_lock.specs.Carried.{holding_of, held_of, stamp_of};

    ghost Value = { Holding };

    ghost view = { λ s. holding_of s.hand.value };

    ghost invariant = { λ s. (stamp_of s.hand.value ≡ 0) × (held_of s.hand.value ≡ []) };
}

impl Pass {
    ghost use Rattle.std.specs.Prelude.{◌≡◌, ◌<◌, ◌≤◌, ◌-◌, true, false, length, IfOk, IfErr};
    ghost use Rattle.ww_lock.specs.Holding.{IsAtHome};
    ghost use Rattle.ww_lock.specs.Carried.{IsSpent};
    ghost use Rattle.ww_lock.specs.Moves.{found_pending, IsBegun, IsCancelling, IsSolo};

    /// Its number among the passes of its world, from 0.
    pub fn caller(&self) -> u8
        ensures { result ≡ self.now.caller }
    {
        self.hand.caller()
    }

    /// How many contexts and solos it may still start.
    pub fn left(&self) -> u32
        ensures { result ≡ self.now.left }
    {
        self.hand.left()
    }

    /// How many commits it has made, which is the number of its next one.
    pub fn commits(&self) -> u64
        ensures { result ≡ length self.now.own }
    {
        self.hand.commits()
    }

    /// How it waited since its world was opened, in plain numbers that no clause speaks of.
    pub fn waited(&self) -> Waited {
        self.hand.waited()
    }

    /// One context or solo less; a spent pass is returned.
    #[inline(always)]
    fn spend(self) -> Result<Box<Hand>, Pass>
        ensures ok { IfOk result (λ hand. IsSpent self hand.value) }
        ensures err { IfErr result (λ p. (self.left ≡ 0) × (p ≡ self)) }
    {
        if self.hand.left() == 0 {
            return Err(self);
        }
        let Pass { mut hand } = self;
        hand.spend();
        Ok(hand)
    }

    /// Starts a context: it draws the next stamp of the world, and is younger than all before. A spent pass is given
    /// back.
    pub fn begin(self, world: &World) -> Result<Acquiring, Pass>
        requires home { IsAtHome self world.now }
        ensures ok { IfOk result (IsBegun self) }
        ensures err { IfErr result (λ p. (self.left ≡ 0) × (p ≡ self)) }
    {
        let mut hand = self.spend()?;
        hand.begin(world);
        Ok(Acquiring { hand })
    }

    /// Sets the cancel of a pass of this world and wakes it: its current interruptible wait, or its next interruptible
    /// call that would wait, is interrupted. False if a cancel is pending already: it stays, and only that it was found
    /// is counted. This takes nothing from the budget. It stands for the kernel's signal.
    pub fn cancel(&mut self, world: &World, who: u8) -> bool
        requires home { IsAtHome self.old world.now }
        requires caller { who < world.now.passes }
        ensures set { result ≡ true → IsCancelling self.old who self.new }
        ensures pending { result ≡ false → self.new ≡ found_pending self.old }
    {
        self.hand.cancel(world, who)
    }

    /// Takes one lock without a context, as a plain mutex, however long that takes. A spent pass is returned.
    pub fn lock_solo<R: Wait>(self, rt: &R, world: &World, n: u8) -> Result<Solo, Pass>
        requires home { IsAtHome self world.now }
        requires node { n < length world.now.first }
        ensures ok { IfOk result (IsSolo self n) }
        ensures err { IfErr result (λ p. (self.left ≡ 0) × (p ≡ self)) }
    {
        let mut hand = self.spend()?;
        hand.take_alone(rt, world, n);
        Ok(Held {
            hand,
            by: PhantomData,
        })
    }
}
