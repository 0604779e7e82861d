//! The state of a context that got EDEADLK and still holds its locks.

use crate::acquiring::Acquiring;
use crate::contended::Contended;
use crate::hand::Hand;
use crate::world::World;
use std::marker::Model;
use std::sync::Wait;

/// A context that got EDEADLK. It still holds its locks, and can only release them all. Invariant: the view of
/// its seat keeps what it saw at just this lock when it backed off, and that shows an older context of just this stamp.
/// It has taken and released no lock since.
pub struct Backoff {
    pub(crate) hand: Box<Hand>,
    pub(crate) contended: u8,
    pub(crate) met: u64,
}

impl Model for Backoff {
    ghost use Rattle.std.specs.Prelude.{◌<◌, length};
    ghost use Rattle.ww_seat.specs.Calls.{HasMet};
    ghost use Rattle.ww_lock.specs.Holding.{Refused};
    ghost use Rattle.ww_lock.specs.Carried.{holding_of, known_of, stamp_of, MayStillCommit};

    ghost Value = { Refused };

    ghost view = { λ s. record { holding = holding_of s.hand.value; contended = s.contended; met = s.met } };

    ghost invariant = { λ s. MayStillCommit s.hand.value × HasMet s.contended s.met (known_of s.hand.value) × (0 < s.met) × (s.met < stamp_of s.hand.value) × (s.contended < length s.hand.value.seen) };
}

impl Backoff {
    ghost use Rattle.std.specs.Prelude.{◌≡◌, ◌∷◌, []};
    ghost use Rattle.ww_lock.specs.Holding.{IsAtHome};
    ghost use Rattle.ww_lock.specs.Moves.{IsTaken, emptied};

    /// The node whose lock it couldn't get.
    pub fn contended(&self) -> u8
        ensures { result ≡ self.now.contended }
    {
        self.contended
    }

    /// The stamp of the older context that it met.
    pub fn met(&self) -> u64
        ensures { result ≡ self.now.met }
    {
        self.met
    }

    /// Releases all locks.
    pub fn unlock_all<R: Wait>(self, rt: &R, world: &World) -> Contended
        requires home { IsAtHome self.holding world.now }
        ensures { result ≡ record { holding = emptied self.holding; contended = self.contended } }
    {
        let Backoff {
            mut hand,
            contended,
            met: _,
        } = self;
        hand.give_all(rt, world);
        Contended { hand, contended }
    }

    /// Releases all locks, and takes the one that it couldn't get, however long that takes.
    pub fn back_off<R: Wait>(self, rt: &R, world: &World) -> Acquiring
        requires home { IsAtHome self.holding world.now }
        ensures taken { IsTaken (emptied self.holding) self.contended result }
        ensures alone { result.held ≡ self.contended ∷ [] }
    {
        self.unlock_all(rt, world).lock_slow(rt, world)
    }
}
