//! The state in which a context takes locks, its calls, and what they return.

use crate::backoff::Backoff;
use crate::done::{Done, Empty};
use crate::hand::Hand;
use crate::held::Held;
use crate::interruptible::Interruptible;
use crate::world::World;
use std::marker::{Model, PhantomData};
use std::sync::Wait;
use ww_plain::Node;
use ww_seat::{NoLock, Waits};

/// A context that takes locks. Its seat has noted no older context for which it had to die.
pub struct Acquiring {
    pub(crate) hand: Box<Hand>,
}

impl Model for Acquiring {
    ghost use Rattle.std.specs.Prelude.{◌≡◌, ◌<◌, None};
    ghost use Rattle.ww_lock.specs.Holding.{Holding};
    ghost use Rattle.ww_lock.specs.Carried.{holding_of, stamp_of, met_of, MayStillCommit};

    ghost Value = { Holding };

    ghost view = { λ s. holding_of s.hand.value };

    ghost invariant = { λ s. MayStillCommit s.hand.value × (0 < stamp_of s.hand.value) × (met_of s.hand.value ≡ None) };
}

/// What a lock call returns.
pub enum Lock {
    Locked(Acquiring),
    /// The context holds the node: the kernel's EALREADY.
    Already(Acquiring),
    /// An older context was met, and all locks have to be released: the kernel's EDEADLK. Only a context that holds a
    /// lock gets it.
    Deadlk(Backoff),
}

impl Lock {
    ghost use Rattle.std.specs.Prelude.{◌≡◌};
    ghost use Rattle.ww_lock.specs.Moves.{code_of, going_on};

    /// The kernel's error number for this, without its sign; 0 if the lock was taken.
    pub fn code(&self) -> u8
        ensures { result ≡ code_of self.now }
    {
        match self {
            Lock::Locked(_) => 0,
            Lock::Already(_) => 114,
            Lock::Deadlk(_) => 35,
        }
    }

    /// The context if it holds the node now, newly or already; otherwise the context that has to back off.
    pub fn going_on(self) -> Result<Acquiring, Backoff>
        ensures { result ≡ going_on self }
    {
        match self {
            Lock::Locked(acquiring) => Ok(acquiring),
            Lock::Already(acquiring) => Ok(acquiring),
            Lock::Deadlk(backoff) => Err(backoff),
        }
    }
}

/// What a trylock returns.
pub enum Try {
    Locked(Acquiring),
    /// Somebody has the lock, or waits for it; or the context holds it itself.
    Busy(Acquiring),
}

impl Acquiring {
    ghost use Rattle.std.specs.Prelude.{◌≡◌, ◌<◌, ◌∷◌, [], length, IfSome};
    ghost use Rattle.ww_plain.specs.Graph.{IsNodeOf};
    ghost use Rattle.ww_plain.specs.Numbers.{is_among};
    ghost use Rattle.ww_lock.specs.Holding.{Holding, IsAtHome, reads};
    ghost use Rattle.ww_lock.specs.Carried.{holding_of, stamp_of};
    ghost use Rattle.ww_lock.specs.Moves.{HasLost, IsAnswer, IsLockAnswer, IsTaken, IsTryAnswer, emptied, tried};

    /// The context's stamp: the smaller of two is that of the older context.
    pub fn stamp(&self) -> u64
        ensures { result ≡ self.now.stamp }
    {
        self.hand.stamp()
    }

    /// Whether the node is held.
    pub fn held(&self, n: u8) -> bool
        ensures { result ≡ is_among n self.now.held }
    {
        self.hand.holds(n)
    }

    /// Waits for a lock after a first try that failed, to the end. The contract compares this with the state before that
    /// try.
    #[cold]
    fn wait_to_the_end<R: Wait>(rt: &R, world: &World, hand: Box<Hand>, n: u8) -> Lock
        requires home { IsAtHome (holding_of hand.value) world.now }
        requires may { HasLost n hand.value × (0 < stamp_of hand.value) }
        ensures { (s : Holding) → holding_of hand.value ≡ tried s → IsLockAnswer s n result }
    {
        match Self::wait_as(rt, world, hand, n, Waits::ToTheEnd) {
            Interruptible::Locked(acquiring) => Lock::Locked(acquiring),
            Interruptible::Already(acquiring) => Lock::Already(acquiring),
            Interruptible::Deadlk(backoff) => Lock::Deadlk(backoff),
            Interruptible::Interrupted(_acquiring, _) => unreachable!(),
        }
    }

    /// The same, to the end or until it is cancelled: the last argument says how it waits.
    #[cold]
    fn wait_as<R: Wait>(
        rt: &R,
        world: &World,
        mut hand: Box<Hand>,
        n: u8,
        waits: Waits,
    ) -> Interruptible
        requires home { IsAtHome (holding_of hand.value) world.now }
        requires may { HasLost n hand.value × (0 < stamp_of hand.value) }
        ensures { (s : Holding) → holding_of hand.value ≡ tried s → IsAnswer waits s n result }
    {
        match hand.wait_for(rt, world, n, waits) {
            Ok(()) => Interruptible::Locked(Acquiring { hand }),
            Err(NoLock::Deadlk(met)) => Interruptible::Deadlk(Backoff {
                hand,
                contended: n,
                met,
            }),
            Err(NoLock::Interrupted(by)) => Interruptible::Interrupted(
                Acquiring { hand },
                by as u8,
            ),
        }
    }

    /// Takes the lock of a node, and waits for it where the rules say so. The node's lock is taken in the caller's code if
    /// it is free.
    #[inline(always)]
    pub fn lock<R: Wait>(self, rt: &R, world: &World, n: u8) -> Lock
        requires home { IsAtHome self world.now }
        requires node { n < length world.now.first }
        ensures { IsLockAnswer self n result }
    {
        if self.hand.holds_there(n) {
            return Lock::Already(self);
        }
        let Acquiring { mut hand } = self;
        if hand.try_take(world, n) {
            return Lock::Locked(Acquiring { hand });
        }
        Self::wait_to_the_end(rt, world, hand, n)
    }

    /// Takes the lock of a node as `lock` does, or as `lock_interruptible` does: the last argument says how it waits.
    #[inline(always)]
    pub fn lock_as<R: Wait>(self, rt: &R, world: &World, n: u8, waits: Waits) -> Interruptible
        requires home { IsAtHome self world.now }
        requires node { n < length world.now.first }
        ensures { IsAnswer waits self n result }
    {
        if self.hand.holds_there(n) {
            return Interruptible::Already(self);
        }
        let Acquiring { mut hand } = self;
        if hand.try_take(world, n) {
            return Interruptible::Locked(Acquiring { hand });
        }
        Self::wait_as(rt, world, hand, n, waits)
    }

    /// Takes the lock of a node if nobody has it or waits for it, and waits for nobody.
    pub fn try_lock(self, world: &World, n: u8) -> Try
        requires home { IsAtHome self world.now }
        requires node { n < length world.now.first }
        ensures { IsTryAnswer self n result }
    {
        if self.hand.holds_there(n) {
            return Try::Busy(self);
        }
        let Acquiring { mut hand } = self;
        if hand.try_take(world, n) {
            Try::Locked(Acquiring { hand })
        } else {
            Try::Busy(Acquiring { hand })
        }
    }

    /// The node as it was when it was locked; nothing where it isn't held. Its ports name nodes of the world, or none.
    pub fn read(&self, world: &World, n: u8) -> Option<Node>
        requires home { IsAtHome self.now world.now }
        requires node { n < length world.now.first }
        ensures contents { result ≡ reads self.now n }
        ensures there { IfSome result (IsNodeOf (length world.now.first)) }
    {
        self.hand.read(n)
    }

    /// Releases all locks of its own accord, and takes this one first, however long that takes. The context keeps its
    /// stamp, and with it its age among the others. It holds no other lock, so it never gets EDEADLK.
    pub fn start_over<R: Wait>(self, rt: &R, world: &World, n: u8) -> Acquiring
        requires home { IsAtHome self world.now }
        requires node { n < length world.now.first }
        ensures taken { IsTaken (emptied self) n result }
        ensures alone { result.held ≡ n ∷ [] }
    {
        let Acquiring { mut hand } = self;
        hand.give_all(rt, world);
        hand.take_alone(rt, world, n);
        Acquiring { hand }
    }

    /// The context has all its locks.
    pub fn done(self) -> Done
        ensures { result ≡ self }
    {
        let Acquiring { hand } = self;
        Held {
            hand,
            by: PhantomData,
        }
    }

    /// Releases all locks.
    #[inline(always)]
    pub fn unlock_all<R: Wait>(self, rt: &R, world: &World) -> Empty
        requires home { IsAtHome self world.now }
        ensures { result ≡ emptied self }
    {
        let Acquiring { mut hand } = self;
        hand.give_all(rt, world);
        Empty { hand }
    }
}
