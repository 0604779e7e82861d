//! Lock calls that may be cancelled while they wait.

use crate::acquiring::Acquiring;
use crate::backoff::Backoff;
use crate::contended::Contended;
use crate::world::World;
use std::sync::Wait;
use ww_seat::Waits;

/// What an interruptible lock call returns.
pub enum Interruptible {
    Locked(Acquiring),
    /// The context holds the node: the kernel's EALREADY.
    Already(Acquiring),
    /// An older context was met, and all locks have to be released: the kernel's EDEADLK. Only a context that holds a
    /// lock gets it.
    Deadlk(Backoff),
    /// The wait was cancelled by this caller: the kernel's EINTR. The context holds what it held, and may go on.
    Interrupted(Acquiring, u8),
}

/// Why a context that may be cancelled didn't get a lock.
pub enum Halt {
    /// It got EDEADLK, and has to back off.
    Deadlk(Backoff),
    /// Its wait was cancelled by this caller. It holds what it held.
    Interrupted(Acquiring, u8),
}

impl Interruptible {
    ghost use Rattle.std.specs.Prelude.{◌≡◌};
    ghost use Rattle.ww_lock.specs.Moves.{interruptible_code_of, going_on_or_halted};

    /// The kernel's error number for this, without its sign; 0 if the lock was taken.
    pub fn code(&self) -> u8
        ensures { result ≡ interruptible_code_of self.now }
    {
        match self {
            Interruptible::Locked(_) => 0,
            Interruptible::Already(_) => 114,
            Interruptible::Deadlk(_) => 35,
            Interruptible::Interrupted(_, _) => 4,
        }
    }

    /// The context where it holds the node now, whether it did before or not; or why it doesn't go on.
    pub fn going_on(self) -> Result<Acquiring, Halt>
        ensures { result ≡ going_on_or_halted self }
    {
        match self {
            Interruptible::Locked(acquiring) => Ok(acquiring),
            Interruptible::Already(acquiring) => Ok(acquiring),
            Interruptible::Deadlk(backoff) => Err(Halt::Deadlk(backoff)),
            Interruptible::Interrupted(acquiring, by) => Err(Halt::Interrupted(acquiring, by)),
        }
    }
}

impl Acquiring {
    ghost use Rattle.std.specs.Prelude.{◌<◌, length};
    ghost use Rattle.ww_lock.specs.Holding.{IsAtHome};
    ghost use Rattle.ww_lock.specs.Moves.{IsInterruptibleAnswer};

    /// Takes the lock of a node as `lock` does, but a wait for it may be cancelled: the kernel's
    /// `ww_mutex_lock_interruptible`. If the call has to wait and a cancel of this caller is pending, whenever it was
    /// set, it returns that, before any EDEADLK. A call that meets no contention leaves the cancel pending.
    pub fn lock_interruptible<R: Wait>(self, rt: &R, world: &World, n: u8) -> Interruptible
        requires home { IsAtHome self world.now }
        requires node { n < length world.now.first }
        ensures { IsInterruptibleAnswer self n result }
    {
        self.lock_as(rt, world, n, Waits::UntilCancelled)
    }
}

impl Contended {
    ghost use Rattle.std.specs.Prelude.{◌≡◌, ◌∷◌, [], IfOk, IfErr};
    ghost use Rattle.ww_lock.specs.Holding.{IsAtHome};
    ghost use Rattle.ww_lock.specs.Moves.{IsTaken, IsInterrupted};

    /// Takes the contended lock as `lock_slow` does, but the wait may be cancelled: the kernel's
    /// `ww_mutex_lock_slow_interruptible`. It may then be tried again, or the context ends.
    pub fn lock_slow_interruptible<R: Wait>(
        self,
        rt: &R,
        world: &World,
    ) -> Result<Acquiring, (Contended, u8)>
        requires home { IsAtHome self.holding world.now }
        ensures taken { IfOk result (IsTaken self.holding self.contended) }
        ensures heeds { IfOk result (λ a. a.deaf ≡ self.holding.deaf) }
        ensures alone { IfOk result (λ a. a.held ≡ self.contended ∷ []) }
        ensures same { IfErr result (λ e. e.0.contended ≡ self.contended) }
        ensures interrupted { IfErr result (λ e. IsInterrupted self.holding self.contended e.1 e.0.holding) }
    {
        self.lock_slow_as(rt, world, Waits::UntilCancelled)
    }
}
