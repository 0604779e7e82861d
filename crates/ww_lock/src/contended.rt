//! The state after a back-off: nothing is held, and the contended lock comes first.

use crate::acquiring::Acquiring;
use crate::hand::Hand;
use crate::pass::Pass;
use crate::world::World;
use std::marker::Model;
use std::sync::Wait;
use ww_seat::{NoLock, Waits};

/// A context that got EDEADLK and has released all locks. It may take the lock that it couldn't get, or end.
pub struct Contended {
    pub(crate) hand: Box<Hand>,
    pub(crate) contended: u8,
}

impl Model for Contended {
    ghost use Rattle.std.specs.Prelude.{◌≡◌, ◌<◌, [], length};
    ghost use Rattle.ww_lock.specs.Holding.{Wanting};
    ghost use Rattle.ww_lock.specs.Carried.{holding_of, held_of, stamp_of, MayStillCommit};

    ghost Value = { Wanting };

    ghost view = { λ s. record { holding = holding_of s.hand.value; contended = s.contended } };

    ghost invariant = { λ s. MayStillCommit s.hand.value × (0 < stamp_of s.hand.value) × (held_of s.hand.value ≡ []) × (s.contended < length s.hand.value.seen) };
}

impl Contended {
    ghost use Rattle.std.specs.Prelude.{◌≡◌, ◌∷◌, [], IfOk, IfErr};
    ghost use Rattle.ww_lock.specs.Holding.{IsAtHome};
    ghost use Rattle.ww_lock.specs.Moves.{IsHeeding, IsTaken, IsInterrupted};
    ghost use Rattle.ww_seat.specs.declared.waits.Waits.TheVariants.{UntilCancelled};

    /// Takes the contended lock, however long that takes: the kernel's slow path. It holds no other lock, so it never
    /// gets EDEADLK.
    pub fn lock_slow<R: Wait>(self, rt: &R, world: &World) -> Acquiring
        requires home { IsAtHome self.holding world.now }
        ensures taken { IsTaken self.holding self.contended result }
        ensures alone { result.held ≡ self.contended ∷ [] }
    {
        match self.lock_slow_as(rt, world, Waits::ToTheEnd) {
            Ok(acquiring) => acquiring,
            Err(_) => unreachable!(),
        }
    }

    /// Takes the contended lock as `lock_slow` does, or as `lock_slow_interruptible` does: the last argument says how it
    /// waits.
    pub fn lock_slow_as<R: Wait>(
        self,
        rt: &R,
        world: &World,
        waits: Waits,
    ) -> Result<Acquiring, (Contended, u8)>
        requires home { IsAtHome self.holding world.now }
        ensures taken { IfOk result (IsTaken self.holding self.contended) }
        ensures heeds { IfOk result (IsHeeding waits self.holding) }
        ensures alone { IfOk result (λ a. a.held ≡ self.contended ∷ []) }
        ensures waits { IfErr result (λ _. waits ≡ UntilCancelled) }
        ensures same { IfErr result (λ e. e.0.contended ≡ self.contended) }
        ensures interrupted { IfErr result (λ e. IsInterrupted self.holding self.contended e.1 e.0.holding) }
    {
        let Contended {
            mut hand,
            contended,
        } = self;
        match hand.take(rt, world, contended, waits) {
            Ok(()) => Ok(Acquiring { hand }),
            Err(NoLock::Interrupted(by)) => Err((Contended { hand, contended }, by as u8)),
            Err(NoLock::Deadlk(_)) => unreachable!(),
        }
    }

    /// Ends the context.
    pub fn fini(self, world: &World) -> Pass
        requires home { IsAtHome self.holding world.now }
        ensures { result ≡ record self.holding { stamp = 0 } }
    {
        let Contended {
            mut hand,
            contended: _,
        } = self;
        hand.end(world);
        Pass { hand }
    }
}
