//! The states of a pass that takes one lock without a context.

use crate::held::{Alone, Held, Kept};
use crate::pass::Pass;
use crate::world::World;
use std::sync::Wait;

/// One lock, taken without a context.
pub type Solo = Held<Alone>;

/// One lock that was taken without a context, after its commit.
pub type SoloDone = Kept<Alone>;

impl Solo {
    ghost use Rattle.std.specs.Prelude.{◌≡◌};
    ghost use Rattle.ww_lock.specs.Holding.{IsAtHome};
    ghost use Rattle.ww_lock.specs.Moves.{emptied};

    /// Releases the lock, with nothing committed.
    pub fn unlock<R: Wait>(self, rt: &R, world: &World) -> Pass
        requires home { IsAtHome self world.now }
        ensures { result ≡ emptied self }
    {
        let Held { mut hand, by: _ } = self;
        hand.give_all(rt, world);
        Pass { hand }
    }
}

impl SoloDone {
    ghost use Rattle.std.specs.Prelude.{◌≡◌};
    ghost use Rattle.ww_lock.specs.Holding.{IsAtHome};
    ghost use Rattle.ww_lock.specs.Moves.{emptied};

    /// Releases the lock.
    pub fn unlock<R: Wait>(self, rt: &R, world: &World) -> Pass
        requires home { IsAtHome self world.now }
        ensures { result ≡ emptied self }
    {
        let Kept { mut hand, by: _ } = self;
        hand.give_all(rt, world);
        Pass { hand }
    }
}
