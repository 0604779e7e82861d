//! The states of a context that takes no more locks: before its commit, after it, and with all released.

use crate::hand::Hand;
use crate::held::{Held, InContext, Kept};
use crate::pass::Pass;
use crate::world::World;
use std::marker::Model;
use std::sync::Wait;

/// A context that has all its locks.
pub type Done = Held<InContext>;

/// A context that has committed, and still holds its locks.
pub type Committed = Kept<InContext>;

/// A context that has released all locks.
pub struct Empty {
    pub(crate) hand: Box<Hand>,
}

impl Model for Empty {
    ghost use Rattle.std.specs.Prelude.{◌≡◌, ◌<◌, []};
    ghost use Rattle.ww_lock.specs.Holding.{Holding};
    ghost use Rattle.ww_lock.specs.Carried.{holding_of, held_of, stamp_of};

    ghost Value = { Holding };

    ghost view = { λ s. holding_of s.hand.value };

    ghost invariant = { λ s. (0 < stamp_of s.hand.value) × (held_of s.hand.value ≡ []) };
}

impl Done {
    ghost use Rattle.std.specs.Prelude.{◌≡◌};
    ghost use Rattle.ww_lock.specs.Holding.{IsAtHome};
    ghost use Rattle.ww_lock.specs.Moves.{emptied};

    /// Releases all locks, with nothing committed.
    pub fn unlock_all<R: Wait>(self, rt: &R, world: &World) -> Empty
        requires home { IsAtHome self world.now }
        ensures { result ≡ emptied self }
    {
        let Held { mut hand, by: _ } = self;
        hand.give_all(rt, world);
        Empty { hand }
    }
}

impl Committed {
    ghost use Rattle.std.specs.Prelude.{◌≡◌};
    ghost use Rattle.ww_lock.specs.Holding.{IsAtHome};
    ghost use Rattle.ww_lock.specs.Moves.{emptied};

    /// Releases all locks.
    pub fn unlock_all<R: Wait>(self, rt: &R, world: &World) -> Empty
        requires home { IsAtHome self world.now }
        ensures { result ≡ emptied self }
    {
        let Kept { mut hand, by: _ } = self;
        hand.give_all(rt, world);
        Empty { hand }
    }
}

impl Empty {
    ghost use Rattle.std.specs.Prelude.{◌≡◌};
    ghost use Rattle.ww_lock.specs.Holding.{IsAtHome};

    /// Ends the context.
    pub fn fini(self, world: &World) -> Pass
        requires home { IsAtHome self world.now }
        ensures { result ≡ record self { stamp = 0 } }
    {
        let Empty { mut hand } = self;
        hand.end(world);
        Pass { hand }
    }
}
