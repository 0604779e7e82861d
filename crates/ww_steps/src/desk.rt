//! A desk, and what can be asked of it between two calls.

use crate::station::Station;
use std::marker::Model;

/// One thread's handle of a world of locks: its seat, and the state of its current call. Any call may be made at any
/// time, and calls never block: each returns what became of it, and `Again`, `Awaits` and `Sleeps` ask for a call of
/// `go_on`. Contracts see it as a situation.
#[derive(Drop)]
pub struct Desk {
    pub(crate) station: Station,
}

impl Model for Desk {
    ghost use Rattle.ww_steps.specs.Situations.{Situation};
    ghost use Rattle.ww_steps.specs.Stations.{situation_of, Keeps};

    ghost Value = { Situation };

    ghost view = { λ d. situation_of d.station };

    ghost invariant = { λ d. Keeps d.station };
}

impl Desk {
    ghost use Rattle.std.specs.Prelude.{◌≡◌, ◌≢◌, ◌↔◌, IsTrue, length, []};
    ghost use Rattle.ww_steps.specs.Situations.{can_want, wants_now};
    ghost use Rattle.ww_steps.specs.Answers.{HasNothing};

    /// Whether it may want a lock once it is between two calls.
    #[inline(always)]
    fn can_want(&self) -> bool
        ensures { result ≡ can_want self.now }
    {
        if self.station.is_done {
            return false;
        }
        if self.station.count == 0 {
            return true;
        }
        self.station.seat.stamp() != 0 && self.station.told.is_none()
    }

    /// Whether it may want a lock now.
    #[inline(always)]
    pub(crate) fn wants(&self) -> bool
        ensures { result ≡ wants_now self.now }
    {
        self.station.rests() && self.can_want()
    }

    /// Whether it has a context.
    #[inline(always)]
    pub fn has_context(&self) -> bool
        ensures { IsTrue result ↔ (self.now.stamp ≢ 0) }
    {
        self.station.seat.stamp() != 0
    }

    /// How many locks the world has.
    #[inline(always)]
    pub fn locks(&self) -> u32
        ensures { result ≡ self.now.size }
    {
        self.station.locks
    }

    /// Whether it may begin another context, once it has none.
    #[inline(always)]
    pub fn has_contexts_left(&self) -> bool
        ensures { IsTrue result ↔ (self.now.left ≢ 0) }
    {
        self.station.left != 0
    }

    /// Whether it holds no lock.
    #[inline(always)]
    pub fn holds_none(&self) -> bool
        ensures { IsTrue result ↔ (self.now.held ≡ []) }
    {
        self.station.count == 0
    }

    /// Whether no call is on its way, and there is neither a context nor a lock.
    pub fn is_idle(&self) -> bool
        ensures { IsTrue result ↔ HasNothing self.now }
    {
        self.station.rests() && self.station.seat.stamp() == 0 && self.station.count == 0
    }

    /// How many locks it holds.
    pub fn held(&self) -> usize
        ensures { result ≡ length self.now.held }
    {
        self.station.count as usize
    }

    /// Its number, from 0.
    pub fn number(&self) -> u16
        ensures { result ≡ self.now.caller }
    {
        self.station.seat.who()
    }
}
