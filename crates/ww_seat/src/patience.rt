//! How a pass waits for locks.

use crate::bell::{Bell, Parker};
use crate::pacing::Pace;
use crate::resting::{Memory, Rest, Stay};
use crate::seats::Seat;
use crate::staying_away::pause_for;
use crate::waits::Waits;
use std::sync::Wait;
use ww_word::wide::Owner;

/// How a pass waited since its world was opened. Each count stops at the greatest number.
#[derive(Clone, Copy, Debug, PartialEq, Eq)]
pub struct Waited {
    /// First tries that were lost.
    pub lost: u64,
    /// Looks at a lock, inside its guard.
    pub looks: u64,
    /// Sleeps, of which each took a system call at most.
    pub sleeps: u64,
    /// Calls that returned EDEADLK.
    pub back_offs: u64,
}

/// What a pass waits with: the parker that it sleeps on, which stays the same, and what it remembers of its first tries.
#[derive(Drop)]
pub struct Patience {
    /// Only the pass's own thread parks on it.
    parker: Parker,
    memory: Memory,
    pace: Pace,
    waited: Waited,
}

impl Patience {
    ghost use Rattle.std.specs.Prelude.{◌≡◌, ◌≤◌, ◌+◌, IfSome};
    ghost use Rattle.ww_seat.specs.Bells.{heard, table_of, sleeps_at, taken_at, SleepsNot};
    ghost use Rattle.ww_seat.specs.Standings.{MaySleep};
    ghost use Rattle.ww_seat.specs.Rests.{Rests};

    pub fn new(parker: Parker) -> Patience
        ensures parker { sleeps_at result ≡ table_of parker }
        ensures heard { heard result ≡ taken_at parker }
    {
        let waited = Waited {
            lost: 0,
            looks: 0,
            sleeps: 0,
            back_offs: 0,
        };
        Patience {
            parker,
            memory: Memory::new(),
            pace: Pace::new(),
            waited,
        }
    }

    pub fn waited(&self) -> Waited {
        self.waited
    }

    /// A context is about to begin, of a seat that holds nothing.
    #[inline(always)]
    pub fn pace(&mut self)
        ensures { SleepsNot self.old self.new }
    {
        if !self.pace.is_clear() {
            self.rest();
        }
    }

    /// Rests before a context, where the last ones met others. It lets nobody else run for that: on busy processors each
    /// time may cost a time slice.
    #[cold]
    fn rest(&mut self)
        ensures { SleepsNot self.old self.new }
    {
        pause_for(self.pace.rest());
    }

    /// A first try has lost.
    pub(crate) fn lose(&mut self)
        ensures { SleepsNot self.old self.new }
    {
        self.pace.meet();
        self.waited.lost = self.waited.lost.saturating_add(1);
    }

    /// What a call that stays away does after a spin read that saw this owner.
    pub(crate) fn next(&mut self, stay: &mut Stay, owner: Owner) -> Option<Rest>
        requires { 1 ≤ stay.old.glances }
        ensures rests { IfSome result (λ rest. Rests stay.old stay.new rest) }
        ensures awake { SleepsNot self.old self.new }
    {
        stay.next(&mut self.memory, owner)
    }

    /// A lock is about to be looked at.
    pub(crate) fn look(&mut self)
        ensures { SleepsNot self.old self.new }
    {
        self.waited.looks = self.waited.looks.saturating_add(1);
    }

    /// A look came to EDEADLK.
    pub(crate) fn back_off(&mut self)
        ensures { SleepsNot self.old self.new }
    {
        self.waited.back_offs = self.waited.back_offs.saturating_add(1);
    }

    /// Sleeps until somebody wakes the seat, once for each time that it left a guard as a waiter. It is outside of all, and has
    /// woken all it has to; and if the wait is until a cancel, it found none. If the wake-up comes during the pauses before,
    /// it costs no system call.
    pub(crate) fn sleep<R: Wait>(&mut self, rt: &R, seat: &Seat, bells: &[Bell], waits: Waits)
        requires { MaySleep self.old bells.now waits seat.now }
        ensures parker { sleeps_at self.new ≡ sleeps_at self.old }
        ensures heard { heard self.new ≡ heard self.old + 1 }
    {
        self.waited.sleeps = self.waited.sleeps.saturating_add(1);
        self.parker.listen();
        self.parker.park(rt);
    }
}
