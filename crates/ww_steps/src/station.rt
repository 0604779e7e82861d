//! What a desk keeps between two calls: its seat, its counts, and where its call stands.

ghost use Rattle.std.specs.Prelude.{◌≡◌, ◌<◌, ◌≤◌, ◌+◌, true, false, None};

use crate::turn::Turn;
use std::alloc::Global;
use std::sync::Arc;
use ww_seat::Seat;
use ww_table::Board;

/// What a desk keeps: its seat at the table that it shares with others, and where its call stands. Contracts see it as
/// a situation. It doesn't keep which locks it holds: the owner words say that.
#[derive(Drop)]
pub(crate) struct Station {
    pub(crate) board: Arc<Board, Global>,
    pub(crate) seat: Seat,
    /// How many locks it holds.
    pub(crate) count: u32,
    /// How many locks there are.
    pub(crate) locks: u32,
    /// Its context has all its locks, as its caller said.
    pub(crate) is_done: bool,
    /// How many seats the world has.
    pub(crate) seats: u16,
    /// The contended lock, because of which it has to back off.
    pub(crate) told: Option<u32>,
    pub(crate) turn: Turn,
    /// How many contexts it may still begin.
    pub(crate) left: u64,
    /// The seats to wake once it is outside the guard: a mark for each seat, 64 in a word.
    pub(crate) wake: Vec<u64>,
}

impl Station {
    ghost use Rattle.ww_steps.specs.declared.turn.Turn.TheVariants.{Gives};
    ghost use Rattle.ww_steps.specs.Situations.{is_at_rest, is_inside};

    /// Whether it is between two calls.
    #[inline(always)]
    pub(crate) fn rests(&self) -> bool
        ensures { result ≡ is_at_rest self.now.turn }
    {
        match self.turn {
            Turn::Rests => true,
            _ => false,
        }
    }

    /// Whether it is inside a guard.
    pub(crate) fn is_inside(&self) -> bool
        ensures { result ≡ is_inside self.now.turn }
    {
        match self.turn {
            Turn::Looks(..) => true,
            Turn::Rests | Turn::Wants(..) | Turn::Gives(_) => false,
        }
    }

    /// Whether there is a lock of this number.
    #[inline(always)]
    pub(crate) fn is_lock(&self, lock: u32) -> bool
        ensures there { result ≡ true → lock < self.now.locks }
        ensures none { result ≡ false → self.now.locks ≤ lock }
    {
        lock < self.locks
    }

    /// One lock more is held, and none is to be backed off from.
    #[inline(always)]
    pub(crate) fn add(&mut self)
        requires few { self.old.count ≤ 16777216 }
        ensures { self.new ≡ record self.old { count = self.old.count + 1; told = None } }
    {
        self.count += 1;
        self.told = None;
    }

    /// Further turns release this lock.
    #[inline(always)]
    pub(crate) fn goes_on_giving(&mut self, lock: u32)
        ensures { self.new ≡ record self.old { turn = Gives lock } }
    {
        self.turn = Turn::Gives(lock);
    }
}
