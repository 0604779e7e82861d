//! Where a call stands that is made in non-blocking steps, and what a step returns.

use ww_seat::{Arrival, Waits};

/// Where a call of a desk stands.
#[derive(Clone, Copy, Debug, PartialEq, Eq)]
pub enum Turn {
    /// Between two calls.
    Rests,
    /// Outside the guard of a lock that it wants: how it came there, and how it waits.
    Wants(u32, Arrival, Waits),
    /// Inside that guard: how it came there, and how it waits.
    Looks(u32, Arrival, Waits),
    /// It releases this lock, and is outside its guard.
    Gives(u32),
}

/// What a call of a desk, or a further step of it, came to.
#[derive(Clone, Copy, Debug, PartialEq, Eq)]
pub enum Answer {
    /// The call is at its end, and did what it is for.
    Done,
    /// It wants another step, immediately: it hasn't come to the guard of its lock yet, or is inside of it.
    Again,
    /// It wants another step once it may go inside the guard of its lock, where another seat is.
    Awaits,
    /// It wants another step once somebody has woken the seat.
    Sleeps,
    /// Another call is on its way; for a trylock also: somebody has the lock or waits for it.
    Busy,
    /// The call doesn't fit what the desk is at, or there is no such lock.
    Invalid,
    /// The lock is held already; for a cancel: one is pending already.
    Already,
    /// All contexts that the desk might begin were begun, or the world's stamps are spent.
    NoSpace,
    /// All locks are to be released, for an older context of this stamp.
    Deadlk(u64),
    /// This seat called the wait off.
    Interrupted(u16),
}

/// Why a call doesn't try to take a lock. It is smaller than an answer.
#[derive(Clone, Copy)]
pub(crate) enum NoTry {
    Busy,
    Already,
    Invalid,
}

impl NoTry {
    ghost use Rattle.std.specs.Prelude.{◌≡◌};
    ghost use Rattle.ww_steps.specs.Answers.{answer_of_none};

    /// The answer that says so.
    #[inline(always)]
    pub(crate) fn answer(self) -> Answer
        ensures { result ≡ answer_of_none self }
    {
        match self {
            NoTry::Busy => Answer::Busy,
            NoTry::Already => Answer::Already,
            NoTry::Invalid => Answer::Invalid,
        }
    }
}
