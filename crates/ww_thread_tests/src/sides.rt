//! How two threads stay in step.

use std::sync::atomic::{AtomicU64, Ordering};
use std::thread;

/// Gives the processor away so many times.
pub(crate) fn pause(yields: u32) {
    for _ in 0..yields {
        thread::yield_now();
    }
}

/// Gives the processor away once in a thousand rounds: what is waited for is mostly near, and a processor that is given
/// away is long in coming back.
pub(crate) fn rest(round: u32) {
    if round % 1_000 == 999 {
        thread::yield_now();
    }
}

/// Waits until others have brought a number so far, and returns whether they did within 2^32 - 1 rounds.
pub(crate) fn is_reached(number: &AtomicU64, wanted: u64) -> bool {
    for round in 0..u32::MAX {
        if number.load(Ordering::SeqCst) >= wanted {
            return true;
        }
        rest(round);
    }
    false
}

/// What one thread shows to the other: how often it has come to where they wait for one another, and the stamp of its
/// context.
#[derive(Drop)]
pub(crate) struct Side {
    come: AtomicU64,
    stamp: AtomicU64,
}

impl Side {
    pub(crate) fn new() -> Side {
        Side {
            come: AtomicU64::new(0),
            stamp: AtomicU64::new(0),
        }
    }
}

/// A thread's own side, and the other's.
#[derive(Clone, Copy)]
pub(crate) struct Sides<'a> {
    own: &'a Side,
    other: &'a Side,
}

impl<'a> Sides<'a> {
    pub(crate) const fn new(own: &'a Side, other: &'a Side) -> Sides<'a> {
        Sides { own, other }
    }

    /// Shows the stamp of the own context.
    pub(crate) fn show(&self, stamp: u64) {
        self.own.stamp.store(stamp, Ordering::SeqCst);
    }

    /// The stamp that the other thread showed last.
    pub(crate) fn shown(&self) -> u64 {
        self.other.stamp.load(Ordering::SeqCst)
    }

    /// Waits until the other thread has come as often as this one, and returns whether it has within 2^32 - 1 rounds.
    pub(crate) fn meet(&self) -> bool {
        let times = self.own.come.load(Ordering::SeqCst).wrapping_add(1);
        self.own.come.store(times, Ordering::SeqCst);
        is_reached(&self.other.come, times)
    }
}
