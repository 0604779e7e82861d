//! The first step of releasing a lock, and looks whether one is held, or free.
use crate::desk::Desk;
use crate::turn::Answer;
use ww_table::Tried;

impl Desk {
    ghost use Rattle.std.specs.Prelude.{◌≡◌, ◌<◌, true};
    ghost use Rattle.ww_steps.specs.Situations.{is_at_rest};
    ghost use Rattle.ww_steps.specs.Answers.{HasSomeHeld, IsEachAnswer, IsFreeAnswer, IsGivenOrKept, IsHasAnswer, IsUnlockAnswer};

    /// Releases a lock, or begins to. `Invalid` for one that isn't held.
    pub fn unlock(&mut self, lock: u32) -> Answer
        ensures { IsUnlockAnswer self.old lock result self.new }
    {
        if !self.station.rests() {
            return Answer::Busy;
        }
        if !self.station.is_lock(lock) {
            return Answer::Invalid;
        }
        self.unlock_at_rest(lock)
    }

    /// Releases a lock, or begins to, between two calls.
    #[inline(always)]
    #[tactic(auto, using(crate::proofs::Keeping::gave_at_once))]
    pub fn unlock_at_rest(&mut self, lock: u32) -> Answer
        requires rests { is_at_rest self.old.turn ≡ true }
        requires there { lock < self.old.size }
        ensures { IsUnlockAnswer self.old lock result self.new }
    {
        match self.station.seat.give_bare(&self.station.board, lock) {
            Tried::Did => {
                self.station.count -= 1;
                Answer::Done
            }
            Tried::InVain(found) => {
                if !found.is_own() {
                    return Answer::Invalid;
                }
                self.station.goes_on_giving(lock);
                Answer::Again
            }
        }
    }

    /// One try to release a lock, between two calls; returns whether it did. The lock's word says whether it is held.
    #[inline(always)]
    #[tactic(auto, using(crate::proofs::Keeping::gave_at_once))]
    fn releases(&mut self, lock: u32) -> bool
        requires rests { is_at_rest self.old.turn ≡ true }
        ensures { IsGivenOrKept self.old lock result self.new }
    {
        if !self.station.is_lock(lock) {
            return false;
        }
        match self.station.seat.give_bare(&self.station.board, lock) {
            Tried::Did => {
                self.station.count -= 1;
                true
            }
            Tried::InVain(_) => false,
        }
    }

    /// Releases the locks of a list from its end on, between two calls, and gives how many are left: it stops at one that
    /// one step doesn't release, or that isn't held.
    #[inline(always)]
    pub fn unlock_each(&mut self, locks: &[u32]) -> usize
        requires { is_at_rest self.old.turn ≡ true }
        ensures answer { IsEachAnswer self.old locks.now result self.new }
        ensures same { HasSomeHeld self.old self.new }
    {
        let mut left = locks;
        while let Some((lock, others)) = left.split_last() {
            if !self.releases(*lock) {
                return left.len();
            }
            left = others;
        }
        0
    }

    /// Whether it holds a lock: `Done`, or `Invalid` where it doesn't.
    pub fn has(&mut self, lock: u32) -> Answer
        ensures answer { IsHasAnswer self.old lock result self.new }
        ensures same { self.new ≡ self.old }
    {
        if !self.station.rests() {
            return Answer::Busy;
        }
        if self.station.is_lock(lock) && self.station.seat.has(&self.station.board, lock) {
            return Answer::Done;
        }
        Answer::Invalid
    }

    /// Whether nobody has a lock or waits for it, by one look at its word: `Done`, or `Busy` where somebody does. It tells
    /// nothing of later.
    #[tactic(auto, using(crate::proofs::Seeing::seen_at_rest, crate::proofs::Seeing::seen_of))]
    pub fn is_free(&mut self, lock: u32) -> Answer
        ensures { IsFreeAnswer self.old lock result self.new }
    {
        if !self.station.rests() {
            return Answer::Busy;
        }
        if !self.station.is_lock(lock) {
            return Answer::Invalid;
        }
        if self.station.seat.is_free(&self.station.board, lock) {
            return Answer::Done;
        }
        Answer::Busy
    }
}
