//! A seat as its caller has it.
ghost use Rattle.std.specs.Prelude.{ℕ, ◌≡◌, ◌≤◌, ◌<◌};

use crate::bell::Bell;
use crate::committing::NodeChange;
use crate::look::{Arrival, Attempt, Look};
use crate::patience::Patience;
use crate::waiting::NoLock;
use crate::waits::Waits;
use std::alloc::AllocError;
use std::marker::Model;
use std::snapshot::Snapshot;
use std::sync::Wait;
use ww_plain::{Graph, Node, Record};
use ww_queue::wide::Entry;
use ww_table::{Board, Stepper, Taking, Tried};
use ww_word::wide::Owner;

/// A seat at its table, of which just that is out what its view says: the nodes of its locks, and the wait list of the lock
/// inside whose guard it is. Contracts see it as a standing.
#[derive(Drop)]
pub struct Seat {
    pub(crate) seat: Stepper,
}

impl Model for Seat {
    ghost use Rattle.ww_seat.specs.Standings.{Standing, standing_of, IsKept};

    ghost Value = { Standing };

    ghost view = { λ s. standing_of s.seat };

    ghost invariant = { λ s. IsKept s.seat };
}

impl Seat {
    ghost use Rattle.std.specs.Prelude.{ℕ, ◌≡◌, ◌≢◌, ◌≤◌, ◌<◌, ◌+◌, ◌↔◌, true, false, length, IsTrue, IfOk, OnErr, IfSome, IfNone};
    ghost use Rattle.std.specs.List.{AllByRecursion};
    ghost use Rattle.atomic_table.specs.Seated.{TableId};
    ghost use Rattle.ww_view.specs.View.{owns, IsAway};
    ghost use Rattle.ww_view.specs.May.{MayGlance};
    ghost use Rattle.ww_invariant.specs.declared.cells.Start.{Start};
    ghost use Rattle.ww_invariant.specs.Rule.{first_graph};
    ghost use Rattle.ww_word.specs.AnySeats.{IsValid, packed};
    ghost use Rattle.ww_invariant.specs.Steps.{MayDraw, MayEnd};
    ghost use Rattle.ww_invariant.specs.Guards.{glancing};
    ghost use Rattle.ww_table.specs.Seat.{IsNew, locks_of, size_of, taking_of, giving_of};
    ghost use Rattle.ww_seat.specs.Bells.{AreBellsOf};
    ghost use Rattle.ww_seat.specs.Work.{ComesOutside};
    ghost use Rattle.ww_seat.specs.Standings.{Standing, standing_of, view_in, size_in, owns_any, OwnsNodes, IsAt, IsKept, IsBegin, IsEnd, MayTry, MayTryBare, MayTakeBare, MayLookSigned, HasLookedSigned, HasSeenWord, IsTry, IsTryBare, MayWait, MayWaitWith, IsWait, StaysEven, MayRelease, MayReleaseNode, MayReleaseBare, IsGive, IsGiveBare, IsGiven, MayCancel, HasCancelled, IsCancel, MayCommit, IsCommit, MayGoIn, IsGoneIn, IsAtWorkThere, HasAttempted, IsVisit, IsGivingThere, IsGoneInToGive, HasGivenOn};

    /// A seat that has done nothing yet.
    #[inline(always)]
    pub fn new(seat: Stepper) -> Seat
        requires new { (table : TableId) × (key : Start) × (k : ℕ) × IsNew table key k seat × (length (first_graph key) ≤ 64) × (length (first_graph key) ≤ key.locks) }
        ensures { result ≡ standing_of seat }
    {
        Seat { seat }
    }

    /// Back to what it is at its table.
    pub fn into_inner(self) -> Stepper
        ensures is { standing_of result ≡ self }
        ensures kept { IsKept result }
    {
        self.seat
    }

    /// Its number.
    #[inline(always)]
    pub fn who(&self) -> u16
        ensures { result ≡ (view_in self.now).who }
    {
        self.seat.who()
    }

    /// The stamp of its context, 0 without one.
    #[inline(always)]
    pub fn stamp(&self) -> u64
        ensures { result ≡ (view_in self.now).stamp }
    {
        self.seat.stamp()
    }

    /// How many commits it has made.
    #[inline(always)]
    pub fn commits(&self) -> u64
        ensures { result ≡ length self.now.me.0.part.own }
    {
        self.seat.commits()
    }

    /// The larger of `least` and one more than the greatest place of its commits.
    pub fn reach(&self, least: usize) -> usize
        ensures least { least ≤ result }
        ensures all { AllByRecursion (λ p. p.0 < result) self.now.me.0.part.own }
        ensures exact { (n : ℕ) → least ≤ n → AllByRecursion (λ p. p.0 < n) self.now.me.0.part.own → result ≤ n }
    {
        self.seat.reach(least)
    }

    /// Whether there is room for the record of a commit.
    pub fn is_reserved(&self) -> bool
        ensures { IsTrue result ↔ (1 ≤ self.now.room) }
    {
        self.seat.is_reserved()
    }

    /// Makes room for the record of a commit.
    pub fn reserve(&mut self) -> Result<(), AllocError>
        ensures same { self.new ≡ record self.old { room = self.new.room } }
        ensures ok { IfOk result (λ _. 1 ≤ self.new.room) }
        ensures err { OnErr result (self.new ≡ self.old) }
    {
        self.seat.reserve()
    }

    /// Whether it owns a lock, where each that it owns guards a node.
    #[inline(always)]
    pub fn holds(&self) -> bool
        requires outside { (view_in self.now).inside ≡ 0 }
        requires nodes { OwnsNodes self.now }
        ensures { owns_any (view_in self.now) ≡ result }
    {
        self.seat.has_out()
    }

    /// The lock whose node it took or touched last, if it owns one that guards a node.
    #[inline(always)]
    pub fn top(&self) -> Option<u32>
        requires { IsAway (view_in self.now) }
        ensures top { IfSome result (λ n. (n < size_in self.now) × (owns (view_in self.now) n ≡ true)) }
        ensures none { IfNone result ((n : ℕ) → n < size_in self.now → owns (view_in self.now) n ≡ false) }
    {
        self.seat.top()
    }

    /// Whether it owns a lock, which the lock's word says.
    #[inline(always)]
    pub fn has(&mut self, board: &Board, lock: u32) -> bool
        requires at { IsAt board.now self.old }
        requires may { (lock < locks_of board.now) × IsAway (view_in self.old) }
        ensures { (self.new ≡ self.old) × (result ≡ owns (view_in self.old) lock) }
    {
        self.seat.has(board, lock)
    }

    /// Whether nobody has a lock or waits for it, which the lock's word says.
    #[inline(always)]
    pub fn is_free(&mut self, board: &Board, lock: u32) -> bool
        requires at { IsAt board.now self.old }
        requires there { lock < locks_of board.now }
        ensures lacks { result ≡ true → owns (view_in self.old) lock ≡ false }
        ensures free { result ≡ true → HasSeenWord self.old lock 0 self.new }
        ensures taken { result ≡ false → (word : ℕ) × (word ≢ 0) × HasSeenWord self.old lock word self.new }
    {
        self.seat.is_free(board, lock)
    }

    /// Whose a lock is, which the lock's word says.
    #[inline(always)]
    pub fn whose(&mut self, board: &Board, lock: u32) -> Owner
        requires at { IsAt board.now self.old }
        requires there { lock < locks_of board.now }
        ensures valid { IsValid result }
        ensures seen { HasSeenWord self.old lock (packed result) self.new }
    {
        self.seat.whose(board, lock)
    }

    /// Its own sign, where it owns a lock, and outside the guards: 0, or the stamp of the older context that condemned it.
    #[inline(always)]
    pub fn sign(&mut self, board: &Board) -> u64
        requires at { IsAt board.now self.old }
        requires may { MayLookSigned self.old }
        ensures { HasLookedSigned self.old result self.new }
    {
        self.seat.own_sign(board)
    }

    /// Reads the owner word of a lock once, while it stays away from that.
    #[inline(always)]
    pub fn glance(&mut self, board: &Board, lock: u32) -> Owner
        requires at { IsAt board.now self.old }
        requires may { (lock < locks_of board.now) × MayGlance (view_in self.old) }
        ensures { self.new ≡ record self.old { me = (glancing self.old.me.0, self.old.me.1) } }
    {
        self.seat.glance(board, lock)
    }

    /// One attempt at a look.
    pub fn look_once(
        &mut self,
        board: &Board,
        lock: u32,
        arrival: &mut Arrival,
        waits: Waits,
        holds: bool,
        wake: &mut [u64],
    ) -> Attempt
        requires at { IsAt board.now self.old }
        requires may { IsAtWorkThere board.now lock arrival.old holds wake.old self.old }
        ensures { HasAttempted board.now.table.shared.key.places self.old lock waits arrival.old wake.old result self.new arrival.new wake.new }
    {
        crate::look::look_once(&mut self.seat, board, lock, arrival, waits, holds, wake)
    }
}
