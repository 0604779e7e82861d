//! A seat of the table, its contexts, and its steps outside all guards.

ghost use Rattle.std.specs.Prelude.{ℕ, ◌≡◌, ◌<◌, [], ◌∷◌, List, length, nat_lt, Some, IfSome, IfNone};
ghost use Rattle.ww_word.specs.AnySeats.{Fits, packed};
ghost use Rattle.ww_plain.specs.declared.node.Node.{Node};
ghost use Rattle.ww_view.specs.View.{IsAway};
ghost use Rattle.ww_view.specs.May.{MayFast};
ghost use Rattle.ww_invariant.specs.declared.cells.Cell.{Cell};
ghost use Rattle.ww_invariant.specs.declared.cells.Cell.TheVariants.{Content};
ghost use Rattle.ww_invariant.specs.Out.{slot_of, numbers_of};
ghost use Rattle.ww_invariant.specs.Steps.{MayDraw, MayEnd};
ghost use Rattle.ww_table.specs.Seat.{IsSeatOf, base_of, stamp_step, giving_of, locks_of, taking_of, view_of};
ghost use Rattle.ww_table.specs.Steps.{IsBareLock, MayGiveFree, MayTakeFree, HasAskedIfFree, HasAskedWhoOwns, HasDrawn, HasReadTop, HasSwapped, HasTriedToEnd, HasTriedToGiveBare, HasTriedToGiveFree, HasTriedToTakeBare, HasTriedToTakeFree};

use crate::board::Board;
use arrayvec::ArrayVec;
use ww_invariant::layout::{STAMP, owner_word, packed_word, spread_word};
use ww_invariant::nodes::{node_there, swap_there};
use ww_invariant::plays::{Draw, End, GiveBare, GiveFree, Owns, TakeBare, TakeFree, Whose};
use ww_invariant::{MAX_OUT, Page, TableSeat, bring};
use ww_plain::{Node, Record};
use ww_queue::Kind;
use ww_word::wide::{pack_seat, without_flags};

/// A seat of a board. It may start one context after another. Each of its steps is one atomic operation on one word;
/// its other calls look at what it has out.
#[derive(Drop)]
pub struct Stepper {
    pub(crate) seat: TableSeat,
    pub(crate) kind: Kind,
    pub(crate) who: u16,
    /// How many locks the table has.
    pub(crate) room: u32,
    /// How many seats the core has.
    pub(crate) seats: u16,
    /// The greatest stamp of a context.
    pub(crate) most: u64,
    /// Where its own sign word is.
    pub(crate) sign: usize,
    pub(crate) stamp: u64,
    /// The word below without its stamp, and how much that grows with the stamp.
    pub(crate) base: u64,
    pub(crate) step: u64,
    /// The owner word of a lock that it has taken, with nobody waiting.
    pub(crate) own: u64,
    /// The slots that it has out, the one taken last at the end.
    pub(crate) order: ArrayVec<u32, MAX_OUT>,
    pub(crate) records: Vec<(u64, Record)>,
    /// Room for a wait list, while it stands in none.
    pub(crate) page: Option<Page>,
}

/// The name under which a board gives its seats, and takes them back.
pub type Seat16 = Stepper;

/// The outcome of a try to take a lock by one step.
#[derive(Clone, Copy, Debug, PartialEq, Eq)]
pub enum Taking {
    /// The seat has the lock now.
    Took,
    /// It had the lock before.
    Had,
    /// Another seat has it, or somebody waits for it.
    Missed,
}

/// The outcome of a try to release a lock by one step.
#[derive(Clone, Copy, Debug, PartialEq, Eq)]
pub enum Giving {
    /// The seat has the lock no more.
    Gave,
    /// Somebody may wait for the lock, and the seat has it still.
    Kept,
    /// The seat hasn't the lock.
    Lacked,
}

/// What a try in vain found: the owner word of the lock, beside the seat's own.
#[derive(Clone, Copy, Debug, PartialEq, Eq)]
pub struct Found {
    pub(crate) word: u64,
    pub(crate) own: u64,
}

impl Found {
    ghost use Rattle.std.specs.Prelude.{◌≡◌};
    ghost use Rattle.ww_table.specs.Seat.{tells_own};

    /// Whether that word says that the seat has the lock.
    #[inline(always)]
    pub fn is_own(self) -> bool
        ensures { result ≡ tells_own self }
    {
        without_flags(self.word) == without_flags(self.own)
    }
}

/// What one try to take or to release a lock at once came to. What a word that was found tells is asked for only where it
/// matters, so that who isn't in vain compares it once.
#[derive(Clone, Copy, Debug, PartialEq, Eq)]
pub enum Tried {
    Did,
    InVain(Found),
}

impl Tried {
    ghost use Rattle.std.specs.Prelude.{◌≡◌};
    ghost use Rattle.ww_table.specs.Seat.{giving_of, taking_of};

    /// What a try to take a lock came to.
    pub fn taking(self) -> Taking
        ensures { result ≡ taking_of self }
    {
        match self {
            Tried::Did => Taking::Took,
            Tried::InVain(found) => {
                if found.is_own() {
                    return Taking::Had;
                }
                Taking::Missed
            }
        }
    }

    /// What a try to release one came to.
    pub fn giving(self) -> Giving
        ensures { result ≡ giving_of self }
    {
        match self {
            Tried::Did => Giving::Gave,
            Tried::InVain(found) => {
                if found.is_own() {
                    return Giving::Kept;
                }
                Giving::Lacked
            }
        }
    }
}

/// The owner word of a lock that this seat has taken with this stamp, with nobody waiting.
pub(crate) fn own_word(who: u16, stamp: u64) -> u64
    requires { Fits who stamp }
    ensures { result ≡ packed (record { seat = Some who; stamp = stamp; flags = 0 }) }
{
    pack_seat(0, who, stamp)
}

impl Stepper {
    /// The kind of the board's locks.
    pub fn kind(&self) -> Kind
        ensures { result ≡ self.now.kind }
    {
        self.kind
    }

    /// Its number.
    pub fn who(&self) -> u16
        ensures { result ≡ self.now.who }
    {
        self.who
    }

    /// How many seats the core has.
    pub fn seats(&self) -> u16
        ensures { result ≡ self.now.seats }
    {
        self.seats
    }

    /// The stamp of its context, 0 without one.
    pub fn stamp(&self) -> u64
        ensures { result ≡ self.now.stamp }
    {
        self.stamp
    }

    /// Whether it has a slot out.
    #[tactic(auto, using(ww_invariant::proofs::Turning::numbers_long))]
    pub fn has_out(&self) -> bool
        requires order { self.now.order.items ≡ numbers_of self.now.seat.me.1 }
        ensures { result ≡ nat_lt 0 (length self.now.seat.me.1) }
    {
        self.order.len() > 0
    }

    /// The number of the slot that it has out on top.
    pub fn top(&self) -> Option<u32>
        requires order { self.now.order.items ≡ numbers_of self.now.seat.me.1 }
        ensures top { IfSome result (λ n. (y : Cell) × (others : List (ℕ × Cell)) × (self.now.seat.me.1 ≡ (n, y) ∷ others)) }
        ensures none { IfNone result (self.now.seat.me.1 ≡ []) }
    {
        self.order.last().copied()
    }

    /// The owner word of a lock that it has taken with this stamp, with nobody waiting.
    #[inline(always)]
    fn own_with(&self, stamp: u64) -> u64
        requires base { self.now.base ≡ base_of self.now.who }
        requires step { self.now.step ≡ stamp_step self.now.who }
        requires fits { Fits self.now.who stamp }
        ensures { result ≡ packed (record { seat = Some self.now.who; stamp = stamp; flags = 0 }) }
    {
        self.base + self.step * stamp
    }

    /// Starts a context, and gives its stamp: one more than the stamp drawn last. None where all stamps are spent, which
    /// can't be with 16 seats.
    #[inline(always)]
    pub fn draw(&mut self, board: &Board) -> Option<u64>
        requires at { IsSeatOf board.now self.old }
        requires may { MayDraw self.old.seat.me.0.part }
        ensures { HasDrawn board.now self.old result self.new }
    {
        let stamp = board
            .table
            .shared
            .fetch_add::<Draw>(&mut self.seat, STAMP, 1)
            + 1;
        if stamp > self.most {
            return None;
        }
        self.stamp = stamp;
        self.own = self.own_with(stamp);
        Some(stamp)
    }

    /// One try to take a lock by one step, which only a free one with an empty wait list allows.
    pub fn take_free(&mut self, board: &Board, lock: u32) -> bool
        requires at { IsSeatOf board.now self.old }
        requires may { MayTakeFree board.now lock self.old }
        ensures { HasTriedToTakeFree board.now self.old lock result self.new }
    {
        let own = self.own;
        let shared = &board.table.shared;
        let found = shared.compare_exchange::<TakeFree>(&mut self.seat, spread_word(lock), 0, own);
        if found != 0 {
            return false;
        }
        self.order.push(lock);
        true
    }

    /// One try to release a lock by one step, which only an empty wait list allows.
    pub fn give_free(&mut self, board: &Board, lock: u32) -> bool
        requires at { IsSeatOf board.now self.old }
        requires may { MayGiveFree board.now lock self.old }
        ensures { HasTriedToGiveFree board.now self.old lock result self.new }
    {
        bring(&mut self.seat, &mut self.order, lock);
        let own = self.own;
        let shared = &board.table.shared;
        let found = shared.compare_exchange::<GiveFree>(&mut self.seat, spread_word(lock), own, 0);
        if found != own {
            return false;
        }
        self.order.pop();
        true
    }

    /// One try to take, by one step, a lock that guards no node. The word says whether the seat had it before.
    #[inline(always)]
    pub fn take_bare(&mut self, board: &Board, lock: u32) -> Tried
        requires at { IsSeatOf board.now self.old }
        requires may { IsBareLock board.now lock × MayFast (view_of self.old) }
        ensures { HasTriedToTakeBare board.now self.old lock (taking_of result) self.new }
    {
        let own = self.own;
        let shared = &board.table.shared;
        let found = shared.compare_exchange::<TakeBare>(&mut self.seat, packed_word(lock), 0, own);
        if found == 0 {
            return Tried::Did;
        }
        Tried::InVain(Found { word: found, own })
    }

    /// One try to release, by one step, a lock that guards no node. The word says whether the seat has it.
    #[inline(always)]
    pub fn give_bare(&mut self, board: &Board, lock: u32) -> Tried
        requires at { IsSeatOf board.now self.old }
        requires may { IsBareLock board.now lock × IsAway (view_of self.old) }
        ensures { HasTriedToGiveBare board.now self.old lock (giving_of result) self.new }
    {
        let own = self.own;
        let shared = &board.table.shared;
        let found = shared.compare_exchange::<GiveBare>(&mut self.seat, packed_word(lock), own, 0);
        if found != own {
            return Tried::InVain(Found { word: found, own });
        }
        Tried::Did
    }

    /// Whether it owns a lock, by a look at the lock's word from outside its guard.
    pub fn has(&mut self, board: &Board, lock: u32) -> bool
        requires at { IsSeatOf board.now self.old }
        requires may { (lock < locks_of board.now) × IsAway (view_of self.old) }
        ensures { HasAskedWhoOwns board.now self.old lock result self.new }
    {
        let own = self.own;
        let shared = &board.table.shared;
        let found = shared.load::<Owns>(&mut self.seat, owner_word(board.locks, lock));
        without_flags(found) == without_flags(own)
    }

    /// Whether nobody has a lock or waits for it, by a look at the lock's word. Others may change the word any time.
    pub fn is_free(&mut self, board: &Board, lock: u32) -> bool
        requires at { IsSeatOf board.now self.old }
        requires there { lock < locks_of board.now }
        ensures { HasAskedIfFree board.now self.old lock result self.new }
    {
        let shared = &board.table.shared;
        let found = shared.load::<Whose>(&mut self.seat, owner_word(board.locks, lock));
        found == 0
    }

    /// Ends the context, if its own sign word is 0.
    pub fn end(&mut self, board: &Board) -> bool
        requires at { IsSeatOf board.now self.old }
        requires may { MayEnd (view_of self.old) }
        ensures { HasTriedToEnd board.now self.old result self.new }
    {
        let sign = board.table.shared.load::<End>(&mut self.seat, self.sign);
        if sign != 0 {
            return false;
        }
        self.stamp = 0;
        self.own = self.base;
        true
    }

    /// A node that the seat has out. It is no step.
    pub fn node(&mut self, board: &Board, lock: u32) -> Node
        requires at { IsSeatOf board.now self.old }
        requires out { (x : Node) × (slot_of self.old.seat.me.1 lock ≡ Some (Content x)) }
        ensures { HasSwapped board.now self.old lock result result self.new }
    {
        bring(&mut self.seat, &mut self.order, lock);
        node_there(&mut self.seat, &board.table.shared, lock)
    }

    /// The node of the slot that the seat took last. It is no step.
    pub fn top_node(&mut self, board: &Board, lock: u32) -> Node
        requires at { IsSeatOf board.now self.old }
        requires top { (x : Node) × (others : List (ℕ × Cell)) × (self.old.seat.me.1 ≡ (lock, Content x) ∷ others) }
        ensures { HasReadTop board.now self.old lock result self.new }
    {
        node_there(&mut self.seat, &board.table.shared, lock)
    }

    /// Writes a node that the seat has out, and gives what was there. It is no step: nobody else sees it.
    pub fn swap_node(&mut self, board: &Board, lock: u32, new: Node) -> Node
        requires at { IsSeatOf board.now self.old }
        requires out { (x : Node) × (slot_of self.old.seat.me.1 lock ≡ Some (Content x)) }
        ensures { HasSwapped board.now self.old lock new result self.new }
    {
        bring(&mut self.seat, &mut self.order, lock);
        swap_there(&mut self.seat, &board.table.shared, lock, new)
    }
}
