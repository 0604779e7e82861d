//! What a pass keeps through all of its states, inside the types of these states.

ghost use Rattle.std.specs.Prelude.{◌≡◌, ◌<◌, ◌≤◌, length, slice_set, true};
ghost use Rattle.ww_plain.specs.Graph.{IsNodeOf};

use std::marker::Model;
use ww_plain::{Graph, MAX_NODES, Node, Txn, footprint};
use ww_seat::{Bell, Patience, Seat, Waited};
use ww_table::Stepper;

/// What a pass carries through all its states: its seat at the table, and what it keeps beside that. Contracts see it
/// as what is carried.
#[derive(Drop)]
pub(crate) struct Hand {
    pub(crate) seat: Seat,
    pub(crate) left: u32,
    /// A mark for each node that is held, which is read without a search.
    pub(crate) marks: [bool; MAX_NODES],
    /// The graph as it was seen: a node is put there when its lock is taken.
    pub(crate) seen: Graph,
    pub(crate) patience: Patience,
    /// What it wakes each pass by, in their order, itself too.
    pub(crate) bells: Vec<Bell>,
}

impl Model for Hand {
    ghost use Rattle.ww_lock.specs.Carried.{Carried};

    ghost Value = { Carried };

    ghost use Rattle.ww_lock.specs.Hands.{carried_of, Carries};

    ghost view = { carried_of };

    ghost invariant = { Carries };
}

/// One node more is held, as it was found.
pub(crate) fn add(marks: &mut [bool; MAX_NODES], seen: &mut Graph, n: u8, node: Node)
    requires there { (n < length seen.old) × (length seen.old ≤ 64) }
    requires node { IsNodeOf (length seen.old) node }
    ensures marks { marks.new ≡ slice_set marks.old n true }
    ensures seen { seen.new ≡ slice_set seen.old n node }
{
    seen.put(n, node);
    marks[usize::from(n)] = true;
}

impl Hand {
    ghost use Rattle.std.specs.Prelude.{ℕ, ◌≡◌, ◌<◌, ◌≤◌, ◌-◌, ◌↔◌, [], length, IsTrue, IfSome};
    ghost use Rattle.ww_plain.specs.Graph.{IsNodeOf};
    ghost use Rattle.ww_plain.specs.Numbers.{is_among};
    ghost use Rattle.ww_plain.specs.Transaction.{transaction_of, Fits};
    ghost use Rattle.ww_lock.specs.Holding.{Holds, AreBelow, reads};
    ghost use Rattle.ww_lock.specs.Carried.{holding_of, held_of, stamp_of, MayBegin};
    ghost use Rattle.ww_lock.specs.Closed.{WasSeatOf};
    ghost use Rattle.ww_lock.specs.Making.{Covers};

    /// Its number among the passes of its world.
    #[inline(always)]
    pub(crate) fn caller(&self) -> u8
        ensures { result ≡ (holding_of self.now).caller }
    {
        self.seat.who() as u8
    }

    #[inline(always)]
    pub(crate) fn left(&self) -> u32
        ensures { result ≡ self.now.left }
    {
        self.left
    }

    #[inline(always)]
    pub(crate) fn stamp(&self) -> u64
        ensures { result ≡ stamp_of self.now }
    {
        self.seat.stamp()
    }

    /// How many commits it has made.
    #[inline(always)]
    pub(crate) fn commits(&self) -> u64
        ensures { result ≡ length (holding_of self.now).own }
    {
        self.seat.commits()
    }

    /// The larger of `least` and one more than the greatest place of its commits.
    pub(crate) fn reach(&self, least: usize) -> usize
        ensures least { least ≤ result }
        ensures all { AreBelow result (holding_of self.now).own }
        ensures exact { (n : ℕ) → least ≤ n → AreBelow n (holding_of self.now).own → result ≤ n }
    {
        self.seat.reach(least)
    }

    pub(crate) fn waited(&self) -> Waited {
        self.patience.waited()
    }

    /// One context or solo less. Where its contexts met others, it rests first.
    #[inline(always)]
    pub(crate) fn spend(&mut self)
        requires some { 1 ≤ self.old.left }
        requires may { (stamp_of self.old ≡ 0) × (held_of self.old ≡ []) }
        ensures less { self.new ≡ record self.old { left = self.old.left - 1 } }
        ensures may { MayBegin self.new }
    {
        self.left -= 1;
        self.patience.pace();
    }

    /// What it is at its table, where it holds nothing.
    pub(crate) fn into_seat(self) -> Stepper
        requires { held_of self ≡ [] }
        ensures { WasSeatOf (holding_of self) result }
    {
        self.seat.into_inner()
    }

    pub(crate) fn holds(&self, n: u8) -> bool
        ensures { result ≡ is_among n (held_of self.now) }
    {
        usize::from(n) < MAX_NODES && self.marks[usize::from(n)]
    }

    /// The same of a node of the world.
    pub(crate) fn holds_there(&self, n: u8) -> bool
        requires { n < length self.now.seen }
        ensures { result ≡ is_among n (held_of self.now) }
    {
        self.marks[usize::from(n)]
    }

    /// A node as it was when it was locked; nothing where it isn't held.
    pub(crate) fn read(&self, n: u8) -> Option<Node>
        requires { n < length self.now.seen }
        ensures contents { result ≡ reads (holding_of self.now) n }
        ensures there { IfSome result (IsNodeOf (length self.now.seen)) }
    {
        if self.holds_there(n) {
            // Its contract says that what was seen is a graph.
            let _size = self.seen.size();
            Some(self.seen.node(n))
        } else {
            None
        }
    }

    /// Whether these nodes are all held.
    fn holds_all(&self, nodes: &[u8]) -> bool
        ensures { IsTrue result ↔ Holds (holding_of self.now) nodes.now }
    {
        for n in nodes {
            if !self.holds(*n) {
                return false;
            }
        }
        true
    }

    /// Whether all that the transaction depends on and may change is held.
    pub(crate) fn covers(&self, txn: &Txn) -> bool
        requires { Fits (length self.now.seen) (transaction_of txn.now) }
        ensures { IsTrue result ↔ Covers (holding_of self.now) (transaction_of txn.now) }
    {
        self.holds_all(&footprint(&self.seen, txn))
    }
}
