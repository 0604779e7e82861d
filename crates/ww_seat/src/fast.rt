//! One try to take a lock by one step, which a free lock with an empty wait list allows.

ghost use Rattle.std.specs.Prelude.{ℕ};
ghost use Rattle.ww_plain.specs.Graph.{IsNodeOf};

use crate::seats::Seat;
use ww_plain::Node;
use ww_queue::Kind;
use ww_table::{Board, Taking, Tried};

impl Seat {
    ghost use Rattle.std.specs.Prelude.{◌≡◌, ◌<◌, false};
    ghost use Rattle.ww_view.specs.View.{owns, IsAway, IsBare};
    ghost use Rattle.ww_view.specs.May.{MayFast};
    ghost use Rattle.ww_table.specs.Seat.{size_of, taking_of};
    ghost use Rattle.ww_seat.specs.Standings.{view_in, owns_any, IsAt, IsUnsigned, MayTry, MayTake, MayTryBare, MayTakeBare, IsTry, IsTryBare};

    /// Takes the sign back of a seat that holds nothing, if it has a context: nobody waits for it then.
    #[inline(always)]
    fn unsign_bare(&mut self, board: &Board)
        requires at { IsAt board.now self.old }
        requires bare { IsAway (view_in self.old) × IsBare (view_in self.old) }
        ensures { IsUnsigned self.old false self.new }
    {
        if self.seat.stamp() == 0 {
            return;
        }
        if self.seat.own_sign(board) == 0 {
            return;
        }
        self.seat.clear(board);
    }

    /// Clears a sign that would forbid the seat to want a lock. Where it owns a lock nothing forbids that; and in Wait-Die a
    /// signed seat owns one.
    #[inline(always)]
    fn unsign(&mut self, board: &Board, holds: bool)
        requires at { IsAt board.now self.old }
        requires may { IsAway (view_in self.old) × (owns_any (view_in self.old) ≡ holds) }
        ensures { IsUnsigned self.old holds self.new }
    {
        if holds {
            return;
        }
        match self.seat.kind() {
            Kind::WoundWait => self.unsign_bare(board),
            Kind::WaitDie => {}
        }
    }

    /// Takes a lock that guards a node, if it is free and nobody waits for it, and gives the node.
    #[inline(always)]
    fn take(&mut self, board: &Board, lock: u32) -> Option<Node>
        requires at { IsAt board.now self.old }
        requires may { MayTake board.now lock self.old }
        ensures { IsTry self.old lock result self.new }
    {
        if !self.seat.take_free(board, lock) {
            return None;
        }
        Some(self.seat.top_node(board, lock))
    }

    /// One try to take a lock that guards a node, which it gives then. It is the first try of every call that takes a lock:
    /// where it fails the seat may go on to wait for the lock.
    #[inline(always)]
    pub fn try_take(&mut self, board: &Board, lock: u32) -> Option<Node>
        requires at { IsAt board.now self.old }
        requires may { MayTry board.now lock self.old }
        ensures { IsTry self.old lock result self.new }
    {
        let holds = self.holds();
        self.unsign(board, holds);
        self.take(board, lock)
    }

    /// One try to take a lock that guards no node, where no sign forbids the seat to want one. Whether it has this one the
    /// lock's word tells.
    #[inline(always)]
    pub fn take_bare(&mut self, board: &Board, lock: u32) -> Tried
        requires at { IsAt board.now self.old }
        requires may { MayTakeBare board.now lock self.old }
        ensures { IsTryBare self.old lock (taking_of result) self.new }
    {
        self.seat.take_bare(board, lock)
    }

    /// The same where a sign may forbid it. Whether the seat holds a lock its caller knows, but not whether it is this one.
    pub fn try_take_bare(&mut self, board: &Board, lock: u32, holds: bool) -> Taking
        requires at { IsAt board.now self.old }
        requires may { MayTryBare board.now lock holds self.old }
        ensures { IsTryBare self.old lock result self.new }
    {
        self.unsign(board, holds);
        self.take_bare(board, lock).taking()
    }
}

/// A node of no graph, whose ports are empty.
pub(crate) fn blank() -> Node
    ensures { (size : ℕ) → IsNodeOf size result }
{
    Node {
        value: 0,
        ports: [None; 8],
    }
}
