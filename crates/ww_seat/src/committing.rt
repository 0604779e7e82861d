//! A commit: the record takes its place, and the nodes change.

ghost use Rattle.ww_table.specs.Seat.{IsSeatOf};
ghost use Rattle.ww_seat.specs.Commits.{MayChange, HasChanged};
ghost use Rattle.ww_seat.specs.Work.{IsSameSeat};

use crate::seats::Seat;
use std::snapshot::Snapshot;
use ww_plain::{Graph, Node, Record};
use ww_table::{Board, Stepper};

/// What becomes of one node of a transaction's footprint.
#[derive(Clone, Copy)]
pub struct NodeChange {
    pub number: u8,
    pub before: Node,
    pub after: Node,
}

/// Writes these nodes as they are afterwards, the last one first: it was taken last, so fewer slots are turned.
fn change(seat: &mut Stepper, board: &Board, changes: &[NodeChange])
    requires at { IsSeatOf board.now seat.old }
    requires may { MayChange board.now changes.now seat.old }
    ensures same { IsSameSeat board.now seat.old seat.new }
    ensures changed { HasChanged board.now changes.now seat.old seat.new }
{
    for at in (0..changes.len()).rev() {
        let change = changes[at];
        seat.swap_node(board, u32::from(change.number), change.after);
    }
}

impl Seat {
    ghost use Rattle.ww_seat.specs.Standings.{IsAt, MayCommit, IsCommit};

    /// Commits a transaction that was prepared on nodes that the seat holds: its record takes the next place of the one
    /// history, which this gives, and the nodes change. The graph that it was prepared on is seen by the clauses alone.
    pub fn commit(
        &mut self,
        board: &Board,
        done: Record,
        before: &Snapshot<Graph>,
        changes: &[NodeChange],
    ) -> u64
        requires at { IsAt board.now self.old }
        requires may { MayCommit board.now done before.now.value changes.now self.old }
        ensures { IsCommit self.old done before.now.value result self.new }
    {
        let place = self.seat.place(board, done);
        change(&mut self.seat, board, changes);
        place
    }
}
