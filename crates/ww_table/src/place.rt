//! The step by which a commit takes its place.

ghost use Rattle.std.specs.Prelude.{◌≡◌, ◌<◌, ◌↔◌, true, length, Some, IfOk, IsTrue, OnErr, vec_len, vec_capacity};
ghost use Rattle.ww_plain.specs.History.{recorded_of};
ghost use Rattle.ww_table.specs.Seat.{IsSeatOf};
ghost use Rattle.ww_invariant.specs.Steps.{MayPlace};
ghost use Rattle.ww_table.specs.Steps.{HasPlaced, HasItsPlace};

use crate::board::Board;
use crate::seat::Stepper;
use std::alloc::AllocError;
use std::marker::Brand;
use ww_invariant::TableSeat;
use ww_invariant::layout::FRONT;
use ww_invariant::plays::{Commit, NamesRecord};
use ww_plain::Record;

impl Stepper {
    /// How many commits it made.
    pub fn commits(&self) -> u64
        ensures { result ≡ length self.now.records.items }
    {
        self.records.len() as u64
    }

    /// Whether there is room for the record of a commit.
    pub fn is_reserved(&self) -> bool
        ensures { IsTrue result ↔ (vec_len self.now.records < vec_capacity self.now.records) }
    {
        self.records.len() < self.records.capacity()
    }

    /// Makes room for the record of a commit: the one growth that a commit needs.
    pub fn reserve(&mut self) -> Result<(), AllocError>
        ensures same { self.new ≡ record self.old { records = self.new.records } }
        ensures list { self.new.records.items ≡ self.old.records.items }
        ensures ok { IfOk result (λ _. vec_len self.new.records < vec_capacity self.new.records) }
        ensures err { OnErr result (vec_capacity self.new.records ≡ vec_capacity self.old.records) }
    {
        self.records.reserve(1)
    }

    /// Commits: the record takes the next place of the one history, which this gives, and the view names the nodes held
    /// as the transaction leaves them. The slots are changed by `swap_node`.
    pub fn place(&mut self, board: &Board, done: Record) -> u64
        requires at { IsSeatOf board.now self.old }
        requires may { MayPlace self.old.seat.me.0 (recorded_of done) × (vec_len self.old.records < vec_capacity self.old.records) }
        ensures { HasPlaced board.now self.old done result self.new }
    {
        let place = place_said::<Brand>(&mut self.seat, board, &done);
        self.records.push_reserved((place, done));
        place
    }
}

/// The type parameter W names the record, since a step is given only numbers.
fn place_said<W: NamesRecord>(seat: &mut TableSeat, board: &Board, done: &Record) -> u64
    requires said { W.about ≡ Some done.now }
    requires at { (seat.old.table_id ≡ board.now.table.shared.table_id) × (seat.old.me.0.seated ≡ true) }
    requires may { MayPlace seat.old.me.0 (recorded_of done.now) }
    ensures home { (seat.new.table_id ≡ seat.old.table_id) × (seat.new.id ≡ seat.old.id) }
    ensures placed { HasItsPlace seat.old.me done.now result seat.new.me }
{
    board.table.shared.fetch_add::<Commit<W>>(seat, FRONT, 1)
}
