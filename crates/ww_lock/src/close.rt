//! A world is closed: its passes come back, and give one history of all commits.

ghost use Rattle.std.specs.Prelude.{ℕ, ◌≡◌, ◌≤◌, ◌^◌, [], length, vec_len, vec_capacity};
ghost use Rattle.ww_lock.specs.Closed.{has_pass, missing_of, WasSeatOf, AreSeatsOf, AreAllBelow};

use crate::pass::Pass;
use crate::world::World;
use thiserror::Error;
use ww_plain::{Graph, Record};
use ww_table::Stepper;

/// Why a world was not closed. All is handed back then, and it can be tried again.
#[derive(Clone, Copy, Debug, PartialEq, Eq, Drop, Error)]
pub enum CloseFault {
    /// This many passes are missing.
    #[error("passes that are missing: {0}")]
    Missing(u8),
    /// A growth was refused.
    #[error("no memory")]
    NoMemory,
}

impl CloseFault {
    ghost use Rattle.std.specs.Prelude.{◌≡◌};
    ghost use Rattle.ww_lock.specs.Closed.{close_number};

    /// The number of the fault.
    pub fn number(self) -> u8
        ensures { result ≡ close_number self }
    {
        match self {
            CloseFault::Missing(_) => 5,
            CloseFault::NoMemory => 6,
        }
    }
}

/// All committed transactions, in the order of their places, and the graph that they lead to.
#[derive(Debug, Drop)]
pub struct History {
    pub records: Vec<Record>,
    pub graph: Graph,
}

impl World {
    ghost use Rattle.std.specs.Prelude.{◌≡◌, IfOk, IfErr};
    ghost use Rattle.ww_lock.specs.Holding.{AreAtHome};
    ghost use Rattle.ww_lock.specs.Closed.{IsClosed, IsCloseFault};

    /// Closes the world, with all its passes. All growths come first, while the passes are still whole.
    pub fn close(self, passes: Vec<Pass>) -> Result<History, (World, Vec<Pass>, CloseFault)>
        requires home { AreAtHome passes.items self }
        ensures ok { IfOk result (IsClosed self passes.items) }
        ensures err { IfErr result (λ e. (e.0 ≡ self) × (e.1 ≡ passes) × IsCloseFault self passes.items e.2) }
    {
        let missing = missing(&passes, self.wires.len() as u8);
        if missing > 0 {
            return Err((self, passes, CloseFault::Missing(missing)));
        }
        let alloc = *self.wires.allocator();
        let Ok(rooms) = self.board.rooms(alloc, reach(&passes)) else {
            return Err((self, passes, CloseFault::NoMemory));
        };
        let Ok(seats) = Vec::with_capacity(alloc, passes.len()) else {
            return Err((self, passes, CloseFault::NoMemory));
        };
        let World { board, wires: _ } = self;
        let seats = seats_of(passes, seats);
        let (records, graph) = board.close_in(seats, rooms);
        Ok(History { records, graph })
    }
}

/// How many of the first callers have no pass.
fn missing(passes: &[Pass], count: u8) -> u8
    ensures value { result ≡ missing_of count passes.now }
    ensures few { result ≤ count }
{
    let mut missing = 0;
    for caller in 0..count {
        if !has_pass(passes, caller) {
            missing += 1;
        }
    }
    missing
}

/// Whether one of the passes is that of the caller.
fn has_pass(passes: &[Pass], caller: u8) -> bool
    ensures { result ≡ has_pass passes.now caller }
{
    passes.iter().any(|pass| pass.caller() == caller)
}

/// One more than the greatest place of all commits of the passes.
fn reach(passes: &[Pass]) -> usize
    ensures all { AreAllBelow result passes.now }
    ensures exact { (n : ℕ) → AreAllBelow n passes.now → result ≤ n }
{
    let mut reach = 0;
    for pass in passes {
        reach = pass.reach(reach);
    }
    reach
}

/// The seats of passes, in a list that has room for them.
fn seats_of(passes: Vec<Pass>, mut seats: Vec<Stepper>) -> Vec<Stepper>
    requires empty { seats.items ≡ [] }
    requires room { (vec_len seats ≡ 0) × (length passes.items ≤ vec_capacity seats) }
    ensures { AreSeatsOf passes.items result.items }
{
    for pass in passes {
        seats.push_reserved(pass.into_seat());
    }
    seats
}

impl Pass {
    ghost use Rattle.std.specs.Prelude.{ℕ, ◌≤◌};
    ghost use Rattle.ww_lock.specs.Holding.{AreBelow};
    ghost use Rattle.ww_lock.specs.Closed.{WasSeatOf};

    /// The larger of `least` and one more than the greatest place of its commits.
    fn reach(&self, least: usize) -> usize
        ensures least { least ≤ result }
        ensures all { AreBelow result self.now.own }
        ensures exact { (n : ℕ) → least ≤ n → AreBelow n self.now.own → result ≤ n }
    {
        self.hand.reach(least)
    }

    fn into_seat(self) -> Stepper
        ensures { WasSeatOf self result }
    {
        let Pass { hand } = self;
        Box::into_inner(hand).into_seat()
    }
}
