//! The types of what the table keeps: its slots, and the proof-only records of each seat.

use crate::pages::Waiters;
use atomic_table::{Seat, Shared, TableRule};
use std::collections::LinkedList;
use std::snapshot::Snapshot;
use ww_plain::{Graph, Node, Record};
use ww_queue::Kind;
use ww_view::view::View;

/// What a slot has. The first variant is told by a zero, so that a slot with a list in which nobody stands is zeros.
#[derive(Drop)]
pub enum Cell {
    Line(Waiters),
    Content(Node),
}

/// Proof-only state of a seat number, kept after its seat is gone: what it knows of the core, its counts, and all its
/// commits with their places. No value of it is made.
pub struct Part {
    pub core: View,
    pub counts: Counts,
    pub own: LinkedList<(u64, Record)>,
}

/// Proof-only counts for a seat number, kept after its seat is gone. Those of cancels are lists, so without a bound.
pub struct Counts {
    /// How often it drew a stamp.
    pub draws: u64,
    /// The seats whose cancel it set, the last one first.
    pub cancelled: LinkedList<u16>,
    /// The seats whose cancel it heeded, the last one first.
    pub heeded: LinkedList<u16>,
}

/// What the table has of a seat. No value of it is made.
pub struct Sight {
    /// False once this seat was joined to another.
    pub seated: bool,
    pub part: Part,
    /// The values of the nodes whose locks it has taken.
    pub held: LinkedList<Option<Node>>,
    /// The seats that are not cut off yet, or were joined to this one.
    pub idle: LinkedList<Part>,
}

/// What a table is made with, of which its rule speaks.
#[derive(Drop)]
pub struct Start {
    pub kind: Kind,
    /// How many locks there are: the first ones guard the nodes, and the others nothing.
    pub locks: u32,
    pub seats: u16,
    /// How many seats the core has: 16, or more.
    pub places: u16,
    pub nodes: Snapshot<Graph>,
    /// No lock guards a node, so the graph counts for nothing.
    pub bare: bool,
}

pub struct Words;

impl TableRule<Cell, Sight, Start> for Words {
    ghost use Rattle.ww_invariant.specs.Rule.{Ruled, first_sight};

    ghost holds = { Ruled };

    ghost first = { first_sight };
}

pub type Top = Shared<Cell, Sight, Start, Words>;

pub type TableSeat = Seat<Cell, Sight>;
