//! A world: a graph whose nodes are locked. It is opened here, and asked what it has.

ghost use Rattle.std.specs.Prelude.{◌≡◌, ◌≤◌, [], length, map, IfOk, IfErr, vec_len, vec_capacity};
ghost use Rattle.ww_table.specs.Made.{AreNew};
ghost use Rattle.ww_invariant.specs.Rule.{first_graph};
ghost use Rattle.std.specs.List.{AllByRecursion};
ghost use Rattle.ww_seat.specs.Bells.{leads_to, rings_at, rung};
ghost use Rattle.ww_lock.specs.Opened.{home_at, AreFresh, AreRests};

use crate::hand::Hand;
use crate::pass::Pass;
use std::alloc::{AllocError, Global};
use std::marker::Model;
use thiserror::Error;
use ww_plain::{Graph, MAX_NODES};
use ww_queue::Kind;
use ww_seat::{Bell, Parker, Patience, Seat, Wire};
use ww_table::{Board, Stepper};
use ww_word::MAX_SEATS;

/// How many locks the table of a world has, whatever the size of its graph.
const LOCKS: u32 = MAX_NODES as u32;

/// How many passes a world has at most.
const MAX_PASSES: u8 = MAX_SEATS as u8;

/// Why a world was not opened.
#[derive(Clone, Copy, Debug, PartialEq, Eq, Drop, Error)]
pub enum OpenFault {
    /// There would be no pass, or more than 16, or none could do anything.
    #[error("a world has 1 to 16 passes, and each may start something")]
    BadSize = 1,
    /// A growth was refused.
    #[error("no memory")]
    NoMemory = 3,
}

impl OpenFault {
    ghost use Rattle.std.specs.Prelude.{◌≡◌};
    ghost use Rattle.ww_lock.specs.Opened.{open_number};

    /// The number of the fault.
    pub fn number(self) -> u8
        ensures { result ≡ open_number self }
    {
        self as u8
    }
}

/// A graph whose nodes are locked, one lock a node. Threads share it by reference. Contracts see its kind, the graph
/// that it was opened with, and how many passes it gave.
#[derive(Drop)]
pub struct World {
    pub(crate) board: Board,
    /// What bells are made of, one for each pass, in their order. Threads share a world, and can't share a bell.
    pub(crate) wires: Vec<Wire>,
}

impl Model for World {
    ghost use Rattle.ww_lock.specs.Holding.{Setting};

    ghost Value = { Setting };

    ghost use Rattle.std.specs.Prelude.{◌≡◌, ◌≤◌, length};
    ghost use Rattle.ww_invariant.specs.Rule.{first_graph};
    ghost use Rattle.ww_lock.specs.Opened.{setting_of};

    ghost view = { λ w. setting_of w.board w.wires.items };

    ghost invariant = { λ w. (length w.wires.items ≤ 16) × (w.board.table.shared.key.seats ≡ length w.wires.items) × (w.board.table.shared.key.places ≡ 16) × (1 ≤ length (first_graph w.board.table.shared.key)) };
}

impl World {
    ghost use Rattle.std.specs.Prelude.{◌≡◌, IfOk, IfErr, length};
    ghost use Rattle.ww_lock.specs.Opened.{IsOpened, IsOpenFault};

    /// Opens a world on a graph, with 1 to 16 passes, each of which may start this many contexts and solos.
    /// A pass is a caller of its own, and has the number of its place in the list.
    pub fn open(
        alloc: Global,
        kind: Kind,
        graph: Graph,
        passes: u8,
        budget: u32,
    ) -> Result<(World, Vec<Pass>), (Graph, OpenFault)>
        ensures ok { IfOk result (λ r. IsOpened r.0 r.1.items graph passes budget) }
        ensures kind { IfOk result (λ r. r.0.kind ≡ kind) }
        ensures err { IfErr result (λ e. (e.0 ≡ graph) × IsOpenFault passes budget e.1) }
    {
        if passes == 0 || passes > MAX_PASSES || budget == 0 {
            return Err((graph, OpenFault::BadSize));
        }
        let Ok(room) = Vec::with_capacity(alloc, usize::from(passes)) else {
            return Err((graph, OpenFault::NoMemory));
        };
        let Ok((rests, wires)) = rests(alloc, &graph, passes) else {
            return Err((graph, OpenFault::NoMemory));
        };
        // Its contract says that this is a graph.
        let _size = graph.size();
        let (board, seats) = match Board::make(alloc, kind, graph, LOCKS, u16::from(passes)) {
            Ok(made) => made,
            Err((graph, _)) => return Err((graph, OpenFault::NoMemory)),
        };
        match fresh(alloc, &board, &wires, seats, rests, budget, room) {
            Ok(all) => Ok((World { board, wires }, all)),
            Err(graph) => Err((graph, OpenFault::NoMemory)),
        }
    }

    /// How many passes it gave.
    pub fn passes(&self) -> u8
        ensures { result ≡ self.now.passes }
    {
        self.wires.len() as u8
    }

    /// How many nodes there are.
    pub fn size(&self) -> u8
        ensures { result ≡ length self.now.first }
    {
        self.board.size()
    }
}

/// What a pass has beside its seat.
#[derive(Drop)]
struct Rest {
    patience: Patience,
    seen: Graph,
}

/// The parkers and the graphs of `passes` passes, the last one first, since `fresh` pops them; and the wires to the
/// parkers, in the order of the passes.
fn rests(alloc: Global, graph: &Graph, passes: u8) -> Result<(Vec<Rest>, Vec<Wire>), AllocError>
    ensures rests { IfOk result (λ r. AreRests graph.now (map leads_to r.1.items) r.0.items) }
    ensures wires { IfOk result (λ r. length r.1.items ≡ passes) }
{
    let mut rests = Vec::new(alloc);
    let mut wires = Vec::new(alloc);
    for _ in 0..passes {
        let parker = Parker::new(alloc)?;
        let seen = graph.copy(alloc)?;
        wires.insert(0, parker.wire()?)?;
        let patience = Patience::new(parker);
        rests.push(Rest { patience, seen })?;
    }
    Ok((rests, wires))
}

/// The bells of one pass: one of each pass's parker, in the order of the passes. None has given a token yet.
fn hung(alloc: Global, wires: &[Wire]) -> Result<Vec<Bell>, AllocError>
    ensures placed { IfOk result (λ bells. map rings_at bells.items ≡ map leads_to wires.now) }
    ensures silent { IfOk result (λ bells. AllByRecursion (λ b. rung b ≡ 0) bells.items) }
{
    let mut bells = Vec::with_capacity(alloc, wires.len())?;
    for wire in wires {
        bells.push(Bell::hang(wire)?)?;
    }
    Ok(bells)
}

/// The passes of new seats, which have done nothing yet; or the graph that they have seen, where a growth was refused.
fn fresh(
    alloc: Global,
    board: &Board,
    wires: &[Wire],
    seats: Vec<Stepper>,
    mut rests: Vec<Rest>,
    budget: u32,
    mut all: Vec<Pass>,
) -> Result<Vec<Pass>, Graph>
    requires locks { board.now.table.shared.key.locks ≡ 64 }
    requires places { board.now.table.shared.key.places ≡ 16 }
    requires seats { AreNew board.now.table.shared.table_id board.now.table.shared.key (length seats.items) seats.items }
    requires wires { length wires.now ≡ length seats.items }
    requires rests { AreRests (first_graph board.now.table.shared.key) (map leads_to wires.now) rests.items }
    requires room { (all.items ≡ []) × (vec_len all ≡ 0) × (length seats.items ≤ vec_capacity all) }
    ensures ok { IfOk result (λ all. AreFresh all.items (first_graph board.now.table.shared.key) (home_at board.now wires.now) (length seats.items) budget) }
    ensures err { IfErr result (λ graph. graph ≡ first_graph board.now.table.shared.key) }
{
    for seat in seats {
        let Some(Rest { patience, seen }) = rests.pop() else {
            unreachable!()
        };
        let Ok(bells) = hung(alloc, wires) else {
            return Err(seen);
        };
        let hand = Hand {
            seat: Seat::new(seat),
            left: budget,
            marks: [false; MAX_NODES],
            seen,
            patience,
            bells,
        };
        match Box::new(alloc, hand) {
            Ok(hand) => all.push_reserved(Pass { hand }),
            Err(refused) => {
                let hand = refused.value;
                return Err(hand.seen);
            }
        }
    }
    Ok(all)
}
