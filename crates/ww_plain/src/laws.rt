//! Laws of the plain graph: each function's contract is one.

ghost use Rattle.std.specs.Prelude.{◌≡◌};
ghost use Rattle.ww_plain.specs.declared.transaction.By.{By};
ghost use Rattle.ww_plain.specs.Examples.{FootprintsAre, NothingFits, OneIsLegal};
ghost use Rattle.ww_plain.specs.Laws.{WalkIsTheOne, TransactionKeepsGraph, OnlyFootprintChanges, OnlyFootprintMatters, FootprintIsWhatConcerns, ReverseTurnsTheWalk, UnusedPortsStayEmpty, HistoryGoesOn, HistoryGrows};
ghost use Rattle.ww_plain.specs.Totals.{MoveKeepsTotal, RefusedMoveChangesNothing, ReadsChangeNothing, OnlyAddsChangeTotal, OnlyAddsChangeTotals, MovesKeepTotal};

use crate::graph::MAX_NODES;
use crate::node::PORTS;

/// A graph has at most 64 nodes, and a node has 8 ports.
pub fn limits()
    ensures nodes { MAX_NODES ≡ 64 }
    ensures ports { PORTS ≡ 8 }
{}

/// The walk is the one list with a walk's five properties.
pub fn walk_is_the_one()
    ensures { WalkIsTheOne }
{}

/// A transaction that fits leaves a graph of the same size.
#[tactic(auto, using(crate::proofs::Kept::keeps_graph, crate::proofs::Kept::sized_after))]
pub fn transaction_keeps_graph()
    ensures { TransactionKeepsGraph }
{}

/// No node outside a transaction's footprint changes.
#[tactic(auto, using(crate::proofs::Frames::outside))]
pub fn only_footprint_changes()
    ensures { OnlyFootprintChanges }
{}

/// Only the nodes in a transaction's footprint matter for it: a graph of the same size that has the same ones gives the
/// same footprint, the same answer, and the same nodes in the footprint.
pub fn only_footprint_matters()
    ensures { OnlyFootprintMatters }
{}

/// A footprint names each node that concerns its transaction once: those of the list, a link's node and its target,
/// those of the walk and its stop, or the node of a peek.
#[tactic(auto, using(crate::proofs::Frames::different_footprint, crate::proofs::Frames::concerns))]
pub fn footprint_is_what_concerns()
    ensures { FootprintIsWhatConcerns }
{}

/// A `Reverse` turns its walk: along the port, the walk's first node leads to where its last one led, and each other
/// one to the node before it. No other port, no value and no other node changes.
pub fn reverse_turns_the_walk()
    ensures { ReverseTurnsTheWalk }
{}

/// Where all ports from some number on are empty, a transaction that names none of them leaves them empty.
#[tactic(auto, using(crate::proofs::Unused::unused_after))]
pub fn unused_ports_stay_empty()
    ensures { UnusedPortsStayEmpty }
{}

/// A history's every front is legal, and what comes behind it is legal from where the front ends.
pub fn history_goes_on()
    ensures { HistoryGoesOn }
{}

/// One record more takes the next place, follows from the graph so far, and joins its caller's part alone.
pub fn history_grows()
    ensures { HistoryGrows }
{}

/// A `Move` keeps the total, whatever it is answered.
#[tactic(auto, using(crate::proofs::Totals::move_keeps))]
pub fn move_keeps_total()
    ensures { MoveKeepsTotal }
{}

/// A `Move` that is refused changes nothing.
#[tactic(auto, using(crate::proofs::Totals::refused_keeps))]
pub fn refused_move_changes_nothing()
    ensures { RefusedMoveChangesNothing }
{}

/// A `Get`, a `Sum` and a `Peek` change nothing.
#[tactic(auto, using(crate::proofs::Totals::reads_keep))]
pub fn reads_change_nothing()
    ensures { ReadsChangeNothing }
{}

/// Only an `Add` can change the total.
#[tactic(auto, using(crate::proofs::Totals::others_keep))]
pub fn only_adds_change_total()
    ensures { OnlyAddsChangeTotal }
{}

/// A legal history without an `Add` ends with the total that it began with.
#[tactic(auto, using(crate::proofs::Totals::history_keeps))]
pub fn only_adds_change_totals()
    ensures { OnlyAddsChangeTotals }
{}

/// A legal history of which each record is a `Move` ends with the total that it began with.
#[tactic(auto, using(crate::proofs::Totals::moves_keep))]
pub fn moves_keep_total()
    ensures { MovesKeepTotal }
{}

/// Examples of footprints, of what fits, and of histories.
pub fn examples()
    ensures footprints { (by : By) → FootprintsAre by }
    ensures fits { (by : By) → NothingFits by }
    ensures legal { (by : By) → OneIsLegal by }
{}
