//! What came of scripts, as values, and two laws of it.

ghost use Rattle.ww_outcome.specs.Cancels.{CancelsAreAnsweredOnce};
ghost use Rattle.ww_outcome.specs.CutOff.{VersionsAgree};

use std::marker::Model;
use ww_plain::{Graph, Reply};

/// What an act of a script returned.
#[derive(Debug, Drop)]
pub enum ScriptAnswer {
    /// The transaction was carried out.
    Reply(Reply),
    /// The transaction was not carried out, since it lists this node twice.
    Already(u8),
    /// The transaction was not carried out: a cancel of this script ended it.
    Interrupted(u8),
    /// Whether the cancel was set. It wasn't where one was pending.
    Cancel(bool),
}

/// The outcome of scripts: what the acts of each returned; the (script, seq) of each place, if these were asked for; and
/// the last graph, with the number of ports of each node that are written, which the version of the input says.
#[derive(Debug, Drop)]
pub struct Outcome {
    pub replies: Vec<Vec<ScriptAnswer>>,
    pub places: Option<Vec<(u8, u64)>>,
    pub ports: u8,
    pub graph: Graph,
}

impl Model for Outcome {
    ghost use Rattle.ww_script_parts.specs.Versions.{ArePorts};
    ghost use Rattle.ww_outcome.specs.Outcome.{Told, told_of};

    ghost Value = { Told };

    ghost view = { λ o. told_of o.replies o.places o.ports o.graph };

    ghost invariant = { λ o. ArePorts o.ports };
}

/// A law of what an outcome says of cancels: a script interrupts another at most as often as it cancelled it, and of
/// all cancels of a script each was answered by one interruption, except at most one, which is pending.
pub fn cancels_are_answered_once()
    ensures { CancelsAreAnsweredOnce }
{}

/// A law over all scripts of version 1: as scripts of version 2 they have the same outcomes, and the text of each is that
/// of version 2 with the ports cut off that version 1 lacks, which are empty.
#[tactic(auto, using(crate::proofs::CutOff::versions_agree))]
pub fn versions_agree()
    ensures { VersionsAgree }
{}
