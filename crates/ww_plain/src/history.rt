//! Histories of committed transactions, and whether one is legal from a graph.

ghost use Rattle.std.specs.Prelude.{◌≡◌, ◌↔◌, IsTrue, IfOk, MatchBool};
ghost use Rattle.std.specs.Option.{SomeIff};
ghost use Rattle.ww_plain.specs.Meaning.{graph_after};
ghost use Rattle.ww_plain.specs.History.{recorded_of, history_of, IsNext, IsLegal, last_graph};

use crate::graph::Graph;
use crate::meaning::apply;
use crate::reply::Reply;
use crate::transaction::{Txn, first_double};
use std::alloc::{AllocError, Global};

/// A committed transaction: its caller, its number among those of that caller, and its reply.
#[derive(Debug, PartialEq, Eq, Drop)]
pub struct Record {
    pub caller: u8,
    pub seq: u64,
    pub txn: Txn,
    pub reply: Reply,
}

impl Record {
    /// A second record that says the same.
    pub fn copy(&self, alloc: Global) -> Result<Record, AllocError>
        ensures { IfOk result (λ r. recorded_of r ≡ recorded_of self.now) }
    {
        Ok(Record {
            caller: self.caller,
            seq: self.seq,
            txn: self.txn.copy(alloc)?,
            reply: self.reply.copy(alloc)?,
        })
    }

    /// Whether it says the same.
    pub fn is_same(&self, other: &Record) -> bool
        ensures { IsTrue result ↔ recorded_of self.now ≡ recorded_of other.now }
    {
        self == other
    }
}

/// The last graph of the records' history, if that is legal from this graph: each transaction fits, has no duplicate,
/// and has the reply of its point.
pub fn replays(
    alloc: Global,
    mut graph: Graph,
    records: &[Record],
) -> Result<Option<Graph>, AllocError>
    ensures { let history = history_of records.now in IfOk result (λ last.
        SomeIff last (IsLegal graph history) (last_graph graph history)) }
{
    for next in records {
        if !replays_one(alloc, &mut graph, next)? {
            return Ok(None);
        }
    }
    Ok(Some(graph))
}

/// Applies the next record's transaction, if the record may come next. Where it may not, the graph is of no more use.
fn replays_one(alloc: Global, graph: &mut Graph, next: &Record) -> Result<bool, AllocError>
    ensures { let r = recorded_of next.now in IfOk result (λ may.
        MatchBool may (IsNext graph.old r × (graph.new ≡ graph_after graph.old r.transaction)) (¬ IsNext graph.old r)) }
{
    if !next.txn.fits(graph.size()) {
        return Ok(false);
    }
    if first_double(&next.txn).is_some() {
        return Ok(false);
    }
    let reply = apply(alloc, graph, &next.txn)?;
    Ok(reply == next.reply)
}
