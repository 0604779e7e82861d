//! A transaction between its preparation, which needs memory, and its commit, which needs none.

use crate::effects::changes;
use crate::hand::Hand;
use crate::world::World;
use std::alloc::{AllocError, Global};
use std::marker::Model;
use std::snapshot::Snapshot;
use ww_plain::{Graph, Record, Reply, Txn};
use ww_seat::NodeChange;

/// A transaction that was prepared. Nothing is changed or recorded before its commit, and it may be dropped.
#[derive(Drop)]
pub struct Prepared {
    /// As it joins the log.
    pub(crate) record: Record,
    /// For the receipt.
    pub(crate) reply: Reply,
    /// How many nodes the graph has.
    pub(crate) size: u8,
    /// Of the transaction's footprint.
    pub(crate) changes: Vec<NodeChange>,
    /// The graph that it was prepared on, for the clauses alone.
    pub(crate) before: Snapshot<Graph>,
}

impl Model for Prepared {
    ghost use Rattle.ww_lock.specs.Holding.{Change};

    ghost Value = { Change };

    ghost use Rattle.ww_plain.specs.Transaction.{transaction_of};
    ghost use Rattle.ww_plain.specs.Meaning.{answer_of, graph_after};
    ghost use Rattle.ww_lock.specs.Making.{IsPrepared};

    ghost view = { λ p. let txn = transaction_of p.record.txn in record { transaction = txn; answer = answer_of p.record.reply; before = p.before.value; after = graph_after p.before.value txn } };

    ghost invariant = { λ p. IsPrepared p };
}

/// The receipt of a commit: its place in the one history, its number among the caller's commits, from 0, and the
/// transaction's reply.
#[derive(Debug, Drop)]
pub struct Receipt {
    pub place: u64,
    pub seq: u64,
    pub reply: Reply,
}

impl Hand {
    ghost use Rattle.std.specs.Prelude.{◌≡◌, ◌≤◌, ◌↔◌, IsTrue, IfOk, IfErr, OnErr};
    ghost use Rattle.std.specs.List.{AllByRecursion};
    ghost use Rattle.ww_plain.specs.Transaction.{transaction_of};
    ghost use Rattle.ww_plain.specs.Meaning.{answer_of, answer_to};
    ghost use Rattle.ww_seat.specs.Commits.{changes_of};
    ghost use Rattle.ww_lock.specs.Holding.{IsAtHome};
    ghost use Rattle.ww_lock.specs.Carried.{holding_of, MayStillCommit};
    ghost use Rattle.ww_lock.specs.Making.{IsChangeMade, IsMadeOf, HoldsUnchanged};
    ghost use Rattle.ww_lock.specs.Moves.{IsCommitted, MayPrepare, HasReserved};

    /// The transaction's reply, twice, and its changes of the nodes as they were seen, with the room in the log that
    /// its commit needs.
    fn change(
        &mut self,
        alloc: Global,
        txn: &Txn,
    ) -> Result<(Reply, Reply, Vec<NodeChange>), AllocError>
        requires may { MayPrepare (transaction_of txn.now) self.old }
        ensures same { HasReserved self.old self.new }
        ensures replies { IfOk result (λ r. (answer_of r.0 ≡ answer_to self.old.seen (transaction_of txn.now)) × (answer_of r.1 ≡ answer_to self.old.seen (transaction_of txn.now))) }
        ensures changes { IfOk result (λ r. (r.2.items ≡ changes_of self.old.seen (transaction_of txn.now)) × (1 ≤ (holding_of self.new).room)) }
        ensures refused { OnErr result (self.new ≡ self.old) }
    {
        let (reply, changes) = changes(alloc, &mut self.seen, txn)?;
        let copy = reply.copy(alloc)?;
        self.seat.reserve()?;
        Ok((reply, copy, changes))
    }

    /// Prepares a transaction: makes every growth that its commit needs.
    pub(crate) fn prepare(&mut self, alloc: Global, txn: Txn) -> Result<Prepared, (Txn, AllocError)>
        requires may { MayPrepare (transaction_of txn) self.old }
        ensures same { HasReserved self.old self.new }
        ensures ok { IfOk result (λ p. IsMadeOf (holding_of self.new) p (transaction_of txn)) }
        ensures err { IfErr result (λ e. e.0 ≡ txn) }
        ensures refused { OnErr result (self.new ≡ self.old) }
    {
        match self.change(alloc, &txn) {
            Ok((reply, copy, changes)) => Ok(Prepared {
                record: Record {
                    caller: self.caller(),
                    seq: self.commits(),
                    txn,
                    reply: copy,
                },
                reply,
                size: self.seen.size(),
                changes,
                before: Snapshot::of(&self.seen),
            }),
            Err(error) => Err((txn, error)),
        }
    }

    /// Whether this node is held, as it was before.
    fn finds(&self, change: &NodeChange) -> bool
        ensures { IsTrue result ↔ HoldsUnchanged (holding_of self.now) change.now }
    {
        self.holds(change.number) && self.seen.node(change.number).is_same(&change.before)
    }

    /// Whether all these nodes are held, as they were before.
    fn finds_all(&self, changes: &[NodeChange]) -> bool
        ensures { IsTrue result ↔ AllByRecursion (HoldsUnchanged (holding_of self.now)) changes.now }
    {
        for change in changes {
            if !self.finds(change) {
                return false;
            }
        }
        true
    }

    /// Whether what was prepared can be committed here.
    pub(crate) fn made(&self, prepared: &Prepared) -> bool
        ensures { IsTrue result ↔ IsChangeMade (holding_of self.now) prepared.now }
    {
        if prepared.size != self.seen.size() {
            return false;
        }
        if !self.finds_all(&prepared.changes) {
            return false;
        }
        self.seat.is_reserved()
    }

    /// Commits what was prepared: it takes the next place of the one history, and the nodes change.
    pub(crate) fn commit(&mut self, world: &World, prepared: Prepared) -> Receipt
        requires home { IsAtHome (holding_of self.old) world.now }
        requires may { MayStillCommit self.old × IsChangeMade (holding_of self.old) prepared }
        ensures { IsCommitted (holding_of self.old) prepared (holding_of self.new) result }
    {
        let Prepared {
            mut record,
            reply,
            size: _,
            changes,
            before,
        } = prepared;
        let seq = self.commits();
        record.caller = self.caller();
        record.seq = seq;
        let place = self.seat.commit(&world.board, record, &before, &changes);
        Receipt { place, seq, reply }
    }
}
