//! Locks that are held, by a context or without one: read, prepared, committed.

ghost use Rattle.std.specs.Prelude.{ℕ};

use crate::hand::Hand;
use crate::prepared::{Prepared, Receipt};
use crate::world::World;
use std::alloc::AllocError;
use std::marker::{Model, PhantomData};
use ww_plain::{Node, Txn, first_double};

/// A holder of locks: a context, or a pass that took one lock without a context.
pub trait HolderKind {
    /// The stamps that it has.
    ghost is_stamp: { ℕ → Type 0 };
}

/// A context holds the locks.
pub struct InContext;

impl HolderKind for InContext {
    ghost use Rattle.std.specs.Prelude.{◌<◌};

    ghost is_stamp = { λ k. 0 < k };
}

/// One lock is held without a context.
pub struct Alone;

impl HolderKind for Alone {
    ghost use Rattle.std.specs.Prelude.{◌≡◌};

    ghost is_stamp = { λ k. k ≡ 0 };
}

/// All locks that a transaction needs, before its commit.
pub struct Held<H: HolderKind> {
    pub(crate) hand: Box<Hand>,
    pub(crate) by: PhantomData<H>,
}

impl<H: HolderKind> Model for Held<H> {
    ghost use Rattle.ww_lock.specs.Holding.{Holding};
    ghost use Rattle.ww_lock.specs.Carried.{holding_of, stamp_of, MayStillCommit};

    ghost Value = { Holding };

    ghost view = { λ s. holding_of s.hand.value };

    ghost invariant = { λ s. MayStillCommit s.hand.value × H.is_stamp (stamp_of s.hand.value) };
}

/// The locks that are still held after the commit.
pub struct Kept<H: HolderKind> {
    pub(crate) hand: Box<Hand>,
    pub(crate) by: PhantomData<H>,
}

impl<H: HolderKind> Model for Kept<H> {
    ghost use Rattle.ww_lock.specs.Holding.{Holding};
    ghost use Rattle.ww_lock.specs.Carried.{holding_of, stamp_of};

    ghost Value = { Holding };

    ghost view = { λ s. holding_of s.hand.value };

    ghost invariant = { λ s. H.is_stamp (stamp_of s.hand.value) };
}

impl<H: HolderKind> Held<H> {
    ghost use Rattle.std.specs.Prelude.{◌≡◌, ◌<◌, ◌↔◌, length, IsTrue, IfSome, IfOk, IfErr, OnErr};
    ghost use Rattle.ww_plain.specs.Graph.{IsNodeOf};
    ghost use Rattle.ww_plain.specs.Transaction.{transaction_of, Fits, HasNoDouble};
    ghost use Rattle.ww_lock.specs.Holding.{IsAtHome, reads};
    ghost use Rattle.ww_lock.specs.Making.{Covers, IsChangeMade, IsMadeOf};
    ghost use Rattle.ww_lock.specs.Moves.{IsCommitted};

    /// The node as it was when it was locked; nothing where it isn't held. Its ports name nodes of the world, or none.
    pub fn read(&self, world: &World, n: u8) -> Option<Node>
        requires home { IsAtHome self.now world.now }
        requires node { n < length world.now.first }
        ensures contents { result ≡ reads self.now n }
        ensures there { IfSome result (IsNodeOf (length world.now.first)) }
    {
        self.hand.read(n)
    }

    /// Whether all that the transaction depends on and may change is held.
    pub fn covers(&self, world: &World, txn: &Txn) -> bool
        requires home { IsAtHome self.now world.now }
        requires fits { Fits (length self.now.seen) (transaction_of txn.now) }
        ensures { IsTrue result ↔ Covers self.now (transaction_of txn.now) }
    {
        self.hand.covers(txn)
    }

    /// Whether the transaction can be prepared here: it fits the world, names no node twice, and all that it depends on
    /// and may change is held.
    #[tactic(auto, using(ww_plain::proofs::Doubles::no_double_is_none))]
    pub fn serves(&self, world: &World, txn: &Txn) -> bool
        requires home { IsAtHome self.now world.now }
        ensures fits { IsTrue result → Fits (length self.now.seen) (transaction_of txn.now) }
        ensures no_double { IsTrue result → HasNoDouble (transaction_of txn.now) }
        ensures covers { IsTrue result → Covers self.now (transaction_of txn.now) }
        ensures told { Fits (length self.now.seen) (transaction_of txn.now) → HasNoDouble (transaction_of txn.now) → Covers self.now (transaction_of txn.now) → IsTrue result }
    {
        txn.fits(world.size()) && first_double(txn).is_none() && self.covers(world, txn)
    }

    /// Prepares a transaction: makes every growth that its commit needs. Nothing is changed or recorded until that.
    pub fn prepare(&mut self, world: &World, txn: Txn) -> Result<Prepared, (Txn, AllocError)>
        requires home { IsAtHome self.old world.now }
        requires fits { Fits (length self.old.seen) (transaction_of txn) }
        requires no_double { HasNoDouble (transaction_of txn) }
        requires covers { Covers self.old (transaction_of txn) }
        ensures same { self.new ≡ record self.old { room = self.new.room } }
        ensures ok { IfOk result (λ p. IsMadeOf self.new p (transaction_of txn)) }
        ensures err { IfErr result (λ e. e.0 ≡ txn) }
        ensures refused { OnErr result (self.new ≡ self.old) }
    {
        self.hand.prepare(*world.wires.allocator(), txn)
    }

    /// Whether what was prepared can be committed here: the nodes that it depends on and may change are held, with the
    /// contents that it was made from, and there is room for its record.
    pub fn made(&self, prepared: &Prepared) -> bool
        ensures { IsTrue result ↔ IsChangeMade self.now prepared.now }
    {
        self.hand.made(prepared)
    }

    /// Commits what was prepared: it takes the next place of the one history, and the nodes change. It takes no memory.
    pub fn commit(self, world: &World, prepared: Prepared) -> (Kept<H>, Receipt)
        requires home { IsAtHome self world.now }
        requires made { IsChangeMade self prepared }
        ensures { IsCommitted self prepared result.0 result.1 }
    {
        let Held { mut hand, by } = self;
        let receipt = hand.commit(world, prepared);
        (Kept { hand, by }, receipt)
    }
}
