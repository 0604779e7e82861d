//! What a test asks of a pass: a lock, a transaction.

ghost use Rattle.std.specs.Prelude.{◌<◌, length, IfOk, IfErr, IsTrue};
ghost use Rattle.ww_lock.specs.Holding.{IsAtHome};
ghost use Rattle.ww_lock.specs.Making.{Covers};
ghost use Rattle.ww_plain.specs.Transaction.{transaction_of, Fits, HasNoDouble};

use std::alloc::{AllocError, Global};
use std::sync::Wait;
use ww_lock::{Acquiring, Done, Lock, Pass, Receipt, Solo, Try, World};
use ww_plain::{By, Txn, first_double};

/// An addition of these amounts.
pub fn add(alloc: Global, by: By, amounts: &[(u8, u64)]) -> Result<Txn, AllocError> {
    Ok(Txn::Add(by, Vec::from_slice(alloc, amounts)?))
}

/// Begins a context and locks its first node.
pub fn first_locked<R: Wait>(
    rt: &R,
    world: &World,
    pass: Pass,
    first: u8,
) -> Result<Acquiring, Pass>
    requires home { IsAtHome pass world.now }
    requires node { first < length world.now.first }
    ensures ok { IfOk result (λ a. IsAtHome a world.now) }
    ensures err { IfErr result (λ p. IsAtHome p world.now) }
{
    match pass.begin(world)?.lock(rt, world, first) {
        Lock::Locked(acquiring) => Ok(acquiring),
        Lock::Already(acquiring) => Err(acquiring.unlock_all(rt, world).fini(world)),
        Lock::Deadlk(backoff) => Err(backoff.unlock_all(rt, world).fini(world)),
    }
}

/// Releases all locks and ends the context.
pub fn ended<R: Wait>(rt: &R, world: &World, acquiring: Acquiring) -> Pass
    requires home { IsAtHome acquiring world.now }
    ensures home { IsAtHome result world.now }
{
    acquiring.unlock_all(rt, world).fini(world)
}

/// Whether somebody else finds a node busy, or nothing where that pass is spent.
pub fn tries<R: Wait>(rt: &R, world: &World, pass: Pass, n: u8) -> (Pass, Option<bool>)
    requires home { IsAtHome pass world.now }
    requires node { n < length world.now.first }
    ensures home { IsAtHome result.0 world.now }
{
    let acquiring = match pass.begin(world) {
        Ok(acquiring) => acquiring,
        Err(pass) => return (pass, None),
    };
    let (acquiring, is_busy) = match acquiring.try_lock(world, n) {
        Try::Locked(acquiring) => (acquiring, false),
        Try::Busy(acquiring) => (acquiring, true),
    };
    (ended(rt, world, acquiring), Some(is_busy))
}

/// Whether the transaction can be prepared with these locks.
pub fn is_possible(world: &World, done: &Done, txn: &Txn) -> bool
    requires home { IsAtHome done.now world.now }
    ensures fits { IsTrue result → Fits (length done.now.seen) (transaction_of txn.now) }
    ensures no_double { IsTrue result → HasNoDouble (transaction_of txn.now) }
    ensures covers { IsTrue result → Covers done.now (transaction_of txn.now) }
{
    txn.fits(world.size()) && first_double(txn).is_none() && done.covers(world, txn)
}

/// Whether the transaction can be prepared with the only lock.
pub fn is_possible_alone(world: &World, solo: &Solo, txn: &Txn) -> bool
    requires home { IsAtHome solo.now world.now }
    ensures fits { IsTrue result → Fits (length solo.now.seen) (transaction_of txn.now) }
    ensures no_double { IsTrue result → HasNoDouble (transaction_of txn.now) }
    ensures covers { IsTrue result → Covers solo.now (transaction_of txn.now) }
{
    txn.fits(world.size()) && first_double(txn).is_none() && solo.covers(world, txn)
}

/// Commits a transaction, if that is possible, and releases all.
pub fn commit<R: Wait>(rt: &R, world: &World, mut done: Done, txn: Txn) -> (Pass, Option<Receipt>)
    requires home { IsAtHome done world.now }
    ensures home { IsAtHome result.0 world.now }
{
    if !is_possible(world, &done, &txn) {
        return (done.unlock_all(rt, world).fini(world), None);
    }
    let Ok(prepared) = done.prepare(world, txn) else {
        return (done.unlock_all(rt, world).fini(world), None);
    };
    let (done, receipt) = done.commit(world, prepared);
    (done.unlock_all(rt, world).fini(world), Some(receipt))
}

/// Commits a transaction without a context, if that is possible, and releases its lock.
pub fn commit_alone<R: Wait>(
    rt: &R,
    world: &World,
    mut solo: Solo,
    txn: Txn,
) -> (Pass, Option<Receipt>)
    requires home { IsAtHome solo world.now }
    ensures home { IsAtHome result.0 world.now }
{
    if !is_possible_alone(world, &solo, &txn) {
        return (solo.unlock(rt, world), None);
    }
    let Ok(prepared) = solo.prepare(world, txn) else {
        return (solo.unlock(rt, world), None);
    };
    let (done, receipt) = solo.commit(world, prepared);
    (done.unlock(rt, world), Some(receipt))
}
