//! A transaction that a closure decides, on the values that it finds.

ghost use Rattle.std.specs.Prelude.{◌≡◌, ◌≤◌, length};
ghost use Rattle.std.specs.Fn.{FnOnceReturnsAt, FnOnceTakesAt};
ghost use Rattle.ww_lock.specs.Holding.{IsAtHome};
ghost use Rattle.ww_users.specs.Ways.{MayTakeList, HoldsExactly};
ghost use Rattle.ww_txn.specs.Change.{values_of, IsDecision, IsChangeAnswer};

use arrayvec::ArrayVec;
use std::sync::Wait;
use thiserror::Error;
use ww_lock::{Done, Pass, Prepared, Receipt, World};
use ww_plain::{MAX_NODES, Txn};
use ww_users::{UserFault, lock_list};

/// Why nothing was changed. Nothing is recorded then, and the pass holds no lock.
#[derive(Debug, PartialEq, Eq, Drop, Error)]
pub enum ChangeFault {
    /// The pass has no context left to start.
    #[error("the pass has no context left to start")]
    PassSpent,
    /// The list names this node twice; it is the first one that does.
    #[error("the list names node {0} twice")]
    Already(u8),
    /// The closure returned no transaction.
    #[error("no transaction was decided on")]
    Declined,
    /// The closure's transaction doesn't fit the world, names a node twice, or needs a node that the list doesn't name.
    #[error("the transaction can't be made with the nodes of the list")]
    NotServed(Txn),
    /// A growth was refused.
    #[error("no memory")]
    NoMemory,
}

/// Locks the nodes of a list, hands their values to a closure, in the order of the list, commits the transaction that
/// it returns, and releases all. It begins one context. It is refused where the pass has none left; else where the
/// list names a node twice; else where the closure returns nothing, or a transaction that can't be made with these
/// locks; else for lack of memory.
pub fn change<R: Wait, F: FnOnce(&[u64]) -> Option<Txn>>(
    rt: &R,
    world: &World,
    pass: Pass,
    list: &[u8],
    decide: F,
) -> (Pass, Result<Receipt, ChangeFault>)
    requires may { MayTakeList list.now pass world.now }
    requires few { length list.now ≤ MAX_NODES }
    requires decides { (values : _) → length values ≡ length list.now → FnOnceTakesAt F.FnOnce decide values }
    ensures home { IsAtHome result.0 world.now }
    ensures answer { IsChangeAnswer (FnOnceReturnsAt F.FnOnce decide) pass list.now result.0 result.1 }
{
    let mut done = match lock_list(world, pass, rt, list) {
        Ok(done) => done,
        Err((pass, fault)) => match fault {
            UserFault::PassSpent => return (pass, Err(ChangeFault::PassSpent)),
            UserFault::Already(n) => return (pass, Err(ChangeFault::Already(n))),
            UserFault::Interrupted(_) => unreachable!(),
        },
    };
    let prepared = match prepare_decided(world, &mut done, list, decide) {
        Ok(prepared) => prepared,
        Err(fault) => return (done.unlock_all(rt, world).fini(world), Err(fault)),
    };
    let (committed, receipt) = done.commit(world, prepared);
    (committed.unlock_all(rt, world).fini(world), Ok(receipt))
}

/// Prepares what is decided on the values of these nodes, which are held.
fn prepare_decided<F: FnOnce(&[u64]) -> Option<Txn>>(
    world: &World,
    done: &mut Done,
    list: &[u8],
    decide: F,
) -> Result<Prepared, ChangeFault>
    requires may { MayTakeList list.now done.old world.now }
    requires holds { HoldsExactly list.now done.old × (length list.now ≤ MAX_NODES) }
    requires decides { (values : _) → length values ≡ length list.now → FnOnceTakesAt F.FnOnce decide values }
    ensures same { done.new ≡ record done.old { room = done.new.room } }
    ensures decision { IsDecision (FnOnceReturnsAt F.FnOnce decide) list.now done.new result }
{
    let values = read_values(world, done, list);
    let Some(txn) = decide(&values) else {
        return Err(ChangeFault::Declined);
    };
    if !done.serves(world, &txn) {
        return Err(ChangeFault::NotServed(txn));
    }
    match done.prepare(world, txn) {
        Ok(prepared) => Ok(prepared),
        Err(_) => Err(ChangeFault::NoMemory),
    }
}

/// The values of these nodes, which are held, in the order of the list.
fn read_values(world: &World, done: &Done, list: &[u8]) -> ArrayVec<u64, MAX_NODES>
    requires may { MayTakeList list.now done.now world.now }
    requires holds { HoldsExactly list.now done.now × (length list.now ≤ MAX_NODES) }
    ensures { result.items ≡ values_of done.now.seen list.now }
{
    let mut values = ArrayVec::new();
    for n in list {
        let Some(node) = done.read(world, *n) else {
            unreachable!()
        };
        values.push(node.value);
    }
    values
}
