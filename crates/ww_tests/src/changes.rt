//! A transaction that is decided on under its locks, and the texts of what refuses a caller.

ghost use Rattle.std.specs.Prelude.{◌<◌, length};
ghost use Rattle.ww_lock.specs.Holding.{IsAtHome};

use crate::locks::closed;
use crate::{chain, one_pass};
use std::alloc::{AllocError, Global};
use std::error::Error;
use std::sync::Wait;
use std::test::Fail;
use ww_lock::{CloseFault, OpenFault, Pass, Receipt, World};
use ww_plain::{GraphFault, Reply, Txn};
use ww_queue::Kind;
use ww_txn::{ChangeFault, TxnFault, change};
use ww_users::UserFault;

/// Moves from the one node to the other what it has more, or nothing where it hasn't more.
fn levelled<R: Wait>(
    rt: &R,
    world: &World,
    pass: Pass,
    from: u8,
    to: u8,
) -> (Pass, Result<Receipt, ChangeFault>)
    requires home { IsAtHome pass world.now }
    requires from { from < length world.now.first }
    requires to { to < length world.now.first }
    ensures home { IsAtHome result.0 world.now }
{
    change(rt, world, pass, &[from, to], |values| {
        let more = values[0].checked_sub(values[1])?;
        (more > 0).then_some(Txn::Move(from, to, more))
    })
}

#[test]
fn what_is_decided_is_committed(rt: HostRuntime) -> Result<(), Fail> {
    let alloc = rt.alloc();
    let (world, pass) = one_pass(alloc, Kind::WoundWait, chain(alloc, [5, 2, 3])?, 1)?;
    assert!(rt; world.size() == 3);
    let (pass, told) = levelled(&rt, &world, pass, 0, 1);
    assert!(rt; told.is_ok_and(|receipt| receipt.reply == Reply::Moved));
    let history = closed(&rt, world, vec![in alloc; pass]?);
    assert!(rt; history.graph.is_same(&chain(alloc, [2, 5, 3])?));
    Ok(())
}

/// Whether an error has this text.
fn reads<E: Error>(alloc: Global, error: &E, text: &str) -> Result<bool, AllocError> {
    Ok(error.to_string(alloc)?.as_str() == text)
}

#[test]
fn each_fault_has_its_text(rt: HostRuntime) -> Result<(), Fail> {
    let alloc = rt.alloc();
    let spent = "the pass has no context left to start";
    assert!(rt; reads(alloc, &UserFault::PassSpent, spent)?);
    assert!(rt; reads(alloc, &TxnFault::PassSpent, spent)?);
    assert!(rt; reads(alloc, &ChangeFault::PassSpent, spent)?);
    let doubled = "the list names node 7 twice";
    assert!(rt; reads(alloc, &UserFault::Already(7), doubled)?);
    assert!(rt; reads(alloc, &TxnFault::Already(7), doubled)?);
    assert!(rt; reads(alloc, &ChangeFault::Already(7), doubled)?);
    let called_off = "caller 3 called the wait off";
    assert!(rt; reads(alloc, &UserFault::Interrupted(3), called_off)?);
    assert!(rt; reads(alloc, &TxnFault::Interrupted(3), called_off)?);
    assert!(rt; reads(alloc, &TxnFault::NoMemory, "no memory")?);
    assert!(rt; reads(alloc, &ChangeFault::NoMemory, "no memory")?);
    assert!(rt;
        reads(
            alloc,
            &ChangeFault::Declined,
            "no transaction was decided on"
        )?
    );
    let not_served = ChangeFault::NotServed(Txn::Peek(1));
    let needs_more = "the transaction can't be made with the nodes of the list";
    assert!(rt; reads(alloc, &not_served, needs_more)?);
    Ok(())
}

#[test]
fn each_fault_of_a_world_has_its_text(rt: HostRuntime) -> Result<(), Fail> {
    let alloc = rt.alloc();
    let sizes = "a world has 1 to 16 passes, and each may start something";
    assert!(rt; reads(alloc, &OpenFault::BadSize, sizes)?);
    assert!(rt; reads(alloc, &OpenFault::NoMemory, "no memory")?);
    let missing = "passes that are missing: 3";
    assert!(rt; reads(alloc, &CloseFault::Missing(3), missing)?);
    assert!(rt; reads(alloc, &CloseFault::NoMemory, "no memory")?);
    let graphs = "a graph has 1 to 64 nodes";
    assert!(rt; reads(alloc, &GraphFault::BadSize, graphs)?);
    let targets = "a port names a node that isn't there";
    assert!(rt; reads(alloc, &GraphFault::BadGraph, targets)?);
    Ok(())
}
