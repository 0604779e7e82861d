//! The calls of the bank that may want memory, each of them where a growth is refused: the same call, made once more,
//! gives its answer. With all the memory that they want these tests show that the calls succeed;
//! `checks/refuse_library_growths` refuses each growth of each of them in turn.

ghost use Rattle.std.specs.Prelude.{◌≡◌};
ghost use Rattle.ww_lock.specs.Holding.{IsAtHome};

use crate::bank::accounts;
use crate::transfer::{TransferFault, transfer};
use std::alloc::{AllocError, Global};
use std::sync::Wait;
use std::test::Fail;
use ww_lock::{Pass, World};
use ww_plain::{Graph, Reply};
use ww_queue::Kind;
use ww_txn::run_crew;

/// Two accounts. Where a growth is refused, they are made once more.
fn two_accounts(alloc: Global) -> Result<Graph, AllocError> {
    accounts(alloc, 2).or_else(|_| accounts(alloc, 2))
}

/// Moves 1 from account 0 to account 1, and tells whether it was moved. Where a growth is refused, one context is spent,
/// and it is moved then.
fn moved<R: Wait>(rt: &R, world: &World, pass: Pass) -> (Pass, bool)
    requires home { IsAtHome pass world.now }
    ensures home { IsAtHome result.0 world.now }
    ensures caller { result.0.caller ≡ pass.caller }
{
    if world.size() != 2 {
        return (pass, false);
    }
    let (pass, told) = match transfer(rt, world, pass, 0, 1, 1) {
        (pass, Err(TransferFault::NoMemory)) => transfer(rt, world, pass, 0, 1, 1),
        told => told,
    };
    (
        pass,
        told.is_ok_and(|receipt| receipt.reply == Reply::Moved),
    )
}

#[test]
fn a_crew_works(rt: HostRuntime) -> Result<(), Fail> {
    let alloc = rt.alloc();
    let graph = two_accounts(alloc)?;
    let again = two_accounts(alloc)?;
    let work = |world: &World, pass: Pass| -> (Pass, bool)
        requires { IsAtHome pass world.now }
        ensures home { IsAtHome result.0 world.now }
        ensures caller { result.0.caller ≡ pass.caller }
    { moved(&rt, world, pass) };
    let (history, told) = match run_crew(&rt, alloc, Kind::WoundWait, graph, 2, 2, &work) {
        Ok(worked) => worked,
        Err(AllocError) => run_crew(&rt, alloc, Kind::WoundWait, again, 2, 2, &work)?,
    };
    assert!(rt; matches!(&told[..], [true, true]) && history.records.len() == 2);
    let last = &history.graph;
    assert!(rt; last.size() == 2 && last.node(0).value == 98 && last.node(1).value == 102);
    Ok(())
}

/// Whether a fault has this text. Where a growth is refused, it is written once more.
fn reads(alloc: Global, fault: TransferFault, text: &str) -> Result<bool, AllocError> {
    let told = fault.to_string(alloc).or_else(|_| fault.to_string(alloc))?;
    Ok(told.as_str() == text)
}

#[test]
fn each_fault_has_its_text(rt: HostRuntime) -> Result<(), Fail> {
    let alloc = rt.alloc();
    let spent = "the pass has no context left to start";
    assert!(rt; reads(alloc, TransferFault::Spent, spent)?);
    assert!(rt; reads(alloc, TransferFault::NoMemory, "no memory")?);
    Ok(())
}
