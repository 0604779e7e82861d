//! Transactions, each in one call: what their contracts leave open, which is when the gate is called. Each kind of them is
//! made in the program's cases.

ghost use Rattle.ww_lock.specs.Holding.{IsAtHome};

use crate::{graph_of, tries};
use std::alloc::{AllocError, Global};
use std::cell::{Cell, RefCell};
use std::process::Abort;
use std::sync::Wait;
use std::test::Fail;
use ww_lock::{Pass, Receipt, Waits, World};
use ww_plain::{By, Reply, Txn};
use ww_queue::Kind;
use ww_txn::{Gate, TxnFault, transact, transact_interruptible};

/// Asks for a transaction.
pub(crate) fn asked<R: Wait + Abort, G: Gate>(
    rt: &R,
    world: &World,
    pass: Pass,
    gate: &G,
    txn: Txn,
) -> (Pass, Result<Receipt, TxnFault>)
    requires home { IsAtHome pass world.now }
    ensures home { IsAtHome result.0 world.now }
{
    assert!(rt; txn.fits(world.size()));
    transact(world, pass, rt, gate, txn)
}

/// Asks for a transaction whose waits may be cancelled.
fn asked_interruptible<R: Wait + Abort, G: Gate>(
    rt: &R,
    world: &World,
    pass: Pass,
    gate: &G,
    txn: Txn,
) -> (Pass, Result<Receipt, TxnFault>)
    requires home { IsAtHome pass world.now }
    ensures home { IsAtHome result.0 world.now }
{
    assert!(rt; txn.fits(world.size()));
    match txn {
        Txn::Peek(_) => panic!(rt; "a peek can't be called off"),
        txn => transact_interruptible(world, pass, rt, gate, txn),
    }
}

/// A gate that counts how often it is told of a commit, before and behind.
#[derive(Drop)]
struct Counts {
    asked: Cell<u64>,
    answered: Cell<u64>,
}

impl Gate for Counts {
    fn before_commit(&self, _caller: u8, _seq: u64) {
        self.asked.set(self.asked.get().wrapping_add(1));
    }

    fn answered(&self, _caller: u8, _seq: u64) {
        self.answered.set(self.answered.get().wrapping_add(1));
    }
}

/// Asks for a transaction, whose waits may be cancelled or not. If it is made, the gate is told of it, once before its
/// commit and once behind; if it is refused or cancelled, the gate isn't told.
pub(crate) fn counted<R: Wait + Abort>(
    rt: &R,
    world: &World,
    pass: Pass,
    txn: Txn,
    waits: Waits,
) -> (Pass, Result<Receipt, TxnFault>)
    requires home { IsAtHome pass world.now }
    ensures home { IsAtHome result.0 world.now }
{
    let counts = Counts {
        asked: Cell::new(0),
        answered: Cell::new(0),
    };
    let (pass, told) = match waits {
        Waits::ToTheEnd => asked(rt, world, pass, &counts, txn),
        Waits::UntilCancelled => asked_interruptible(rt, world, pass, &counts, txn),
    };
    let times = u64::from(told.is_ok());
    assert!(rt; counts.asked.get() == times && counts.answered.get() == times);
    (pass, told)
}

pub(crate) fn get(alloc: Global, by: By, nodes: &[u8]) -> Result<Txn, AllocError> {
    Ok(Txn::Get(by, Vec::from_slice(alloc, nodes)?))
}

pub(crate) fn values(alloc: Global, values: &[u64]) -> Result<Reply, AllocError> {
    Ok(Reply::Values(Vec::from_slice(alloc, values)?))
}

/// A pass with which somebody else tries for a lock.
#[derive(Drop)]
struct Probe<'a> {
    world: &'a World,
    pass: Pass,
    ghost at_home: { IsAtHome pass world.now },
}

/// A gate that counts its calls, and sees that node 0 is locked in the first of each transaction and free in the
/// second.
#[derive(Drop)]
struct Watch<'a, R> {
    rt: &'a R,
    probe: RefCell<Option<Probe<'a>>>,
    asked: Cell<u64>,
    answered: Cell<u64>,
}

impl<'a, R: Wait + Abort> Watch<'a, R> {
    fn is_busy(&self) -> Option<bool> {
        let Ok(Some(Probe { world, pass })) = self.probe.try_replace(None) else {
            panic!(self.rt; "the probe is in use")
        };
        assert!(self.rt; world.size() > 0);
        let (pass, is_busy) = tries(self.rt, world, pass, 0);
        assert!(self.rt; self.probe.try_replace(Some(Probe { world, pass })).is_ok());
        is_busy
    }
}

impl<'a, R: Wait + Abort> Gate for Watch<'a, R> {
    fn before_commit(&self, caller: u8, seq: u64) {
        assert!(self.rt; caller == 0 && seq == self.asked.get() && seq == self.answered.get());
        self.asked.set(seq.wrapping_add(1));
        assert!(self.rt; self.is_busy() == Some(true));
    }

    fn answered(&self, caller: u8, seq: u64) {
        assert!(self.rt; caller == 0 && seq == self.answered.get());
        self.answered.set(seq.wrapping_add(1));
        assert!(self.rt; seq.wrapping_add(1) == self.asked.get() && self.is_busy() == Some(false));
    }
}

#[test]
fn the_gate_is_told_of_each_commit(rt: HostRuntime) -> Result<(), Fail> {
    let alloc = rt.alloc();
    let graph = graph_of(alloc, &[(5, None), (6, None)])?;
    let Ok((world, mut passes)) = World::open(alloc, Kind::WaitDie, graph, 2, 6) else {
        return Err(Fail::from("it opens"));
    };
    let (Some(one), Some(zero)) = (passes.pop(), passes.pop()) else {
        return Err(Fail::from("there are two passes"));
    };
    let watch = Watch {
        rt: &rt,
        probe: RefCell::new(Some(Probe {
            world: &world,
            pass: one,
        })),
        asked: Cell::new(0),
        answered: Cell::new(0),
    };
    let (zero, of_get) = asked(&rt, &world, zero, &watch, get(alloc, By::List, &[1, 0])?);
    let (zero, of_move) = asked(&rt, &world, zero, &watch, Txn::Move(0, 0, 1));
    let (zero, of_peek) = asked(&rt, &world, zero, &watch, Txn::Peek(0));
    let (_zero, of_sum) = asked(&rt, &world, zero, &watch, Txn::Sum(0, 0, 1));
    assert!(rt; of_get.is_ok() && of_move.is_err() && of_peek.is_ok() && of_sum.is_ok());
    assert!(rt; watch.asked.get() == 3 && watch.answered.get() == 3);
    Ok(())
}
