//! A transaction from its locks to its reply, in one call.

ghost use Rattle.std.specs.Prelude.{◌≡◌, length, OnOk};
ghost use Rattle.ww_plain.specs.Transaction.{transaction_of, peek};
ghost use Rattle.ww_lock.specs.Holding.{IsAtHome};
ghost use Rattle.ww_lock.specs.Waits.TheVariants.{ToTheEnd, UntilCancelled};
ghost use Rattle.ww_txn.specs.declared.telling.GateCalls.TheVariants.{Untold};
ghost use Rattle.ww_txn.specs.Transact.{MayTransact, IsTxnAnswer, contexts_of, stage_of};

use crate::gate::Gate;
use crate::telling::Telling;
use crate::ways::lock_all;
use std::sync::Wait;
use thiserror::Error;
use ww_lock::{Pass, Receipt, Waits, World};
use ww_plain::Txn;
use ww_users::UserFault;

/// Why a transaction wasn't made. Nothing is recorded then, nothing has changed, and the pass holds no lock.
#[derive(Clone, Copy, Debug, PartialEq, Eq, Drop, Error)]
pub enum TxnFault {
    /// The pass has no context left to start.
    #[error("the pass has no context left to start")]
    PassSpent,
    /// The list names this node twice; it is the first one that does.
    #[error("the list names node {0} twice")]
    Already(u8),
    /// A wait for one of its locks was cancelled by this caller.
    #[error("caller {0} called the wait off")]
    Interrupted(u8),
    /// A growth was refused.
    #[error("no memory")]
    NoMemory,
}

impl TxnFault {
    ghost use Rattle.std.specs.Prelude.{◌≡◌};
    ghost use Rattle.ww_txn.specs.Transact.{txn_number};

    /// The number of the fault.
    pub fn number(self) -> u8
        ensures { result ≡ txn_number self }
    {
        match self {
            TxnFault::PassSpent => 4,
            TxnFault::Already(_) => 9,
            TxnFault::Interrupted(_) => 20,
            TxnFault::NoMemory => 6,
        }
    }
}

impl From<UserFault> for TxnFault {
    ghost use Rattle.std.specs.Prelude.{◌≡◌};
    ghost use Rattle.ww_txn.specs.Transact.{fault_of};

    ghost from_gives = { λ fault told. told ≡ fault_of fault };

    fn from(fault: UserFault) -> TxnFault {
        match fault {
            UserFault::PassSpent => TxnFault::PassSpent,
            UserFault::Already(n) => TxnFault::Already(n),
            UserFault::Interrupted(by) => TxnFault::Interrupted(by),
        }
    }
}

/// Makes a transaction: takes its locks, commits it and releases all, for one of the contexts and solos that the
/// pass has left. The gate is called twice, if it commits. It is refused where the pass has none left; else
/// where its list names a node twice; else for lack of memory.
pub fn transact<R: Wait, G: Gate>(
    world: &World,
    pass: Pass,
    rt: &R,
    gate: &G,
    txn: Txn,
) -> (Pass, Result<Receipt, TxnFault>)
    requires { MayTransact (transaction_of txn) pass world.now }
    ensures home { IsAtHome result.0 world.now }
    ensures answer { IsTxnAnswer ToTheEnd pass (transaction_of txn) result.0 result.1 }
    ensures gate { OnOk result.1 (G.is_answered gate.now pass.caller (length pass.own)) }
{
    let mut telling = Telling::new(gate, pass.caller(), pass.commits());
    match txn {
        Txn::Peek(node) => transact_alone(world, pass, rt, &mut telling, node),
        txn => transact_together(world, pass, rt, &mut telling, txn, Waits::ToTheEnd),
    }
}

/// Makes a transaction as `transact` does, but its waits may be cancelled: nothing is recorded then, and the pass
/// holds no lock. A `Peek` takes one lock without a context, as a plain mutex, and can't be cancelled.
pub fn transact_interruptible<R: Wait, G: Gate>(
    world: &World,
    pass: Pass,
    rt: &R,
    gate: &G,
    txn: Txn,
) -> (Pass, Result<Receipt, TxnFault>)
    requires may { MayTransact (transaction_of txn) pass world.now }
    requires context { contexts_of (transaction_of txn) ≡ 1 }
    ensures home { IsAtHome result.0 world.now }
    ensures answer { IsTxnAnswer UntilCancelled pass (transaction_of txn) result.0 result.1 }
    ensures gate { OnOk result.1 (G.is_answered gate.now pass.caller (length pass.own)) }
{
    let mut telling = Telling::new(gate, pass.caller(), pass.commits());
    transact_together(world, pass, rt, &mut telling, txn, Waits::UntilCancelled)
}

/// Makes a transaction in a context.
fn transact_together<R: Wait, G: Gate>(
    world: &World,
    pass: Pass,
    rt: &R,
    telling: &mut Telling<G>,
    txn: Txn,
    waits: Waits,
) -> (Pass, Result<Receipt, TxnFault>)
    requires may { MayTransact (transaction_of txn) pass world.now × (contexts_of (transaction_of txn) ≡ 1) × (telling.old.stage ≡ Untold) }
    ensures home { IsAtHome result.0 world.now }
    ensures answer { IsTxnAnswer waits pass (transaction_of txn) result.0 result.1 }
    ensures gate { OnOk result.1 (G.is_answered telling.old.gate.now telling.old.caller telling.old.seq) }
    ensures told { telling.new ≡ record telling.old { stage = stage_of result.1 } }
{
    let mut done = match lock_all(world, pass, rt, &txn, waits) {
        Ok(done) => done,
        Err((pass, fault)) => return (pass, Err(TxnFault::from(fault))),
    };
    let Ok(prepared) = done.prepare(world, txn) else {
        let pass = done.unlock_all(rt, world).fini(world);
        return (pass, Err(TxnFault::NoMemory));
    };
    telling.before_commit();
    let (committed, receipt) = done.commit(world, prepared);
    let pass = committed.unlock_all(rt, world).fini(world);
    telling.answered();
    (pass, Ok(receipt))
}

/// Asks for the value of one node without a context.
fn transact_alone<R: Wait, G: Gate>(
    world: &World,
    pass: Pass,
    rt: &R,
    telling: &mut Telling<G>,
    node: u8,
) -> (Pass, Result<Receipt, TxnFault>)
    requires may { MayTransact (peek node) pass world.now × (telling.old.stage ≡ Untold) }
    ensures home { IsAtHome result.0 world.now }
    ensures answer { IsTxnAnswer ToTheEnd pass (peek node) result.0 result.1 }
    ensures gate { OnOk result.1 (G.is_answered telling.old.gate.now telling.old.caller telling.old.seq) }
    ensures told { telling.new ≡ record telling.old { stage = stage_of result.1 } }
{
    let mut solo = match pass.lock_solo(rt, world, node) {
        Ok(solo) => solo,
        Err(pass) => return (pass, Err(TxnFault::PassSpent)),
    };
    let Ok(prepared) = solo.prepare(world, Txn::Peek(node)) else {
        let pass = solo.unlock(rt, world);
        return (pass, Err(TxnFault::NoMemory));
    };
    telling.before_commit();
    let (committed, receipt) = solo.commit(world, prepared);
    let pass = committed.unlock(rt, world);
    telling.answered();
    (pass, Ok(receipt))
}
