//! The thread of one script.

ghost use Rattle.std.specs.Prelude.{◌≢◌, ◌≤◌, length, map, IfOk};
ghost use Rattle.ww_plain.specs.declared.node.TheConstants.{PORTS};
ghost use Rattle.ww_script.specs.Acts.{deed_of, IsActWithin};
ghost use Rattle.ww_script.specs.Scripts.{ranges_of};
ghost use Rattle.ww_lock.specs.Holding.{IsAtHome};
ghost use Rattle.ww_script.specs.Said.{said_of};
ghost use Rattle.ww_run.specs.Workers.{IsAnswerTo, IsAfter, IsSaidBy, IsReadyToRun, IsWork};

use std::alloc::{AllocError, Global};
use std::snapshot::Snapshot;
use std::sync::Wait;
use std::thread::Promise;
use ww_lock::{Pass, Receipt, World};
use ww_script::{Act, ScriptAnswer};
use ww_txn::{Gate, TxnFault, transact, transact_interruptible};

/// What a worker returns: its pass, and what the acts of its script returned. It stops for lack of memory
/// alone.
#[derive(Drop)]
pub(crate) struct Work {
    pub(crate) pass: Pass,
    pub(crate) told: Result<Vec<ScriptAnswer>, AllocError>,
}

/// The promise that a worker returns its caller's pass and what its script came to.
#[derive(Drop)]
pub(crate) struct WorkOf<'a> {
    pub(crate) world: &'a World,
    pub(crate) caller: u8,
    pub(crate) acts: Snapshot<Vec<Act>>,
}

impl<'a> Promise<Work> for WorkOf<'a> {
    ghost kept_by = { λ p r. IsWork p.world.now p.caller (map deed_of p.acts.value.items) r };
}

/// The script's answer to a transaction's result. No worker's pass is spent.
fn answer_to(told: Result<Receipt, TxnFault>) -> Result<ScriptAnswer, AllocError>
    requires { told ≢ Err TxnFault.PassSpent }
    ensures { IsAnswerTo told result }
{
    match told {
        Ok(receipt) => Ok(ScriptAnswer::Reply(receipt.reply)),
        Err(TxnFault::Already(node)) => Ok(ScriptAnswer::Already(node)),
        Err(TxnFault::Interrupted(script)) => Ok(ScriptAnswer::Interrupted(script)),
        Err(TxnFault::NoMemory) => Err(AllocError),
        Err(TxnFault::PassSpent) => unreachable!(),
    }
}

/// Carries one act out. A cancel is made between transactions, by the worker's own pass.
fn carry_out<R: Wait, G: Gate>(
    rt: &R,
    world: &World,
    mut pass: Pass,
    gate: &G,
    act: Act,
) -> (Pass, Result<ScriptAnswer, AllocError>)
    requires home { IsAtHome pass world.now }
    requires suits { IsActWithin (ranges_of (length world.now.first) PORTS world.now.passes) (deed_of act) }
    requires budget { 1 ≤ pass.left }
    ensures home { IsAtHome result.0 world.now }
    ensures after { IsAfter pass result.0 }
    ensures told { IfOk result.1 (λ answer. IsSaidBy pass (deed_of act) (said_of answer) result.0) }
{
    match act {
        Act::Do(txn) => {
            let (pass, told) = transact(world, pass, rt, gate, txn);
            (pass, answer_to(told))
        }
        Act::Interruptible(txn) => {
            let (pass, told) = transact_interruptible(world, pass, rt, gate, txn);
            (pass, answer_to(told))
        }
        Act::Cancel(script) => {
            let is_set = pass.cancel(world, script);
            (pass, Ok(ScriptAnswer::Cancel(is_set)))
        }
    }
}

/// Runs a script to its end, or until one of its acts stops it.
pub(crate) fn run_script<R: Wait, G: Gate>(
    rt: &R,
    alloc: Global,
    world: &World,
    mut pass: Pass,
    gate: &G,
    acts: Vec<Act>,
) -> Work
    requires { IsReadyToRun world.now pass.caller (map deed_of acts.items) pass }
    ensures { IsWork world.now pass.caller (map deed_of acts.items) result }
{
    let Ok(mut answers) = Vec::with_capacity(alloc, acts.len()) else {
        return Work {
            pass,
            told: Err(AllocError),
        };
    };
    for act in acts {
        let (next, told) = carry_out(rt, world, pass, gate, act);
        pass = next;
        match told {
            Ok(answer) => answers.push_reserved(answer),
            Err(error) => return Work {
                pass,
                told: Err(error),
            },
        }
    }
    Work {
        pass,
        told: Ok(answers),
    }
}
