//! Runs all scripts at the same time, a thread each, and returns their outcome.

ghost use Rattle.std.specs.Prelude.{◌≡◌, ◌≤◌, ℕ, map, IfOk};
ghost use Rattle.ww_plain.specs.History.{history_of};
ghost use Rattle.ww_script.specs.Scripts.{script_lists};
ghost use Rattle.ww_script.specs.Outcome.{places_of, IsOutcome};
ghost use Rattle.ww_lock.specs.Holding.{AreAtHome};
ghost use Rattle.ww_lock.specs.Closed.{missing_of, IsClosed};
ghost use Rattle.ww_run.specs.declared.workers.RunFault.TheVariants.{NoMemory};
ghost use Rattle.ww_script.specs.Acts.{deed_of};
ghost use Rattle.ww_run.specs.Workers.{IsReadyToRun, IsWork, AreShort, AreReady, AreWorks, AreParted};

use crate::worker::{Work, WorkOf, run_script};
use std::alloc::{AllocError, AllocFailed, Global};
use std::snapshot::Snapshot;
use std::sync::Wait;
use std::thread;
use std::thread::Threads;
use thiserror::Error;
use ww_lock::{CloseFault, History, Pass, World};
use ww_plain::Record;
use ww_script::{Act, Outcome, ScriptAnswer, Scripts};
use ww_txn::Gate;

/// Why scripts, or the text of a schedule's replay, were given up. The numbers are those of the refusal lines. If both
/// reasons hold, the higher number is reported.
#[derive(Clone, Copy, Debug, PartialEq, Eq, Error)]
pub enum RunFault {
    #[error("no memory")]
    NoMemory = 16,
    /// A worker couldn't be started.
    #[error("no thread")]
    NoThread = 19,
}

impl RunFault {
    ghost use Rattle.ww_run.specs.Workers.{run_number};

    /// The number of its refusal line.
    pub fn number(self) -> u8
        ensures { result ≡ run_number self }
    {
        self as u8
    }
}

impl From<AllocError> for RunFault {
    ghost from_gives = { λ _ fault. fault ≡ NoMemory };

    fn from(_error: AllocError) -> RunFault {
        RunFault::NoMemory
    }
}

impl<T: Drop> From<AllocFailed<T>> for RunFault {
    ghost from_gives = { λ _ fault. fault ≡ NoMemory };

    fn from(_error: AllocFailed<T>) -> RunFault {
        RunFault::NoMemory
    }
}

/// How many acts the longest script has, and 1 if none has any. A cancel needs no budget.
fn budget(scripts: &[Vec<Act>]) -> u32
    requires { AreShort 10000 scripts.now }
    ensures some { 1 ≤ result }
    ensures each { AreShort result scripts.now }
    ensures least { (other : ℕ) → 1 ≤ other → AreShort other scripts.now → result ≤ other }
{
    let mut most = 1;
    for acts in scripts {
        most = most.max(acts.len());
    }
    most as u32
}

/// Starts a worker for each script, and joins all of them. If one can't be started, the others still end their scripts.
fn work<R: Threads + Wait + Sync, G: Gate + Sync>(
    rt: &R,
    alloc: Global,
    world: &World,
    passes: Vec<Pass>,
    scripts: Vec<Vec<Act>>,
    gate: &G,
) -> Result<Vec<Work>, RunFault>
    requires { AreReady world.now (script_lists scripts) passes.items }
    ensures { IfOk result (λ works. AreWorks world.now (script_lists scripts) works.items) }
{
    thread::scope(
        thread::scope_env(),
        rt,
        |scope| -> Result<Vec<Work>, RunFault>
            requires { AreReady world.now (script_lists scripts) passes.items }
            ensures { IfOk result (λ works. AreWorks world.entry.now (script_lists scripts) works.items) }
        {
            let mut workers = Vec::with_capacity(alloc, passes.len())?;
            let mut is_short = false;
            let mut rest = scripts.into_iter();
            for pass in passes {
                let Some(acts) = rest.next() else {
                    unreachable!()
                };
                let promise = WorkOf {
                    world,
                    caller: pass.caller(),
                    acts: Snapshot::of(&acts),
                };
                let started = scope.spawn_with(
                    promise,
                    move || -> Work
                        requires { IsReadyToRun world.now pass.caller (map deed_of acts.items) pass }
                        ensures { IsWork world.entry.now pass.caller (map deed_of acts.items) result }
                    { run_script(rt, alloc, world, pass, gate, acts) },
                );
                match started {
                    Ok(worker) => workers.push_reserved(worker),
                    Err(_refused) => is_short = true,
                }
            }
            let works = thread::join_promised(rt, workers);
            if is_short {
                return Err(RunFault::NoThread);
            }
            Ok(works?)
        },
    )
}

/// Parts what the workers returned.
fn parted(alloc: Global, works: Vec<Work>) -> Result<(Vec<Pass>, Vec<Vec<ScriptAnswer>>), RunFault>
    ensures { IfOk result (λ r. AreParted works.items r.0.items r.1.items) }
{
    let mut passes = Vec::with_capacity(alloc, works.len())?;
    let mut replies = Vec::with_capacity(alloc, works.len())?;
    for Work { pass, told } in works {
        passes.push(pass)?;
        replies.push(told?)?;
    }
    Ok((passes, replies))
}

/// Closes the world, with all of its passes.
fn close(world: World, passes: Vec<Pass>) -> Result<History, RunFault>
    requires home { AreAtHome passes.items world }
    requires there { missing_of world.passes passes.items ≡ 0 }
    ensures { IfOk result (IsClosed world passes.items) }
{
    match world.close(passes) {
        Ok(history) => Ok(history),
        Err((_, _, fault)) => match fault {
            CloseFault::NoMemory => Err(RunFault::NoMemory),
            CloseFault::Missing(_) => unreachable!(),
        },
    }
}

/// Whose each place is, and which of that caller's.
fn places(alloc: Global, records: &[Record]) -> Result<Vec<(u8, u64)>, AllocError>
    ensures { IfOk result (λ places. places.items ≡ places_of (history_of records.now)) }
{
    let mut places = Vec::with_capacity(alloc, records.len())?;
    for record in records {
        places.push((record.caller, record.seq))?;
    }
    Ok(places)
}

/// Runs the scripts, each in a thread of its own.
pub fn run_scripts<R: Threads + Wait + Sync, G: Gate + Sync>(
    rt: &R,
    alloc: Global,
    scripts: Scripts,
    gate: &G,
) -> Result<Outcome, RunFault>
    ensures { IfOk result (λ outcome. IsOutcome scripts outcome) }
{
    let Scripts {
        kind,
        history,
        ports,
        graph,
        scripts,
    } = scripts;
    let budget = budget(&scripts);
    let Ok((world, passes)) = World::open(alloc, kind, graph, scripts.len() as u8, budget) else {
        return Err(RunFault::NoMemory);
    };
    let works = work(rt, alloc, &world, passes, scripts, gate)?;
    let (passes, replies) = parted(alloc, works)?;
    let closed = close(world, passes)?;
    let places = if history {
        Some(places(alloc, &closed.records)?)
    } else {
        None
    };
    Ok(Outcome {
        replies,
        places,
        ports,
        graph: closed.graph,
    })
}
