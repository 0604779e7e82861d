//! A crew is the threads that share a world, each with a pass of its own. One call opens the world, lets them work, and
//! closes it.

ghost use Rattle.std.specs.Prelude.{◌≡◌, Bool, IfOk};
ghost use Rattle.ww_lock.specs.Holding.{AreAtHome};
ghost use Rattle.ww_lock.specs.Opened.{IsWorldSize};
ghost use Rattle.ww_lock.specs.Closed.{missing_of, IsClosed};
ghost use Rattle.ww_plain.specs.History.{Recorded, history_of};
ghost use Rattle.ww_txn.specs.Crew.{opening, LeadsFrom, AllMeet, CanWork, ComesBack, LeavesOwn, HasWorked, CanWorkEach, AreGiven, IsParted};

use std::alloc::{AllocError, Global};
use std::thread;
use std::thread::Threads;
use ww_lock::{CloseFault, History, Pass, World};
use ww_plain::Graph;
use ww_queue::Kind;

/// Opens a world on a graph, with 1 to 16 passes, each of which may start this many contexts and solos;
/// calls `work` with the world and each of the passes; and closes the world, once all calls have returned. Each call
/// has a thread of its own, or that of the caller; where no thread can be started, calls are made one after another. A
/// call returns its pass, and a value, which stand in the order of the passes. It is refused for lack of memory
/// alone.
pub fn run_crew<R: Threads + Sync, X: Send + Drop, F: Fn(&World, Pass) -> (Pass, X) + Sync>(
    rt: &R,
    alloc: Global,
    kind: Kind,
    graph: Graph,
    passes: u8,
    budget: u32,
    work: &F,
) -> Result<(History, Vec<X>), AllocError>
    requires size { IsWorldSize passes budget }
    requires work { CanWork F.Fn work.now (opening kind graph passes budget) }
    requires back { ComesBack F.Fn work.now (opening kind graph passes budget) }
    ensures history { IfOk result (λ r. LeadsFrom graph r.0) }
    ensures worked { IfOk result (λ r. HasWorked F.Fn work.now (opening kind graph passes budget) r.0 r.1.items) }
    ensures records { IfOk result (λ r. (test : Recorded → Bool) → LeavesOwn F.Fn work.now (opening kind graph passes budget) test → AllMeet test (history_of r.0.records.items)) }
{
    let Ok((world, fresh)) = World::open(alloc, kind, graph, passes, budget) else {
        return Err(AllocError);
    };
    let worked = work_all(rt, &world, fresh, work)?;
    let (passes, values) = parted(alloc, worked)?;
    let history = close(world, passes)?;
    Ok((history, values))
}

/// Calls `work` with each of the passes.
fn work_all<R: Threads + Sync, X: Send + Drop, F: Fn(&World, Pass) -> (Pass, X) + Sync>(
    rt: &R,
    world: &World,
    fresh: Vec<Pass>,
    work: &F,
) -> Result<Vec<(Pass, X)>, AllocError>
    requires { CanWorkEach F.Fn work.now world fresh.items }
    ensures { IfOk result (λ worked. AreGiven F.Fn work.now world.entry fresh.items worked.items) }
{
    let worked = thread::map_vec(
        rt,
        fresh,
        &|pass: Pass| -> (Pass, X)
            requires { F.pre work.now world pass }
            ensures { F.post work.entry.now world.entry pass result }
        { work(world, pass) },
    )?;
    Ok(worked)
}

/// The passes, and the values beside them.
fn parted<X: Drop>(alloc: Global, worked: Vec<(Pass, X)>) -> Result<(Vec<Pass>, Vec<X>), AllocError>
    ensures { IfOk result (λ r. IsParted worked.items r.0.items r.1.items) }
{
    let mut passes = Vec::with_capacity(alloc, worked.len())?;
    let mut values = Vec::with_capacity(alloc, worked.len())?;
    for (pass, value) in worked {
        passes.push(pass)?;
        values.push(value)?;
    }
    Ok((passes, values))
}

/// Closes the world, with all of its passes.
fn close(world: World, passes: Vec<Pass>) -> Result<History, AllocError>
    requires home { AreAtHome passes.items world }
    requires there { missing_of world.passes passes.items ≡ 0 }
    ensures { IfOk result (IsClosed world passes.items) }
{
    match world.close(passes) {
        Ok(history) => Ok(history),
        Err((_, _, fault)) => match fault {
            CloseFault::NoMemory => Err(AllocError),
            CloseFault::Missing(_) => unreachable!(),
        },
    }
}
