//! Threads that take random sets of locks in random orders. What is asked at the end is the same whatever the schedule.

ghost use Rattle.std.specs.Prelude.{◌<◌, length, IfOk, IfErr};
ghost use Rattle.std.specs.List.{AllByRecursion};
ghost use Rattle.ww_lock.specs.Holding.{IsAtHome, AreAtHome};

use rand_core::utils::NextWord;
use rand_pcg::Pcg32;
use std::alloc::{AllocError, Global};
use std::process::Abort;
use std::sync::Wait;
use std::test::Fail;
use std::thread;
use std::thread::Threads;
use ww_lock::{
    Acquiring, Backoff, Done, History, Interruptible, Lock, Pass, Receipt, Try, Waits, World,
};
use ww_plain::{By, Graph, PORTS, Record, Txn, replays};
use ww_queue::Kind;
use ww_tests::{commit, commit_alone, graph_of, is_possible};

const ROUNDS: u32 = 2_000;

const NODES: usize = 16;

const MAX_THREADS: usize = 16;

/// The graph before all rounds.
fn first_graph(alloc: Global) -> Result<Graph, AllocError> {
    graph_of(alloc, &[(5, None); NODES])
}

/// What a thread remembers: its random numbers, the place and the number that each receipt told, what it added to each
/// node, how often it called each thread off and was cancelled by each, and how often something went wrong.
#[derive(Drop)]
struct Memory {
    random: Pcg32,
    receipts: Vec<(u64, u64)>,
    added: [u64; NODES],
    cancelled: [u64; MAX_THREADS],
    interrupted: [u64; MAX_THREADS],
    faults: u32,
}

/// How a round asks for its locks: whether it tries for each first, and how its calls wait.
#[derive(Clone, Copy)]
struct Asks {
    tries: bool,
    waits: Waits,
}

/// What a round does: the locks that it takes, each with what is added to its node; that addition; what is done
/// instead, if the locks serve for it; and whom it cancels before.
#[derive(Drop)]
struct Plan {
    amounts: Vec<(u8, u64)>,
    add: Txn,
    change: Option<Txn>,
    is_alone: bool,
    asks: Asks,
    victim: Option<u8>,
}

impl Memory {
    fn new(alloc: Global, seed: u8) -> Memory {
        Memory {
            random: Pcg32::new(u64::from(seed), 1),
            receipts: Vec::new(alloc),
            added: [0; NODES],
            cancelled: [0; MAX_THREADS],
            interrupted: [0; MAX_THREADS],
            faults: 0,
        }
    }

    /// A random number below a limit; 0 where that is 0.
    fn below(&mut self, limit: u8) -> u8 {
        (self.random.next_word() >> 8)
            .checked_rem(u32::from(limit))
            .unwrap_or(0) as u8
    }

    /// Some nodes in a random order, each with what to add to it: 8 draws at most, of which those drawn before fall
    /// away.
    fn draw(&mut self, alloc: Global) -> Result<Vec<(u8, u64)>, AllocError> {
        let mut amounts: Vec<(u8, u64)> = Vec::new(alloc);
        for _ in 0..self.below(8).saturating_add(1) {
            let n = self.below(NODES as u8);
            let amount = u64::from(self.random.next_word()) << 32;
            if !amounts.iter().any(|(m, _)| *m == n) {
                amounts.push((n, amount))?;
            }
        }
        Ok(amounts)
    }

    /// What to do next.
    fn plan(&mut self, alloc: Global, cancels: bool) -> Result<Plan, AllocError> {
        let mut amounts = self.draw(alloc)?;
        let is_alone = self.below(8) == 0;
        if is_alone {
            amounts.truncate(1);
        }
        Ok(Plan {
            add: Txn::Add(By::List, Vec::from_slice(alloc, &amounts)?),
            change: self.change(alloc, &amounts)?,
            amounts,
            is_alone,
            asks: Asks {
                tries: self.below(4) == 0,
                waits: self.waits(cancels),
            },
            victim: cancels.then(|| self.below(MAX_THREADS as u8)),
        })
    }

    /// How its calls wait: a third of the rounds may be cancelled, where any is.
    fn waits(&mut self, cancels: bool) -> Waits {
        if cancels && self.below(3) == 0 {
            Waits::UntilCancelled
        } else {
            Waits::ToTheEnd
        }
    }

    /// A transaction that names nodes of this list alone, as far as that can be seen without the graph; nothing in half
    /// of all cases.
    fn change(&mut self, alloc: Global, amounts: &[(u8, u64)]) -> Result<Option<Txn>, AllocError> {
        let (Some((from, _)), Some((to, _))) = (amounts.first(), amounts.last()) else {
            return Ok(None);
        };
        let port = self.below(PORTS as u8);
        let most = self.below(3).saturating_add(1);
        Ok(match self.below(10) {
            0 => Some(Txn::Link(*from, port, Some(*to))),
            1 => Some(Txn::Link(*from, port, None)),
            2 => Some(Txn::Reverse(*from, port, most)),
            3 => Some(Txn::Sum(*from, port, most)),
            4 => Some(Txn::Get(By::Order, [*to].to_vec(alloc)?)),
            _ => None,
        })
    }

    /// Notes a commit, if there was one, and what it added.
    fn note(&mut self, receipt: Option<Receipt>, added: &[(u8, u64)]) {
        let is_noted = receipt.is_some_and(|told| self
            .receipts
            .push((told.place, told.seq))
            .is_ok());
        if !is_noted {
            self.faults = self.faults.saturating_add(1);
            return;
        }
        for (n, amount) in added {
            if let Some(total) = self.added.get_mut(usize::from(*n)) {
                *total = total.wrapping_add(*amount);
            }
        }
    }
}

/// Waits for a lock, and returns who cancelled that. A context that gets EDEADLK has to back off.
fn wait<R: Wait>(
    rt: &R,
    world: &World,
    acquiring: Acquiring,
    n: u8,
    waits: Waits,
) -> Result<(Acquiring, Option<u8>), Backoff>
    requires home { IsAtHome acquiring world.now }
    requires node { n < length world.now.first }
    ensures home { IfOk result (λ a. IsAtHome a.0 world.now) }
    ensures holding { IfErr result (λ b. IsAtHome b.holding world.now) }
{
    match waits {
        Waits::ToTheEnd => match acquiring.lock(rt, world, n) {
            Lock::Locked(next) | Lock::Already(next) => Ok((next, None)),
            Lock::Deadlk(backoff) => Err(backoff),
        },
        Waits::UntilCancelled => match acquiring.lock_interruptible(rt, world, n) {
            Interruptible::Locked(next) | Interruptible::Already(next) => Ok((next, None)),
            Interruptible::Interrupted(next, by) => Ok((next, Some(by))),
            Interruptible::Deadlk(backoff) => Err(backoff),
        },
    }
}

/// Takes a lock, or tries for it first.
fn take<R: Wait>(
    rt: &R,
    world: &World,
    acquiring: Acquiring,
    n: u8,
    asks: Asks,
) -> Result<(Acquiring, Option<u8>), Backoff>
    requires home { IsAtHome acquiring world.now }
    requires node { n < length world.now.first }
    ensures home { IfOk result (λ a. IsAtHome a.0 world.now) }
    ensures holding { IfErr result (λ b. IsAtHome b.holding world.now) }
{
    let mut acquiring = acquiring;
    if asks.tries {
        acquiring = match acquiring.try_lock(world, n) {
            Try::Locked(next) => return Ok((next, None)),
            Try::Busy(next) => next,
        };
    }
    wait(rt, world, acquiring, n, asks.waits)
}

/// Takes the locks of these nodes in turn, up to a call that is cancelled.
fn take_in_turn<R: Wait>(
    rt: &R,
    world: &World,
    mut acquiring: Acquiring,
    amounts: &[(u8, u64)],
    asks: Asks,
) -> Result<(Acquiring, Option<u8>), Backoff>
    requires home { IsAtHome acquiring world.now }
    ensures home { IfOk result (λ a. IsAtHome a.0 world.now) }
    ensures holding { IfErr result (λ b. IsAtHome b.holding world.now) }
{
    for (n, _) in amounts {
        if *n < world.size() {
            acquiring = match take(rt, world, acquiring, *n, asks)? {
                (next, None) => next,
                (next, by) => return Ok((next, by)),
            };
        }
    }
    Ok((acquiring, None))
}

/// Releases all, and takes the lock that it couldn't get; or ends the context where that is cancelled.
fn back_off<R: Wait>(
    rt: &R,
    world: &World,
    backoff: Backoff,
    waits: Waits,
) -> Result<Acquiring, (Pass, u8)>
    requires home { IsAtHome backoff.holding world.now }
    ensures home { IfOk result (λ a. IsAtHome a world.now) }
    ensures pass { IfErr result (λ e. IsAtHome e.0 world.now) }
{
    let contended = backoff.unlock_all(rt, world);
    match waits {
        Waits::ToTheEnd => Ok(contended.lock_slow(rt, world)),
        Waits::UntilCancelled => match contended.lock_slow_interruptible(rt, world) {
            Ok(acquiring) => Ok(acquiring),
            Err((contended, by)) => Err((contended.fini(world), by)),
        },
    }
}

/// Takes the locks of these nodes, by backing off and beginning again; or ends the context, and tells who called it
/// off.
fn take_all<R: Wait>(
    rt: &R,
    world: &World,
    mut acquiring: Acquiring,
    amounts: &[(u8, u64)],
    asks: Asks,
) -> Result<Acquiring, (Pass, u8)>
    requires home { IsAtHome acquiring world.now }
    ensures home { IfOk result (λ a. IsAtHome a world.now) }
    ensures pass { IfErr result (λ e. IsAtHome e.0 world.now) }
{
    for _ in rt.forever() {
        acquiring = match take_in_turn(rt, world, acquiring, amounts, asks) {
            Ok(taken) => {
                let (acquiring, by) = taken;
                return match by {
                    None => Ok(acquiring),
                    Some(by) => Err((acquiring.unlock_all(rt, world).fini(world), by)),
                };
            }
            Err(backoff) => back_off(rt, world, backoff, asks.waits)?,
        };
    }
    unreachable!()
}

/// A round without a context.
fn round_alone<R: Wait>(
    rt: &R,
    world: &World,
    pass: Pass,
    n: u8,
    add: Txn,
) -> (Pass, Option<Receipt>)
    requires home { IsAtHome pass world.now }
    ensures home { IsAtHome result.0 world.now }
{
    if n >= world.size() {
        return (pass, None);
    }
    match pass.lock_solo(rt, world, n) {
        Ok(solo) => commit_alone(rt, world, solo, add),
        Err(pass) => (pass, None),
    }
}

/// Commits the change, where all that it needs is held, else the addition. Returns whether it was the addition.
fn commit_one<R: Wait>(
    rt: &R,
    world: &World,
    done: Done,
    change: Option<Txn>,
    add: Txn,
) -> (Pass, Option<Receipt>, bool)
    requires home { IsAtHome done world.now }
    ensures home { IsAtHome result.0 world.now }
{
    if let Some(change) = change {
        if is_possible(world, &done, &change) {
            let (pass, receipt) = commit(rt, world, done, change);
            return (pass, receipt, false);
        }
    }
    let (pass, receipt) = commit(rt, world, done, add);
    (pass, receipt, true)
}

/// A round in a context.
fn round_together<R: Wait>(
    rt: &R,
    world: &World,
    pass: Pass,
    plan: Plan,
    memory: &mut Memory,
) -> Pass
    requires home { IsAtHome pass world.now }
    ensures home { IsAtHome result world.now }
{
    let Plan {
        amounts,
        add,
        change,
        is_alone: _,
        asks,
        victim: _,
    } = plan;
    let acquiring = match pass.begin(world) {
        Ok(acquiring) => acquiring,
        Err(pass) => {
            memory.note(None, &[]);
            return pass;
        }
    };
    match take_all(rt, world, acquiring, &amounts, asks) {
        Ok(acquiring) => {
            let (pass, receipt, is_added) = commit_one(rt, world, acquiring.done(), change, add);
            memory.note(receipt, if is_added { &amounts } else { &[] });
            pass
        }
        Err((pass, by)) => {
            count(&mut memory.interrupted, by);
            pass
        }
    }
}

/// One more of this number.
fn count(counts: &mut [u64; MAX_THREADS], who: u8) {
    if let Some(times) = counts.get_mut(usize::from(who)) {
        *times = times.saturating_add(1);
    }
}

/// Calls somebody off, if anybody is to be.
fn cancel(world: &World, pass: &mut Pass, victim: Option<u8>, memory: &mut Memory)
    requires home { IsAtHome pass.old world.now }
    ensures home { IsAtHome pass.new world.now }
{
    let Some(victim) = victim else {
        return;
    };
    if victim < world.passes() && pass.cancel(world, victim) {
        count(&mut memory.cancelled, victim);
    }
}

/// One round, which is to commit once, unless it is cancelled.
fn round<R: Wait>(rt: &R, world: &World, mut pass: Pass, plan: Plan, memory: &mut Memory) -> Pass
    requires home { IsAtHome pass world.now }
    ensures home { IsAtHome result world.now }
{
    cancel(world, &mut pass, plan.victim, memory);
    let Some((n, _)) = plan.amounts.first().copied() else {
        memory.note(None, &[]);
        return pass;
    };
    if !plan.is_alone {
        return round_together(rt, world, pass, plan, memory);
    }
    let (pass, receipt) = round_alone(rt, world, pass, n, plan.add);
    memory.note(receipt, &plan.amounts);
    pass
}

/// What a thread returns.
#[derive(Drop)]
struct Work {
    pass: Pass,
    memory: Memory,
}

/// All rounds of a thread.
fn all_rounds<R: Wait>(rt: &R, alloc: Global, world: &World, mut pass: Pass, cancels: bool) -> Work
    requires home { IsAtHome pass world.now }
    ensures home { IsAtHome result.pass world.now }
{
    let mut memory = Memory::new(alloc, pass.caller());
    for _ in 0..ROUNDS {
        match memory.plan(alloc, cancels) {
            Ok(plan) => pass = round(rt, world, pass, plan, &mut memory),
            Err(_) => memory.note(None, &[]),
        }
    }
    Work { pass, memory }
}

/// Takes what the threads returned apart.
fn passes_of(
    _world: &World,
    alloc: Global,
    works: Vec<Work>,
) -> Result<(Vec<Pass>, Vec<Memory>), AllocError>
    requires { AllByRecursion (λ w. IsAtHome w.pass _world.now) works.items }
    ensures { IfOk result (λ r. AreAtHome r.0.items _world.now) }
{
    let mut passes = Vec::new(alloc);
    let mut memories = Vec::new(alloc);
    for Work { pass, memory } in works {
        passes.push(pass)?;
        memories.push(memory)?;
    }
    Ok((passes, memories))
}

/// What the threads added to a node, and its value before.
fn total(memories: &[Memory], n: usize) -> u64 {
    let mut total = 5u64;
    for memory in memories {
        total = total.wrapping_add(memory.added.get(n).copied().unwrap_or(0));
    }
    total
}

/// Whether the receipts are exactly the caller's part of the history: the place and the number of each of its records.
fn is_part(records: &[Record], caller: u8, receipts: &[(u64, u64)]) -> bool {
    let mut rest = receipts.iter();
    for (place, record) in records.iter().enumerate() {
        if record.caller == caller && rest.next() != Some(&(place as u64, record.seq)) {
            return false;
        }
    }
    rest.next().is_none()
}

/// How often a thread was cancelled by another, and how often that one had set its cancel.
fn times(memories: &[Memory], victim: usize, by: usize) -> (u64, u64) {
    let answered = memories
        .get(victim)
        .and_then(|it| it.interrupted.get(by).copied());
    let set = memories
        .get(by)
        .and_then(|it| it.cancelled.get(victim).copied());
    (answered.unwrap_or(0), set.unwrap_or(0))
}

/// Whether each interruption of a thread had its cancel, and all its cancels but at most one were answered.
fn is_balanced(memories: &[Memory], victim: usize) -> bool {
    let mut left = 0u64;
    for by in 0..MAX_THREADS {
        let (answered, set) = times(memories, victim, by);
        let Some(rest) = set.checked_sub(answered) else {
            return false;
        };
        left = left.saturating_add(rest);
    }
    left <= 1
}

/// Asks all that is the same whatever the schedule.
fn check<R: Abort>(
    rt: &R,
    alloc: Global,
    history: &History,
    memories: &[Memory],
) -> Result<(), AllocError> {
    let mut commits = 0;
    let mut caller = 0u8;
    for memory in memories {
        assert_eq!(rt; memory.faults, 0, "thread {caller}");
        assert!(rt;
            is_part(&history.records, caller, &memory.receipts),
            "thread {caller}"
        );
        assert!(rt;
            is_balanced(memories, usize::from(caller)),
            "thread {caller}"
        );
        commits = memory.receipts.len().saturating_add(commits);
        caller = caller.wrapping_add(1);
    }
    assert_eq!(rt; history.records.len(), commits);
    assert!(rt; usize::from(history.graph.size()) == NODES);
    for n in 0..NODES {
        assert_eq!(rt;
            history.graph.node(n as u8).value,
            total(memories, n),
            "node {n}"
        );
    }
    match replays(alloc, first_graph(alloc)?, &history.records)? {
        Some(last) => assert!(rt; last.is_same(&history.graph)),
        None => panic!(rt; "the history isn't legal"),
    }
    Ok(())
}

/// This many threads at the same time, a pass each. They cancel one another, or nobody does.
fn storm<R: Threads + Wait + Abort + Sync>(
    rt: &R,
    alloc: Global,
    kind: Kind,
    threads: u8,
    cancels: bool,
) -> Result<(), Fail> {
    let graph = first_graph(alloc)?;
    let Ok((world, passes)) = World::open(alloc, kind, graph, threads, ROUNDS) else {
        return Err(Fail::from("it opens"));
    };
    let shared = &world;
    let works = thread::map_vec(
        rt,
        passes,
        &|pass: Pass| -> Work
            requires { IsAtHome pass shared.now }
            ensures { IsAtHome result.pass shared.entry.now }
        { all_rounds(rt, alloc, shared, pass, cancels) },
    )?;
    let (passes, memories) = passes_of(&world, alloc, works)?;
    assert_eq!(rt; passes.len(), usize::from(threads));
    let Ok(history) = world.close(passes) else {
        panic!(rt; "the world doesn't close")
    };
    check(rt, alloc, &history, &memories)?;
    Ok(())
}

#[test]
fn two_threads_wound_and_wait(rt: HostRuntime) -> Result<(), Fail> {
    storm(&rt, rt.alloc(), Kind::WoundWait, 2, false)
}

#[test]
fn two_threads_wait_and_die(rt: HostRuntime) -> Result<(), Fail> {
    storm(&rt, rt.alloc(), Kind::WaitDie, 2, false)
}

#[test]
fn four_threads_wound_and_wait(rt: HostRuntime) -> Result<(), Fail> {
    storm(&rt, rt.alloc(), Kind::WoundWait, 4, false)
}

#[test]
fn four_threads_wait_and_die(rt: HostRuntime) -> Result<(), Fail> {
    storm(&rt, rt.alloc(), Kind::WaitDie, 4, false)
}

#[test]
fn sixteen_threads_wound_and_wait(rt: HostRuntime) -> Result<(), Fail> {
    storm(&rt, rt.alloc(), Kind::WoundWait, 16, false)
}

#[test]
fn sixteen_threads_wait_and_die(rt: HostRuntime) -> Result<(), Fail> {
    storm(&rt, rt.alloc(), Kind::WaitDie, 16, false)
}

#[test]
fn sixteen_threads_call_off_wound_and_wait(rt: HostRuntime) -> Result<(), Fail> {
    storm(&rt, rt.alloc(), Kind::WoundWait, 16, true)
}

#[test]
fn sixteen_threads_call_off_wait_and_die(rt: HostRuntime) -> Result<(), Fail> {
    storm(&rt, rt.alloc(), Kind::WaitDie, 16, true)
}
