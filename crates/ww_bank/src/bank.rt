//! Accounts, and threads that move amounts between them.

ghost use Rattle.std.specs.Prelude.{◌≡◌, ◌≤◌, IfOk, []};
ghost use Rattle.ww_plain.specs.Totals.{total_of};
ghost use Rattle.ww_lock.specs.Holding.{IsAtHome};
ghost use Rattle.ww_bank.specs.Bank.{OwnMoves};

use crate::transfer::transfer;
use rand_core::utils::NextWord;
use rand_pcg::Pcg32;
use std::alloc::{AllocError, Global};
use std::sync::Wait;
use std::thread::Threads;
use ww_lock::{History, Pass, World};
use ww_plain::{Graph, Node, PORTS};
use ww_queue::Kind;
use ww_txn::run_crew;

/// How many threads there are, from 1 to 16, and how many transfers each tries to make, at least one.
#[derive(Clone, Copy, Debug)]
pub(crate) struct Trading {
    threads: u8,
    transfers: u32,
    ghost some: { 1 ≤ threads },
    ghost few: { threads ≤ 16 },
    ghost budgeted: { 1 ≤ transfers },
}

impl Trading {
    /// Nothing where a number is out of its range.
    pub(crate) fn new(threads: u8, transfers: u32) -> Option<Trading> {
        if threads == 0 || threads > 16 || transfers == 0 {
            return None;
        }
        Some(Trading { threads, transfers })
    }
}

/// From 1 to 64 accounts, each of which has 100.
pub(crate) fn accounts(alloc: Global, size: u8) -> Result<Graph, AllocError> {
    let mut nodes = Vec::new(alloc);
    for _ in 0..size {
        nodes.push(Node {
            value: 100,
            ports: [None; PORTS],
        })?;
    }
    Graph::new(nodes).ok().ok_or(AllocError)
}

/// The sum of all values.
pub(crate) fn total(graph: &Graph) -> u128
    ensures { result ≡ total_of graph.now }
{
    let mut total = 0u128;
    for n in 0..graph.size() {
        total += u128::from(graph.node(n).value);
    }
    total
}

/// Lets threads move amounts between the accounts, until each has made its transfers.
pub(crate) fn trade<R: Threads + Wait + Sync>(
    rt: &R,
    alloc: Global,
    kind: Kind,
    accounts: Graph,
    plan: &Trading,
) -> Result<History, AllocError>
    ensures { IfOk result (λ history. total_of history.graph ≡ total_of accounts) }
{
    let transfers = plan.transfers;
    let (history, _) = run_crew(
        rt,
        alloc,
        kind,
        accounts,
        plan.threads,
        transfers,
        &|world: &World, pass: Pass| -> (Pass, ())
            requires { IsAtHome pass world.now × (pass.own ≡ []) }
            ensures home { IsAtHome result.0 world.now }
            ensures caller { result.0.caller ≡ pass.caller }
            ensures moves { OwnMoves result.0.own }
        { (move_often(rt, world, pass, transfers), ()) },
    )?;
    Ok(history)
}

/// Makes this many transfers, between accounts that are drawn at random.
fn move_often<R: Wait>(rt: &R, world: &World, pass: Pass, transfers: u32) -> Pass
    requires home { IsAtHome pass world.now }
    requires new { pass.own ≡ [] }
    ensures home { IsAtHome result world.now }
    ensures caller { result.caller ≡ pass.caller }
    ensures moves { OwnMoves result.own }
{
    let mut pass = pass;
    let mut random = Pcg32::new(u64::from(pass.caller()), 1);
    for _ in 0..transfers {
        let from = draw(&mut random, world.size());
        let to = draw(&mut random, world.size());
        let amount = u64::from(draw(&mut random, 50));
        pass = move_once(rt, world, pass, from, to, amount);
    }
    pass
}

/// A number below this one, drawn at random; 0 where there is none.
fn draw(random: &mut Pcg32, below: u8) -> u8 {
    let drawn = random.next_word() >> 8;
    drawn.checked_rem(u32::from(below)).unwrap_or(0) as u8
}

/// Moves an amount, where the two accounts are there and differ.
fn move_once<R: Wait>(rt: &R, world: &World, pass: Pass, from: u8, to: u8, amount: u64) -> Pass
    requires home { IsAtHome pass world.now }
    requires moves { OwnMoves pass.own }
    ensures home { IsAtHome result world.now }
    ensures caller { result.caller ≡ pass.caller }
    ensures moves { OwnMoves result.own }
{
    if from == to || from >= world.size() || to >= world.size() {
        return pass;
    }
    let (pass, _told) = transfer(rt, world, pass, from, to, amount);
    pass
}
