//! Scripts that run side by side. A gate holds a transaction back just before its commit, so that only threads come to
//! an end.

use crate::workers::run_scripts;
use std::alloc::{AllocError, Global};
use std::sync::Wait;
use std::sync::atomic::{AtomicBool, AtomicU64, Ordering};
use std::test::Fail;
use std::thread;
use std::thread::Threads;
use ww_json::push_number;
use ww_plain::{Record, Reply, Txn, replays};
use ww_script::{Act, Input, Outcome, ScriptAnswer, Scripts, read_input};
use ww_txn::{Gate, Open};

/// Two scripts of one add, each on a node of its own.
const WOUND_WAIT: &str = r#"{"version":1,"kind":"wound-wait","history":true,
    "nodes":[{"value":0,"ports":[null,null,null,null]},{"value":0,"ports":[null,null,null,null]}],
    "scripts":[[["add","list",[[0,1]]]],[["add","list",[[1,1]]]]]}"#;

const WAIT_DIE: &str = r#"{"version":1,"kind":"wait-die","history":true,
    "nodes":[{"value":0,"ports":[null,null,null,null]},{"value":0,"ports":[null,null,null,null]}],
    "scripts":[[["add","list",[[0,1]]]],[["add","list",[[1,1]]]]]}"#;

/// Scripts of which each transaction depends on the other script.
const TRANSFERS: &str = r#"{"version":1,"kind":"wait-die","history":true,
    "nodes":[{"value":10,"ports":[null,null,null,null]},{"value":0,"ports":[null,null,null,null]}],
    "scripts":[[["move",0,1,4],["add","list",[[0,1],[0,2]]],["move",0,1,7]],[["add","order",[[1,5],[0,1]]]]]}"#;

/// All kinds of transactions, on nodes that lead to one another.
const ALL_KINDS: &str =
    r#"{"scripts":[[["add","order",[[0,3],[1,18446744073709551615]]],["move",0,1,7]],
    [["reverse",1,3,64],["get","list",[0,1,0]],["link",1,2,0],["link",0,0,null],["sum",0,1,2],["peek",1]]],
    "nodes":[{"value":5,"ports":[null,0,1,null]},{"ports":[null,null,null,null],"value":6}],
    "kind":"wait-die","version":1,"history":true}"#;

fn scripts_of(alloc: Global, text: &str) -> Result<Scripts, Fail> {
    match read_input(alloc, text.as_bytes()) {
        Ok(Input::Scripts(scripts)) => Ok(scripts),
        _ => Err(Fail::from("scripts")),
    }
}

fn outcome_of<R: Threads + Wait + Sync, G: Gate + Sync>(
    rt: &R,
    alloc: Global,
    text: &str,
    gate: &G,
) -> Result<Outcome, Fail> {
    match run_scripts(rt, alloc, scripts_of(alloc, text)?, gate) {
        Ok(outcome) => Ok(outcome),
        Err(_) => Err(Fail::from("an outcome")),
    }
}

/// Turns until the flag is set, and returns whether it was within 2^32 - 1 turns.
fn is_set_in_time(flag: &AtomicBool) -> bool {
    for _ in 0..u32::MAX {
        if flag.load(Ordering::SeqCst) {
            return true;
        }
        thread::yield_now();
    }
    false
}

/// Script 0 commits once script 1 was answered.
#[derive(Drop)]
struct Second {
    answered: AtomicBool,
    is_late: AtomicBool,
}

impl Gate for Second {
    fn before_commit(&self, caller: u8, seq: u64) {
        if caller == 0 && seq == 0 && !is_set_in_time(&self.answered) {
            self.is_late.store(true, Ordering::SeqCst);
        }
    }

    fn answered(&self, caller: u8, seq: u64) {
        if caller == 1 && seq == 0 {
            self.answered.store(true, Ordering::SeqCst);
        }
    }
}

fn second_comes_first<R: Threads + Wait + Sync>(
    rt: &R,
    alloc: Global,
    text: &str,
) -> Result<bool, Fail> {
    let gate = Second {
        answered: AtomicBool::new(false),
        is_late: AtomicBool::new(false),
    };
    let outcome = outcome_of(rt, alloc, text, &gate)?;
    let places = outcome.places.ok_or("places")?;
    Ok(!gate.is_late.load(Ordering::SeqCst) && places.as_slice() == [(1, 0), (0, 0)].as_slice())
}

#[test]
fn a_script_waits_for_another_to_be_answered(rt: HostRuntime) -> Result<(), Fail> {
    assert!(rt; second_comes_first(&rt, rt.alloc(), WOUND_WAIT)?);
    assert!(rt; second_comes_first(&rt, rt.alloc(), WAIT_DIE)?);
    Ok(())
}

/// Each of two scripts commits once the other is about to.
#[derive(Drop)]
struct Meeting {
    first: AtomicBool,
    second: AtomicBool,
    is_late: AtomicBool,
}

impl Gate for Meeting {
    fn before_commit(&self, caller: u8, _seq: u64) {
        let (mine, theirs) = if caller == 0 {
            (&self.first, &self.second)
        } else {
            (&self.second, &self.first)
        };
        mine.store(true, Ordering::SeqCst);
        if !is_set_in_time(theirs) {
            self.is_late.store(true, Ordering::SeqCst);
        }
    }

    fn answered(&self, _caller: u8, _seq: u64) {}
}

fn both_are_about_to_commit<R: Threads + Wait + Sync>(
    rt: &R,
    alloc: Global,
    text: &str,
) -> Result<bool, Fail> {
    let gate = Meeting {
        first: AtomicBool::new(false),
        second: AtomicBool::new(false),
        is_late: AtomicBool::new(false),
    };
    let outcome = outcome_of(rt, alloc, text, &gate)?;
    let places = outcome.places.ok_or("places")?;
    Ok(!gate.is_late.load(Ordering::SeqCst) && places.len() == 2)
}

#[test]
fn two_scripts_hold_their_locks_at_once(rt: HostRuntime) -> Result<(), Fail> {
    assert!(rt; both_are_about_to_commit(&rt, rt.alloc(), WOUND_WAIT)?);
    assert!(rt; both_are_about_to_commit(&rt, rt.alloc(), WAIT_DIE)?);
    Ok(())
}

/// How many scripts there are at most.
const SCRIPTS: u8 = 16;

/// So many scripts of one add, each on a node of its own.
fn adds_apart(alloc: Global, kind: &str) -> Result<String, AllocError> {
    let mut text = String::new(alloc);
    text.push_str(r#"{"version":1,"history":false,"kind":""#)?;
    text.push_str(kind)?;
    text.push_str(r#"","nodes":[{"value":0,"ports":[null,null,null,null]}"#)?;
    for _ in 1..SCRIPTS {
        text.push_str(r#",{"value":0,"ports":[null,null,null,null]}"#)?;
    }
    text.push_str(r#"],"scripts":[[["add","list",[[0,1]]]]"#)?;
    for n in 1..SCRIPTS {
        push_number(&mut text, r#",[["add","list",[["#, n)?;
        text.push_str(",1]]]]")?;
    }
    text.push_str("]}")?;
    Ok(text)
}

/// Each script commits once all are about to. The gate counts what it is told.
#[derive(Drop)]
struct Crowd {
    come: AtomicU64,
    answered: AtomicU64,
    is_late: AtomicBool,
}

impl Gate for Crowd {
    fn before_commit(&self, _caller: u8, _seq: u64) {
        self.come.fetch_add(1, Ordering::SeqCst);
        for _ in 0..u32::MAX {
            if self.come.load(Ordering::SeqCst) >= u64::from(SCRIPTS) {
                return;
            }
            thread::yield_now();
        }
        self.is_late.store(true, Ordering::SeqCst);
    }

    fn answered(&self, _caller: u8, _seq: u64) {
        self.answered.fetch_add(1, Ordering::SeqCst);
    }
}

fn all_are_met<R: Threads + Wait + Sync>(rt: &R, alloc: Global, kind: &str) -> Result<bool, Fail> {
    let gate = Crowd {
        come: AtomicU64::new(0),
        answered: AtomicU64::new(0),
        is_late: AtomicBool::new(false),
    };
    let outcome = outcome_of(rt, alloc, &adds_apart(alloc, kind)?, &gate)?;
    let all = u64::from(SCRIPTS);
    Ok(
        !gate.is_late.load(Ordering::SeqCst)
            && gate.come.load(Ordering::SeqCst) == all
            && gate.answered.load(Ordering::SeqCst) == all
            && outcome.replies.len() == usize::from(SCRIPTS),
    )
}

#[test]
fn sixteen_scripts_hold_their_locks_at_once(rt: HostRuntime) -> Result<(), Fail> {
    assert!(rt; all_are_met(&rt, rt.alloc(), "wound-wait")?);
    assert!(rt; all_are_met(&rt, rt.alloc(), "wait-die")?);
    Ok(())
}

/// The transaction of this number among those of a script that were carried out, with its reply.
fn carried_out<'a>(
    acts: &'a [Act],
    answers: &'a [ScriptAnswer],
    seq: u64,
) -> Option<(&'a Txn, &'a Reply)> {
    let mut before = 0;
    for pair in acts.iter().zip(answers) {
        if let (Act::Do(txn) | Act::Interruptible(txn), ScriptAnswer::Reply(reply)) = pair {
            if before == seq {
                return Some((txn, reply));
            }
            before = seq.min(before.saturating_add(1));
        }
    }
    None
}

/// The records that an outcome tells of.
fn records_of(alloc: Global, scripts: &Scripts, outcome: &Outcome) -> Result<Vec<Record>, Fail> {
    let places = outcome.places.as_ref().ok_or("places")?;
    let mut records = Vec::with_capacity(alloc, places.len())?;
    for (caller, seq) in places {
        let script = usize::from(*caller);
        let acts = scripts.scripts.get(script).ok_or("a script")?;
        let answers = outcome.replies.get(script).ok_or("answers")?;
        let (txn, reply) = carried_out(acts, answers, *seq).ok_or("a transaction")?;
        records.push(Record {
            caller: *caller,
            seq: *seq,
            txn: txn.copy(alloc)?,
            reply: reply.copy(alloc)?,
        })?;
    }
    Ok(records)
}

/// Whether the transactions, one after another in the order of the places, come to the replies and the last graph.
fn is_explained<R: Threads + Wait + Sync>(rt: &R, alloc: Global, text: &str) -> Result<bool, Fail> {
    let outcome = outcome_of(rt, alloc, text, &Open)?;
    let scripts = scripts_of(alloc, text)?;
    let records = records_of(alloc, &scripts, &outcome)?;
    let last = replays(alloc, scripts.graph, &records)?.ok_or("a legal history")?;
    Ok(last.is_same(&outcome.graph))
}

/// What comes of these is another from run to run.
#[test]
fn whatever_comes_of_scripts_is_explained(rt: HostRuntime) -> Result<(), Fail> {
    assert!(rt; is_explained(&rt, rt.alloc(), TRANSFERS)?);
    assert!(rt; is_explained(&rt, rt.alloc(), ALL_KINDS)?);
    Ok(())
}
