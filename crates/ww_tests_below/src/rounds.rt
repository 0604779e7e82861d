//! Threads that try for both nodes of one table at once. What is asked at the end is the same whatever the schedule.

ghost use Rattle.std.specs.Prelude.{ℕ, ◌≡◌, ◌≤◌, ◌+◌, IfOk, IfSome};
ghost use Rattle.std.specs.List.{AllByRecursion};
ghost use Rattle.ww_table.specs.Closed.{HasCome};
ghost use Rattle.ww_tests_below.specs.Gathered.{HaveCome};
ghost use Rattle.ww_tests_below.specs.Looking.{IsSmall, IsUnused};
ghost use Rattle.ww_tests_below.specs.Trying.{IsBetween, draws_in};

use crate::plain::{graph_of, node};
use crate::rings::compare;
use crate::rows::{come_back, commit, end, give, take};
use crate::tables::{closed, made};
use std::alloc::{AllocError, Global};
use std::process::Abort;
use std::test::Fail;
use std::thread;
use std::thread::Threads;
use ww_plain::Graph;
use ww_queue::Kind;
use ww_seat::Seat;
use ww_table::{Board, Stepper};

const TRIES: u32 = 1_000;

/// What a thread made: the place of each of its commits, and how much each node has more by them.
#[derive(Drop)]
struct Made {
    places: Vec<u64>,
    added: [u64; 2],
}

impl Made {
    fn new(alloc: Global) -> Made {
        Made {
            places: Vec::new(alloc),
            added: [0; 2],
        }
    }

    /// Notes a commit of two nodes.
    fn note(&mut self, place: u64, first: u8, second: u8) -> Result<(), AllocError> {
        self.places.push(place)?;
        for node in [first, second] {
            if let Some(more) = self.added.get_mut(usize::from(node)) {
                *more = more.saturating_add(1);
            }
        }
        Ok(())
    }
}

/// What a thread returns.
#[derive(Drop)]
struct Work {
    seat: Stepper,
    made: Made,
}

/// A context of a seat that began so many before: it tries to take both locks, and commits where it has them. The place of its
/// commit, if there was one; nothing where it can't be ended.
fn try_both(board: &Board, alloc: Global, seat: &mut Seat, _before: u32) -> Option<Option<u64>>
    requires rests { IsBetween board.now seat.old }
    requires draws { draws_in seat.old ≡ _before }
    ensures rests { IfSome result (λ _. IsBetween board.now seat.new) }
    ensures draws { IfSome result (λ _. draws_in seat.new ≡ _before + 1) }
{
    seat.begin(board)?;
    let Some(x) = take(board, seat, 0) else {
        end(board, seat);
        return Some(None);
    };
    let mut place = None;
    if let Some(y) = take(board, seat, 1) {
        place = Some(commit(board, alloc, seat, x, y).ok()?);
        if !give(board, seat, 1) {
            return None;
        }
    }
    if !give(board, seat, 0) {
        return None;
    }
    end(board, seat);
    Some(place)
}

/// All tries of a thread; nothing where one couldn't be ended.
fn tries(board: &Board, alloc: Global, seat: Stepper) -> Option<Work>
    requires small { IsSmall board.now }
    requires unused { (k : ℕ) × IsUnused board.now k seat }
    ensures { IfSome result (λ w. HasCome board.now.table.shared.table_id w.seat) }
{
    let mut made = Made::new(alloc);
    let mut seat = Seat::new(seat);
    for at in 0..TRIES {
        if let Some(place) = try_both(board, alloc, &mut seat, at)? {
            made.note(place, 0, 1).ok()?;
        }
    }
    let seat = come_back(board, seat);
    Some(Work { seat, made })
}

/// The same, where each try has to be ended.
fn all_tries<R: Abort>(rt: &R, board: &Board, alloc: Global, seat: Stepper) -> Work
    requires small { IsSmall board.now }
    requires unused { (k : ℕ) × IsUnused board.now k seat }
    ensures { HasCome board.now.table.shared.table_id result.seat }
{
    match tries(board, alloc, seat) {
        Some(work) => work,
        None => panic!(rt; "a try wasn't ended"),
    }
}

/// The next seat comes back.
pub(crate) fn come<R: Abort>(
    rt: &R,
    _board: &Board,
    seats: &mut Vec<Stepper>,
    seat: Stepper,
) -> Result<(), AllocError>
    requires come { HaveCome _board.now seats.old.items }
    requires next { HasCome _board.now.table.shared.table_id seat }
    ensures { IfOk result (λ _. HaveCome _board.now seats.new.items) }
{
    if usize::from(seat.who()) != seats.len() {
        panic!(rt; "the seats are out of order");
    }
    seats.push(seat)?;
    Ok(())
}

/// Takes what the threads returned apart, where the seats come in the order of their numbers.
fn apart<R: Abort>(
    rt: &R,
    board: &Board,
    alloc: Global,
    works: Vec<Work>,
) -> Result<(Vec<Stepper>, Vec<Made>), AllocError>
    requires { AllByRecursion (λ w. HasCome board.now.table.shared.table_id w.seat) works.items }
    ensures { IfOk result (λ r. HaveCome board.now r.0.items) }
{
    let mut seats = Vec::new(alloc);
    let mut all = Vec::new(alloc);
    for Work { seat, made } in works {
        come(rt, board, &mut seats, seat)?;
        all.push(made)?;
    }
    Ok((seats, all))
}

/// How many commits the threads made; each place below that number has one.
fn count<R: Abort>(rt: &R, alloc: Global, all: &[Made]) -> Result<usize, AllocError> {
    let mut count = 0usize;
    for made in all {
        count = count.saturating_add(made.places.len());
    }
    let mut seen = Vec::new(alloc);
    for _ in 0..count {
        seen.push(false)?;
    }
    for made in all {
        for place in &made.places {
            match seen.get_mut(*place as usize) {
                Some(is_seen) => {
                    assert!(rt; !*is_seen);
                    *is_seen = true;
                }
                None => panic!(rt; "a place was left out"),
            }
        }
    }
    Ok(count)
}

/// Whether each node has what the threads added to it.
fn has_sums(graph: &Graph, all: &[Made]) -> bool {
    for n in 0..graph.size() {
        let mut sum = 0u64;
        for made in all {
            sum = sum.saturating_add(made.added.get(usize::from(n)).copied().unwrap_or(0));
        }
        if graph.node(n).value != sum {
            return false;
        }
    }
    true
}

/// This many threads at the same time, with a seat each.
fn crowd<R: Threads + Abort + Sync>(rt: &R, alloc: Global, threads: u8) -> Result<(), Fail>
    requires { (1 ≤ threads) × (threads ≤ 16) }
{
    let graph = graph_of(alloc, &[node(0, None); 2])?;
    let (mut board, seats) = made(rt, alloc, Kind::WoundWait, graph, threads)?;
    assert!(rt; board.size() == 2);
    let shared = &board;
    let works = thread::map_vec(
        rt,
        seats,
        &|seat: Stepper| -> Work
            requires { ((k : ℕ) × IsUnused shared.now k seat) × IsSmall shared.now }
            ensures { HasCome shared.entry.now.table.shared.table_id result.seat }
        { all_tries(rt, shared, alloc, seat) },
    )?;
    let (seats, all) = apart(rt, &board, alloc, works)?;
    assert!(rt; seats.len() == usize::from(threads));
    let count = count(rt, alloc, &all)?;
    let draws = u64::from(threads) * u64::from(TRIES);
    compare(rt, &mut board, [0, 0], 0, [draws, count as u64]);
    let (records, graph) = closed(rt, board, seats)?;
    assert!(rt; records.len() == count && count > 0);
    assert!(rt; has_sums(&graph, &all));
    Ok(())
}

#[test]
fn two_threads_on_two_nodes(rt: HostRuntime) -> Result<(), Fail> {
    crowd(&rt, rt.alloc(), 2)
}

#[test]
fn four_threads_on_two_nodes(rt: HostRuntime) -> Result<(), Fail> {
    crowd(&rt, rt.alloc(), 4)
}
