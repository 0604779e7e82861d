//! One worked row of two seats on two nodes: each call alone, and all words after it.

ghost use Rattle.std.specs.Prelude.{ℕ, ◌≡◌, ◌≢◌, ◌<◌, true, false, get_or, length, slice_set, IfOk, IfSome, IfNone, OnErr};
ghost use Rattle.ww_table.specs.Closed.{HasCome};
ghost use Rattle.ww_tests_below.specs.Gathered.{HaveCome};
ghost use Rattle.ww_tests_below.specs.Looking.{IsSmall, IsUnused, OwnsOnly, owned_in, just, none};
ghost use Rattle.ww_tests_below.specs.Trying.{IsBetween, NamesNode, OwnsBoth, IsRecord, both_owned, draws_in, raising};

use crate::growths::twice;
use crate::plain::{graph_of, node};
use crate::rings::{compare, hold, start, two_seats};
use crate::rounds::come;
use crate::tables::closed;
use std::alloc::{AllocError, Global};
use std::process::Abort;
use std::snapshot::Snapshot;
use std::test::Fail;
use ww_plain::{By, Node, Record, Reply, Txn};
use ww_queue::Kind;
use ww_seat::{NodeChange, Seat};
use ww_table::{Board, Stepper};

/// A seat has room for these in any case.
const MOST_COMMITS: u64 = 1_000_000;

/// One try to take a lock, whose node this gives.
pub(crate) fn take(board: &Board, seat: &mut Seat, lock: u32) -> Option<Node>
    requires holds { OwnsOnly board.now (owned_in seat.old) seat.old }
    requires lock { lock < 2 }
    requires lacks { get_or (owned_in seat.old) lock false ≡ false }
    requires below { (n : ℕ) → get_or (owned_in seat.old) n false ≡ true → n < 2 }
    ensures took { IfSome result (λ x. OwnsOnly board.now (slice_set (owned_in seat.old) lock true) seat.new × NamesNode lock x seat.new) }
    ensures missed { IfNone result (OwnsOnly board.now (owned_in seat.old) seat.new) }
    ensures others { (n : ℕ) (y : Node) → n ≢ lock → NamesNode n y seat.old → NamesNode n y seat.new }
    ensures draws { draws_in seat.new ≡ draws_in seat.old }
{
    seat.try_take(board, lock)
}

/// One try to release a lock.
pub(crate) fn give(board: &Board, seat: &mut Seat, lock: u32) -> bool
    requires holds { OwnsOnly board.now (owned_in seat.old) seat.old }
    requires lock { lock < 2 }
    requires has { get_or (owned_in seat.old) lock false ≡ true }
    ensures gave { result ≡ true → OwnsOnly board.now (slice_set (owned_in seat.old) lock false) seat.new }
    ensures draws { draws_in seat.new ≡ draws_in seat.old }
{
    seat.give(board, lock)
}

/// Ends the context.
pub(crate) fn end(board: &Board, seat: &mut Seat)
    requires { OwnsOnly board.now none seat.old }
    ensures rests { IsBetween board.now seat.new }
    ensures draws { draws_in seat.new ≡ draws_in seat.old }
{
    seat.end(board);
}

/// Back to what the seat is at its table.
pub(crate) fn come_back(_board: &Board, seat: Seat) -> Stepper
    requires { IsBetween _board.now seat }
    ensures { HasCome _board.now.table.shared.table_id result }
{
    seat.into_inner()
}

/// The record of a seat's commit that both nodes have 1 more.
fn record(alloc: Global, who: u16, seq: u64) -> Result<Record, AllocError>
    ensures { IfOk result (λ r. IsRecord who seq r) }
{
    let caller = u8::try_from(who).map_err(|_| AllocError)?;
    Ok(Record {
        caller,
        seq,
        txn: Txn::Add(By::List, Vec::from_slice(alloc, &[(0, 1), (1, 1)])?),
        reply: Reply::Done,
    })
}

/// The node with 1 more.
fn change(number: u8, before: Node) -> NodeChange
    ensures { result ≡ raising number before }
{
    let value = before.value.wrapping_add(1);
    let ports = before.ports;
    NodeChange {
        number,
        before,
        after: Node { value, ports },
    }
}

/// Commits that both nodes, which are held so, have 1 more, and gives the place. Where a growth is refused nothing came of it.
fn commit_once(
    board: &Board,
    alloc: Global,
    seat: &mut Seat,
    x: Node,
    y: Node,
) -> Result<u64, AllocError>
    requires both { OwnsBoth board.now x y seat.old }
    ensures ok { IfOk result (λ _. OwnsOnly board.now both_owned seat.new) }
    ensures err { OnErr result (OwnsBoth board.now x y seat.new) }
    ensures draws { draws_in seat.new ≡ draws_in seat.old }
{
    let seq = seat.commits();
    if seq >= MOST_COMMITS {
        return Err(AllocError);
    }
    let before = graph_of(alloc, &[x, y])?;
    let done = record(alloc, seat.who(), seq)?;
    seat.reserve()?;
    Ok(seat.commit(
        board,
        done,
        &Snapshot::of(&before),
        &[change(0, x), change(1, y)],
    ))
}

/// The same, tried once more where a growth is refused.
pub(crate) fn commit(
    board: &Board,
    alloc: Global,
    seat: &mut Seat,
    x: Node,
    y: Node,
) -> Result<u64, AllocError>
    requires both { OwnsBoth board.now x y seat.old }
    ensures ok { IfOk result (λ _. OwnsOnly board.now both_owned seat.new) }
    ensures draws { draws_in seat.new ≡ draws_in seat.old }
{
    if let Ok(place) = commit_once(board, alloc, seat, x, y) {
        return Ok(place);
    }
    commit_once(board, alloc, seat, x, y)
}

/// Seat 1 begins a context, misses the first node, and takes the second, which it gives.
fn take_second<R: Abort>(rt: &R, board: &mut Board, one: Stepper) -> (Seat, Node)
    requires small { IsSmall board.old }
    requires unused { IsUnused board.old 1 one }
    ensures same { board.new ≡ board.old }
    ensures holds { OwnsOnly board.new (just 1) result.0 }
    ensures has { NamesNode 1 result.1 result.0 }
{
    let mut one = start(rt, board, one, [264, 0]);
    if take(board, &mut one, 0).is_some() {
        panic!(rt; "it was taken");
    }
    compare(rt, board, [264, 0], 0, [2, 0]);
    let Some(second) = take(board, &mut one, 1) else {
        panic!(rt; "it was free");
    };
    compare(rt, board, [264, 528], 0, [2, 0]);
    (one, second)
}

/// Seat 0 releases its node, and ends.
fn give_first<R: Abort>(rt: &R, board: &mut Board, mut zero: Seat) -> Stepper
    requires { OwnsOnly board.old (just 0) zero }
    ensures same { board.new ≡ board.old }
    ensures come { HasCome board.new.table.shared.table_id result }
{
    if !give(board, &mut zero, 0) {
        panic!(rt; "nobody waits");
    }
    compare(rt, board, [0, 528], 0, [2, 0]);
    end(board, &mut zero);
    compare(rt, board, [0, 528], 0, [2, 0]);
    come_back(board, zero)
}

/// Seat 1 takes the first node too, and commits that both have 1 more.
fn take_and_commit<R: Abort>(
    rt: &R,
    alloc: Global,
    board: &mut Board,
    one: &mut Seat,
    second: Node,
) -> Result<(), AllocError>
    requires holds { OwnsOnly board.old (just 1) one.old }
    requires has { NamesNode 1 second one.old }
    ensures same { board.new ≡ board.old }
    ensures holds { IfOk result (λ _. OwnsOnly board.new both_owned one.new) }
{
    let Some(first) = take(board, one, 0) else {
        panic!(rt; "it was given back");
    };
    compare(rt, board, [528, 528], 0, [2, 0]);
    assert_eq!(rt; commit(board, alloc, one, first, second)?, 0);
    compare(rt, board, [528, 528], 0, [2, 1]);
    Ok(())
}

/// ... releases both, and ends.
fn give_both<R: Abort>(rt: &R, board: &mut Board, mut one: Seat) -> Stepper
    requires { OwnsOnly board.old both_owned one }
    ensures same { board.new ≡ board.old }
    ensures come { HasCome board.new.table.shared.table_id result }
{
    if !give(board, &mut one, 0) {
        panic!(rt; "nobody waits");
    }
    compare(rt, board, [0, 528], 0, [2, 1]);
    if !give(board, &mut one, 1) {
        panic!(rt; "nobody waits");
    }
    compare(rt, board, [0, 0], 0, [2, 1]);
    end(board, &mut one);
    compare(rt, board, [0, 0], 0, [2, 1]);
    come_back(board, one)
}

/// Both seats, in the order of their numbers.
fn both_seats<R: Abort>(
    rt: &R,
    alloc: Global,
    board: &Board,
    zero: Stepper,
    one: Stepper,
) -> Result<Vec<Stepper>, AllocError>
    requires zero { HasCome board.now.table.shared.table_id zero }
    requires one { HasCome board.now.table.shared.table_id one }
    ensures come { IfOk result (λ r. HaveCome board.now r.items) }
{
    let mut seats = Vec::new(alloc);
    if seats.reserve(2).is_err() {
        seats.reserve(2)?;
    }
    come(rt, board, &mut seats, zero)?;
    come(rt, board, &mut seats, one)?;
    Ok(seats)
}

/// `checks/refuse_library_growths` refuses each growth of it in turn: of making, of reserving and of closing too.
#[test]
fn two_seats_take_turns_at_two_nodes(rt: HostRuntime) -> Result<(), Fail> {
    let alloc = rt.alloc();
    let (mut board, zero, one) = two_seats(&rt, alloc, Kind::WoundWait)?;
    compare(&rt, &mut board, [0, 0], 0, [0, 0]);
    let zero = hold(&rt, &mut board, zero, 0, [0, 0]);
    compare(&rt, &mut board, [264, 0], 0, [1, 0]);
    let (mut one, second) = take_second(&rt, &mut board, one);
    let zero = give_first(&rt, &mut board, zero);
    take_and_commit(&rt, alloc, &mut board, &mut one, second)?;
    let one = give_both(&rt, &mut board, one);
    let seats = both_seats(&rt, alloc, &board, zero, one)?;
    assert!(rt; seats.len() == 2);
    let (records, graph) = closed(&rt, board, seats)?;
    let record = twice(|| record(alloc, 1, 0))?;
    assert!(rt; records.as_slice() == [record].as_slice());
    assert!(rt; graph.size() == 2);
    assert!(rt; graph.node(0) == node(1, None) && graph.node(1) == node(1, None));
    Ok(())
}
