//! Tables of words and slots.

ghost use Rattle.std.specs.Prelude.{◌<◌, ◌≤◌, ℕ, length, IfOk};
ghost use Rattle.ww_invariant.specs.Rule.{first_graph};
ghost use Rattle.ww_table.specs.Seat.{IsNew};
ghost use Rattle.ww_table.specs.Made.{IsMade};
ghost use Rattle.ww_table.specs.Closed.{HaveAllCome};

use crate::growths::{is_pair, pair, twice};
use crate::plain::{graph_of, node};
use std::alloc::{AllocError, Global};
use std::process::Abort;
use std::test::Fail;
use ww_plain::{Graph, Record};
use ww_queue::Kind;
use ww_table::{Board, Stepper};

/// How many locks a table has, whatever the size of its graph.
const LOCKS: u32 = 64;

/// A table of 64 locks on a graph. Where a growth is refused, the graph that came back is the one given, and is tried once more.
pub(crate) fn made<R: Abort>(
    rt: &R,
    alloc: Global,
    kind: Kind,
    graph: Graph,
    seats: u8,
) -> Result<(Board, Vec<Stepper>), AllocError>
    requires { (1 ≤ seats) × (seats ≤ 16) }
    ensures { IfOk result (λ r. IsMade kind graph 64 seats r.0 r.1.items) }
{
    let copy = twice(|| graph.copy(alloc))?;
    // Its contract says that this is a graph.
    let _size = graph.size();
    let seats = u16::from(seats);
    match Board::make(alloc, kind, graph, LOCKS, seats) {
        Ok(made) => Ok(made),
        Err((graph, _)) => {
            assert!(rt; graph.is_same(&copy));
            Board::make(alloc, kind, graph, LOCKS, seats).map_err(|_| AllocError)
        }
    }
}

/// How many nodes and seats there are, and how many commits the seats made.
fn counts(board: &Board, seats: &[Stepper]) -> (u8, usize, u64) {
    let mut commits = 0u64;
    for seat in seats {
        commits = commits.saturating_add(seat.commits());
    }
    (board.size(), seats.len(), commits)
}

/// Closes the table. Where a growth is refused, the board and the seats came back, and are closed once more.
pub(crate) fn closed<R: Abort>(
    rt: &R,
    board: Board,
    seats: Vec<Stepper>,
) -> Result<(Vec<Record>, Graph), AllocError>
    requires { HaveAllCome board.table.shared.table_id board.table.shared.key seats.items }
{
    assert!(rt; board.size() > 0);
    let before = counts(&board, &seats);
    match board.close(seats) {
        Ok(closed) => Ok(closed),
        Err((board, seats, _)) => {
            assert!(rt; counts(&board, &seats) == before);
            board.close(seats).map_err(|_| AllocError)
        }
    }
}

/// What closing gives of a table of nodes of 7 and 9 whose seats did nothing.
fn at_once<R: Abort>(
    rt: &R,
    alloc: Global,
    kind: Kind,
) -> Result<(Vec<Record>, Graph), AllocError> {
    let (board, seats) = made(rt, alloc, kind, pair(alloc)?, 16)?;
    closed(rt, board, seats)
}

/// `checks/refuse_library_growths` refuses each growth of making and closing in turn: all comes back then.
#[test]
fn makes_and_closes_at_once(rt: HostRuntime) -> Result<(), Fail> {
    for kind in [Kind::WoundWait, Kind::WaitDie] {
        let (records, graph) = at_once(&rt, rt.alloc(), kind)?;
        assert!(rt; records.is_empty() && is_pair(&graph));
    }
    Ok(())
}

/// A context takes node 0 and releases it: the owner word in between, and whether both tries won.
fn takes_once(board: &mut Board, seat: &mut Stepper) -> (u64, bool)
    requires node { 0 < length (first_graph board.old.table.shared.key) }
    requires new { (k : ℕ) × IsNew board.old.table.shared.table_id board.old.table.shared.key k seat.old }
{
    let Some(_) = seat.draw(board) else {
        return (0, false);
    };
    if !seat.take_free(board, 0) {
        return (0, false);
    }
    let word = board.peek(0);
    let gave = seat.give_free(board, 0);
    (word, gave)
}

/// The last seat of a table of two nodes takes node 0 and releases it.
fn last_takes_once<R: Abort>(rt: &R, alloc: Global) -> Result<(u64, bool), AllocError> {
    let graph = graph_of(alloc, &[node(0, None); 2])?;
    if graph.size() == 0 {
        return Err(AllocError);
    }
    let (mut board, mut seats) = made(rt, alloc, Kind::WoundWait, graph, 16)?;
    let Some(mut seat) = seats.pop() else {
        return Err(AllocError);
    };
    Ok(takes_once(&mut board, &mut seat))
}

#[test]
fn takes_and_gives_at_once(rt: HostRuntime) -> Result<(), Fail> {
    let (word, gave) = last_takes_once(&rt, rt.alloc())?;
    assert!(rt; word == 8 * 16 + 256 && gave);
    Ok(())
}
