//! The ring of two contexts, by one thread with both seats of a board: each holds a lock and looks at the other's.
//! After each call all words of the board are compared.

ghost use Rattle.std.specs.Prelude.{ℕ, ◌≡◌, ◌<◌, length, IfOk};
ghost use Rattle.ww_seat.specs.declared.look.Arrival.TheVariants.{Came, Woken};
ghost use Rattle.ww_seat.specs.Bells.{AreBellsOf};
ghost use Rattle.ww_tests_below.specs.Looking.{IsSmall, IsUnused, OwnsOnly, MayLook, owned_in, just, none};

use crate::growths::twice;
use crate::plain::{graph_of, node};
use crate::tables::made;
use std::alloc::{AllocError, Global};
use std::process::Abort;
use std::sync::Wait;
use std::test::Fail;
use ww_queue::Kind;
use ww_seat::{Arrival, Bell, Look, Parker, Seat, Waits};
use ww_table::{Board, Stepper};

/// The words that two locks and two seats use: owners, guards, signs, the stamp word and the front word.
fn words(board: &mut Board) -> [u64; 8]
    ensures { board.new ≡ board.old }
{
    [
        board.peek(0),
        board.peek(1),
        board.peek(64),
        board.peek(65),
        board.peek(128),
        board.peek(129),
        board.peek(144),
        board.peek(145),
    ]
}

/// Stops the test where a word of the board is another than these: the first owners, the sign of seat 1, the stamp word
/// and the front word. All others are 0.
pub(crate) fn compare<R: Abort>(
    rt: &R,
    board: &mut Board,
    owners: [u64; 2],
    sign: u64,
    counts: [u64; 2],
)
    ensures { board.new ≡ board.old }
{
    compare_cancelled(rt, board, owners, sign, counts, 0);
}

/// The same where the cancel of seat 1 may be set.
pub(crate) fn compare_cancelled<R: Abort>(
    rt: &R,
    board: &mut Board,
    owners: [u64; 2],
    sign: u64,
    counts: [u64; 2],
    cancel: u64,
)
    ensures { board.new ≡ board.old }
{
    let [zero, one] = owners;
    let [stamp, front] = counts;
    assert_eq!(rt; words(board), [zero, one, 0, 0, 0, sign, stamp, front]);
    assert_eq!(rt; board.peek(147), cancel);
    for word in 0..162 {
        let is_used = matches!(word, 0 | 1 | 64 | 65 | 128 | 129 | 144 | 145 | 147);
        assert!(rt; is_used || board.peek(word) == 0);
    }
}

/// A board of two nodes, with its two seats.
pub(crate) fn two_seats<R: Abort>(
    rt: &R,
    alloc: Global,
    kind: Kind,
) -> Result<(Board, Stepper, Stepper), AllocError>
    ensures small { IfOk result (λ r. IsSmall r.0) }
    ensures count { IfOk result (λ r. r.0.table.shared.key.seats ≡ 2) }
    ensures zero { IfOk result (λ r. IsUnused r.0 0 r.1) }
    ensures one { IfOk result (λ r. IsUnused r.0 1 r.2) }
{
    let graph = twice(|| graph_of(alloc, &[node(0, None); 2]))?;
    let (board, mut seats) = made(rt, alloc, kind, graph, 2)?;
    let (Some(one), Some(zero)) = (seats.pop(), seats.pop()) else {
        return Err(AllocError);
    };
    if board.size() != 2 {
        return Err(AllocError);
    }
    Ok((board, zero, one))
}

/// Begins a context on a seat that did nothing yet.
pub(crate) fn start<R: Abort>(rt: &R, board: &mut Board, seat: Stepper, before: [u64; 2]) -> Seat
    requires small { IsSmall board.old }
    requires unused { (k : ℕ) × IsUnused board.old k seat }
    ensures same { board.new ≡ board.old }
    ensures holds { OwnsOnly board.new none result }
{
    let mut seat = Seat::new(seat);
    let Some(stamp) = seat.begin(board) else {
        panic!(rt; "its stamps are spent");
    };
    compare(rt, board, before, 0, [stamp, 0]);
    seat
}

/// Begins a context, and takes a lock that is free.
pub(crate) fn hold<R: Abort>(
    rt: &R,
    board: &mut Board,
    seat: Stepper,
    lock: u32,
    before: [u64; 2],
) -> Seat
    requires small { IsSmall board.old }
    requires unused { (k : ℕ) × IsUnused board.old k seat }
    requires lock { lock < 2 }
    ensures same { board.new ≡ board.old }
    ensures holds { OwnsOnly board.new (just lock) result }
{
    let mut seat = start(rt, board, seat, before);
    if seat.try_take(board, lock).is_none() {
        panic!(rt; "the lock was free");
    }
    seat
}

/// Tries for lock 0, which isn't free.
pub(crate) fn miss<R: Abort>(rt: &R, board: &Board, seat: &mut Seat)
    requires { OwnsOnly board.now none seat.old }
    ensures { MayLook board.now none 0 Came seat.new }
{
    if seat.try_take(board, 0).is_some() {
        panic!(rt; "the lock was taken");
    }
}

/// Looks at a lock, and comes to stand in its wait list, or still stands there. A pending cancel is looked for where the
/// wait is until a cancel.
pub(crate) fn wait<R: Wait + Abort>(
    rt: &R,
    board: &Board,
    seat: &mut Seat,
    lock: u32,
    arrival: Arrival,
    waits: Waits,
    bells: &mut [Bell],
)
    requires may { MayLook board.now (owned_in seat.old) lock arrival seat.old }
    requires bells { AreBellsOf board.now bells.old }
    ensures bells { length bells.new ≡ length bells.old }
    ensures may { MayLook board.now (owned_in seat.old) lock Woken seat.new }
{
    match seat.visit(rt, board, lock, arrival, waits, bells) {
        Look::Waits => {}
        Look::Locked(_) | Look::Deadlk(_) | Look::Interrupted(_) => panic!(rt; "it has to wait"),
    }
}

/// Looks at a lock, and is told the older stamp for which it has to die.
pub(crate) fn back_off<R: Wait + Abort>(
    rt: &R,
    board: &Board,
    seat: &mut Seat,
    lock: u32,
    arrival: Arrival,
    bells: &mut [Bell],
) -> u64
    requires may { MayLook board.now (owned_in seat.old) lock arrival seat.old }
    requires bells { AreBellsOf board.now bells.old }
    ensures bells { length bells.new ≡ length bells.old }
    ensures holds { OwnsOnly board.now (owned_in seat.old) seat.new }
{
    match seat.visit(rt, board, lock, arrival, Waits::ToTheEnd, bells) {
        Look::Deadlk(met) => met,
        Look::Locked(_) | Look::Interrupted(_) | Look::Waits => panic!(rt; "it has to die"),
    }
}

/// Looks again at a lock, and takes it.
fn take<R: Wait + Abort>(rt: &R, board: &Board, seat: &mut Seat, lock: u32, bells: &mut [Bell])
    requires may { MayLook board.now (owned_in seat.old) lock Woken seat.old }
    requires bells { AreBellsOf board.now bells.old }
{
    match seat.visit(rt, board, lock, Arrival::Woken, Waits::ToTheEnd, bells) {
        Look::Locked(_) => {}
        Look::Deadlk(_) | Look::Interrupted(_) | Look::Waits => panic!(rt; "the lock is free"),
    }
}

/// Both contexts, each with its lock: the older has node 0, the younger node 1.
pub(crate) fn tied<R: Abort>(
    rt: &R,
    alloc: Global,
    kind: Kind,
) -> Result<(Board, Seat, Seat), AllocError>
    ensures count { IfOk result (λ r. r.0.table.shared.key.seats ≡ 2) }
    ensures older { IfOk result (λ r. OwnsOnly r.0 (just 0) r.1) }
    ensures younger { IfOk result (λ r. OwnsOnly r.0 (just 1) r.2) }
{
    let (mut board, zero, one) = two_seats(rt, alloc, kind)?;
    compare(rt, &mut board, [0, 0], 0, [0, 0]);
    let older = hold(rt, &mut board, zero, 0, [0, 0]);
    compare(rt, &mut board, [264, 0], 0, [1, 0]);
    let younger = hold(rt, &mut board, one, 1, [264, 0]);
    compare(rt, &mut board, [264, 528], 0, [2, 0]);
    Ok((board, older, younger))
}

/// The younger, which has backed off, releases its lock, and the older takes it.
fn hand_back<R: Wait + Abort>(
    rt: &R,
    board: &mut Board,
    older: &mut Seat,
    younger: &mut Seat,
    sign: u64,
    bells: &mut [Bell],
)
    requires older { MayLook board.old (owned_in older.old) 1 Woken older.old }
    requires younger { OwnsOnly board.old (just 1) younger.old }
    requires bells { AreBellsOf board.old bells.old }
    ensures same { board.new ≡ board.old }
    ensures holds { OwnsOnly board.new none younger.new }
{
    compare(rt, board, [264, 529], sign, [2, 0]);
    younger.give_waited(rt, board, 1, bells);
    compare(rt, board, [264, 1], sign, [2, 0]);
    take(rt, board, older, 1, bells);
    compare(rt, board, [264, 264], sign, [2, 0]);
}

/// ... and the younger ends, with its sign or none.
pub(crate) fn untie<R: Wait + Abort>(
    rt: &R,
    board: &mut Board,
    older: &mut Seat,
    younger: &mut Seat,
    sign: u64,
    bells: &mut [Bell],
)
    requires older { MayLook board.old (owned_in older.old) 1 Woken older.old }
    requires younger { OwnsOnly board.old (just 1) younger.old }
    requires bells { AreBellsOf board.old bells.old }
{
    hand_back(rt, board, older, younger, sign, bells);
    younger.end(board);
    compare(rt, board, [264, 264], 0, [2, 0]);
}

/// A seat that holds nothing takes its sign back, and ends with none.
fn clear_and_end<R: Abort>(rt: &R, board: &mut Board, seat: Seat)
    requires holds { OwnsOnly board.old none seat }
{
    let mut seat = seat.into_inner();
    seat.clear(board);
    compare(rt, board, [264, 264], 0, [2, 0]);
    if !seat.end(board) {
        panic!(rt; "its sign was taken back");
    }
    compare(rt, board, [264, 264], 0, [2, 0]);
}

/// The older looks first, and waits. The younger has to die at its first look.
fn older_first<R: Wait + Abort>(
    rt: &R,
    alloc: Global,
    kind: Kind,
    sign: u64,
) -> Result<(), AllocError> {
    let (mut board, mut older, mut younger) = tied(rt, alloc, kind)?;
    let (_, mut bells) = bells(alloc, 2)?;
    wait(
        rt,
        &board,
        &mut older,
        1,
        Arrival::Came,
        Waits::ToTheEnd,
        &mut bells,
    );
    compare(rt, &mut board, [264, 529], sign, [2, 0]);
    assert_eq!(rt;
        back_off(rt, &board, &mut younger, 0, Arrival::Came, &mut bells),
        1
    );
    untie(rt, &mut board, &mut older, &mut younger, sign, &mut bells);
    Ok(())
}

/// Both come to wait, and the older, which comes last, signs the younger: it has to die at its second look.
#[test]
fn a_ring_is_undone_by_a_sign(rt: HostRuntime) -> Result<(), Fail> {
    let (mut board, mut older, mut younger) = tied(&rt, rt.alloc(), Kind::WoundWait)?;
    let (_, mut bells) = bells(rt.alloc(), 2)?;
    wait(
        &rt,
        &board,
        &mut younger,
        0,
        Arrival::Came,
        Waits::ToTheEnd,
        &mut bells,
    );
    compare(&rt, &mut board, [265, 528], 0, [2, 0]);
    wait(
        &rt,
        &board,
        &mut older,
        1,
        Arrival::Came,
        Waits::ToTheEnd,
        &mut bells,
    );
    compare(&rt, &mut board, [265, 529], 1, [2, 0]);
    let met = back_off(&rt, &board, &mut younger, 0, Arrival::Woken, &mut bells);
    assert_eq!(rt; met, 1);
    hand_back(&rt, &mut board, &mut older, &mut younger, 1, &mut bells);
    clear_and_end(&rt, &mut board, younger);
    Ok(())
}

#[test]
fn a_wounded_context_never_waits(rt: HostRuntime) -> Result<(), Fail> {
    older_first(&rt, rt.alloc(), Kind::WoundWait, 1)?;
    Ok(())
}

#[test]
fn a_younger_context_never_waits(rt: HostRuntime) -> Result<(), Fail> {
    older_first(&rt, rt.alloc(), Kind::WaitDie, 0)?;
    Ok(())
}

/// What seat 1 sleeps on, and a bell for each of so many seats.
pub(crate) fn bells(alloc: Global, seats: u8) -> Result<(Parker, Vec<Bell>), AllocError>
    ensures { IfOk result (λ r. length r.1.items ≡ seats) }
{
    let parker = Parker::new(alloc)?;
    let mut bells = Vec::new(alloc);
    for seat in 0..seats {
        let wire = if seat == 1 {
            parker.wire()?
        } else {
            Parker::new(alloc)?.wire()?
        };
        bells.push(Bell::hang(&wire)?)?;
    }
    Ok((parker, bells))
}

/// Releases lock 0, where somebody waits for it.
pub(crate) fn hand_over<R: Wait>(rt: &R, board: &Board, owner: &mut Seat, bells: &mut [Bell])
    requires owner { OwnsOnly board.now (just 0) owner.old }
    requires bells { AreBellsOf board.now bells.old }
    ensures bells { length bells.new ≡ length bells.old }
{
    owner.give_waited(rt, board, 0, bells);
}

/// A waiter asks for the lock at its second look. So the lock is handed to it, and it is woken: else this would never
/// end.
#[test]
fn a_lock_is_handed_over(rt: HostRuntime) -> Result<(), Fail> {
    let alloc = rt.alloc();
    let (mut board, mut older, mut younger) = tied(&rt, alloc, Kind::WoundWait)?;
    let (mut parker, mut bells) = bells(alloc, 2)?;
    wait(
        &rt,
        &board,
        &mut younger,
        0,
        Arrival::Came,
        Waits::ToTheEnd,
        &mut bells,
    );
    compare(&rt, &mut board, [265, 528], 0, [2, 0]);
    wait(
        &rt,
        &board,
        &mut younger,
        0,
        Arrival::Woken,
        Waits::ToTheEnd,
        &mut bells,
    );
    compare(&rt, &mut board, [267, 528], 0, [2, 0]);
    hand_over(&rt, &board, &mut older, &mut bells);
    compare(&rt, &mut board, [533, 528], 0, [2, 0]);
    parker.park(&rt);
    take(&rt, &board, &mut younger, 0, &mut bells);
    compare(&rt, &mut board, [528, 528], 0, [2, 0]);
    Ok(())
}
