//! A waiter is cancelled, by one thread with both seats of a board. After each call all words of the board are
//! compared, its cancel among them.

ghost use Rattle.std.specs.Prelude.{◌≡◌, length, IfOk};
ghost use Rattle.ww_seat.specs.declared.look.Arrival.TheVariants.{Came};
ghost use Rattle.ww_seat.specs.Bells.{AreBellsOf};
ghost use Rattle.ww_tests_below.specs.Looking.{OwnsOnly, MayLook, owned_in, just, none};

use crate::rings::{
    back_off, bells, compare, compare_cancelled, hold, miss, start, tied, two_seats, untie, wait,
};
use std::alloc::{AllocError, Global};
use std::process::Abort;
use std::sync::Wait;
use std::test::Fail;
use ww_queue::Kind;
use ww_seat::{Arrival, Bell, Look, Seat, Waits};
use ww_table::Board;

const KINDS: [Kind; 2] = [Kind::WoundWait, Kind::WaitDie];

/// Seat 0 has lock 0, and seat 1 wants it and has none.
fn asked<R: Abort>(rt: &R, alloc: Global, kind: Kind) -> Result<(Board, Seat, Seat), AllocError>
    ensures count { IfOk result (λ r. r.0.table.shared.key.seats ≡ 2) }
    ensures owner { IfOk result (λ r. OwnsOnly r.0 (just 0) r.1) }
    ensures asking { IfOk result (λ r. MayLook r.0 none 0 Came r.2) }
{
    let (mut board, zero, one) = two_seats(rt, alloc, kind)?;
    let owner = hold(rt, &mut board, zero, 0, [0, 0]);
    let mut asking = start(rt, &mut board, one, [264, 0]);
    miss(rt, &board, &mut asking);
    compare(rt, &mut board, [264, 0], 0, [2, 0]);
    Ok((board, owner, asking))
}

/// Sets the cancel of seat 1, or finds it set.
fn call_off<R: Abort>(rt: &R, board: &Board, by: &mut Seat, is_pending: bool, bells: &mut [Bell])
    requires holds { OwnsOnly board.now (just 0) by.old }
    requires bells { AreBellsOf board.now bells.old }
    ensures holds { OwnsOnly board.now (just 0) by.new }
    ensures bells { length bells.new ≡ length bells.old }
{
    if by.cancel(board, 1, bells) == is_pending {
        panic!(rt; "the cancel was pending, or it wasn't");
    }
}

/// Looks at a lock, and is told who called it off.
fn stop<R: Wait + Abort>(
    rt: &R,
    board: &Board,
    seat: &mut Seat,
    lock: u32,
    arrival: Arrival,
    bells: &mut [Bell],
) -> u16
    requires may { MayLook board.now (owned_in seat.old) lock arrival seat.old }
    requires bells { AreBellsOf board.now bells.old }
    ensures bells { length bells.new ≡ length bells.old }
    ensures holds { OwnsOnly board.now (owned_in seat.old) seat.new }
{
    match seat.visit(rt, board, lock, arrival, Waits::UntilCancelled, bells) {
        Look::Interrupted(by) => by,
        Look::Locked(_) | Look::Deadlk(_) | Look::Waits => panic!(rt; "it is called off"),
    }
}

/// Seat 1 was cancelled, and nobody waits: the lock is released, and a try takes it.
fn taken_at_once<R: Wait + Abort>(rt: &R, board: &mut Board, owner: &mut Seat, stopped: &mut Seat)
    requires owner { OwnsOnly board.old (just 0) owner.old }
    requires stopped { OwnsOnly board.old none stopped.old }
{
    compare(rt, board, [264, 0], 0, [2, 0]);
    if !owner.give(board, 0) {
        panic!(rt; "nobody waits for the lock");
    }
    compare(rt, board, [0, 0], 0, [2, 0]);
    if stopped.try_take(board, 0).is_none() {
        panic!(rt; "the lock was free");
    }
    compare(rt, board, [528, 0], 0, [2, 0]);
}

/// The cancel is set while seat 1 waits, and found pending; its next look heeds it.
fn while_it_waits<R: Wait + Abort>(rt: &R, alloc: Global, kind: Kind) -> Result<(), AllocError> {
    let (mut board, mut owner, mut asking) = asked(rt, alloc, kind)?;
    let (_, mut bells) = bells(alloc, 2)?;
    wait(
        rt,
        &board,
        &mut asking,
        0,
        Arrival::Came,
        Waits::UntilCancelled,
        &mut bells,
    );
    compare(rt, &mut board, [265, 0], 0, [2, 0]);
    call_off(rt, &board, &mut owner, false, &mut bells);
    compare_cancelled(rt, &mut board, [265, 0], 0, [2, 0], 1);
    call_off(rt, &board, &mut owner, true, &mut bells);
    compare_cancelled(rt, &mut board, [265, 0], 0, [2, 0], 1);
    assert_eq!(rt;
        stop(rt, &board, &mut asking, 0, Arrival::Woken, &mut bells),
        0
    );
    taken_at_once(rt, &mut board, &mut owner, &mut asking);
    Ok(())
}

#[test]
fn a_waiter_is_called_off(rt: HostRuntime) -> Result<(), Fail> {
    for kind in KINDS {
        while_it_waits(&rt, rt.alloc(), kind)?;
    }
    Ok(())
}

/// The cancel is set before seat 1 looks.
fn before_it_waits<R: Wait + Abort>(rt: &R, alloc: Global, kind: Kind) -> Result<(), AllocError> {
    let (mut board, mut owner, mut asking) = asked(rt, alloc, kind)?;
    let (_, mut bells) = bells(alloc, 2)?;
    call_off(rt, &board, &mut owner, false, &mut bells);
    compare_cancelled(rt, &mut board, [264, 0], 0, [2, 0], 1);
    assert_eq!(rt;
        stop(rt, &board, &mut asking, 0, Arrival::Came, &mut bells),
        0
    );
    taken_at_once(rt, &mut board, &mut owner, &mut asking);
    Ok(())
}

#[test]
fn a_cancel_is_heeded_before_the_seat_waits(rt: HostRuntime) -> Result<(), Fail> {
    for kind in KINDS {
        before_it_waits(&rt, rt.alloc(), kind)?;
    }
    Ok(())
}

/// Looks that don't heed the cancel leave it set: the second of them asks for the lock, which is taken back when the
/// seat leaves.
fn after_plain_looks<R: Wait + Abort>(rt: &R, alloc: Global, kind: Kind) -> Result<(), AllocError> {
    let (mut board, mut owner, mut asking) = asked(rt, alloc, kind)?;
    let (_, mut bells) = bells(alloc, 2)?;
    call_off(rt, &board, &mut owner, false, &mut bells);
    compare_cancelled(rt, &mut board, [264, 0], 0, [2, 0], 1);
    wait(
        rt,
        &board,
        &mut asking,
        0,
        Arrival::Came,
        Waits::ToTheEnd,
        &mut bells,
    );
    compare_cancelled(rt, &mut board, [265, 0], 0, [2, 0], 1);
    wait(
        rt,
        &board,
        &mut asking,
        0,
        Arrival::Woken,
        Waits::ToTheEnd,
        &mut bells,
    );
    compare_cancelled(rt, &mut board, [267, 0], 0, [2, 0], 1);
    assert_eq!(rt;
        stop(rt, &board, &mut asking, 0, Arrival::Woken, &mut bells),
        0
    );
    taken_at_once(rt, &mut board, &mut owner, &mut asking);
    Ok(())
}

#[test]
fn a_plain_look_leaves_the_cancel(rt: HostRuntime) -> Result<(), Fail> {
    for kind in KINDS {
        after_plain_looks(&rt, rt.alloc(), kind)?;
    }
    Ok(())
}

/// The younger would have to die, and is cancelled: it gets that first, and keeps its sign; at its next look it dies.
fn called_off_then_dies<R: Wait + Abort>(
    rt: &R,
    alloc: Global,
    kind: Kind,
    sign: u64,
) -> Result<(), AllocError> {
    let (mut board, mut older, mut younger) = tied(rt, alloc, kind)?;
    let (_, mut bells) = bells(alloc, 2)?;
    call_off(rt, &board, &mut older, false, &mut bells);
    compare_cancelled(rt, &mut board, [264, 528], 0, [2, 0], 1);
    wait(
        rt,
        &board,
        &mut older,
        1,
        Arrival::Came,
        Waits::ToTheEnd,
        &mut bells,
    );
    compare_cancelled(rt, &mut board, [264, 529], sign, [2, 0], 1);
    assert_eq!(rt;
        stop(rt, &board, &mut younger, 0, Arrival::Came, &mut bells),
        0
    );
    compare(rt, &mut board, [264, 529], sign, [2, 0]);
    assert_eq!(rt;
        back_off(rt, &board, &mut younger, 0, Arrival::Came, &mut bells),
        1
    );
    untie(rt, &mut board, &mut older, &mut younger, sign, &mut bells);
    Ok(())
}

#[test]
fn a_wounded_context_is_called_off_first(rt: HostRuntime) -> Result<(), Fail> {
    called_off_then_dies(&rt, rt.alloc(), Kind::WoundWait, 1)?;
    Ok(())
}

#[test]
fn a_younger_context_is_called_off_first(rt: HostRuntime) -> Result<(), Fail> {
    called_off_then_dies(&rt, rt.alloc(), Kind::WaitDie, 0)?;
    Ok(())
}

/// A seat that is cancelled is woken: else this would never end.
#[test]
fn a_cancel_wakes_the_waiter(rt: HostRuntime) -> Result<(), Fail> {
    let alloc = rt.alloc();
    let (mut board, mut owner, mut asking) = asked(&rt, alloc, Kind::WoundWait)?;
    let (mut parker, mut bells) = bells(alloc, 2)?;
    wait(
        &rt,
        &board,
        &mut asking,
        0,
        Arrival::Came,
        Waits::UntilCancelled,
        &mut bells,
    );
    call_off(&rt, &board, &mut owner, false, &mut bells);
    compare_cancelled(&rt, &mut board, [265, 0], 0, [2, 0], 1);
    parker.park(&rt);
    assert_eq!(rt;
        stop(&rt, &board, &mut asking, 0, Arrival::Woken, &mut bells),
        0
    );
    taken_at_once(&rt, &mut board, &mut owner, &mut asking);
    Ok(())
}
