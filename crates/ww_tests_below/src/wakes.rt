//! A look that condemns a waiter wakes it: by one thread with the seats of a board. Nothing else wakes that one, so
//! each of these tests would never end if its look didn't.

ghost use Rattle.std.specs.Prelude.{◌≡◌, length, IfOk};
ghost use Rattle.ww_seat.specs.declared.look.Arrival.TheVariants.{Came, Woken};
ghost use Rattle.ww_seat.specs.Bells.{AreBellsOf};
ghost use Rattle.ww_tests_below.specs.Looking.{IsSmall, IsUnused, OwnsOnly, MayLook, owned_in, just, none};

use crate::growths::twice;
use crate::plain::{graph_of, node};
use crate::rings::{back_off, bells, compare, hand_over, hold, miss, start, tied, wait};
use crate::tables::made;
use std::alloc::{AllocError, Global};
use std::process::Abort;
use std::sync::Wait;
use std::test::Fail;
use ww_queue::Kind;
use ww_seat::{Arrival, Bell, Look, Seat, Waits};
use ww_table::{Board, Stepper};

/// A board of two nodes, with its three seats.
fn three_seats<R: Abort>(
    rt: &R,
    alloc: Global,
    kind: Kind,
) -> Result<(Board, Stepper, Stepper, Stepper), AllocError>
    ensures small { IfOk result (λ r. IsSmall r.0) }
    ensures count { IfOk result (λ r. r.0.table.shared.key.seats ≡ 3) }
    ensures zero { IfOk result (λ r. IsUnused r.0 0 r.1) }
    ensures one { IfOk result (λ r. IsUnused r.0 1 r.2) }
    ensures two { IfOk result (λ r. IsUnused r.0 2 r.3) }
{
    let graph = twice(|| graph_of(alloc, &[node(0, None); 2]))?;
    let (board, mut seats) = made(rt, alloc, kind, graph, 3)?;
    let (Some(two), Some(one), Some(zero)) = (seats.pop(), seats.pop(), seats.pop()) else {
        return Err(AllocError);
    };
    if board.size() != 2 {
        return Err(AllocError);
    }
    Ok((board, zero, one, two))
}

/// In Wait-Die the oldest context wants lock 0, which the youngest has, and for which the one between, with lock 1,
/// waits already.
fn asleep<R: Wait + Abort>(
    rt: &R,
    alloc: Global,
    bells: &mut [Bell],
) -> Result<(Board, Seat, Seat, Seat), AllocError>
    requires three { length bells.old ≡ 3 }
    ensures three { length bells.new ≡ 3 }
    ensures count { IfOk result (λ r. r.0.table.shared.key.seats ≡ 3) }
    ensures oldest { IfOk result (λ r. MayLook r.0 none 0 Came r.1) }
    ensures sleeper { IfOk result (λ r. MayLook r.0 (just 1) 0 Woken r.2) }
    ensures owner { IfOk result (λ r. OwnsOnly r.0 (just 0) r.3) }
{
    let (mut board, zero, one, two) = three_seats(rt, alloc, Kind::WaitDie)?;
    let mut oldest = start(rt, &mut board, zero, [0, 0]);
    let mut sleeper = hold(rt, &mut board, one, 1, [0, 0]);
    let owner = hold(rt, &mut board, two, 0, [0, 528]);
    miss(rt, &board, &mut oldest);
    wait(
        rt,
        &board,
        &mut sleeper,
        0,
        Arrival::Came,
        Waits::ToTheEnd,
        bells,
    );
    compare(rt, &mut board, [793, 528], 0, [3, 0]);
    Ok((board, oldest, sleeper, owner))
}

/// Looks at a lock for the first time, and wakes whom it condemns.
fn look<R: Wait + Abort>(
    rt: &R,
    board: &Board,
    seat: &mut Seat,
    lock: u32,
    bells: &mut [Bell],
) -> Look
    requires may { MayLook board.now (owned_in seat.old) lock Came seat.old }
    requires bells { AreBellsOf board.now bells.old }
    ensures bells { length bells.new ≡ length bells.old }
{
    seat.visit(rt, board, lock, Arrival::Came, Waits::ToTheEnd, bells)
}

/// The owner waits for another lock, and has to give way to an older context that comes to wait for it.
#[test]
fn who_joins_wakes_the_owner(rt: HostRuntime) -> Result<(), Fail> {
    let alloc = rt.alloc();
    let (mut board, mut older, mut younger) = tied(&rt, alloc, Kind::WoundWait)?;
    let (mut parker, mut bells) = bells(alloc, 2)?;
    wait(
        &rt,
        &board,
        &mut younger,
        0,
        Arrival::Came,
        Waits::ToTheEnd,
        &mut bells,
    );
    assert!(rt; matches!(look(&rt, &board, &mut older, 1, &mut bells), Look::Waits));
    compare(&rt, &mut board, [265, 529], 1, [2, 0]);
    parker.park(&rt);
    assert_eq!(rt;
        back_off(&rt, &board, &mut younger, 0, Arrival::Woken, &mut bells),
        1
    );
    Ok(())
}

/// An older context comes to wait for the same lock.
#[test]
fn who_joins_wakes_a_waiter(rt: HostRuntime) -> Result<(), Fail> {
    let alloc = rt.alloc();
    let (mut parker, mut bells) = bells(alloc, 3)?;
    let (mut board, mut oldest, mut sleeper, _owner) = asleep(&rt, alloc, &mut bells)?;
    assert!(rt; matches!(look(&rt, &board, &mut oldest, 0, &mut bells), Look::Waits));
    compare(&rt, &mut board, [793, 528], 1, [3, 0]);
    parker.park(&rt);
    assert_eq!(rt;
        back_off(&rt, &board, &mut sleeper, 0, Arrival::Woken, &mut bells),
        1
    );
    compare(&rt, &mut board, [793, 528], 0, [3, 0]);
    Ok(())
}

/// The owner releases the lock, with bells that wake nobody here, and an older context takes it past the list.
#[test]
fn who_takes_past_the_list_wakes_a_waiter(rt: HostRuntime) -> Result<(), Fail> {
    let alloc = rt.alloc();
    let (_, mut others) = bells(alloc, 3)?;
    let (mut parker, mut bells) = bells(alloc, 3)?;
    let (mut board, mut oldest, mut sleeper, mut owner) = asleep(&rt, alloc, &mut bells)?;
    hand_over(&rt, &board, &mut owner, &mut others);
    compare(&rt, &mut board, [1, 528], 0, [3, 0]);
    assert!(rt;
        matches!(
            look(&rt, &board, &mut oldest, 0, &mut bells),
            Look::Locked(_)
        )
    );
    compare(&rt, &mut board, [265, 528], 1, [3, 0]);
    parker.park(&rt);
    assert_eq!(rt;
        back_off(&rt, &board, &mut sleeper, 0, Arrival::Woken, &mut bells),
        1
    );
    compare(&rt, &mut board, [264, 528], 0, [3, 0]);
    Ok(())
}
