//! Waits that are cancelled, by one thread: what would wait for a lock finds a cancel that was set before.

ghost use Rattle.std.specs.Prelude.{◌≡◌, ◌<◌, length, Err, IsTrue, IfOk, IfErr};
ghost use Rattle.ww_plain.specs.Numbers.{is_among};
ghost use Rattle.ww_lock.specs.Holding.{IsAtHome};
ghost use Rattle.ww_users.specs.Rounds.{IsHaltingRound};

use crate::locks::{begun, closed, locked};
use crate::transactions::counted;
use crate::{KINDS, add, chain, ended, is_possible, three_passes};
use std::alloc::Global;
use std::process::Abort;
use std::sync::Wait;
use std::test::Fail;
use ww_lock::{Acquiring, Backoff, Contended, Done, Interruptible, Pass, Waits, World};
use ww_plain::{By, Reply, Txn};
use ww_queue::Kind;
use ww_txn::TxnFault;
use ww_users::{
    UserFault, lock_list_interruptible, lock_order_interruptible, lock_until_interruptible,
    lock_walk_interruptible,
};

/// Sets the cancel of a caller, or finds it set.
pub(crate) fn cancelled<R: Abort>(
    rt: &R,
    world: &World,
    mut by: Pass,
    who: u8,
    is_pending: bool,
) -> Pass
    requires home { IsAtHome by world.now }
    ensures home { IsAtHome result world.now }
{
    assert!(rt; who < world.passes());
    assert!(rt; by.cancel(world, who) != is_pending);
    by
}

/// Asks for a lock, with this error number for an answer: 0 where it is taken, 114 where the context holds it.
fn taken<R: Wait + Abort>(rt: &R, world: &World, acquiring: Acquiring, n: u8, code: u8) -> Acquiring
    requires home { IsAtHome acquiring world.now }
    requires node { n < length world.now.first }
    ensures home { IsAtHome result world.now }
{
    let lock = acquiring.lock_interruptible(rt, world, n);
    assert!(rt; lock.code() == code);
    match lock {
        Interruptible::Locked(acquiring) | Interruptible::Already(acquiring) => acquiring,
        Interruptible::Deadlk(_backoff) => panic!(rt; "an older context was met"),
        Interruptible::Interrupted(_acquiring, by) => panic!(rt; "{by} called it off"),
    }
}

/// Asks for a lock, and is cancelled by this caller.
fn called_off<R: Wait + Abort>(
    rt: &R,
    world: &World,
    acquiring: Acquiring,
    n: u8,
    by: u8,
) -> Acquiring
    requires home { IsAtHome acquiring world.now }
    requires node { n < length world.now.first }
    ensures home { IsAtHome result world.now }
{
    let lock = acquiring.lock_interruptible(rt, world, n);
    assert!(rt; lock.code() == 4);
    match lock {
        Interruptible::Interrupted(acquiring, told) => {
            assert!(rt; told == by && !acquiring.held(n));
            acquiring
        }
        Interruptible::Deadlk(_backoff) => panic!(rt; "an older context was met"),
        Interruptible::Locked(_acquiring) => panic!(rt; "the lock was free"),
        Interruptible::Already(_acquiring) => panic!(rt; "the lock was held"),
    }
}

/// Asks for a lock for which it has to back off.
fn sent_back<R: Wait + Abort>(rt: &R, world: &World, acquiring: Acquiring, n: u8) -> Backoff
    requires home { IsAtHome acquiring world.now }
    requires node { n < length world.now.first }
    ensures home { IsAtHome result.holding world.now }
{
    let lock = acquiring.lock_interruptible(rt, world, n);
    assert!(rt; lock.code() == 35);
    match lock {
        Interruptible::Deadlk(backoff) => backoff,
        Interruptible::Interrupted(_acquiring, by) => panic!(rt; "{by} called it off"),
        Interruptible::Locked(_acquiring) => panic!(rt; "the lock was free"),
        Interruptible::Already(_acquiring) => panic!(rt; "the lock was held"),
    }
}

/// Pass 0 holds node 0, for which pass 1 would have to wait, and pass 2 calls it off. A call that meets no contention
/// leaves the cancel set.
fn in_a_row<R: Wait + Abort>(rt: &R, alloc: Global, kind: Kind) -> Result<(), Fail> {
    let (world, zero, one, two) = three_passes(alloc, kind, 1)?;
    assert!(rt; world.size() == 3 && world.passes() == 3);
    let zero = locked(rt, &world, begun(rt, &world, zero), 0);
    let two = cancelled(rt, &world, two, 1, false);
    let two = cancelled(rt, &world, two, 1, true);
    let one = called_off(rt, &world, begun(rt, &world, one), 0, 2);
    let two = cancelled(rt, &world, two, 1, false);
    let zero = ended(rt, &world, zero);
    let one = taken(rt, &world, one, 0, 0);
    let one = taken(rt, &world, one, 0, 114);
    let two = cancelled(rt, &world, two, 1, true);
    let one = ended(rt, &world, one);
    let waited = one.waited();
    assert!(rt;
        waited.lost == 1 && waited.looks == 1 && waited.sleeps == 0 && waited.back_offs == 0
    );
    let history = closed(rt, world, vec![in alloc; zero, one, two]?);
    assert!(rt; history.records.is_empty());
    Ok(())
}

#[test]
fn a_call_is_called_off(rt: HostRuntime) -> Result<(), Fail> {
    for kind in KINDS {
        in_a_row(&rt, rt.alloc(), kind)?;
    }
    Ok(())
}

/// Tries again for the lock that it couldn't get, and is cancelled by this caller.
fn called_off_again<R: Wait + Abort>(
    rt: &R,
    world: &World,
    contended: Contended,
    by: u8,
) -> Contended
    requires home { IsAtHome contended.holding world.now }
    ensures home { IsAtHome result.holding world.now }
{
    match contended.lock_slow_interruptible(rt, world) {
        Ok(_acquiring) => panic!(rt; "the lock was free"),
        Err((contended, told)) => {
            assert!(rt; told == by);
            contended
        }
    }
}

/// The younger backs off, and its slow call is cancelled, and made again.
#[test]
fn a_slow_call_is_called_off(rt: HostRuntime) -> Result<(), Fail> {
    let (world, zero, one, two) = three_passes(rt.alloc(), Kind::WaitDie, 1)?;
    assert!(rt; world.size() == 3);
    let zero = locked(&rt, &world, begun(&rt, &world, zero), 0);
    let one = taken(&rt, &world, begun(&rt, &world, one), 1, 0);
    let one = sent_back(&rt, &world, one, 0).unlock_all(&rt, &world);
    cancelled(&rt, &world, two, 1, false);
    let one = called_off_again(&rt, &world, one, 2);
    ended(&rt, &world, zero);
    let one = match one.lock_slow_interruptible(&rt, &world) {
        Ok(one) => one,
        Err((_contended, by)) => panic!(rt; "{by} called it off"),
    };
    assert!(rt; one.held(0) && !one.held(1));
    ended(&rt, &world, one);
    Ok(())
}

/// Releases all, where the transaction can be made with what is held.
fn covered<R: Wait + Abort>(rt: &R, world: &World, done: Done, txn: &Txn) -> Pass
    requires home { IsAtHome done world.now }
    ensures home { IsAtHome result world.now }
{
    assert!(rt; is_possible(world, &done, txn));
    done.unlock_all(rt, world).fini(world)
}

/// The pass that came back with this fault.
fn refused<R: Abort>(rt: &R, answer: Result<Done, (Pass, UserFault)>, fault: UserFault) -> Pass
    ensures { answer ≡ Err (result, fault) }
{
    match answer {
        Ok(_done) => panic!(rt; "it was locked"),
        Err((pass, told)) => {
            assert!(rt; told == fault);
            pass
        }
    }
}

/// Each way while another holds node 1, and somebody has called it off before: it holds nothing then.
fn ways_called_off<R: Wait + Abort>(rt: &R, world: &World, pass: Pass, two: Pass) -> (Pass, Pass)
    requires size { length world.now.first ≡ 3 }
    requires pass { IsAtHome pass world.now }
    requires two { IsAtHome two world.now }
    ensures pass { IsAtHome result.0 world.now }
    ensures two { IsAtHome result.1 world.now }
{
    let fault = UserFault::Interrupted(2);
    assert!(rt; fault.number() == 20);
    let two = cancelled(rt, world, two, 1, false);
    let pass = refused(
        rt,
        lock_list_interruptible(world, pass, rt, &[2, 1, 2]),
        fault,
    );
    let two = cancelled(rt, world, two, 1, false);
    let pass = refused(
        rt,
        lock_order_interruptible(world, pass, rt, &[2, 1, 2]),
        fault,
    );
    let two = cancelled(rt, world, two, 1, false);
    let pass = refused(
        rt,
        lock_walk_interruptible(world, pass, rt, 0, 0, 64),
        fault,
    );
    (pass, two)
}

/// Each way where nobody calls it off.
fn ways_taken<R: Wait + Abort>(rt: &R, world: &World, pass: Pass) -> Pass
    requires size { length world.now.first ≡ 3 }
    requires home { IsAtHome pass world.now }
    ensures home { IsAtHome result world.now }
{
    let Ok(done) = lock_list_interruptible(world, pass, rt, &[2, 0]) else {
        panic!(rt; "a list is locked")
    };
    let pass = covered(rt, world, done, &Txn::Move(2, 0, 1));
    let Ok(done) = lock_order_interruptible(world, pass, rt, &[2, 0]) else {
        panic!(rt; "a list is locked")
    };
    let pass = covered(rt, world, done, &Txn::Move(2, 0, 1));
    let Ok(done) = lock_walk_interruptible(world, pass, rt, 0, 0, 64) else {
        panic!(rt; "a walk is locked")
    };
    covered(rt, world, done, &Txn::Reverse(0, 0, 64))
}

/// Each way is cancelled, and then locks what it names, with a budget of one context for each.
fn in_turn<R: Wait + Abort>(rt: &R, alloc: Global, kind: Kind) -> Result<(), Fail> {
    let (world, zero, one, two) = three_passes(alloc, kind, 6)?;
    assert!(rt; world.size() == 3);
    let zero = locked(rt, &world, begun(rt, &world, zero), 1);
    let (one, _two) = ways_called_off(rt, &world, one, two);
    assert!(rt; one.left() == 3);
    let zero = ended(rt, &world, zero);
    assert!(rt; zero.left() == 5);
    let one = ways_taken(rt, &world, one);
    assert!(rt; one.left() == 0 && one.commits() == 0);
    Ok(())
}

#[test]
fn each_way_is_called_off(rt: HostRuntime) -> Result<(), Fail> {
    for kind in KINDS {
        in_turn(&rt, rt.alloc(), kind)?;
    }
    Ok(())
}

/// Takes the locks of both nodes, unless it is cancelled.
fn both<R: Wait>(
    rt: &R,
    world: &World,
    acquiring: Acquiring,
    one: u8,
    other: u8,
) -> Result<Acquiring, (Pass, u8)>
    requires home { IsAtHome acquiring world.now }
    requires one { one < length world.now.first }
    requires other { other < length world.now.first }
    ensures home { IfOk result (λ a. IsAtHome a world.now) }
    ensures held { IfOk result (λ a. IsTrue (is_among other a.held)) }
    ensures back { IfErr result (λ e. IsAtHome e.0 world.now) }
{
    let body = |acquiring: Acquiring|
        requires home { IsAtHome acquiring world.now }
        requires one { one < length world.now.first }
        requires other { other < length world.now.first }
        ensures round { IsHaltingRound acquiring result }
        ensures held { IfOk result (λ a. IsTrue (is_among other a.held)) }
    {
        let acquiring = acquiring.lock_interruptible(rt, world, one).going_on()?;
        acquiring.lock_interruptible(rt, world, other).going_on()
    };
    lock_until_interruptible(rt, world, acquiring, body)
}

/// A body is cancelled at its second lock while another holds that, and takes both locks once nobody does.
fn body_in_turn<R: Wait + Abort>(rt: &R, alloc: Global, kind: Kind) -> Result<(), Fail> {
    let (world, zero, one, two) = three_passes(alloc, kind, 2)?;
    assert!(rt; world.size() == 3);
    let zero = locked(rt, &world, begun(rt, &world, zero), 1);
    let two = cancelled(rt, &world, two, 1, false);
    let one = match both(rt, &world, begun(rt, &world, one), 0, 1) {
        Ok(_acquiring) => panic!(rt; "the lock was free"),
        Err((one, by)) => {
            assert!(rt; by == 2 && one.left() == 1);
            one
        }
    };
    let two = cancelled(rt, &world, two, 1, false);
    ended(rt, &world, zero);
    match both(rt, &world, begun(rt, &world, one), 0, 1) {
        Ok(acquiring) => {
            assert!(rt; acquiring.held(0) && acquiring.held(1));
            ended(rt, &world, acquiring);
        }
        Err((_one, by)) => panic!(rt; "{by} called it off"),
    }
    cancelled(rt, &world, two, 1, true);
    Ok(())
}

#[test]
fn a_body_is_called_off(rt: HostRuntime) -> Result<(), Fail> {
    for kind in KINDS {
        body_in_turn(&rt, rt.alloc(), kind)?;
    }
    Ok(())
}

/// A transaction that is answered this fault, and of which its gate isn't told.
fn faulted<R: Wait + Abort>(rt: &R, world: &World, pass: Pass, txn: Txn, fault: TxnFault) -> Pass
    requires home { IsAtHome pass world.now }
    ensures home { IsAtHome result world.now }
{
    let (pass, told) = counted(rt, world, pass, txn, Waits::UntilCancelled);
    assert!(rt; told.err() == Some(fault));
    pass
}

/// A transaction while another holds node 1: of an interruption and a duplicate, what comes first in its list is told.
/// Then one that nobody holds up is made, and leaves the cancel set.
fn transacted<R: Wait + Abort>(rt: &R, alloc: Global, kind: Kind) -> Result<(), Fail> {
    let (world, zero, one, two) = three_passes(alloc, kind, 3)?;
    assert!(rt; world.size() == 3 && TxnFault::Interrupted(2).number() == 20);
    let double_first = add(alloc, By::List, &[(0, 1), (0, 1), (1, 1)])?;
    let double_last = add(alloc, By::List, &[(0, 1), (1, 1), (0, 1)])?;
    let zero = locked(rt, &world, begun(rt, &world, zero), 1);
    let two = cancelled(rt, &world, two, 1, false);
    let one = faulted(rt, &world, one, double_first, TxnFault::Already(0));
    let two = cancelled(rt, &world, two, 1, true);
    let one = faulted(rt, &world, one, double_last, TxnFault::Interrupted(2));
    let two = cancelled(rt, &world, two, 1, false);
    let zero = ended(rt, &world, zero);
    assert!(rt; one.left() == 1 && one.commits() == 0);
    let txn = add(alloc, By::List, &[(0, 1), (1, 1)])?;
    let (one, told) = counted(rt, &world, one, txn, Waits::UntilCancelled);
    let told = told.ok().ok_or("it is made")?;
    assert!(rt; told.place == 0 && told.seq == 0 && told.reply == Reply::Done);
    let two = cancelled(rt, &world, two, 1, true);
    let history = closed(rt, world, vec![in alloc; zero, one, two]?);
    assert!(rt; history.records.len() == 1);
    assert!(rt; history.graph.is_same(&chain(alloc, [2, 3, 3])?));
    Ok(())
}

#[test]
fn a_transaction_is_called_off(rt: HostRuntime) -> Result<(), Fail> {
    for kind in KINDS {
        transacted(&rt, rt.alloc(), kind)?;
    }
    Ok(())
}
