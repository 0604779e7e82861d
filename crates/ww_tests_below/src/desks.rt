//! What no clause says: that calls come to their ends, and who is told what where two desks meet. One thread has both.
use std::alloc::{AllocError, Global};
use std::process::Abort;
use std::test::Fail;
use ww_queue::Kind;
use ww_seat::Waits::{ToTheEnd, UntilCancelled};
use ww_steps::{Age, Answer, Desk, NoOutlook, Office, Outlook};

/// An office of so many locks and seats, each of which may begin two contexts.
fn opened(alloc: Global, kind: Kind, locks: u32, seats: u16) -> Result<Office, AllocError> {
    match Office::open(alloc, kind, locks, seats, 2) {
        Ok(office) => Ok(office),
        Err(_) => Err(AllocError),
    }
}

/// Two desks of a world of two locks.
fn two(alloc: Global, kind: Kind) -> Result<(Desk, Desk), AllocError> {
    let mut office = opened(alloc, kind, 2, 2)?;
    let Ok(one) = office.desk(alloc, 1) else {
        return Err(AllocError);
    };
    let Ok(zero) = office.desk(alloc, 0) else {
        return Err(AllocError);
    };
    Ok((Box::into_inner(zero), Box::into_inner(one)))
}

/// The steps of a call until it ends, or sleeps, or has made many.
fn turned(desk: &mut Desk, first: Answer) -> Answer {
    let mut answer = first;
    for _ in 0..100u32 {
        match answer {
            Answer::Again | Answer::Awaits => answer = desk.go_on(),
            _ => break,
        }
    }
    answer
}

/// Each holds a lock and wants the other's: the younger one backs off, and takes that lock in the slow way.
fn meets<R: Abort>(rt: &R, zero: &mut Desk, one: &mut Desk) {
    assert!(rt; zero.begin() == Answer::Done && one.begin() == Answer::Done);
    assert!(rt; zero.lock(0, ToTheEnd) == Answer::Done && one.lock(1, ToTheEnd) == Answer::Done);
    let answer = zero.lock(1, ToTheEnd);
    assert!(rt; turned(zero, answer) == Answer::Sleeps);
    assert!(rt; zero.unlock(0) == Answer::Busy && zero.end() == Answer::Busy);
    let answer = one.lock(0, ToTheEnd);
    assert!(rt; turned(one, answer) == Answer::Deadlk(1));
    assert!(rt;
        one.lock(0, ToTheEnd) == Answer::Invalid && one.lock_slow(0, ToTheEnd) == Answer::Invalid
    );
    assert!(rt; one.unlock(0) == Answer::Invalid && one.lock(1, ToTheEnd) == Answer::Already);
    let answer = one.unlock(1);
    assert!(rt; turned(one, answer) == Answer::Done);
    assert!(rt; one.next_wake() == Some(0) && one.next_wake().is_none());
    assert!(rt; one.lock_slow(1, ToTheEnd) == Answer::Invalid);
    assert!(rt; zero.go_on() == Answer::Done && zero.done() == Answer::Done);
    assert!(rt; zero.done() == Answer::Invalid && zero.end() == Answer::Invalid);
    let answer = one.lock_slow(0, UntilCancelled);
    assert!(rt; turned(one, answer) == Answer::Sleeps);
}

/// The wait is called off, and nobody waits any more.
fn is_called_off<R: Abort>(rt: &R, zero: &mut Desk, one: &mut Desk) {
    assert!(rt; zero.cancel(1) == Answer::Done && zero.cancel(1) == Answer::Already);
    assert!(rt; zero.cancel(16) == Answer::Invalid && zero.next_wake() == Some(1));
    let answer = one.go_on();
    assert!(rt; turned(one, answer) == Answer::Interrupted(0));
    assert!(rt; one.go_on() == Answer::Invalid && one.try_lock(0) == Answer::Busy);
    assert!(rt; one.end() == Answer::Done && one.is_idle());
    assert!(rt;
        zero.unlock(1) == Answer::Done
            && zero.unlock(0) == Answer::Done
            && zero.end() == Answer::Done
            && zero.is_idle()
    );
    assert!(rt; zero.try_lock(0) == Answer::Done && zero.lock(1, ToTheEnd) == Answer::Invalid);
    assert!(rt;
        !zero.is_idle() && zero.begin() == Answer::Invalid && zero.unlock(0) == Answer::Done
    );
    assert!(rt; zero.begin() == Answer::Done && zero.end() == Answer::Done);
    assert!(rt; zero.begin() == Answer::NoSpace);
}

#[test]
fn two_desks_meet(rt: HostRuntime) -> Result<(), Fail> {
    for kind in [Kind::WoundWait, Kind::WaitDie] {
        let (mut zero, mut one) = two(rt.alloc(), kind)?;
        meets(&rt, &mut zero, &mut one);
        is_called_off(&rt, &mut zero, &mut one);
    }
    Ok(())
}

/// A call that heeds no cancel waits on, though one is pending; once it heeds them, that ends it. So a desk that has cancelled
/// itself before ends its own wait when it wants to.
#[test]
fn a_desk_ends_its_own_wait(rt: HostRuntime) -> Result<(), Fail> {
    for kind in [Kind::WoundWait, Kind::WaitDie] {
        let (mut zero, mut one) = two(rt.alloc(), kind)?;
        assert!(rt; zero.lock(0, ToTheEnd) == Answer::Done && zero.heed() == Answer::Invalid);
        assert!(rt; one.cancel(1) == Answer::Done && one.next_wake().is_none());
        let answer = one.lock(0, ToTheEnd);
        assert!(rt; turned(&mut one, answer) == Answer::Sleeps);
        let answer = one.go_on();
        assert!(rt; turned(&mut one, answer) == Answer::Sleeps && one.heed() == Answer::Done);
        let answer = one.go_on();
        assert!(rt; turned(&mut one, answer) == Answer::Interrupted(1) && one.is_idle());
        assert!(rt; one.heed() == Answer::Invalid && one.cancel(1) == Answer::Done);
        assert!(rt; one.lock(0, ToTheEnd) == Answer::Again && one.heed() == Answer::Done);
        let answer = one.go_on();
        assert!(rt; turned(&mut one, answer) == Answer::Interrupted(1));
        let answer = one.lock(0, ToTheEnd);
        assert!(rt; turned(&mut one, answer) == Answer::Sleeps);
        assert!(rt; zero.unlock(0) == Answer::Again && zero.heed() == Answer::Busy);
        assert!(rt; zero.go_on() == Answer::Done && one.heed() == Answer::Done);
        assert!(rt; one.go_on() == Answer::Done && one.held() == 1);
    }
    Ok(())
}

/// A lock is free where nobody has it or waits for it. To look takes nothing, and tells a holder that it isn't.
#[test]
fn a_desk_sees_who_is_free(rt: HostRuntime) -> Result<(), Fail> {
    for kind in [Kind::WoundWait, Kind::WaitDie] {
        let (mut zero, mut one) = two(rt.alloc(), kind)?;
        assert!(rt; zero.is_free(0) == Answer::Done && zero.is_free(65) == Answer::Invalid);
        assert!(rt; zero.lock(0, ToTheEnd) == Answer::Done && zero.is_free(0) == Answer::Busy);
        assert!(rt; one.is_free(0) == Answer::Busy && one.is_free(64) == Answer::Done);
        let answer = one.lock(0, ToTheEnd);
        assert!(rt; turned(&mut one, answer) == Answer::Sleeps && one.is_free(64) == Answer::Busy);
        let answer = zero.unlock(0);
        assert!(rt; turned(&mut zero, answer) == Answer::Done && zero.is_free(0) == Answer::Busy);
        let answer = one.go_on();
        assert!(rt; turned(&mut one, answer) == Answer::Done && one.unlock(0) == Answer::Done);
        assert!(rt; zero.is_free(0) == Answer::Done && one.is_idle());
    }
    Ok(())
}

/// Of two contexts each sees how old the other is, and which lock is whose, also while it waits; and the younger one, once the
/// older has wounded it, sees that. A lock that nobody has is due to whoever waits for it.
#[test]
fn a_desk_sees_whose_a_lock_is(rt: HostRuntime) -> Result<(), Fail> {
    for kind in [Kind::WoundWait, Kind::WaitDie] {
        let (mut zero, mut one) = two(rt.alloc(), kind)?;
        assert!(rt;
            zero.outlook(0) == Ok(Outlook::Free) && zero.outlook(65) == Err(NoOutlook::NoLock)
        );
        assert!(rt; zero.begin() == Answer::Done && zero.lock(0, ToTheEnd) == Answer::Done);
        assert!(rt; one.outlook(0) == Ok(Outlook::Owned(0, Age::Unknown)));
        assert!(rt; zero.outlook(0) == Ok(Outlook::Owned(0, Age::Unknown)));
        assert!(rt; one.begin() == Answer::Done && one.lock(1, ToTheEnd) == Answer::Done);
        assert!(rt; one.lock(0, ToTheEnd) == Answer::Again);
        assert!(rt; one.outlook(0) == Ok(Outlook::Owned(0, Age::Older)));
        let answer = zero.lock(1, ToTheEnd);
        assert!(rt; one.is_wounded() == Ok(false) && turned(&mut zero, answer) == Answer::Sleeps);
        assert!(rt; zero.outlook(1) == Ok(Outlook::Owned(1, Age::Younger)));
        assert!(rt;
            zero.is_wounded() == Ok(false) && one.is_wounded() == Ok(kind == Kind::WoundWait)
        );
        assert!(rt; turned(&mut one, Answer::Again) == Answer::Deadlk(1));
        let answer = one.unlock(1);
        assert!(rt; one.is_wounded() == Ok(kind == Kind::WoundWait));
        assert!(rt; turned(&mut one, answer) == Answer::Done && one.is_wounded() == Ok(false));
        assert!(rt; one.outlook(1) == Ok(Outlook::Due) && zero.go_on() == Answer::Done);
        assert!(rt; one.outlook(1) == Ok(Outlook::Owned(0, Age::Older)));
        assert!(rt; zero.unlock(1) == Answer::Done && one.outlook(1) == Ok(Outlook::Free));
    }
    Ok(())
}

/// Each desk of a world is made, the last one first.
#[test]
fn a_world_has_its_size(rt: HostRuntime) -> Result<(), Fail> {
    let alloc = rt.alloc();
    let mut office = opened(alloc, Kind::WaitDie, 65, 16)?;
    for left in 0..16u16 {
        let number = 15 - left;
        assert!(rt; matches!(office.desk(alloc, number), Ok(desk) if desk.number() == number));
    }
    Ok(())
}
