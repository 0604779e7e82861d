//! What C calls. Each is one call of a desk by its handle, and waits for nobody: `c/ww_steps.h` says what C has to do.
ghost use Rattle.std.specs.Prelude.{◌≡◌, ◌<◌, ◌≤◌, ◌⊎◌, take};
ghost use Rattle.ww_steps.specs.Answers.{IsBeginAnswer, IsDoneAnswer, IsEndAnswer, IsLockAnswer, IsSlowAnswer, IsTryAnswer, IsUnlockAnswer, IsHasAnswer, IsFreeAnswer, IsHeedAnswer};
ghost use Rattle.ww_c.specs.Codes.{waits_of};
ghost use Rattle.ww_c.specs.Exports.{IsCall, IsCloseCall, IsEachCall, IsHeldCall, IsIdleCall, IsLookCall, IsWakeCall, IsWoundedCall, cancels, goes_on};

use crate::codes::{EBUSY, EINVAL, code, waits, whose, wounded};
use crate::slot::{ALONE, BARE, FULL, Handle, PLAIN, READY};
use std::alloc::Global;
use std::mem;
use ww_steps::Answer;

/// How many locks C keeps in the array of a seat.
pub(crate) const KEPT: usize = 9;

/// Starts a context.
#[unsafe(no_mangle)]
pub extern "C" fn ww_begin_(seat: &mut Handle) -> i32
    ensures { IsCall IsBeginAnswer seat.old.slot.desk result seat.new.slot.desk }
{
    if seat.mode != READY {
        return begin_anyhow(seat);
    }
    let desk = seat.slot.lend();
    match desk.begin_ready() {
        Answer::Done => {
            if desk.has_contexts_left() {
                seat.below = desk.locks();
                seat.mode = PLAIN;
            } else {
                seat.mode = FULL;
            }
            0
        }
        answer => {
            seat.mode = FULL;
            code(answer)
        }
    }
}

#[cold]
#[inline(never)]
fn begin_anyhow(seat: &mut Handle) -> i32
    ensures { IsCall IsBeginAnswer seat.old.slot.desk result seat.new.slot.desk }
{
    if seat.is_empty() {
        return EINVAL;
    }
    seat.mode = FULL;
    seat.below = 0;
    let desk = seat.slot.lend();
    match desk.begin() {
        Answer::Done => {
            if desk.has_contexts_left() {
                seat.below = desk.locks();
                seat.mode = PLAIN;
            }
            0
        }
        answer => code(answer),
    }
}

/// The context has all its locks.
#[unsafe(no_mangle)]
pub extern "C" fn ww_done_(seat: &mut Handle) -> i32
    ensures { IsCall IsDoneAnswer seat.old.slot.desk result seat.new.slot.desk }
{
    if seat.is_empty() {
        return EINVAL;
    }
    seat.mode = FULL;
    seat.below = 0;
    code(seat.slot.lend().done())
}

/// Ends the context.
#[unsafe(no_mangle)]
pub extern "C" fn ww_end_(seat: &mut Handle) -> i32
    ensures { IsCall IsEndAnswer seat.old.slot.desk result seat.new.slot.desk }
{
    if seat.mode != BARE {
        return end_anyhow(seat);
    }
    seat.slot.lend().end_bare();
    seat.mode = READY;
    0
}

#[cold]
#[inline(never)]
fn end_anyhow(seat: &mut Handle) -> i32
    ensures { IsCall IsEndAnswer seat.old.slot.desk result seat.new.slot.desk }
{
    if seat.is_empty() {
        return EINVAL;
    }
    seat.mode = FULL;
    seat.below = 0;
    let desk = seat.slot.lend();
    match desk.end() {
        Answer::Done => {
            if desk.has_contexts_left() {
                seat.mode = READY;
            }
            0
        }
        answer => code(answer),
    }
}

/// Takes a lock, or begins to wait for it; where `heeds` the wait may be cancelled.
#[unsafe(no_mangle)]
pub extern "C" fn ww_lock_(seat: &mut Handle, lock: u32, heeds: bool) -> i32
    ensures { IsCall (λ s a t. IsLockAnswer s lock (waits_of heeds) a t) seat.old.slot.desk result seat.new.slot.desk }
{
    if lock >= seat.below {
        if seat.mode == BARE {
            return lock_bare(seat, lock, heeds);
        }
        return lock_alone(seat, lock, heeds);
    }
    match seat.slot.lend().lock_plainly(lock, waits(heeds)) {
        Answer::Done => 0,
        answer => {
            seat.mode = FULL;
            seat.below = 0;
            code(answer)
        }
    }
}

/// The same without a context, where none has begun.
#[inline(never)]
fn lock_alone(seat: &mut Handle, lock: u32, heeds: bool) -> i32
    ensures { IsCall (λ s a t. IsLockAnswer s lock (waits_of heeds) a t) seat.old.slot.desk result seat.new.slot.desk }
{
    if seat.mode != READY {
        return lock_anyhow(seat, lock, heeds);
    }
    let desk = seat.slot.lend();
    if lock >= desk.locks() {
        return lock_anyhow(seat, lock, heeds);
    }
    match desk.lock_plainly(lock, waits(heeds)) {
        Answer::Done => {
            seat.mode = ALONE;
            0
        }
        answer => {
            seat.mode = FULL;
            code(answer)
        }
    }
}

/// The same by a context that has released all that it held.
#[inline(always)]
fn lock_bare(seat: &mut Handle, lock: u32, heeds: bool) -> i32
    requires { seat.old.mode ≡ 4 }
    ensures { IsCall (λ s a t. IsLockAnswer s lock (waits_of heeds) a t) seat.old.slot.desk result seat.new.slot.desk }
{
    let desk = seat.slot.lend();
    let locks = desk.locks();
    if lock >= locks {
        return lock_anyhow(seat, lock, heeds);
    }
    match desk.lock_bare(lock, waits(heeds)) {
        Answer::Done => {
            seat.below = locks;
            seat.mode = PLAIN;
            0
        }
        answer => {
            seat.mode = FULL;
            code(answer)
        }
    }
}

#[cold]
#[inline(never)]
fn lock_anyhow(seat: &mut Handle, lock: u32, heeds: bool) -> i32
    ensures { IsCall (λ s a t. IsLockAnswer s lock (waits_of heeds) a t) seat.old.slot.desk result seat.new.slot.desk }
{
    if seat.is_empty() {
        return EINVAL;
    }
    seat.mode = FULL;
    seat.below = 0;
    let desk = seat.slot.lend();
    match desk.lock(lock, waits(heeds)) {
        Answer::Done => {
            if desk.has_contexts_left() {
                if desk.has_context() {
                    seat.below = desk.locks();
                    seat.mode = PLAIN;
                } else {
                    seat.mode = ALONE;
                }
            }
            0
        }
        answer => code(answer),
    }
}

/// Takes the contended lock, after the context got EDEADLK and backed off.
#[unsafe(no_mangle)]
pub extern "C" fn ww_lock_slow_(seat: &mut Handle, lock: u32, heeds: bool) -> i32
    ensures { IsCall (λ s a t. IsSlowAnswer s lock (waits_of heeds) a t) seat.old.slot.desk result seat.new.slot.desk }
{
    if seat.is_empty() {
        return EINVAL;
    }
    seat.mode = FULL;
    seat.below = 0;
    let desk = seat.slot.lend();
    match desk.lock_slow(lock, waits(heeds)) {
        Answer::Done => {
            if desk.has_context() && desk.has_contexts_left() {
                seat.below = desk.locks();
                seat.mode = PLAIN;
            }
            0
        }
        answer => code(answer),
    }
}

/// One try to take a lock.
#[unsafe(no_mangle)]
pub extern "C" fn ww_try_(seat: &mut Handle, lock: u32) -> i32
    ensures { IsCall (λ s a t. IsTryAnswer s lock a t) seat.old.slot.desk result seat.new.slot.desk }
{
    if lock >= seat.below {
        if seat.mode == BARE {
            return try_bare(seat, lock);
        }
        return try_alone(seat, lock);
    }
    match seat.slot.lend().try_lock_plainly(lock) {
        Answer::Done => 0,
        answer => {
            seat.mode = FULL;
            seat.below = 0;
            code(answer)
        }
    }
}

/// The same without a context, where none has begun.
#[inline(never)]
fn try_alone(seat: &mut Handle, lock: u32) -> i32
    ensures { IsCall (λ s a t. IsTryAnswer s lock a t) seat.old.slot.desk result seat.new.slot.desk }
{
    if seat.mode != READY {
        return try_anyhow(seat, lock);
    }
    let desk = seat.slot.lend();
    if lock >= desk.locks() {
        return try_anyhow(seat, lock);
    }
    match desk.try_lock_plainly(lock) {
        Answer::Done => {
            seat.mode = ALONE;
            0
        }
        answer => {
            seat.mode = FULL;
            code(answer)
        }
    }
}

/// The same by a context that has released all that it held.
#[inline(always)]
fn try_bare(seat: &mut Handle, lock: u32) -> i32
    requires { seat.old.mode ≡ 4 }
    ensures { IsCall (λ s a t. IsTryAnswer s lock a t) seat.old.slot.desk result seat.new.slot.desk }
{
    let desk = seat.slot.lend();
    let locks = desk.locks();
    if lock >= locks {
        return try_anyhow(seat, lock);
    }
    match desk.try_lock_bare(lock) {
        Answer::Done => {
            seat.below = locks;
            seat.mode = PLAIN;
            0
        }
        answer => {
            seat.mode = FULL;
            code(answer)
        }
    }
}

#[cold]
#[inline(never)]
fn try_anyhow(seat: &mut Handle, lock: u32) -> i32
    ensures { IsCall (λ s a t. IsTryAnswer s lock a t) seat.old.slot.desk result seat.new.slot.desk }
{
    if seat.is_empty() {
        return EINVAL;
    }
    seat.mode = FULL;
    seat.below = 0;
    let desk = seat.slot.lend();
    match desk.try_lock(lock) {
        Answer::Done => {
            if desk.has_contexts_left() {
                if desk.has_context() {
                    seat.below = desk.locks();
                    seat.mode = PLAIN;
                } else {
                    seat.mode = ALONE;
                }
            }
            0
        }
        answer => code(answer),
    }
}

/// Releases a lock, or begins to.
#[unsafe(no_mangle)]
pub extern "C" fn ww_unlock_(seat: &mut Handle, lock: u32) -> i32
    ensures { IsCall (λ s a t. IsUnlockAnswer s lock a t) seat.old.slot.desk result seat.new.slot.desk }
{
    if lock >= seat.below {
        return unlock_alone(seat, lock);
    }
    let desk = seat.slot.lend();
    match desk.unlock_at_rest(lock) {
        Answer::Done => {
            if desk.holds_none() {
                seat.mode = BARE;
                seat.below = 0;
            }
            0
        }
        answer => {
            seat.mode = FULL;
            seat.below = 0;
            code(answer)
        }
    }
}

/// The same of a lock that was taken without a context.
#[inline(never)]
fn unlock_alone(seat: &mut Handle, lock: u32) -> i32
    ensures { IsCall (λ s a t. IsUnlockAnswer s lock a t) seat.old.slot.desk result seat.new.slot.desk }
{
    if seat.mode != ALONE {
        return unlock_anyhow(seat, lock);
    }
    let desk = seat.slot.lend();
    if lock >= desk.locks() {
        return unlock_anyhow(seat, lock);
    }
    match desk.unlock_at_rest(lock) {
        Answer::Done => {
            if desk.holds_none() {
                seat.mode = READY;
            }
            0
        }
        answer => {
            seat.mode = FULL;
            code(answer)
        }
    }
}

#[cold]
#[inline(never)]
fn unlock_anyhow(seat: &mut Handle, lock: u32) -> i32
    ensures { IsCall (λ s a t. IsUnlockAnswer s lock a t) seat.old.slot.desk result seat.new.slot.desk }
{
    if seat.is_empty() {
        return EINVAL;
    }
    seat.mode = FULL;
    seat.below = 0;
    code(seat.slot.lend().unlock(lock))
}

/// Releases the first `count` locks of these, the last one first, up to one that isn't held or that one step doesn't
/// release, and returns how many are left. It releases none if the handle doesn't know that its context may want one.
#[unsafe(no_mangle)]
pub extern "C" fn ww_unlock_each_(seat: &mut Handle, locks: &[u32; KEPT], count: usize) -> usize
    ensures each { count ≤ 9 → 0 < seat.old.below → IsEachCall seat.old.slot.desk (take count locks.now) result seat.new.slot.desk }
    ensures none { (9 < count) ⊎ (seat.old.below ≡ 0) → (result ≡ count) × (seat.new.slot.desk ≡ seat.old.slot.desk) }
{
    if count > KEPT || seat.below == 0 {
        return count;
    }
    let desk = seat.slot.lend();
    let left = desk.unlock_each(&locks[..count]);
    if desk.holds_none() {
        seat.mode = BARE;
        seat.below = 0;
    }
    left
}

/// Whether the seat holds a lock.
#[unsafe(no_mangle)]
pub extern "C" fn ww_has_(seat: &mut Handle, lock: u32) -> i32
    ensures { IsCall (λ s a t. IsHasAnswer s lock a t) seat.old.slot.desk result seat.new.slot.desk }
{
    if seat.is_empty() {
        return EINVAL;
    }
    code(seat.slot.lend().has(lock))
}

/// Whether nobody has a lock or waits for it, as its word says: 0, or EBUSY where somebody does.
#[unsafe(no_mangle)]
pub extern "C" fn ww_is_free_(seat: &mut Handle, lock: u32) -> i32
    ensures { IsCall (λ s a t. IsFreeAnswer s lock a t) seat.old.slot.desk result seat.new.slot.desk }
{
    if seat.is_empty() {
        return EINVAL;
    }
    code(seat.slot.lend().is_free(lock))
}

/// The next step of the call that is on its way.
#[unsafe(no_mangle)]
pub extern "C" fn ww_go_on_(seat: &mut Handle) -> i32
    ensures { IsCall goes_on seat.old.slot.desk result seat.new.slot.desk }
{
    if seat.is_empty() {
        return EINVAL;
    }
    seat.mode = FULL;
    seat.below = 0;
    code(seat.slot.lend().go_on())
}

/// Whose a lock is, and how old the owner's context, by one look at the lock's word.
#[unsafe(no_mangle)]
pub extern "C" fn ww_look_(seat: &mut Handle, lock: u32) -> i32
    ensures { IsLookCall seat.old.slot.desk lock result seat.new.slot.desk }
{
    if seat.is_empty() {
        return EINVAL;
    }
    whose(seat.slot.lend().outlook(lock))
}

/// Whether an older context has wounded that of the seat, which holds a lock.
#[unsafe(no_mangle)]
pub extern "C" fn ww_is_wounded_(seat: &mut Handle) -> i32
    ensures { IsWoundedCall seat.old.slot.desk result seat.new.slot.desk }
{
    if seat.is_empty() {
        return EINVAL;
    }
    wounded(seat.slot.lend().is_wounded())
}

/// The number of one of the seats to be woken now, or EINVAL if there are none, or while the seat may be inside a guard.
/// Each is named once.
#[unsafe(no_mangle)]
pub extern "C" fn ww_next_wake_(seat: &mut Handle) -> i32
    ensures { IsWakeCall seat.old.slot.desk result seat.new.slot.desk }
{
    if seat.is_empty() {
        return EINVAL;
    }
    seat.mode = FULL;
    seat.below = 0;
    match seat.slot.lend().next_wake() {
        Some(who) => i32::from(who),
        None => EINVAL,
    }
}

/// Calls off the wait of a seat, which is to be woken then.
#[unsafe(no_mangle)]
pub extern "C" fn ww_cancel_(seat: &mut Handle, victim: u16) -> i32
    ensures { IsCall (cancels victim) seat.old.slot.desk result seat.new.slot.desk }
{
    if seat.is_empty() {
        return EINVAL;
    }
    seat.mode = FULL;
    seat.below = 0;
    code(seat.slot.lend().cancel(victim))
}

/// From now on the wait of the call that is on its way heeds cancels, whatever `heeds` was.
#[unsafe(no_mangle)]
pub extern "C" fn ww_heed_(seat: &mut Handle) -> i32
    ensures { IsCall IsHeedAnswer seat.old.slot.desk result seat.new.slot.desk }
{
    if seat.is_empty() {
        return EINVAL;
    }
    seat.mode = FULL;
    seat.below = 0;
    code(seat.slot.lend().heed())
}

/// Whether the seat may be closed: EBUSY while a call is on its way, or there is a context or a lock.
#[unsafe(no_mangle)]
pub extern "C" fn ww_idle_(seat: &mut Handle) -> i32
    ensures { IsIdleCall seat.old.slot.desk result seat.new.slot.desk }
{
    if seat.is_empty() || seat.slot.lend().is_idle() {
        0
    } else {
        EBUSY
    }
}

/// How many locks the seat holds.
#[unsafe(no_mangle)]
pub extern "C" fn ww_held_(seat: &mut Handle) -> usize
    ensures { IsHeldCall seat.old.slot.desk result seat.new.slot.desk }
{
    if seat.is_empty() {
        return 0;
    }
    seat.slot.lend().held()
}

/// Closes the seat, if it may be closed. The world goes with the last of its seats.
#[unsafe(no_mangle)]
pub extern "C" fn ww_close_(alloc: Global, seat: &mut Handle) -> i32
    ensures { IsCloseCall seat.old.slot.desk result seat.new.slot.desk }
{
    let Some(desk) = seat.take(alloc) else {
        return 0;
    };
    if desk.is_idle() {
        return 0;
    }
    seat.put(desk);
    EBUSY
}

/// Two handles exchange what they have: so a seat is moved to where C keeps it.
#[unsafe(no_mangle)]
pub extern "C" fn ww_swap_(one: &mut Handle, other: &mut Handle)
    ensures one { one.new.slot.desk ≡ other.old.slot.desk }
    ensures other { other.new.slot.desk ≡ one.old.slot.desk }
{
    mem::swap(one, other);
}
