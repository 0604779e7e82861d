//! The two rules of a lock's state: which waiter has to die, and which signs the seat inside the guard owes.

ghost use Rattle.std.specs.Prelude.{◌≡◌};
ghost use Rattle.ww_queue.specs.Rules.{must_die, cause_of, older_owner, taker_of, least_holding, least_of, holding_stamp, owed_signs, owed_death, owed_deaths, owed_wound};

use crate::entry::Entry;
use crate::kind::Kind;
use crate::queue::{MAX_WAITERS, Queue, is_older};
use arrayvec::ArrayVec;
use ww_word::{Owner, PICKUP};

/// The stamp of the older context for which a waiter has to die, if it has to. Only a waiter with a context and at
/// least one lock may have to die: in Wound-Wait because of the sign with which it was wounded; in Wait-Die because of
/// an owner that is an older context, or else of a context that comes before it in the list. These are the kernel's
/// rules. Ours is that a lock which was handed over has an owner in this sense too, and that the stamp is returned.
pub fn must_die(kind: Kind, owner: Owner, queue: &Queue, me: u8, sign: u64) -> Option<u64>
    ensures { result ≡ must_die kind owner queue.now me sign }
{
    let entry = queue.entry_of(me)?;
    if entry.is_holding() {
        cause_of(kind, owner, queue, entry, sign)
    } else {
        None
    }
}

/// The stamp for which a waiter that holds locks has to die.
fn cause_of(kind: Kind, owner: Owner, queue: &Queue, entry: Entry, sign: u64) -> Option<u64>
    ensures { result ≡ cause_of kind owner queue.now sign entry }
{
    match kind {
        Kind::WoundWait => (sign > 0).then_some(sign),
        Kind::WaitDie => {
            let ahead = queue.first_before(entry.seat);
            older_owner(owner, entry).or(ahead.map(|waiter| waiter.stamp))
        }
    }
}

/// The owner's stamp, if the owner is another seat with an older context.
fn older_owner(owner: Owner, entry: Entry) -> Option<u64>
    ensures { result ≡ older_owner owner entry }
{
    let is_other = owner.seat.is_some_and(|seat| seat != entry.seat);
    (is_other && is_older(owner.stamp, entry.stamp)).then_some(owner.stamp)
}

/// The signs that the seat inside the guard owes to others, as pairs of a seat and the stamp that condemns it. In
/// Wound-Wait the oldest waiter that holds locks wounds the owner, if that is younger; an owner to which the lock was
/// handed has not taken it yet, and looks at the list itself. In Wait-Die each other waiter that has to die is signed.
/// The kernel wakes and wounds at moments of its own. Ours is one rule on a lock's state instead of all of these, and a
/// sign that has the stamp in it: `docs/RULES.md`, "Which waiter must die ..".
pub fn owed_signs(
    kind: Kind,
    owner: Owner,
    queue: &Queue,
    me: u8,
) -> ArrayVec<(u8, u64), MAX_WAITERS>
    ensures { result.items ≡ owed_signs kind owner queue.now me }
{
    match kind {
        Kind::WoundWait => owed_wound(owner, queue),
        Kind::WaitDie => owed_deaths(owner, queue, me),
    }
}

/// The owner that took the lock with the oldest waiter that holds locks, if that is older.
fn owed_wound(owner: Owner, queue: &Queue) -> ArrayVec<(u8, u64), MAX_WAITERS>
    ensures { result.items ≡ owed_wound (taker_of owner) owner.stamp (least_holding queue.now) }
{
    let mut owed = ArrayVec::new();
    if let (Some(seat), Some(oldest)) = (taker_of(owner), least_holding(queue.entries())) {
        if is_older(oldest, owner.stamp) {
            owed.push((seat, oldest));
        }
    }
    owed
}

/// The seat that owns the lock and has taken it.
fn taker_of(owner: Owner) -> Option<u8>
    ensures { result ≡ taker_of owner }
{
    if owner.flags & PICKUP != 0 {
        None
    } else {
        owner.seat
    }
}

/// The least stamp of a waiter that holds locks.
fn least_holding(waiters: &[Entry]) -> Option<u64>
    ensures { result ≡ least_holding waiters.now }
{
    let mut least = None;
    for waiter in waiters {
        least = least_of(least, waiter.is_holding().then_some(waiter.stamp));
    }
    least
}

/// The smaller of two stamps.
pub(crate) fn least_of(stamp: Option<u64>, other: Option<u64>) -> Option<u64>
    ensures { result ≡ least_of stamp other }
{
    match (stamp, other) {
        (Some(a), Some(b)) => Some(a.min(b)),
        (one, other) => one.or(other),
    }
}

/// Each waiter but this one that has to die, with the stamp that condemns it.
fn owed_deaths(owner: Owner, queue: &Queue, me: u8) -> ArrayVec<(u8, u64), MAX_WAITERS>
    ensures { result.items ≡ owed_deaths owner queue.now me queue.now }
{
    let mut owed = ArrayVec::new();
    for waiter in queue.entries() {
        if let Some(pair) = owed_death(owner, queue, me, waiter.seat) {
            owed.push(pair);
        }
    }
    owed
}

/// The pair of a waiter that has to die and isn't this one.
fn owed_death(owner: Owner, queue: &Queue, me: u8, seat: u8) -> Option<(u8, u64)>
    ensures { result ≡ owed_death owner queue.now me seat }
{
    if seat == me {
        return None;
    }
    must_die(Kind::WaitDie, owner, queue, seat, 0).map(|stamp| (seat, stamp))
}
