//! Wait lists: which waiter a waiter sees ahead of itself.

ghost use Rattle.std.specs.Prelude.{◌≡◌, ◌==◌, ◌&&◌, ◌||◌, not};
ghost use Rattle.std.specs.List.{list_all};

use std::test::Fail;
use ww_queue::{Entry, MAX_WAITERS, Queue};

/// A waiter that holds locks, or has a context and none, or neither.
const fn waiter(seat: u8, stamp: u64, holds: bool) -> Entry {
    Entry { seat, stamp, holds }
}

/// The seat and the stamp, if it isn't 0, are not those of a waiter.
fn is_new(waiters: &[Entry], entry: Entry) -> bool
    ensures { result ≡ list_all (λ e. not (e.seat == entry.seat) && (entry.stamp == 0 || not (e.stamp == entry.stamp))) waiters.now }
{
    waiters.iter().all(|e| e.seat != entry.seat && (entry.stamp == 0 || e.stamp != entry.stamp))
}

/// The entry joins, where it may.
fn put(queue: &mut Queue, entry: Entry) -> bool {
    if queue.entries().len() < MAX_WAITERS && is_new(queue.entries(), entry) {
        queue.join(entry);
        return true;
    }
    false
}

/// The list after these have joined in turn.
fn queue_of(entries: &[Entry]) -> Result<Queue, Fail> {
    let mut queue = Queue::new();
    for entry in entries {
        if !put(&mut queue, *entry) {
            return Err("it may join".into());
        }
    }
    Ok(queue)
}

#[test]
fn a_waiter_sees_the_context_ahead(rt: HostRuntime) -> Result<(), Fail> {
    let [five, three, solo] = [waiter(0, 5, true), waiter(1, 3, false), waiter(2, 0, false)];
    let queue = queue_of(&[three, five, solo])?;
    assert!(rt; queue.first() == Some(three));
    assert!(rt; queue.ahead_with_context(2) == Some(three));
    assert!(rt; queue.ahead_with_context(1).is_none());
    assert!(rt; queue.ahead_with_context(9).is_none());
    Ok(())
}
