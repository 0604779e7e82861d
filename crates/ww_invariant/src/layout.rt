//! Which word is which: see `specs/Layout.antt`.
ghost use Rattle.std.specs.Prelude.{ℕ, ◌≡◌, ◌<◌, ◌≤◌, ◌+◌, ◌*◌};
ghost use Rattle.ww_invariant.specs.Layout.{lock_at, owner_at, guard_at, sign_at, cancel_at, list_at, words_for, slots_for};

/// How often a stamp was drawn.
pub const STAMP: usize = 0;

/// The number of commits.
pub const FRONT: usize = 8;

/// At a table with this many locks, or fewer, each lock has a cache line of its own.
const SPREAD: u32 = 64;

/// Where the words of a lock begin, at a table with this many locks.
#[tactic(auto, using(crate::proofs::Lies::lies_packed, crate::proofs::Lies::lies_spread))]
#[inline(always)]
fn lock_word(locks: u32, lock: u32) -> usize
    ensures at { result ≡ lock_at locks lock }
    ensures small { result ≤ 16 + 8 * lock }
{
    if locks > SPREAD {
        16 + 2 * lock as usize
    } else {
        16 + 8 * lock as usize
    }
}

/// How many words a table of so many locks and seats has, most of those of seats unused: they keep the others on cache
/// lines of their own.
pub fn words(locks: u32, seats: u16) -> usize
    requires { locks ≤ 16777216 }
    ensures { result ≡ words_for locks seats }
{
    lock_word(locks, locks) + 8 * usize::from(seats)
}

/// How many slots a table with this many locks has.
pub fn slots(locks: u32) -> usize
    requires { locks ≤ 16777216 }
    ensures { result ≡ slots_for locks }
{
    64 + locks as usize
}

/// The owner word of a lock, at a table with this many locks.
pub fn owner_word(locks: u32, lock: u32) -> usize
    ensures { result ≡ owner_at locks lock }
{
    lock_word(locks, lock)
}

/// The owner word of a lock, at a table of 64 locks or fewer.
#[tactic(auto, using(crate::proofs::Lies::lies_spread))]
#[inline(always)]
pub fn spread_word(lock: u32) -> usize
    ensures { (locks : ℕ) → locks ≤ 64 → result ≡ owner_at locks lock }
{
    16 + 8 * lock as usize
}

/// The owner word of a lock, at a table of more than 64 locks.
#[tactic(auto, using(crate::proofs::Lies::lies_packed))]
#[inline(always)]
pub fn packed_word(lock: u32) -> usize
    ensures { (locks : ℕ) → 64 < locks → result ≡ owner_at locks lock }
{
    16 + 2 * lock as usize
}

/// The guard word of a lock, at a table with this many locks.
pub fn guard_word(locks: u32, lock: u32) -> usize
    ensures { result ≡ guard_at locks lock }
{
    lock_word(locks, lock) + 1
}

/// The sign word of a seat, at a table with this many locks.
pub fn sign_word(locks: u32, seat: u16) -> usize
    ensures { result ≡ sign_at locks seat }
{
    lock_word(locks, locks) + 8 * usize::from(seat)
}

/// The cancel word of a seat, on the cache line of its sign word: a waiter looks for both.
pub fn cancel_word(locks: u32, seat: u16) -> usize
    ensures { result ≡ cancel_at locks seat }
{
    lock_word(locks, locks) + 8 * usize::from(seat) + 1
}

/// The slot of the wait list of a lock.
pub fn list_slot(lock: u32) -> u32
    requires { lock < 16777216 }
    ensures { result ≡ list_at lock }
{
    64 + lock
}
