//! How a call stays away from a lock that it has just tried in vain, as data: how many spin reads it makes, how many
//! pauses it rests between two of the lock, how often it lets other threads run meanwhile, and when that took too long. It
//! waits for nobody and reads nothing; each number of it stands here and nowhere else.

ghost use Rattle.std.specs.Prelude.{◌≡◌, ◌<◌, ◌≤◌, ◌+◌, ◌↔◌, nat_eq, if◌then◌else◌, true, false, IsTrue, None, IfSome};
ghost use Rattle.ww_seat.specs.Rests.{EndsIfFree, EndsAfter, IsLate, first_with, Rests};

use ww_word::wide::Owner;

/// How many spin reads a call makes at most, of its lock and of the stamp word.
pub const MOST_GLANCES: u8 = 16;

/// How many pauses a call rests at most, all its rests together.
pub const MOST_PAUSES: u32 = 12_416;

/// A call joins once so many contexts have begun since the first that it saw, however few pauses that took: on busy
/// processors other programs may have run meanwhile.
const LATE: u64 = 4096;

/// A context that still owns the lock after this many pauses works for longer.
const MOMENT: u32 = 12;

/// A seat that holds locks rests shortly, since others may wait for these: so often, and for so many pauses at most. Its
/// pass rests between its contexts too, where they keep meeting others (`Pace`).
const RESTS_HOLDING: u8 = 12;

const PAUSES_HOLDING: u32 = 32;

/// How often a seat that holds nothing rests, and for how many pauses at most, if the owner is quick.
const RESTS_QUICK: u8 = 2;

const PAUSES_QUICK: u32 = 6144;

/// The same if the owner works for longer.
const RESTS_LONGER: u8 = 7;

const PAUSES_LONGER: u32 = 1024;

/// Each time after this many pauses of a rest another thread may have the processor: it may be the one that has the lock.
pub(crate) const BREATH: u32 = 64;

/// The fewest pauses of a seat that holds nothing.
const FEWEST: u32 = 8;

/// At most this many doublings of that, for a seat that keeps losing its first tries.
const MOST_LOSSES: u32 = 10;

/// A law of these numbers: a call makes sixteen spin reads at most, and rests for 12,416 pauses at most.
pub fn limits()
    ensures glances { MOST_GLANCES ≡ 16 }
    ensures pauses { MOST_PAUSES ≡ 12416 }
{}

/// What a pass remembers of its first tries, from call to call. No contract speaks of it. It isn't said when one wins: that
/// would cost each lock a test.
#[derive(Drop)]
pub(crate) struct Memory {
    /// Grows with each first try, of a seat that holds nothing, that is lost to an owner who is quick, and shrinks again
    /// where owners work.
    losses: u32,
}

impl Memory {
    pub(crate) fn new() -> Memory {
        Memory { losses: 0 }
    }

    /// A first try has lost, to an owner who is done in a moment.
    fn lose(&mut self) {
        self.losses = MOST_LOSSES.min(self.losses.saturating_add(1));
    }

    /// A first try has lost, to an owner who works longer: who waits for that had better sleep.
    fn lose_to_work(&mut self) {
        self.losses = self.losses.saturating_sub(1);
    }

    /// How many pauses the first long rest has.
    fn pauses(&self) -> u32 {
        FEWEST << self.losses.min(MOST_LOSSES)
    }
}

/// A rest between two spin reads of a lock.
#[derive(Clone, Copy, Debug, PartialEq, Eq)]
pub(crate) struct Rest {
    pub(crate) pauses: u32,
    /// How often it yields meanwhile: after each 64 pauses.
    pub(crate) yields: u32,
}

/// The rests of a call that knows how long the owners of its lock take.
#[derive(Clone, Copy, Debug, PartialEq, Eq)]
struct Plan {
    /// How many rests are left.
    rests: u8,
    /// How many pauses the next one has; each has twice as many as the one before, up to the longest.
    next: u32,
    longest: u32,
}

/// What a call that stays away knows of the lock's owner.
#[derive(Clone, Copy, Debug, PartialEq, Eq)]
enum Seen {
    /// It has made no spin read yet.
    Nothing,
    /// It has made one spin read.
    Once(Owner),
    /// It knows how long its rests are.
    Enough(Plan),
}

/// Where a call stands that stays away. It begins anew with each call.
#[derive(Clone, Copy, Debug, PartialEq, Eq)]
pub(crate) struct Stay {
    /// How many spin reads are left.
    pub(crate) glances: u8,
    /// How many pauses are left.
    pub(crate) pauses: u32,
    holds: bool,
    seen: Seen,
    /// The first stamp that it saw, 0 before.
    first: u64,
    /// How often it has let other threads run.
    yields: u32,
}

impl Stay {
    /// A call that has just lost its first try; whether its seat holds a lock.
    pub(crate) fn new(holds: bool) -> Stay
        ensures glances { result.glances ≡ 16 }
        ensures pauses { result.pauses ≡ 12416 }
    {
        Stay {
            glances: MOST_GLANCES,
            pauses: MOST_PAUSES,
            holds,
            seen: Seen::Nothing,
            first: 0,
            yields: 0,
        }
    }

    /// What comes after a spin read of the lock that saw this owner: a rest and one more such read; or nothing, as the call
    /// joins the wait list.
    pub(crate) fn next(&mut self, memory: &mut Memory, owner: Owner) -> Option<Rest>
        requires { 1 ≤ self.old.glances }
        ensures free { owner.seat ≡ None → (result ≡ None) ↔ EndsIfFree self.old }
        ensures late { IsLate self.old.first owner → result ≡ None }
        ensures first { self.new.first ≡ first_with self.old.first owner }
        ensures rests { IfSome result (λ rest. Rests self.old self.new rest) }
    {
        self.glances -= 1;
        let ends = match owner.seat() {
            None => self.seen.ends_if_free(),
            Some(_) => self.is_late(owner.stamp()) || self.seen.is_over(),
        };
        self.seen = self.seen.learned(memory, self.holds, owner);
        if ends || self.glances == 0 {
            return None;
        }
        let wanted = self.seen.pauses();
        let pauses = wanted.min(self.pauses);
        self.pauses -= pauses;
        Some(Rest {
            pauses,
            yields: pauses / BREATH,
        })
    }

    /// It has let other threads run once more. Whether a spin read shows now how late it is: that is so after 1, 2, 4, 8
    /// and so on of these, as long as one is left besides.
    pub(crate) fn yielded(&mut self) -> bool
        requires { 1 ≤ self.old.glances }
        ensures reads { result ≡ true → self.new.glances + 1 ≡ self.old.glances }
        ensures rests { result ≡ false → self.new.glances ≡ self.old.glances }
        ensures one { 1 ≤ self.new.glances }
        ensures pauses { self.new.pauses ≡ self.old.pauses }
        ensures first { self.new.first ≡ self.old.first }
    {
        self.yields = self.yields.saturating_add(1);
        let looks = self.yields.is_power_of_two() && self.glances > 1;
        self.glances -= u8::from(looks);
        looks
    }

    /// Whether so many contexts have begun since the first that it saw, by the stamp that it sees now. Whoever has no
    /// context tells nothing of that.
    pub(crate) fn is_late(&mut self, stamp: u64) -> bool
        ensures glances { self.new.glances ≡ self.old.glances }
        ensures pauses { self.new.pauses ≡ self.old.pauses }
        ensures seen { self.new.seen ≡ self.old.seen }
        ensures first { self.new.first ≡ (if nat_eq self.old.first 0 then stamp else self.old.first) }
        ensures late { 0 < self.old.first → self.old.first + 4096 ≤ stamp → result ≡ true }
    {
        if self.first == 0 {
            self.first = stamp;
        }
        stamp.saturating_sub(self.first) >= LATE
    }
}

impl Seen {
    /// Whether a lock that nobody owns ends the stay.
    fn ends_if_free(self) -> bool
        ensures { IsTrue result ↔ EndsAfter self }
    {
        match self {
            Seen::Nothing | Seen::Enough(_) => true,
            Seen::Once(_) => false,
        }
    }

    /// What it knows once it saw this owner too; whether its seat holds a lock.
    fn learned(self, memory: &mut Memory, holds: bool, owner: Owner) -> Seen {
        match self {
            Seen::Nothing if holds => Seen::planned(RESTS_HOLDING, 1, PAUSES_HOLDING),
            Seen::Nothing => {
                if owner.seat().is_none() {
                    memory.lose();
                }
                Seen::Once(owner)
            }
            Seen::Once(before) if is_same(before, owner) => {
                memory.lose_to_work();
                Seen::planned(RESTS_LONGER, memory.pauses(), PAUSES_LONGER)
            }
            Seen::Once(_) => {
                memory.lose();
                Seen::planned(RESTS_QUICK, memory.pauses(), PAUSES_QUICK)
            }
            Seen::Enough(_) => self,
        }
    }

    fn planned(rests: u8, first: u32, longest: u32) -> Seen {
        Seen::Enough(Plan {
            rests,
            next: longest.min(first),
            longest,
        })
    }

    /// Whether no rest is left.
    fn is_over(self) -> bool {
        matches!(self, Seen::Enough(plan) if plan.rests == 0)
    }

    /// The pauses of the next rest.
    fn pauses(&mut self) -> u32 {
        match self {
            Seen::Enough(plan) => plan.rest(),
            _ => MOMENT,
        }
    }
}

impl Plan {
    /// The pauses of the next rest, which is one fewer that is left.
    fn rest(&mut self) -> u32 {
        let pauses = self.next;
        self.rests = self.rests.saturating_sub(1);
        self.next = self.longest.min(pauses.saturating_mul(2));
        pauses
    }
}

/// Whether it is still the same context that owns the lock. An owner without a context can't be recognized.
fn is_same(before: Owner, now: Owner) -> bool {
    now.stamp() != 0 && before.seat() == now.seat() && before.stamp() == now.stamp()
}
