//! Which seats a seat wakes once it is outside the guard: marks first, and then bells.

ghost use Rattle.std.specs.Prelude.{ℕ, ◌≡◌, ◌≢◌, ◌<◌, ◌≤◌, ◌*◌, true, length, Some, IfSome};
ghost use Rattle.std.specs.Option.{option_map};
ghost use Rattle.ww_queue.specs.declared.entry.Entry.{Entry};
ghost use Rattle.ww_seat.specs.Bells.{ArePlacedAlike, AreRung, IsRung, OnlyRing};
ghost use Rattle.ww_seat.specs.Marks.{is_marked, AreMarked, IsMarked};

use crate::bell::Bell;
use ww_queue::wide::Entry;

/// Gives a seat a mark.
fn set_mark(marks: &mut [u64], u: u16)
    requires there { u < 64 * length marks.old }
    ensures here { IsMarked marks.new u }
    ensures others { (t : ℕ) → t ≢ u → is_marked marks.new t ≡ is_marked marks.old t }
    ensures long { length marks.new ≡ length marks.old }
{
    marks[usize::from(u / 64)] |= 1 << (u % 64);
}

/// Also wakes a seat that was condemned, except the one that did so, and nobody else: the seats that are to be woken have
/// marks, 64 in a word.
pub fn mark(marks: &mut [u64], who: u16, victim: u16, is_condemned: bool)
    requires victim { victim < 64 * length marks.old }
    ensures marked { AreMarked marks.old (λ u. (is_condemned ≡ true) × (victim ≢ who) × (u ≡ victim)) marks.new }
    ensures long { length marks.new ≡ length marks.old }
{
    if is_condemned && victim != who {
        set_mark(marks, victim);
    }
}

/// Rings for each seat that is to be woken, and for nobody else.
pub(crate) fn deliver(marks: &[u64], bells: &mut [Bell])
    requires few { length marks.now ≤ 64 }
    ensures rung { AreRung marks.now bells.old bells.new }
    ensures placed { ArePlacedAlike bells.old bells.new }
{
    for u in 0..64 * marks.len() {
        if (marks[u / 64] >> (u % 64)) % 2 == 1 {
            wake_seat(u as u16, bells);
        }
    }
}

/// Wakes the first waiter, if there is one.
#[cold]
pub(crate) fn wake_first(first: Option<Entry>, bells: &mut [Bell])
    ensures rung { IfSome first (λ e. IsRung e.seat bells.old bells.new) }
    ensures others { OnlyRing (λ u. option_map (λ (e : Entry). e.seat) first ≡ Some u) bells.old bells.new }
    ensures placed { ArePlacedAlike bells.old bells.new }
{
    if let Some(first) = first {
        wake_seat(first.seat(), bells);
    }
}

/// Wakes a seat. A number that no seat has has no bell.
#[cold]
pub(crate) fn wake_seat(seat: u16, bells: &mut [Bell])
    ensures rung { IsRung seat bells.old bells.new }
    ensures others { OnlyRing (λ u. u ≡ seat) bells.old bells.new }
    ensures placed { ArePlacedAlike bells.old bells.new }
{
    let u = usize::from(seat);
    if u < bells.len() {
        bells[u].ring();
    }
}
