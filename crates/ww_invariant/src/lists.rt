//! The wait list that a seat took last, read and changed in its slot. None of this is a step: nobody else sees it.
ghost use Rattle.std.specs.Prelude.{◌≡◌, ◌<◌, ◌≤◌, ◌↔◌, ◌⊎◌, ◌∷◌, ◌++◌, List, length, slice_get, IsSome, IfSome, IfNone};
ghost use Rattle.atomic_table.specs.Table.{rest};
ghost use Rattle.ww_queue.specs.declared.entry.Entry.{Entry};
ghost use Rattle.ww_queue.specs.Queue.{Stands, joined, left};
ghost use Rattle.ww_queue.specs.Rules.{must_die};
ghost use Rattle.ww_queue.specs.AnySeats.{signs_past};
ghost use Rattle.ww_model.specs.State.{waiting};
ghost use Rattle.ww_view.specs.Word.{given_word};
ghost use Rattle.ww_invariant.specs.declared.cells.Cell.TheVariants.{Line};

use crate::cells::{Cell, TableSeat, Top};
use crate::pages::{Page, Waiters};
use arrayvec::ArrayVec;
use ww_queue::Kind;
use ww_queue::wide::{Entry, SOME_SIGNS};
use ww_word::WAITERS;
use ww_word::wide::Owner;

/// The flag of the waiters that are left in a list once this seat has gone.
fn flag_without(waiters: &Waiters, who: u16) -> u8
    ensures { result ≡ waiting (left waiters.now who) }
{
    match waiters.first() {
        None => 0,
        Some(first) if waiters.count() == 1 && first.seat() == who => 0,
        Some(_) => WAITERS,
    }
}

/// The owner of a lock that is released, with this wait list.
fn owner_after(waiters: &Waiters, is_asked: bool) -> Owner
    ensures { result ≡ given_word is_asked waiters.now }
{
    match waiters.first() {
        None => Owner::of(None, 0, 0),
        Some(first) if is_asked => Owner::handed_to(first.seat(), first.stamp()),
        Some(_) => Owner::of(None, 0, WAITERS),
    }
}

/// The flag of the waiters that are left in the list that was taken last, once this seat has gone.
pub fn flag_there(seat: &mut TableSeat, shared: &Top, slot: u32, who: u16) -> u8
    requires home { seat.old.table_id ≡ shared.now.table_id }
    requires top { (q : List Entry) × (seat.old.me.1 ≡ (slot, Line q) ∷ rest seat.old.me.1) }
    ensures home { (seat.new.table_id ≡ seat.old.table_id) × (seat.new.id ≡ seat.old.id) }
    ensures same { seat.new.me ≡ seat.old.me }
    ensures flag { (q : List Entry) → seat.old.me.1 ≡ (slot, Line q) ∷ rest seat.old.me.1 → result ≡ waiting (left q who) }
{
    match seat.slot_mut(shared, slot as usize) {
        Cell::Line(waiters) => flag_without(waiters, who),
        Cell::Content(_) => unreachable!(),
    }
}

/// Puts a waiter with its page into the list that was taken last.
pub fn join_list(seat: &mut TableSeat, shared: &Top, slot: u32, page: Page, entry: Entry)
    requires home { seat.old.table_id ≡ shared.now.table_id }
    requires top { (q : List Entry) × (seat.old.me.1 ≡ (slot, Line q) ∷ rest seat.old.me.1) × (length q < 4096) }
    ensures home { (seat.new.table_id ≡ seat.old.table_id) × (seat.new.id ≡ seat.old.id) }
    ensures view { seat.new.me.0 ≡ seat.old.me.0 }
    ensures list { (q : List Entry) → seat.old.me.1 ≡ (slot, Line q) ∷ rest seat.old.me.1 → seat.new.me.1 ≡ (slot, Line (joined q entry)) ∷ rest seat.old.me.1 }
{
    match seat.slot_mut(shared, slot as usize) {
        Cell::Line(waiters) => waiters.join(page, entry),
        Cell::Content(_) => unreachable!(),
    }
}

/// Takes the seat out of the list that was taken last, and gives it a page if it stands there, else back the one that it
/// has.
pub fn leave_list(
    seat: &mut TableSeat,
    shared: &Top,
    slot: u32,
    who: u16,
    page: Option<Page>,
) -> Option<Page>
    requires home { seat.old.table_id ≡ shared.now.table_id }
    requires top { (q : List Entry) × (seat.old.me.1 ≡ (slot, Line q) ∷ rest seat.old.me.1) }
    ensures home { (seat.new.table_id ≡ seat.old.table_id) × (seat.new.id ≡ seat.old.id) }
    ensures view { seat.new.me.0 ≡ seat.old.me.0 }
    ensures list { (q : List Entry) → seat.old.me.1 ≡ (slot, Line q) ∷ rest seat.old.me.1 → seat.new.me.1 ≡ (slot, Line (left q who)) ∷ rest seat.old.me.1 }
    ensures page { (q : List Entry) → seat.old.me.1 ≡ (slot, Line q) ∷ rest seat.old.me.1 → IsSome result ↔ (IsSome page ⊎ Stands q who) }
{
    match seat.slot_mut(shared, slot as usize) {
        Cell::Line(waiters) => waiters.leave(who).or(page),
        Cell::Content(_) => unreachable!(),
    }
}

/// The owner of a lock that is released, with the list that was taken last.
pub fn owner_there(seat: &mut TableSeat, shared: &Top, slot: u32, is_asked: bool) -> Owner
    requires home { seat.old.table_id ≡ shared.now.table_id }
    requires top { (q : List Entry) × (seat.old.me.1 ≡ (slot, Line q) ∷ rest seat.old.me.1) }
    ensures home { (seat.new.table_id ≡ seat.old.table_id) × (seat.new.id ≡ seat.old.id) }
    ensures same { seat.new.me ≡ seat.old.me }
    ensures owner { (q : List Entry) → seat.old.me.1 ≡ (slot, Line q) ∷ rest seat.old.me.1 → result ≡ given_word is_asked q }
{
    match seat.slot_mut(shared, slot as usize) {
        Cell::Line(waiters) => owner_after(waiters, is_asked),
        Cell::Content(_) => unreachable!(),
    }
}

/// The stamp for which this seat has to die, by the list that was taken last.
pub fn death_there(
    seat: &mut TableSeat,
    shared: &Top,
    slot: u32,
    kind: Kind,
    seen: Owner,
    who: u16,
    sign: u64,
) -> Option<u64>
    requires home { seat.old.table_id ≡ shared.now.table_id }
    requires top { (q : List Entry) × (seat.old.me.1 ≡ (slot, Line q) ∷ rest seat.old.me.1) }
    ensures home { (seat.new.table_id ≡ seat.old.table_id) × (seat.new.id ≡ seat.old.id) }
    ensures same { seat.new.me ≡ seat.old.me }
    ensures death { (q : List Entry) → seat.old.me.1 ≡ (slot, Line q) ∷ rest seat.old.me.1 → result ≡ must_die kind seen q who sign }
{
    match seat.slot_mut(shared, slot as usize) {
        Cell::Line(waiters) => waiters.death(kind, seen, who, sign),
        Cell::Content(_) => unreachable!(),
    }
}

/// Some of those to whom this seat owes a sign, by the list that was taken last, of the waiters from a place on; and from
/// which place on there are more.
pub fn owed_there(
    seat: &mut TableSeat,
    shared: &Top,
    slot: u32,
    kind: Kind,
    seen: Owner,
    who: u16,
    from: usize,
) -> (ArrayVec<(u16, u64), SOME_SIGNS>, Option<usize>)
    requires home { seat.old.table_id ≡ shared.now.table_id }
    requires top { (q : List Entry) × (seat.old.me.1 ≡ (slot, Line q) ∷ rest seat.old.me.1) }
    ensures home { (seat.new.table_id ≡ seat.old.table_id) × (seat.new.id ≡ seat.old.id) }
    ensures same { seat.new.me ≡ seat.old.me }
    ensures all { (q : List Entry) → seat.old.me.1 ≡ (slot, Line q) ∷ rest seat.old.me.1 → IfNone result.1 (result.0.items ≡ signs_past kind seen q who from) }
    ensures some { (q : List Entry) → seat.old.me.1 ≡ (slot, Line q) ∷ rest seat.old.me.1 → IfSome result.1 (λ next. result.0.items ++ signs_past kind seen q who next ≡ signs_past kind seen q who from) }
    ensures further { (q : List Entry) → seat.old.me.1 ≡ (slot, Line q) ∷ rest seat.old.me.1 → IfSome result.1 (λ next. (from < next) × (next ≤ length q)) }
{
    match seat.slot_mut(shared, slot as usize) {
        Cell::Line(waiters) => waiters.owed(kind, seen, who, from),
        Cell::Content(_) => unreachable!(),
    }
}

/// The first waiter in the list that was taken last.
pub fn first_there(seat: &mut TableSeat, shared: &Top, slot: u32) -> Option<Entry>
    requires home { seat.old.table_id ≡ shared.now.table_id }
    requires top { (q : List Entry) × (seat.old.me.1 ≡ (slot, Line q) ∷ rest seat.old.me.1) }
    ensures home { (seat.new.table_id ≡ seat.old.table_id) × (seat.new.id ≡ seat.old.id) }
    ensures same { seat.new.me ≡ seat.old.me }
    ensures first { (q : List Entry) → seat.old.me.1 ≡ (slot, Line q) ∷ rest seat.old.me.1 → result ≡ slice_get q 0 }
{
    match seat.slot_mut(shared, slot as usize) {
        Cell::Line(waiters) => waiters.first(),
        Cell::Content(_) => unreachable!(),
    }
}
