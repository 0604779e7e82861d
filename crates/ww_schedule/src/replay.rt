//! The text of a schedule's replay, line by line.

ghost use Rattle.std.specs.Prelude.{◌≡◌, ◌<◌, ◌≤◌, ◌++◌, string_bytes, Some, OnOk, IfOk};
ghost use Rattle.std.specs.List.{flat_map};
ghost use Rattle.ww_model.specs.Snapshot.{state_of};
ghost use Rattle.ww_json.specs.Pieces.{spaced};
ghost use Rattle.ww_schedule.specs.ScheduleText.{answer_text, event_line, ring_line, condemned_line, stamped, owner_text, entry_text, lock_line};
ghost use Rattle.ww_schedule.specs.Replay.{first_state, owner_stamp, line_of_lock, line_of_seat, below_count, AreTold, IsRingTold, IsReplayTold, IsTextOf, HasOneText};

use crate::schedules::Schedule;
use std::alloc::{AllocError, Global};
use ww_json::{push_number, push_option};
use ww_model::{Answer, Core, Event, Holder, condemned_in, cycle_in};
use ww_queue::Entry;

fn push_answer(out: &mut String, answer: Answer) -> Result<(), AllocError>
    ensures { OnOk result (string_bytes out.new ≡ string_bytes out.old ++ answer_text answer) }
{
    match answer {
        Answer::Stamp(stamp) => push_number(out, "stamp ", stamp),
        Answer::Done => out.push_str("ok"),
        Answer::Locked => out.push_str("locked"),
        Answer::Met(stamp) => push_number(out, "met ", stamp),
        Answer::Handed(seat) => push_number(out, "handed ", seat),
        Answer::Free => out.push_str("free"),
        Answer::Deadlk(stamp) => push_number(out, "deadlk ", stamp),
        Answer::Place(place) => push_number(out, "place ", place),
        Answer::Interrupted(seat) => push_number(out, "interrupted ", seat),
    }
}

#[tactic(auto, unfolding(crate::specs::ScheduleText::event_line))]
fn push_event_line(out: &mut String, index: usize, answer: Answer) -> Result<(), AllocError>
    ensures { OnOk result (string_bytes out.new ≡ string_bytes out.old ++ event_line index answer) }
{
    push_number(out, "event ", index)?;
    out.push_str(" ")?;
    push_answer(out, answer)?;
    out.push_str("\n")
}

fn push_ring_seats(out: &mut String, seats: &[u8]) -> Result<(), AllocError>
    ensures { OnOk result (string_bytes out.new ≡ string_bytes out.old ++ flat_map spaced seats.now) }
{
    for seat in seats {
        push_number(out, " ", *seat)?;
    }
    Ok(())
}

/// A seat and its stamp, behind a text.
fn push_stamped(out: &mut String, before: &str, seat: u8, stamp: u64) -> Result<(), AllocError>
    ensures { OnOk result (string_bytes out.new ≡ string_bytes out.old ++ before.now ++ stamped seat stamp) }
{
    push_number(out, before, seat)?;
    push_number(out, "/", stamp)
}

fn push_owner(out: &mut String, owner: Holder, stamp: u64) -> Result<(), AllocError>
    ensures { OnOk result (string_bytes out.new ≡ string_bytes out.old ++ owner_text owner stamp) }
{
    match owner {
        Holder::Nobody => out.push_str("-"),
        Holder::Taken(seat) => push_stamped(out, "", seat, stamp),
        Holder::Handed(seat) => {
            push_stamped(out, "", seat, stamp)?;
            out.push_str("h")
        }
    }
}

fn push_entry(out: &mut String, entry: &Entry) -> Result<(), AllocError>
    ensures { OnOk result (string_bytes out.new ≡ string_bytes out.old ++ entry_text entry.now) }
{
    push_stamped(out, " ", entry.seat, entry.stamp)?;
    if entry.holds {
        out.push_str("+")
    } else {
        Ok(())
    }
}

fn push_queue(out: &mut String, queue: &[Entry]) -> Result<(), AllocError>
    ensures { OnOk result (string_bytes out.new ≡ string_bytes out.old ++ flat_map entry_text queue.now) }
{
    for entry in queue {
        push_entry(out, entry)?;
    }
    Ok(())
}

#[tactic(auto, unfolding(crate::specs::ScheduleText::lock_line))]
fn push_lock_line(
    out: &mut String,
    lock: u8,
    owner: Holder,
    stamp: u64,
    queue: &[Entry],
) -> Result<(), AllocError>
    ensures { OnOk result (string_bytes out.new ≡ string_bytes out.old ++ lock_line lock owner stamp queue.now) }
{
    push_number(out, "lock ", lock)?;
    out.push_str(" ")?;
    push_owner(out, owner, stamp)?;
    out.push_str(" :")?;
    push_queue(out, queue)?;
    out.push_str("\n")
}

/// The stamp of the lock's owner, 0 of none.
fn stamp_of_owner(core: &Core, lock: u8) -> u64
    requires { lock < (state_of core.now).locks }
    ensures { result ≡ owner_stamp (state_of core.now) ((state_of core.now).owner lock) }
{
    match core.owner_of(lock) {
        Holder::Nobody => 0,
        Holder::Taken(seat) => core.stamp_of(seat),
        Holder::Handed(seat) => core.stamp_of(seat),
    }
}

#[tactic(auto, unfolding(crate::specs::Replay::line_of_lock))]
fn push_lock(out: &mut String, core: &Core, lock: u8) -> Result<(), AllocError>
    requires { lock < (state_of core.now).locks }
    ensures { OnOk result (string_bytes out.new ≡ string_bytes out.old ++ line_of_lock (state_of core.now) lock) }
{
    let stamp = stamp_of_owner(core, lock);
    push_lock_line(out, lock, core.owner_of(lock), stamp, core.queue_of(lock))
}

fn push_locks(out: &mut String, core: &Core, locks: u8) -> Result<(), AllocError>
    requires { locks ≤ (state_of core.now).locks }
    ensures { OnOk result (string_bytes out.new ≡ string_bytes out.old
        ++ below_count locks (line_of_lock (state_of core.now))) }
{
    for lock in 0..locks {
        push_lock(out, core, lock)?;
    }
    Ok(())
}

#[tactic(auto, unfolding(crate::specs::Replay::line_of_seat, crate::specs::ScheduleText::seat_line))]
fn push_seat(out: &mut String, core: &Core, seat: u8) -> Result<(), AllocError>
    requires { seat < (state_of core.now).seats }
    ensures { OnOk result (string_bytes out.new ≡ string_bytes out.old ++ line_of_seat (state_of core.now) seat) }
{
    let stamp = core.stamp_of(seat);
    let sign = core.sign_of(seat);
    push_number(out, "seat ", seat)?;
    push_number(out, " ", stamp)?;
    push_number(out, " ", sign)?;
    out.push_str("\n")
}

fn push_seats(out: &mut String, core: &Core, seats: u8) -> Result<(), AllocError>
    requires { seats ≤ (state_of core.now).seats }
    ensures { OnOk result (string_bytes out.new ≡ string_bytes out.old
        ++ below_count seats (line_of_seat (state_of core.now))) }
{
    for seat in 0..seats {
        push_seat(out, core, seat)?;
    }
    Ok(())
}

/// The events up to the first that isn't possible. The core is left as it is after them.
fn push_events(out: &mut String, core: &mut Core, events: &[Event]) -> Result<(), AllocError>
    ensures { OnOk result (AreTold (state_of core.old) events.now (state_of core.new)
        (string_bytes out.old) (string_bytes out.new)) }
{
    for (index, event) in events.iter().enumerate() {
        match core.step(*event) {
            Ok(answer) => push_event_line(out, index, answer)?,
            Err(_) => return writeln!(out, "impossible {index}"),
        }
    }
    Ok(())
}

#[tactic(auto, unfolding(crate::specs::ScheduleText::ring_line))]
fn push_ring_line(out: &mut String, ring: &[u8]) -> Result<(), AllocError>
    ensures { OnOk result (string_bytes out.new ≡ string_bytes out.old ++ ring_line (Some ring.now)) }
{
    out.push_str("ring")?;
    push_ring_seats(out, ring)?;
    out.push_str("\n")
}

#[tactic(auto, unfolding(crate::specs::ScheduleText::condemned_line))]
fn push_condemned_line(out: &mut String, seat: Option<u8>) -> Result<(), AllocError>
    ensures { OnOk result (string_bytes out.new ≡ string_bytes out.old ++ condemned_line seat) }
{
    out.push_str("condemned")?;
    push_option(out, seat)?;
    out.push_str("\n")
}

/// The ring of the core, and who of it is condemned.
fn push_ring(out: &mut String, core: &Core) -> Result<(), AllocError>
    ensures { OnOk result (IsRingTold (state_of core.now) (string_bytes out.old) (string_bytes out.new)) }
{
    match cycle_in(core) {
        None => {
            out.push_str("ring -\n")?;
            push_condemned_line(out, None)
        }
        Some(ring) => {
            push_ring_line(out, &ring)?;
            push_condemned_line(out, condemned_in(core, &ring))
        }
    }
}

/// Writes what the events of the schedule return, and the state after them, from the start.
fn push_replay(out: &mut String, core: &mut Core, schedule: &Schedule) -> Result<(), AllocError>
    requires { state_of core.old ≡ first_state schedule.now }
    ensures { OnOk result (IsReplayTold schedule.now (string_bytes out.old) (string_bytes out.new)) }
{
    push_events(out, core, &schedule.events)?;
    push_ring(out, core)?;
    push_locks(out, core, schedule.locks)?;
    push_seats(out, core, schedule.seats)
}

/// The lines of a schedule: what its events return up to the first that isn't possible, and the state after those.
pub fn schedule_text(alloc: Global, schedule: &Schedule) -> Result<Vec<u8>, AllocError>
    ensures { IfOk result (λ text. IsTextOf schedule.now text.items) }
{
    let mut out = String::new(alloc);
    let mut core = Core::new(alloc, schedule.kind, schedule.locks, schedule.seats)?;
    push_replay(&mut out, &mut core, schedule)?;
    Ok(out.into_bytes())
}

/// A law of the definition of [`schedule_text`]: no schedule has two texts.
pub fn a_schedule_has_one_text()
    ensures { HasOneText }
{}
