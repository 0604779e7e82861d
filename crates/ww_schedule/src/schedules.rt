//! Schedules of events, as an input writes them.

ghost use Rattle.std.specs.Prelude.{map};
ghost use Rattle.serde_json.specs.View.{view};
ghost use Rattle.ww_json.specs.Parts.{Gives, each};
ghost use Rattle.ww_schedule.specs.Events.{event_in};
ghost use Rattle.ww_schedule.specs.Schedules.{events_in, timetable_in};

use crate::events::event_of;
use serde_json::Value;
use std::alloc::Global;
use std::marker::Model;
use ww_json::{InputFault, counted_of, kind_of, member_of, only_of, ranged_of};
use ww_model::{Event, MAX_LOCKS};
use ww_queue::Kind;
use ww_word::MAX_SEATS;

/// How many events a schedule has at most.
const MAX_EVENTS: usize = 10_000;

/// At most 10,000 events of 1 to 16 seats at 1 to 64 locks, in their order. The numbers in an event are below those of
/// the seats and locks; whether it is possible is another question. Contracts see all of it as a timetable.
#[derive(Debug, Drop)]
pub struct Schedule {
    pub kind: Kind,
    pub locks: u8,
    pub seats: u8,
    pub events: Vec<Event>,
}

impl Model for Schedule {
    ghost use Rattle.ww_schedule.specs.Schedules.{Timetable, IsTimetable, timetable_of};

    ghost Value = { Timetable };

    ghost view = { λ s. timetable_of s.kind s.locks s.seats s.events };

    ghost invariant = { λ s. IsTimetable (timetable_of s.kind s.locks s.seats s.events) };
}

fn each_event(
    alloc: Global,
    seats: u8,
    locks: u8,
    items: &[Value],
) -> Result<Vec<Event>, InputFault>
    ensures { Gives (λ events. events.items) result (each (event_in seats locks) (map view items.now)) }
{
    let mut events = Vec::with_capacity(alloc, items.len())?;
    for item in items {
        let event = event_of(seats, locks, item)?;
        events.push(event)?;
    }
    Ok(events)
}

#[tactic(auto, unfolding(crate::specs::Schedules::events_in))]
fn events_of(alloc: Global, seats: u8, locks: u8, value: &Value) -> Result<Vec<Event>, InputFault>
    ensures { Gives (λ events. events.items) result (events_in seats locks (view value.now)) }
{
    let items = counted_of(0, MAX_EVENTS, value)?;
    each_event(alloc, seats, locks, items)
}

/// All of an input but its version. First the keys are looked at, `members` of them, and then the fields in turn.
#[tactic(auto, unfolding(crate::specs::Schedules::timetable_in))]
pub fn schedule_of(alloc: Global, members: usize, value: &Value) -> Result<Schedule, InputFault>
    ensures { Gives (λ schedule. schedule) result (timetable_in members (view value.now)) }
{
    let kind = member_of("kind", value)?;
    let locks = member_of("locks", value)?;
    let seats = member_of("seats", value)?;
    let events = member_of("events", value)?;
    only_of(5, members)?;
    let kind = kind_of(kind)?;
    let locks = ranged_of(1, MAX_LOCKS as u8, locks)?;
    let seats = ranged_of(1, MAX_SEATS as u8, seats)?;
    let events = events_of(alloc, seats, locks, events)?;
    Ok(Schedule {
        kind,
        locks,
        seats,
        events,
    })
}
