//! The forms of events. All of an event's own faults are reported before any fault of its members.

ghost use Rattle.std.specs.Prelude.{map};
ghost use Rattle.serde_json.specs.View.{view};
ghost use Rattle.ww_json.specs.Parts.{Says};
ghost use Rattle.ww_schedule.specs.Events.{seat_of as seat_members, both_of as both_members, event_with, event_in};

use serde_json::Value;
use ww_json::{InputFault, array_of, below_of, text_of};
use ww_model::Event;

/// One member, a seat.
fn seat_of(seats: u8, members: &[Value]) -> Result<u8, InputFault>
    ensures { Says (λ seat. seat) result (seat_members seats (map view members.now)) }
{
    match members {
        [seat] => below_of(seats, seat),
        _ => Err(InputFault::BadWord),
    }
}

/// Two members, a seat and a number below the limit.
fn both_of(seats: u8, limit: u8, members: &[Value]) -> Result<(u8, u8), InputFault>
    ensures { Says (λ both. both) result (both_members seats limit (map view members.now)) }
{
    match members {
        [seat, other] => {
            let seat = below_of(seats, seat)?;
            let other = below_of(limit, other)?;
            Ok((seat, other))
        }
        _ => Err(InputFault::BadWord),
    }
}

/// What follows the word of an event.
#[tactic(auto, unfolding(crate::specs::Events::event_with))]
fn worded_of(seats: u8, locks: u8, word: &str, members: &[Value]) -> Result<Event, InputFault>
    ensures { Says (λ event. event) result (event_with seats locks word.now (map view members.now)) }
{
    match word {
        "begin" => seat_of(seats, members).map(Event::Begin),
        "clear" => seat_of(seats, members).map(Event::Clear),
        "fast" => both_of(seats, locks, members).map(|(seat, lock)| Event::Fast(seat, lock)),
        "fast-give" => both_of(seats, locks, members).map(|(seat, lock)| Event::FastGive(
            seat, lock,
        )),
        "guard" => both_of(seats, locks, members).map(|(seat, lock)| Event::Guard(seat, lock)),
        "join" => both_of(seats, locks, members).map(|(seat, lock)| Event::Join(seat, lock)),
        "sign" => both_of(seats, seats, members).map(|(seat, victim)| Event::Sign(seat, victim)),
        "take" => both_of(seats, locks, members).map(|(seat, lock)| Event::Take(seat, lock)),
        "ask" => both_of(seats, locks, members).map(|(seat, lock)| Event::Ask(seat, lock)),
        "give" => both_of(seats, locks, members).map(|(seat, lock)| Event::Give(seat, lock)),
        "die" => both_of(seats, locks, members).map(|(seat, lock)| Event::Die(seat, lock)),
        "unguard" => both_of(seats, locks, members).map(|(seat, lock)| Event::Unguard(seat, lock)),
        "commit" => seat_of(seats, members).map(Event::Commit),
        "end" => seat_of(seats, members).map(Event::End),
        "cancel" => both_of(seats, seats, members).map(|(seat, victim)| Event::Cancel(
            seat, victim,
        )),
        "heed" => both_of(seats, locks, members).map(|(seat, lock)| Event::Heed(seat, lock)),
        "leave" => both_of(seats, locks, members).map(|(seat, lock)| Event::Leave(seat, lock)),
        _ => Err(InputFault::BadWord),
    }
}

/// A word, and then the members that it asks for.
#[tactic(auto, unfolding(crate::specs::Events::event_in))]
pub(crate) fn event_of(seats: u8, locks: u8, value: &Value) -> Result<Event, InputFault>
    ensures { Says (λ event. event) result (event_in seats locks (view value.now)) }
{
    match array_of(value)?.as_slice() {
        [word, members @ ..] => worded_of(seats, locks, text_of(word)?, members),
        [] => Err(InputFault::BadWord),
    }
}
