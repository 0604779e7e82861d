//! The core: what no schedule says; and a ring of two contexts, which `growths` replays.

ghost use Rattle.std.specs.Prelude.{◌≡◌, IfOk};
ghost use Rattle.ww_model.specs.Snapshot.{state_of};

use std::alloc::Global;
use std::test::Fail;
use ww_model::{Answer, Core, Event, Holder, ReplayFault, condemned_in, cycle_in, replay};
use ww_queue::{Entry, Kind};

/// What no schedule says: a step of a seat that isn't there, and who of nobody is condemned.
#[test]
fn a_core_refuses_a_seat_that_it_has_not(rt: HostRuntime) -> Result<(), Fail> {
    let mut core = Core::new(rt.alloc(), Kind::WaitDie, 1, 1)?;
    assert!(rt; core.step(Event::Begin(1)).is_err());
    assert!(rt; core.step(Event::Begin(0)).ok() == Some(Answer::Stamp(1)));
    assert!(rt; condemned_in(&core, &[]).is_none());
    Ok(())
}

/// Two contexts that each hold a lock and join the wait list of the other's, as in `program/examples/ring.json`.
pub(crate) const RING: [Event; 11] = [
    Event::Begin(0),
    Event::Begin(1),
    Event::Fast(0, 0),
    Event::Fast(1, 1),
    Event::Guard(1, 0),
    Event::Join(1, 0),
    Event::Unguard(1, 0),
    Event::Guard(0, 1),
    Event::Join(0, 1),
    Event::Sign(0, 1),
    Event::Unguard(0, 1),
];

/// What they are answered.
pub(crate) const RING_ANSWERS: [Answer; 11] = [
    Answer::Stamp(1),
    Answer::Stamp(2),
    Answer::Locked,
    Answer::Locked,
    Answer::Done,
    Answer::Done,
    Answer::Done,
    Answer::Done,
    Answer::Done,
    Answer::Met(1),
    Answer::Done,
];

/// The core after these events of two seats at two locks.
pub(crate) fn replayed(alloc: Global, events: &[Event]) -> Result<Core, ReplayFault>
    ensures locks { IfOk result (λ core. (state_of core).locks ≡ 2) }
    ensures seats { IfOk result (λ core. (state_of core).seats ≡ 2) }
{
    replay(alloc, Kind::WoundWait, 2, 2, events)
}

/// Whether the core is as that example's output tells it: the ring, its condemned member, and each lock and seat.
pub(crate) fn is_ring(core: &Core) -> bool
    requires locks { (state_of core.now).locks ≡ 2 }
    requires seats { (state_of core.now).seats ≡ 2 }
{
    let Some(ring) = cycle_in(core) else {
        return false;
    };
    ring.as_slice() == [0, 1].as_slice()
        && condemned_in(core, ring.as_slice()) == Some(1)
        && (core.owner_of(0), core.owner_of(1)) == (Holder::Taken(0), Holder::Taken(1))
        && core.queue_of(0) == [waiter(1, 2)].as_slice()
        && core.queue_of(1) == [waiter(0, 1)].as_slice()
        && (core.stamp_of(0), core.stamp_of(1)) == (1, 2)
        && (core.sign_of(0), core.sign_of(1)) == (0, 1)
}

/// A waiter that holds a lock.
const fn waiter(seat: u8, stamp: u64) -> Entry {
    Entry {
        seat,
        stamp,
        holds: true,
    }
}
