//! A list of events, from the start to the first that isn't possible.

ghost use Rattle.std.specs.Prelude.{◌≡◌, ◌≤◌, IfOk, IfErr};
ghost use Rattle.ww_word.specs.declared.owner.TheConstants.{MAX_SEATS};
ghost use Rattle.ww_model.specs.declared.state.TheConstants.{MAX_LOCKS};
ghost use Rattle.ww_model.specs.State.{start};
ghost use Rattle.ww_model.specs.Run.{state_after, IsRun, Reached};
ghost use Rattle.ww_model.specs.Snapshot.{state_of};
ghost use Rattle.ww_model.specs.Replay.{IsReplayFault};

use crate::event::Event;
use crate::state::Core;
use std::alloc::Global;
use ww_queue::Kind;

/// Why some events were not replayed.
#[derive(Clone, Copy, Debug, PartialEq, Eq)]
pub enum ReplayFault {
    /// The event of this index is the first that isn't possible.
    Impossible(usize),
    /// A list of the core found no memory.
    NoMemory,
}

/// The core after the events, from the start. Only making the core takes memory.
pub fn replay(
    alloc: Global,
    kind: Kind,
    locks: u8,
    seats: u8,
    events: &[Event],
) -> Result<Core, ReplayFault>
    requires some_lock { 1 ≤ locks }
    requires locks { locks ≤ MAX_LOCKS }
    requires some_seat { 1 ≤ seats }
    requires seats { seats ≤ MAX_SEATS }
    ensures run { IfOk result (λ core. IsRun (start kind locks seats) events.now) }
    ensures state { IfOk result (λ core. state_of core ≡ state_after (start kind locks seats) events.now) }
    ensures reached { IfOk result (λ core. Reached (state_of core)) }
    ensures locks { IfOk result (λ core. (state_of core).locks ≡ locks) }
    ensures seats { IfOk result (λ core. (state_of core).seats ≡ seats) }
    ensures fault { IfErr result (IsReplayFault (start kind locks seats) events.now) }
{
    let Ok(mut core) = Core::new(alloc, kind, locks, seats) else {
        return Err(ReplayFault::NoMemory);
    };
    for (i, event) in events.iter().enumerate() {
        if core.step(*event).is_err() {
            return Err(ReplayFault::Impossible(i));
        }
    }
    Ok(core)
}
