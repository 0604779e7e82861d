//! The core of the locks: contexts, owners, wait lists, guards and signs, and the events that change them.
#![tactic(auto)]

mod contexts;
mod event;
mod fast;
mod guarded;
mod interrupts;
mod run;
mod state;
mod step;
mod terms;
mod waits;

pub use event::{Answer, Event, NotPossible};
pub use run::{ReplayFault, replay};
pub use state::{Core, Holder, MAX_LOCKS};
pub use waits::{condemned_in, cycle_in};
