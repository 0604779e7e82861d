//! The calls of the locks, by the steps of one seat at the table.
#![tactic(auto)]

mod bell;
mod committing;
mod context;
mod fast;
mod giving;
mod guard;
mod interrupting;
mod leaving;
mod look;
mod pacing;
mod patience;
mod resting;
mod seats;
mod signs;
mod standing;
mod staying_away;
mod taking;
mod turns;
mod waiting;
mod waits;
mod wake;

pub use bell::{Bell, Parker, Wire};
pub use committing::NodeChange;
pub use look::{Arrival, Attempt, Look};
pub use patience::{Patience, Waited};
pub use resting::{MOST_GLANCES, MOST_PAUSES, limits};
pub use seats::Seat;
pub use waiting::NoLock;
pub use waits::Waits;
pub use wake::mark;
