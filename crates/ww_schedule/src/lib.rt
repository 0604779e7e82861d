//! Schedules of lock events, how an input writes them, and how their replay by the core is written.
#![tactic(auto)]

mod events;
mod replay;
mod schedules;

pub use replay::{a_schedule_has_one_text, schedule_text};
pub use schedules::{Schedule, schedule_of};
