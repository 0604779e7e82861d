//! The locks for callers that wait by themselves: a [`Desk`] for each seat of a world, which knows where the seat's
//! call stands.
//!
//! A call of a desk makes a few steps and waits for nobody. One that would wait returns that it wants another step, now
//! or once somebody has woken the seat, and [`Desk::go_on`] makes that step. Each call may be made at any time,
//! whatever was called before, and returns what became of it.
#![tactic(auto)]

mod contexts;
mod desk;
mod giving;
mod going_on;
mod opening;
mod outlook;
mod station;
mod taking;
mod turn;

pub use desk::Desk;
pub use opening::{MAX_CONTEXTS, MAX_LOCKS, NoDesk, Office, OpenFault};
pub use outlook::{Age, NoOutlook, Outlook};
pub use turn::{Answer, Turn};
