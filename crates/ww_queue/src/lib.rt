//! The wait list of one lock, and the rules by which its waiters wound, are wounded and die.
#![tactic(auto)]

mod entry;
mod kind;
pub mod laws;
mod queue;
mod rules;
pub mod wide;

pub use entry::Entry;
pub use kind::Kind;
pub use queue::{MAX_WAITERS, Queue};
pub use rules::{must_die, owed_signs};
