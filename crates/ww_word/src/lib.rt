//! The owner word of a lock: who owns it and which flags are set, in one number of 64 bits.
#![tactic(auto)]

pub mod laws;
mod owner;
pub mod wide;

pub use owner::{HANDOFF, MAX_SEATS, MAX_STAMP, Owner, PICKUP, WAITERS, pack, unpack};
