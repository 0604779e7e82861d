//! The laws of the table: every step of a seat is one event of the core, or none. They have no code: each function's
//! contract is one.
#![tactic(auto)]

pub mod laws;
pub mod laws_inside;
pub mod laws_no_event;
