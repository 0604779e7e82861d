//! What holds of whoever makes the calls: no two passes hold one node and no two desks one lock, and drivers of desks
//! lose no wake-up, and no deadlock of theirs lasts. Each function's contract is a law, and there is no code.
#![tactic(auto)]

pub mod drives;
pub mod exclusion;
pub mod handing;
pub mod uses;
pub mod witness;
