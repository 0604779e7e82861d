//! Whole runs of threads at a table are runs of scenes: each function's contract is a sentence of `specs/`, and there
//! is no code.
#![tactic(auto)]

pub mod contexts;
pub mod deadlocks;
pub mod endless;
pub mod handing;
pub mod plays;
pub mod runs;
