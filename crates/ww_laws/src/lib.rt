//! The laws of the core, of its sleepers, and of endless runs of these: each function's contract is one, and there is no
//! code. The sentences stand in `specs/`, and those of `events`, `states` and `theorem` in `specs/` of `ww_model`.
#![tactic(auto)]

// the core
pub mod events;
pub mod states;
pub mod theorem;

// the core with its sleepers
pub mod in_call;
pub mod sleepers;

// endless runs of these
pub mod backing;
pub mod going_on;
pub mod handing;
pub mod viewed_runs;
