//! The protocols that C keeps, access by access: of shared locks, a writer and a reader never have one mutex at once; and
//! of seats, each has one user, and none is lost. And what is written under a lock is read under it, be it shared or not.
//! Each function's contract is a sentence of `specs/`, and there is no code.
#![tactic(auto)]

pub mod handing;
pub mod readers;
pub mod seats;
pub mod uses;
pub mod witness;
