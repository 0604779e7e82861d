//! The locks for C: handles of desks, and the functions that C calls with them.
#![tactic(auto)]

mod codes;
mod exports;
mod opening;
mod slot;
