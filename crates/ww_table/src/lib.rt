//! The table of the running locks: owner words, guards, signs and counts in single atomic words, nodes and wait lists
//! in slots. Each step of a seat keeps the one rule of `ww_invariant`: what the words, the slots and the views of the
//! seats show is a reached state of the core.
#![tactic(auto)]

mod board;
mod cancels;
mod close;
mod guards;
mod make;
mod place;
mod reading;
mod seat;
mod signs;
mod waiting;

pub use board::Board;
pub use close::Rooms;
pub use make::Ticket;
pub use seat::{Found, Giving, Seat16, Stepper, Taking, Tried};
