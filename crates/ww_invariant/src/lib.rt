//! The rule of the table of the running locks: what its words, its slots and the views of its seats have, what each
//! step makes of a seat, and what a seat does with the slots that it has out. The table and its seats are in
//! `ww_table`.
#![tactic(auto)]

mod cells;
pub mod homes;
pub mod layout;
pub mod lists;
pub mod nodes;
mod pages;
pub mod plays;
pub mod plays_inside;
pub mod records;
mod slots_out;

pub use cells::{Cell, Counts, Part, Sight, Start, TableSeat, Top, Words};
pub use pages::{Page, Waiters};
pub use slots_out::{MAX_OUT, bring};
