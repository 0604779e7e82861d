//! What reads and writes single values: the parts of a JSON value, the faults of an input, and the pieces of a text.
#![tactic(auto)]

mod fault;
mod kinds;
mod parts;
mod pieces;

pub use fault::{InputFault, refusal_line};
pub use kinds::kind_of;
pub use parts::{
    array_of, below_of, bool_of, counted_of, member_of, number_of, only_of, ranged_of, size_of,
    text_of,
};
pub use pieces::{push_number, push_option};
