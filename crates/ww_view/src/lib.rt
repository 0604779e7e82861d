//! What a seat's view knows of the core: that it stays while others act, and that it makes each step possible.
#![tactic(auto)]

pub mod laws;
pub mod view;
