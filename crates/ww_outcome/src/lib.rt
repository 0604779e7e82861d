//! The outcome of scripts, and how it is written.
#![tactic(auto)]

mod outcome;
mod text;

pub use outcome::{Outcome, ScriptAnswer, cancels_are_answered_once, versions_agree};
pub use text::outcome_text;
