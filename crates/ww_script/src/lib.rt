//! What an input says: scripts of transactions and cancels or a schedule of lock events, or its first fault. Beside it
//! stand, by their names, what reads and writes both.
#![tactic(auto)]

mod input;

pub use input::{
    Input, MAX_BYTES, each_input_can_be_said, each_version_1_is_cut_off, read_input,
    reading_keeps_ranges,
};
pub use ww_json::{InputFault, refusal_line};
pub use ww_outcome::{
    Outcome, ScriptAnswer, cancels_are_answered_once, outcome_text, versions_agree,
};
pub use ww_schedule::{Schedule, a_schedule_has_one_text, schedule_text};
pub use ww_script_parts::{Act, Ranges, Scripts, Version};
