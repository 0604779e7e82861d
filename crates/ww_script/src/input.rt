//! An input of either sort is read, and three laws of that reading.

ghost use Rattle.std.specs.Prelude.{◌≡◌, ◌<◌, length};
ghost use Rattle.serde_json.specs.View.{view};
ghost use Rattle.ww_json.specs.Parts.{Gives, Says};
ghost use Rattle.ww_script.specs.Reading.{version_in, input_in, parsed, reading, ReadingKeepsRanges};
ghost use Rattle.ww_script.specs.Spelling.{EachInputCanBeSaid, EachVersion1IsCutOff};

use serde_json::{Category, Value};
use std::alloc::Global;
use ww_json::{InputFault, member_of, size_of};
use ww_schedule::{Schedule, schedule_of};
use ww_script_parts::{Scripts, Version, scripts_of};

/// How many bytes an input has at most.
pub const MAX_BYTES: usize = 1_048_576;

/// What an input asks for.
#[derive(Debug, Drop)]
pub enum Input {
    /// Scripts of transactions and cancels, to be run.
    Scripts(Scripts),
    /// Events of the core, to be replayed.
    Schedule(Schedule),
}

fn value_of(alloc: Global, bytes: &[u8]) -> Result<Value, InputFault>
    ensures { Gives view result (parsed bytes.now) }
{
    match Value::from_slice(alloc, bytes) {
        Ok(value) => Ok(value),
        Err(error) => match error.classify() {
            Category::Memory => Err(InputFault::NoMemory),
            _ => Err(InputFault::NotJson),
        },
    }
}

#[tactic(auto, unfolding(crate::specs::Reading::version_in))]
fn version_of(value: &Value) -> Result<Version, InputFault>
    ensures { Says (λ version. version) result (version_in (view value.now)) }
{
    let version = member_of("version", value)?;
    let number = version.as_number().ok_or(InputFault::BadType)?;
    match number.as_u64() {
        Some(1) => Ok(Version::One),
        Some(2) => Ok(Version::Two),
        _ => Err(InputFault::BadVersion),
    }
}

#[tactic(auto, unfolding(crate::specs::Reading::input_in))]
fn input_of(alloc: Global, value: &Value) -> Result<Input, InputFault>
    ensures { Gives (λ input. input) result (input_in (view value.now)) }
{
    let members = size_of(value)?;
    let version = version_of(value)?;
    if value.get("events").is_some() {
        let schedule = schedule_of(alloc, members, value)?;
        Ok(Input::Schedule(schedule))
    } else {
        let scripts = scripts_of(alloc, version, members, value)?;
        Ok(Input::Scripts(scripts))
    }
}

/// Reads an input, or returns its first fault.
#[tactic(auto, unfolding(crate::specs::Reading::reading))]
pub fn read_input(alloc: Global, bytes: &[u8]) -> Result<Input, InputFault>
    ensures exact { Gives (λ input. input) result (reading bytes.now) }
    ensures too_long { 1048576 < length bytes.now → result ≡ Err InputFault.TooLong }
{
    if bytes.len() > MAX_BYTES {
        return Err(InputFault::TooLong);
    }
    let value = value_of(alloc, bytes)?;
    input_of(alloc, &value)
}

/// A law of the definition of [`read_input`]: whatever it reads keeps to the ranges of the format.
#[tactic(auto, using(crate::proofs::Kept::reading_kept))]
pub fn reading_keeps_ranges()
    ensures { ReadingKeepsRanges }
{}

/// A law of the definition of [`read_input`]: for whatever keeps to the ranges there is a JSON
/// value that is read as it. Whether its text is too long for an input is another question.
#[tactic(auto, using(crate::proofs::Said::input_said))]
pub fn each_input_can_be_said()
    ensures { EachInputCanBeSaid }
{}

/// A law over all inputs of scripts in version 1: the same scripts can be said in version 2, have the same outcomes there,
/// and the text of each is that of version 2 with the ports cut off that version 1 lacks, which are empty.
pub fn each_version_1_is_cut_off()
    ensures { EachVersion1IsCutOff }
{}
