//! The parts of a JSON value, each with the fault that it is to be of another type or range.

ghost use Rattle.std.specs.Prelude.{map};
ghost use Rattle.serde_json.specs.View.{view};
ghost use Rattle.ww_json.specs.Parts.{Says, array, size, member, only, boolean, text, number, below, ranged, counted};

use crate::fault::InputFault;
use serde_json::Value;

#[tactic(auto, using(crate::proofs::Items::list_of_items_view))]
pub fn array_of(value: &Value) -> Result<&Vec<Value>, InputFault>
    ensures { Says (λ x. map view x.now.items) result (array (view value.now)) }
{
    value.as_array().ok_or(InputFault::BadType)
}

/// How many members an object has.
#[tactic(auto, using(crate::proofs::Items::members_counted))]
pub fn size_of(value: &Value) -> Result<usize, InputFault>
    ensures { Says (λ n. n) result (size (view value.now)) }
{
    let members = value.as_object().ok_or(InputFault::BadType)?;
    Ok(members.len())
}

pub fn member_of<'v>(name: &str, value: &'v Value) -> Result<&'v Value, InputFault>
    ensures { Says (λ x. view x.now) result (member name.now (view value.now)) }
{
    value.get(name).ok_or(InputFault::BadKey)
}

/// An object with this many members has no others than those that were named.
pub fn only_of(named: usize, members: usize) -> Result<(), InputFault>
    ensures { Says (λ done. done) result (only named members) }
{
    if members == named {
        Ok(())
    } else {
        Err(InputFault::BadKey)
    }
}

pub fn bool_of(value: &Value) -> Result<bool, InputFault>
    ensures { Says (λ b. b) result (boolean (view value.now)) }
{
    value.as_bool().ok_or(InputFault::BadType)
}

pub fn text_of(value: &Value) -> Result<&str, InputFault>
    ensures { Says (λ s. s.now) result (text (view value.now)) }
{
    value.as_str().ok_or(InputFault::BadType)
}

/// A whole number that fits 64 bits.
pub fn number_of(value: &Value) -> Result<u64, InputFault>
    ensures { Says (λ n. n) result (number (view value.now)) }
{
    let number = value.as_number().ok_or(InputFault::BadType)?;
    number.as_u64().ok_or(InputFault::BadNumber)
}

/// A number from `low` to `high`.
pub fn ranged_of(low: u8, high: u8, value: &Value) -> Result<u8, InputFault>
    ensures { Says (λ n. n) result (ranged low high (view value.now)) }
{
    let number = number_of(value)?;
    if u64::from(low) <= number && number <= u64::from(high) {
        Ok(number as u8)
    } else {
        Err(InputFault::BadNumber)
    }
}

/// A number below the limit.
pub fn below_of(limit: u8, value: &Value) -> Result<u8, InputFault>
    ensures { Says (λ n. n) result (below limit (view value.now)) }
{
    let number = number_of(value)?;
    if number < u64::from(limit) {
        Ok(number as u8)
    } else {
        Err(InputFault::BadNumber)
    }
}

/// An array of `low` to `high` items.
pub fn counted_of(low: usize, high: usize, value: &Value) -> Result<&Vec<Value>, InputFault>
    ensures { Says (λ x. map view x.now.items) result (counted low high (view value.now)) }
{
    let items = array_of(value)?;
    if low <= items.len() && items.len() <= high {
        Ok(items)
    } else {
        Err(InputFault::BadNumber)
    }
}
