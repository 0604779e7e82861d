//! The acts of scripts. All of an act's own faults are reported before any fault of its members.

ghost use Rattle.std.specs.Prelude.{map};
ghost use Rattle.serde_json.specs.View.{view};
ghost use Rattle.ww_json.specs.Parts.{Gives, Says};
ghost use Rattle.ww_script_parts.specs.Acts.{deed_of, cancel_of as cancel_members, interruptible_of as interruptible_members, worded, act_in};

use crate::ranges::Ranges;
use crate::transactions::{locking_of, transaction_worded};
use serde_json::Value;
use std::alloc::Global;
use ww_json::{InputFault, array_of, below_of, text_of};
use ww_plain::Txn;

/// What a script asks for.
#[derive(Debug, Drop)]
pub enum Act {
    /// A transaction, which waits for its locks as long as it takes.
    Do(Txn),
    /// A transaction that a cancel may call off where it waits. It isn't a peek, which takes one lock without a context
    /// and can't be cancelled.
    Interruptible(Txn),
    /// A cancel of the script of this number, which may be the script itself.
    Cancel(u8),
}

fn cancel_of(count: u8, members: &[Value]) -> Result<Act, InputFault>
    ensures { Says deed_of result (cancel_members count (map view members.now)) }
{
    match members {
        [script] => {
            let script = below_of(count, script)?;
            Ok(Act::Cancel(script))
        }
        _ => Err(InputFault::BadWord),
    }
}

fn interruptible_of(alloc: Global, ranges: Ranges, members: &[Value]) -> Result<Act, InputFault>
    ensures { Gives deed_of result (interruptible_members ranges (map view members.now)) }
{
    match members {
        [transaction] => {
            let transaction = locking_of(alloc, ranges, transaction)?;
            Ok(Act::Interruptible(transaction))
        }
        _ => Err(InputFault::BadWord),
    }
}

/// What follows this word.
fn worded_of(
    alloc: Global,
    ranges: Ranges,
    word: &str,
    members: &[Value],
) -> Result<Act, InputFault>
    ensures { Gives deed_of result (worded ranges word.now (map view members.now)) }
{
    match word {
        "cancel" => cancel_of(ranges.scripts, members),
        "interruptible" => interruptible_of(alloc, ranges, members),
        _ => {
            let transaction = transaction_worded(alloc, ranges, word, members)?;
            Ok(Act::Do(transaction))
        }
    }
}

/// An act: a word, and then the members that it asks for.
#[tactic(auto, unfolding(crate::specs::Acts::act_in))]
pub(crate) fn act_of(alloc: Global, ranges: Ranges, value: &Value) -> Result<Act, InputFault>
    ensures { Gives deed_of result (act_in ranges (view value.now)) }
{
    match array_of(value)?.as_slice() {
        [word, members @ ..] => worded_of(alloc, ranges, text_of(word)?, members),
        [] => Err(InputFault::BadWord),
    }
}
