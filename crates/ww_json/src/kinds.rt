//! How an input writes the kind of its locks.

ghost use Rattle.serde_json.specs.View.{view};
ghost use Rattle.ww_json.specs.Parts.{Says};
ghost use Rattle.ww_json.specs.Kinds.{kind_in};

use crate::fault::InputFault;
use crate::parts::text_of;
use serde_json::Value;
use ww_queue::Kind;

#[tactic(auto, unfolding(crate::specs::Kinds::kind_in))]
pub fn kind_of(value: &Value) -> Result<Kind, InputFault>
    ensures { Says (λ kind. kind) result (kind_in (view value.now)) }
{
    match text_of(value)? {
        "wound-wait" => Ok(Kind::WoundWait),
        "wait-die" => Ok(Kind::WaitDie),
        _ => Err(InputFault::BadWord),
    }
}
