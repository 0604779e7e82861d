//! The faults of an input, and the line that names each.

ghost use Rattle.std.specs.Prelude.{◌≡◌, ◌≤◌};
ghost use Rattle.ww_json.specs.Fault.{refusal_text};
ghost use Rattle.ww_json.specs.declared.fault.InputFault.TheVariants.{NoMemory};

use std::alloc::{AllocError, AllocFailed};
use thiserror::Error;

/// Why an input is refused: its first fault, or lack of memory. The numbers are those of the refusal lines.
#[derive(Clone, Copy, Debug, PartialEq, Eq, Drop, Error)]
pub enum InputFault {
    #[error("not json")]
    NotJson = 10,
    #[error("bad key")]
    BadKey = 11,
    #[error("number out of range")]
    BadNumber = 12,
    #[error("bad graph")]
    BadGraph = 13,
    #[error("unknown word")]
    BadWord = 14,
    #[error("unknown version")]
    BadVersion = 15,
    #[error("no memory")]
    NoMemory = 16,
    #[error("input too long")]
    TooLong = 17,
    #[error("wrong type")]
    BadType = 18,
}

impl InputFault {
    ghost use Rattle.ww_json.specs.Fault.{number_of};

    /// The number of the fault's refusal line.
    pub fn number(self) -> u8
        ensures { result ≡ number_of self }
    {
        self as u8
    }
}

impl From<AllocError> for InputFault {
    ghost from_gives = { λ _ fault. fault ≡ NoMemory };

    fn from(_error: AllocError) -> InputFault {
        InputFault::NoMemory
    }
}

impl<T: Drop> From<AllocFailed<T>> for InputFault {
    ghost from_gives = { λ _ fault. fault ≡ NoMemory };

    fn from(_error: AllocFailed<T>) -> InputFault {
        InputFault::NoMemory
    }
}

/// The line that says why an input was refused or its scripts couldn't be run, without the line feed.
pub fn refusal_line(number: u8) -> &'static str
    requires least { 10 ≤ number }
    requires most { number ≤ 19 }
    ensures { result.now ≡ refusal_text number }
{
    match number {
        10 => "refused 10 not json",
        11 => "refused 11 bad key",
        12 => "refused 12 number out of range",
        13 => "refused 13 bad graph",
        14 => "refused 14 unknown word",
        15 => "refused 15 unknown version",
        16 => "refused 16 no memory",
        17 => "refused 17 input too long",
        18 => "refused 18 wrong type",
        _ => "refused 19 no thread",
    }
}
