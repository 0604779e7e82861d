//! Pieces of a line that several kinds of lines have.

ghost use Rattle.std.specs.Prelude.{◌≡◌, ◌++◌, string_bytes, OnOk};
ghost use Rattle.ww_json.specs.Pieces.{spaced_or_dash};

use itoa::{Buffer, Integer};
use std::alloc::AllocError;

/// A number behind a text.
pub fn push_number<I: Integer>(out: &mut String, before: &str, number: I) -> Result<(), AllocError>
    ensures { OnOk result (string_bytes out.new ≡ string_bytes out.old ++ before.now ++ I.text number) }
{
    let mut digits = Buffer::new();
    out.push_str(before)?;
    out.push_str(digits.format(number))
}

/// A number behind a space, or a dash where there is none.
pub fn push_option(out: &mut String, number: Option<u8>) -> Result<(), AllocError>
    ensures { OnOk result (string_bytes out.new ≡ string_bytes out.old ++ spaced_or_dash number) }
{
    match number {
        None => out.push_str(" -"),
        Some(number) => push_number(out, " ", number),
    }
}
