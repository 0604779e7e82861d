//! One run of the program, from the bytes of its input to its exit status.

ghost use Rattle.std.specs.Prelude.{◌≡◌, ◌≤◌, OnOk, OnErr, IfOk, IfErr};
ghost use Rattle.std.specs.Io.KnownBytes.{Appends};
ghost use Rattle.ww_run.specs.declared.run.Status.TheVariants.{Ended};
ghost use Rattle.ww_run.specs.Streams.{AppendsFront};
ghost use Rattle.ww_run.specs.Run.{IsTextFor, IsRefusedFor, refusal_number, status_of, line_of, Writes, Runs};

use crate::streams::{ReadFault, read_front, write_out};
use crate::workers::{RunFault, run_scripts};
use std::alloc::{AllocError, Global};
use std::io;
use std::io::{Read, Write};
use std::sync::Wait;
use std::thread::Threads;
use ww_script::{
    Input, InputFault, MAX_BYTES, outcome_text, read_input, refusal_line, schedule_text,
};
use ww_txn::Open;

/// One byte more than an input may have: of a longer one no more needs to be read.
const MOST: usize = MAX_BYTES + 1;

/// How a run ended.
#[derive(Clone, Copy, Debug, PartialEq, Eq)]
pub enum Status {
    /// The text of an outcome or of a replay was written.
    Ended,
    /// The input has a fault, and its line was written.
    Refused,
    /// The reader failed, and nothing was written.
    ReadFailed,
    /// The writer failed. It has a front of what was to be written.
    WriteFailed,
    /// Memory or a thread was refused, and the line that says so was written.
    Stopped,
}

impl Status {
    ghost use Rattle.ww_run.specs.Run.{exit_of};

    /// The program's exit status.
    pub fn code(self) -> u8
        ensures { result ≡ exit_of self }
    {
        match self {
            Status::Ended => 0,
            Status::Refused => 1,
            Status::ReadFailed | Status::WriteFailed => 2,
            Status::Stopped => 3,
        }
    }
}

/// Why there is neither an outcome nor a replay.
#[derive(Clone, Copy, Debug, PartialEq, Eq)]
pub(crate) enum Refusal {
    /// The input has this fault, or there was no memory to read it.
    Input(InputFault),
    /// The scripts, or the text of a replay, were given up.
    Run(RunFault),
}

impl From<InputFault> for Refusal {
    ghost use Rattle.ww_run.specs.declared.run.Refusal.TheVariants as refusal;

    ghost from_gives = { λ fault refused. refused ≡ refusal.Input fault };

    fn from(fault: InputFault) -> Refusal {
        Refusal::Input(fault)
    }
}

impl From<RunFault> for Refusal {
    ghost use Rattle.ww_run.specs.declared.run.Refusal.TheVariants as refusal;

    ghost from_gives = { λ fault refused. refused ≡ refusal.Run fault };

    fn from(fault: RunFault) -> Refusal {
        Refusal::Run(fault)
    }
}

impl From<AllocError> for Refusal {
    ghost use Rattle.ww_run.specs.declared.run.Refusal.TheVariants as refusal;
    ghost use Rattle.ww_run.specs.declared.workers.RunFault.TheVariants.{NoMemory};

    ghost from_gives = { λ _ refused. refused ≡ refusal.Run NoMemory };

    fn from(_error: AllocError) -> Refusal {
        Refusal::Run(RunFault::NoMemory)
    }
}

impl Refusal {
    ghost use Rattle.ww_run.specs.Run.{refusal_number, status_of};

    /// The number of its line.
    fn number(self) -> u8
        ensures number { result ≡ refusal_number self }
        ensures least { 10 ≤ result }
        ensures most { result ≤ 19 }
    {
        match self {
            Refusal::Input(fault) => fault.number(),
            Refusal::Run(fault) => fault.number(),
        }
    }

    /// How the run ends after writing this refusal's line.
    fn status(self) -> Status
        ensures { result ≡ status_of self }
    {
        match self {
            Refusal::Input(InputFault::NoMemory) | Refusal::Run(_) => Status::Stopped,
            Refusal::Input(_) => Status::Refused,
        }
    }
}

/// The text of what the input asks for: of an outcome of its scripts, or of its schedule's replay.
fn text_of<H: Threads + Wait + Sync>(
    rt: &H,
    alloc: Global,
    input: &[u8],
) -> Result<Vec<u8>, Refusal>
    ensures ok { IfOk result (λ text. IsTextFor input.now text.items) }
    ensures err { IfErr result (IsRefusedFor input.now) }
{
    match read_input(alloc, input)? {
        Input::Scripts(scripts) => {
            let outcome = run_scripts(rt, alloc, scripts, &Open)?;
            Ok(outcome_text(alloc, &outcome)?)
        }
        Input::Schedule(schedule) => Ok(schedule_text(alloc, &schedule)?),
    }
}

/// Writes a refusal's line.
fn write_line<W: Write>(writer: &mut W, number: u8) -> io::Result<()>
    requires least { 10 ≤ number }
    requires most { number ≤ 19 }
    ensures ok { OnOk result (Appends (W.contents writer.old) (W.contents writer.new) (line_of number)) }
    ensures err { OnErr result (AppendsFront (W.contents writer.old) (W.contents writer.new) (line_of number)) }
{
    write_out(writer, refusal_line(number).as_bytes())?;
    write_out(writer, b"\n")
}

/// Ends a run with the text of an outcome or of a replay.
fn end<W: Write>(writer: &mut W, text: &[u8]) -> Status
    ensures { Writes (W.contents writer.old) (W.contents writer.new) Ended text.now result }
{
    match write_out(writer, text) {
        Ok(()) => Status::Ended,
        Err(_) => Status::WriteFailed,
    }
}

/// Ends a run with the line of a refusal.
fn refuse<W: Write>(writer: &mut W, refusal: Refusal) -> Status
    ensures { Writes (W.contents writer.old) (W.contents writer.new)
        (status_of refusal) (line_of (refusal_number refusal)) result }
{
    match write_line(writer, refusal.number()) {
        Ok(()) => refusal.status(),
        Err(_) => Status::WriteFailed,
    }
}

/// Reads an input, runs its scripts or replays its schedule, and writes the text of what comes of it, or the line that
/// says why there is none.
pub fn run<H: Threads + Wait + Sync, R: Read, W: Write>(
    rt: &H,
    alloc: Global,
    reader: &mut R,
    writer: &mut W,
) -> Status
    ensures { Runs (R.remaining reader.old) (R.remaining reader.new) (W.contents writer.old) (W.contents writer.new) result }
{
    match read_front(alloc, reader, MOST) {
        Ok(input) => match text_of(rt, alloc, &input) {
            Ok(text) => end(writer, &text),
            Err(refusal) => refuse(writer, refusal),
        },
        Err(ReadFault::NoMemory) => refuse(writer, Refusal::Run(RunFault::NoMemory)),
        Err(ReadFault::Failed) => Status::ReadFailed,
    }
}
