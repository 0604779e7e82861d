//! The program: reads scripts or a schedule on standard input, runs the scripts or replays the schedule, and writes
//! what came of it on standard output.
#![tactic(auto)]

mod run;
mod streams;
mod worker;
mod workers;

use run::Status;
use std::process::ExitCode;

fn main(rt: HostRuntime) -> ExitCode {
    let status = run::run(&rt, rt.alloc(), &mut rt.stdin(), &mut rt.stdout());
    // If this line can't be written either, the exit status still says so.
    let _ = match status {
        Status::ReadFailed => eprintln!(rt; "read failed"),
        Status::WriteFailed => eprintln!(rt; "write failed"),
        Status::Ended | Status::Refused | Status::Stopped => Ok(()),
    };
    ExitCode::from(status.code())
}

#[cfg(test)]
mod gates;
#[cfg(test)]
mod growths;
#[cfg(test)]
mod tests;
