//! A bank: threads move random amounts between random accounts, and the total of the accounts stays what it was. Its
//! arguments are three numbers: how many threads there are, how many accounts, each of which begins with 100, and how
//! many transfers each thread tries to make. It lets them work in both kinds of locks, and writes a line for each kind:
//! how many transfers were committed, and the total before and after. These are the same in every run. Its status is 2
//! where it doesn't understand its arguments, or can't have so many threads or accounts.
#![tactic(auto)]

mod bank;
#[cfg(test)]
mod growths;
mod transfer;

use bank::{Trading, accounts, total, trade};
use std::process::ExitCode;
use std::{env, io};
use ww_plain::MAX_NODES;
use ww_queue::Kind;

/// The kinds of locks, each with its name.
const KINDS: [(&str, Kind); 2] = [("wound-wait", Kind::WoundWait), ("wait-die", Kind::WaitDie)];

/// What the program's arguments ask for.
fn read_words(words: &[String]) -> Option<(Trading, u8)> {
    let [_, threads, accounts, transfers] = words else {
        return None;
    };
    let plan = Trading::new(threads.parse().ok()?, transfers.parse().ok()?)?;
    let size: u8 = accounts.parse().ok()?;
    if size == 0 || usize::from(size) > MAX_NODES {
        return None;
    }
    Some((plan, size))
}

fn main(rt: HostRuntime) -> io::Result<ExitCode> {
    let words: Vec<String> = env::args(&rt)?.collect(rt.alloc())?;
    let Some((plan, size)) = read_words(&words) else {
        eprintln!(rt; "usage: ww_bank THREADS ACCOUNTS TRANSFERS")?;
        return Ok(ExitCode::from(2));
    };
    for (name, kind) in KINDS {
        let first = accounts(rt.alloc(), size)?;
        let before = total(&first);
        let history = trade(&rt, rt.alloc(), kind, first, &plan)?;
        let after = total(&history.graph);
        println!(rt;
            "{}: {} transfers, total {} before, {} after",
            name,
            history.records.len(),
            before,
            after
        )?;
    }
    Ok(ExitCode::SUCCESS)
}
