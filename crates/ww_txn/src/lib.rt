//! Transactions on a shared graph: each takes the locks of all that it depends on and may change, commits, and releases
//! the locks, in one call. And a crew: the threads that share a world from its opening to its closing, in one call.
#![tactic(auto)]

mod changing;
mod crew;
mod gate;
mod telling;
mod transacting;
mod ways;

pub use changing::{ChangeFault, change};
pub use crew::run_crew;
pub use gate::{Gate, Open};
pub use transacting::{TxnFault, transact, transact_interruptible};
