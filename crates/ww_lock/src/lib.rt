//! Contexts for threads: a graph whose nodes are locked by wound/wait mutexes, and the states of a thread that takes
//! them.
//!
//! A [`World`] is opened on a graph, with a [`Pass`] for each thread. A pass begins a context, which takes locks,
//! commits a transaction and releases the locks, and becomes the pass again. Each state on that way is a type of its
//! own, and the call that leaves a state spends it: so the misuses that the kernel's documentation lists don't
//! compile.
#![tactic(auto)]

mod acquiring;
mod backoff;
mod close;
mod contended;
mod done;
mod effects;
mod hand;
mod held;
mod interruptible;
mod locking;
mod pass;
mod prepared;
mod solo;
mod world;

pub use acquiring::{Acquiring, Lock, Try};
pub use backoff::Backoff;
pub use close::{CloseFault, History};
pub use contended::Contended;
pub use done::{Committed, Done, Empty};
pub use held::{Alone, Held, HolderKind, InContext, Kept};
pub use interruptible::{Halt, Interruptible};
pub use pass::Pass;
pub use prepared::{Prepared, Receipt};
pub use solo::{Solo, SoloDone};
pub use world::{OpenFault, World};
pub use ww_seat::{Waited, Waits};
