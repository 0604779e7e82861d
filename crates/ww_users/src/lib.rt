//! The three ways of taking many locks that the kernel's document of wound/wait mutexes describes: a fixed list, a
//! list whose contended entry is moved to its head, and objects that are found on the way.
#![tactic(auto)]

mod context;
mod fault;
mod fixed_list;
mod reordered_list;
mod trip;
mod until;
mod walk;

pub use fault::{Taken, UserFault};
pub use fixed_list::{lock_list, lock_list_as, lock_list_interruptible};
pub use reordered_list::{lock_order, lock_order_as, lock_order_interruptible};
pub use until::{lock_until, lock_until_interruptible};
pub use walk::{lock_walk, lock_walk_as, lock_walk_interruptible};
