//! Scripts of transactions and cancels, and how an input writes them.
#![tactic(auto)]

mod acts;
mod ranges;
mod scripts;
mod transactions;
mod version;

pub use acts::Act;
pub use ranges::Ranges;
pub use scripts::{Scripts, scripts_of};
pub use version::Version;
