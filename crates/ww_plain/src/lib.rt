//! The plain graph: nodes, transactions on them, and histories of transactions, for one thread.
#![tactic(auto)]

mod footprints;
mod graph;
mod history;
pub mod laws;
mod meaning;
mod node;
mod reply;
mod seen;
mod transaction;
mod walk;

pub use footprints::footprint;
pub use graph::{Graph, GraphFault, MAX_NODES};
pub use history::{Record, replays};
pub use meaning::apply;
pub use node::{Node, PORTS};
pub use reply::Reply;
pub use transaction::{By, Txn, first_double};
