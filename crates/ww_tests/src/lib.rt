//! Tests of contexts and passes, the ways of taking many locks, and transactions, by one thread, over what each of these
//! libraries offers to all. They see that calls succeed where there is memory. They stand in a crate of their own, so that
//! no library is proved twice. What these tests and those by several threads share is public: small worlds, and calls of a
//! pass. A library may end no process, so what stops a test stands in the tests.
#![tactic(auto)]

#[cfg(test)]
mod called_off;
mod calls;
#[cfg(test)]
mod changes;
#[cfg(test)]
mod growths;
#[cfg(test)]
mod locks;
#[cfg(test)]
mod passes;
#[cfg(test)]
mod transactions;
mod worlds;

pub use calls::{
    add, commit, commit_alone, ended, first_locked, is_possible, is_possible_alone, tries,
};
pub use worlds::{KINDS, chain, graph_of, one_pass, three_passes};
