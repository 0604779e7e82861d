//! Tests of the locks, the ways of taking many of them, and transactions, by several threads, a few in step or many at once,
//! over what each of these libraries offers to all. They see what comes of threads.
#![tactic(auto)]

#[cfg(test)]
mod back_offs;
#[cfg(test)]
mod cancels;
#[cfg(test)]
mod kept;
#[cfg(test)]
mod pairs;
#[cfg(test)]
mod races;
#[cfg(test)]
mod reordered;
#[cfg(test)]
mod sides;
#[cfg(test)]
mod storms;
