//! Tests of the libraries below contexts and passes, and of desks, over what each of them offers to all. They compare
//! definitions with the rules, and see that calls succeed where there is memory. They stand in a crate of their own, so
//! that no library is proved twice.
#![tactic(auto)]

#[cfg(test)]
mod called_off;
#[cfg(test)]
mod cores;
#[cfg(test)]
mod desks;
#[cfg(test)]
mod growths;
#[cfg(test)]
mod plain;
#[cfg(test)]
mod queues;
#[cfg(test)]
mod rings;
#[cfg(test)]
mod rounds;
#[cfg(test)]
mod rows;
#[cfg(test)]
mod tables;
#[cfg(test)]
mod wakes;
#[cfg(test)]
mod words;
