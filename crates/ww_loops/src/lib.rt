//! Contexts that come to their end, retry loops among them, and lock calls from begin to end, of whoever makes the calls for C.
//! Each function's contract is a law, and there is no code.
#![tactic(auto)]

pub mod calls;
pub mod contexts;
pub mod loops;
pub mod uses;
pub mod witness;
