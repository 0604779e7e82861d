//! The answers of transactions.

ghost use Rattle.std.specs.Prelude.{◌≡◌, ◌↔◌, IsTrue, IfOk};
ghost use Rattle.ww_plain.specs.Meaning.{answer_of};

use std::alloc::{AllocError, Global};

/// What a transaction returns.
#[derive(Debug, PartialEq, Eq, Drop)]
pub enum Reply {
    /// The values that were asked for.
    Values(Vec<u64>),
    /// The amounts were added.
    Done,
    /// The amount was moved.
    Moved,
    /// The first node has less than the amount.
    Short,
    /// The second node would rise above 2^64 - 1.
    Full,
    /// The port led there before.
    Was(Option<u8>),
    /// The walk has so many nodes, and this is the sum of their values.
    Sum(u8, u128),
    /// The walk was turned, and this was its last node.
    End(u8),
}

impl Reply {
    /// A second reply with the same answer.
    pub fn copy(&self, alloc: Global) -> Result<Reply, AllocError>
        ensures { IfOk result (λ reply. answer_of reply ≡ answer_of self.now) }
    {
        Ok(match self {
            Reply::Values(values) => Reply::Values(Vec::from_slice(alloc, values)?),
            Reply::Done => Reply::Done,
            Reply::Moved => Reply::Moved,
            Reply::Short => Reply::Short,
            Reply::Full => Reply::Full,
            Reply::Was(target) => Reply::Was(*target),
            Reply::Sum(count, total) => Reply::Sum(*count, *total),
            Reply::End(last) => Reply::End(*last),
        })
    }

    /// Whether it is the same answer.
    pub fn is_same(&self, other: &Reply) -> bool
        ensures { IsTrue result ↔ answer_of self.now ≡ answer_of other.now }
    {
        self == other
    }
}
