//! Whether a lock call heeds its caller's cancel.

/// How a lock call waits, once it has to.
#[derive(Clone, Copy, Debug, PartialEq, Eq, Drop)]
pub enum Waits {
    /// On to its end: no cancel is looked at, and a pending one stays.
    ToTheEnd,
    /// Until its end, or until a cancel of its caller calls it off, whenever that was set.
    UntilCancelled,
}
