//! One waiter, as the wait list has it.

/// A waiter in the list of a lock.
#[derive(Clone, Copy, Debug, Default, PartialEq, Eq)]
pub struct Entry {
    /// The stamp of its context, of which a smaller one is older; 0 of a waiter without a context.
    pub stamp: u64,
    pub seat: u8,
    /// Whether it held a lock as it joined. This can't change while it waits.
    pub holds: bool,
}

impl Entry {
    ghost use Rattle.std.specs.Prelude.{◌≡◌};
    ghost use Rattle.ww_queue.specs.Entry.{is_holding};

    /// Whether it has a context and holds locks: only such a waiter wounds or dies.
    pub(crate) fn is_holding(self) -> bool
        ensures { result ≡ is_holding self }
    {
        self.stamp > 0 && self.holds
    }
}
