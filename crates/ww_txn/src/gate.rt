//! Hooks that a caller may have run at each commit, before it and after it.

ghost use Rattle.std.specs.Prelude.{ℕ};

/// Its methods are called, in the thread of the transaction, for each transaction that commits; they may hold that
/// thread up. For a transaction that is refused they aren't called.
pub trait Gate {
    /// What holds once a gate was called before the commit of this number of this caller.
    ghost is_asked: { Self → ℕ → ℕ → Type 0 } = { λ _ _ _. Unit {0} };

    /// What holds once a gate was called after the commit of this number of this caller.
    ghost is_answered: { Self → ℕ → ℕ → Type 0 } = { λ _ _ _. Unit {0} };

    /// The transaction is prepared, and all its locks are held.
    fn before_commit(&self, caller: u8, seq: u64)
        ensures { is_asked self.now caller seq };

    /// The transaction is committed, and all its locks were released.
    fn answered(&self, caller: u8, seq: u64)
        requires { is_asked self.now caller seq }
        ensures { is_answered self.now caller seq };
}

/// The gate that does nothing: it keeps no transaction waiting.
#[derive(Clone, Copy, Debug)]
pub struct Open;

impl Gate for Open {
    fn before_commit(&self, _caller: u8, _seq: u64) {}

    fn answered(&self, _caller: u8, _seq: u64) {}
}
