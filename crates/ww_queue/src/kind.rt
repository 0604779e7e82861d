//! The two ways of the kernel's classes, Wound-Wait and Wait-Die.

/// How a class of locks treats a deadlock. Both are the kernel's, and a wait list never mixes them: each of its
/// contexts is of the one class.
#[derive(Clone, Copy, Debug, PartialEq, Eq)]
pub enum Kind {
    /// A context that holds locks and meets a younger owner wounds it; the wounded one dies once it has to wait.
    WoundWait,
    /// A context that holds locks and meets an older owner, or an older waiter, dies.
    WaitDie,
}
