//! Why a list or a walk was not locked.

use thiserror::Error;
use ww_lock::{Done, Pass};

/// What a way of taking many locks gives: a context that has them, or the pass and why not.
pub type Taken = Result<Done, (Pass, UserFault)>;

/// Why the nodes of a list, or of a walk, were not locked. The pass holds no lock then.
#[derive(Clone, Copy, Debug, PartialEq, Eq, Drop, Error)]
pub enum UserFault {
    /// The pass has no context left to start.
    #[error("the pass has no context left to start")]
    PassSpent,
    /// The list names this node a second time: the kernel's EALREADY.
    #[error("the list names node {0} twice")]
    Already(u8),
    /// The wait for one of the nodes was cancelled by this caller: the kernel's EINTR.
    #[error("caller {0} called the wait off")]
    Interrupted(u8),
}

impl UserFault {
    ghost use Rattle.std.specs.Prelude.{◌≡◌};
    ghost use Rattle.ww_users.specs.Ways.{user_number};

    /// The number of the fault.
    pub fn number(self) -> u8
        ensures { result ≡ user_number self }
    {
        match self {
            UserFault::PassSpent => 4,
            UserFault::Already(_) => 9,
            UserFault::Interrupted(_) => 20,
        }
    }
}
