//! A lock passes from one owner to another.
ghost use Rattle.ww_laws.specs.Handing.{OwnersHandOver, NobodyGoesPast};

/// Whenever one seat has a lock and later another has it, the first released it and the other took it after that, each by
/// one step on the lock's owner word.
#[tactic(auto, using(crate::proofs::Passing::owners_hand_over))]
pub fn owners_hand_over()
    ensures { OwnersHandOver }
{}

/// From when the first waiter of a lock has asked for it, nobody but its owner and then that waiter has it, as long as it is the
/// first.
pub fn nobody_goes_past()
    ensures { NobodyGoesPast }
{}
