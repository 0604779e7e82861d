//! A lock call from its begin to its end.
ghost use Rattle.ww_loops.specs.Calls.{DesksKnowTheirSeats, LockCallsTakeTheirLock};
ghost use Rattle.ww_loops.specs.Wanting.{LockCallsWantTheirLock, OtherCallsWantNone};

/// What a desk says of itself its seat knows.
pub fn desks_know_their_seats()
    ensures { DesksKnowTheirSeats }
{}

/// Between the begin of a lock call and its answer the lock went to the desk, which has had it since.
pub fn lock_calls_take_their_lock()
    ensures { LockCallsTakeTheirLock }
{}

/// A lock call wants no other lock; if its context dies, it does so there, and the call says so.
pub fn lock_calls_want_their_lock()
    ensures { LockCallsWantTheirLock }
{}

/// A call that is for no lock wants none.
pub fn other_calls_want_none()
    ensures { OtherCallsWantNone }
{}
