//! A seat has one user, of the copies of a value by which its context is suspended one wins, and none is lost.
ghost use Rattle.ww_protocols.specs.Seats.{SeatsHaveOneUser, NobodyUsesItYet, SeatsSayWhoseTheyAre, CopiesWinOnce, SuspendedSeatsAreKept, NoSeatIsLost, FreeSeatsAreAtMostTheCalls};

/// In each reached class two users of one seat are one.
pub fn seats_have_one_user()
    ensures { SeatsHaveOneUser }
{}

/// Whoever comes to use a seat comes to one that nobody uses, itself included.
pub fn nobody_uses_it_yet()
    ensures { NobodyUsesItYet }
{}

/// A seat whose context isn't suspended is BUSY just where it has a user, and a thread's own is one thread's at a time.
pub fn seats_say_whose_they_are()
    ensures { SeatsSayWhoseTheyAre }
{}

/// A ticket by which a context was suspended is taken at most once, at whatever seat: of the copies of a value at most one wins.
pub fn copies_win_once()
    ensures { CopiesWinOnce }
{}

/// The seat of a suspended context is BUSY, nobody uses it, and its ticket stays until somebody takes that.
pub fn suspended_seats_are_kept()
    ensures { SuspendedSeatsAreKept }
{}

/// Of the seats that aren't threads' own: where nobody is in a call of a queue, none is free while a thread waits; and while a task
/// waits that wasn't called, another that waits was called for each one that is free and that tasks may claim.
pub fn no_seat_is_lost()
    ensures { NoSeatIsLost }
{}

/// There the seats that are free for tasks are at most as many as the tasks that were called.
pub fn free_seats_are_at_most_the_calls()
    ensures { FreeSeatsAreAtMostTheCalls }
{}
