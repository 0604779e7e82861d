//! What theorems come to, for one mutex or one seat. The function calls the theorems that it needs, so none of these may say less.
ghost use Rattle.ww_protocols.specs.Uses.{WritersAreAlone, UsersAreAlone, NoCopyWinsLater, ThreadsWaitForBusySeats, TasksWaitForBusySeats};

use crate::readers::{writers_exclude_readers, writers_exclude_writers};
use crate::seats::{copies_win_once, no_seat_is_lost, seats_have_one_user};

/// A writer is alone, so is a seat's user, and one copy wins. Whoever waits for a seat finds each one in use, or another was called for it.
pub fn protocols_exclude()
    ensures writers { WritersAreAlone }
    ensures users { UsersAreAlone }
    ensures copies { NoCopyWinsLater }
    ensures threads { ThreadsWaitForBusySeats }
    ensures tasks { TasksWaitForBusySeats }
{
    writers_exclude_readers();
    writers_exclude_writers();
    seats_have_one_user();
    copies_win_once();
    no_seat_is_lost();
}
