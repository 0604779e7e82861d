//! One look at a lock: from just inside its guard to just outside.
ghost use Rattle.std.specs.Prelude.{ℕ, ◌≡◌, ◌≢◌, ◌<◌, ◌⊎◌, true, false, Some, None, length, ◌≤◌, ◌*◌, List};
ghost use Rattle.ww_model.specs.State.{any_below};
ghost use Rattle.ww_view.specs.View.{owns};
ghost use Rattle.ww_table.specs.Seat.{IsSeatOf, locks_of, size_of, view_of};
ghost use Rattle.ww_seat.specs.Orderly.{IsOrderly};
ghost use Rattle.ww_seat.specs.Looks.{IsLook, IsNap, MayLookSo, MayWaitSo};
ghost use Rattle.ww_seat.specs.Standings.{standing_of, HasAttempted, IsAt, IsAtWorkThere, IsKept};
ghost use Rattle.ww_seat.specs.Work.{AreWoken, AreOnlyWoken, HasBooked, has_joined, looks_again, IsSameSeat, IsWorking};

use crate::interrupting::stop_if_cancelled;
use crate::standing::{stand, stay_or_back_off};
use crate::taking::take_inside;
use crate::waits::Waits;
use ww_plain::Node;
use ww_table::{Board, Stepper};
use ww_word::wide::Owner;

/// How a seat came to look at a lock.
#[derive(Clone, Copy, Debug, PartialEq, Eq)]
pub enum Arrival {
    /// It came just now, and stands in no wait list.
    Came,
    /// It came just now, and has joined the wait list since.
    Joined,
    /// It was woken, and has been in the wait list since an earlier look.
    Woken,
}

impl Arrival {
    ghost use Rattle.std.specs.Prelude.{◌≡◌, true};
    ghost use Rattle.ww_seat.specs.Work.{has_joined, looks_again};

    pub(crate) fn has_joined(self) -> bool
        ensures { result ≡ has_joined self }
    {
        match self {
            Arrival::Came => false,
            Arrival::Joined | Arrival::Woken => true,
        }
    }

    pub(crate) fn looks_again(self) -> bool
        ensures { result ≡ looks_again self }
    {
        match self {
            Arrival::Came | Arrival::Joined => false,
            Arrival::Woken => true,
        }
    }

    /// The same, once the seat stands in the wait list.
    fn joining(self) -> Arrival
        ensures joined { has_joined result ≡ true }
        ensures again { looks_again result ≡ looks_again self }
    {
        match self {
            Arrival::Came | Arrival::Joined => Arrival::Joined,
            Arrival::Woken => Arrival::Woken,
        }
    }
}

/// What one look came to.
#[derive(Clone, Copy)]
pub enum Look {
    /// The lock is the seat's, with this node.
    Locked(Node),
    /// The seat has left the wait list, for this older stamp.
    Deadlk(u64),
    /// The seat has left the wait list, since this seat called it off.
    Interrupted(u16),
    /// The seat stands in the wait list, and may park.
    Waits,
}

/// What one attempt at a look came to.
#[derive(Clone, Copy)]
pub enum Attempt {
    /// A compare-exchange found another owner word than was seen: the seat is still at work, and has to look again.
    Lost,
    /// The look is at its end.
    Ended(Look),
}

/// Whether the lock is free, or handed to this seat, which doesn't own it.
fn is_ours(seat: &Stepper, seen: Owner) -> bool
    ensures free { result ≡ true → (seen.seat ≡ None) ⊎ (seen.seat ≡ Some seat.now.who) }
    ensures other { result ≡ false → (t : ℕ) × (seen.seat ≡ Some t) × (t ≢ seat.now.who) }
{
    match seen.seat() {
        None => true,
        Some(owner) => owner == seat.who(),
    }
}

/// One attempt at a look. If the call heeds its cancel, that is checked as soon as the seat is in the wait list: so the
/// seat asks for nothing and condemns nobody for a wait that ends immediately.
pub fn look_once(
    seat: &mut Stepper,
    board: &Board,
    lock: u32,
    arrival: &mut Arrival,
    waits: Waits,
    holds: bool,
    wake: &mut [u64],
) -> Attempt
    requires at { IsKept seat.old × IsAt board.now (standing_of seat.old) }
    requires may { IsAtWorkThere board.now lock arrival.old holds wake.old (standing_of seat.old) }
    ensures same { IsSameSeat board.now seat.old seat.new }
    ensures came { IsOrderly (size_of board.now) seat.new.seat.me × HasAttempted board.now.table.shared.key.places (standing_of seat.old) lock waits arrival.old wake.old result (standing_of seat.new) arrival.new wake.new }
{
    let seen = seat.look(board, lock);
    if is_ours(seat, seen) {
        return match take_inside(seat, board, lock, seen, wake) {
            Some(node) => Attempt::Ended(Look::Locked(node)),
            None => Attempt::Lost,
        };
    }
    let Some(word) = stand(seat, board, lock, seen, *arrival, holds) else {
        return Attempt::Lost;
    };
    *arrival = arrival.joining();
    if let Some(by) = stop_if_cancelled(seat, board, lock, word, waits) {
        return Attempt::Ended(Look::Interrupted(by));
    }
    stay_or_back_off(seat, board, lock, word, *arrival, wake)
}
