//! Owner words of tables that may have more than 16 seats: see `specs/AnySeats.antt`.
ghost use Rattle.std.specs.Prelude.{◌≡◌, ◌<◌, ◌↔◌, ◌⊎◌, IsTrue, None};
ghost use Rattle.ww_word.specs.declared.owner.Owner.{Owner};
ghost use Rattle.ww_word.specs.Owner.{AreFlags};
ghost use Rattle.ww_word.specs.AnySeats.{IsValid, Fits, packed, seat_word, most_for, unflagged, IsReadOf};

use crate::owner::{HANDOFF, MAX_STAMP, PICKUP, WAITERS};
use std::marker::Model;

/// How many seats a table has at most.
pub const MANY_SEATS: u16 = 4095;

/// The greatest stamp of a table with more than 16 seats.
pub const MOST_STAMP: u64 = (1 << 49) - 1;

/// The owner of a lock of a table with any number of seats. Contracts see it as an `Owner`.
#[derive(Clone, Copy, Debug, PartialEq, Eq)]
pub struct Owner {
    seat: Option<u16>,
    stamp: u64,
    flags: u8,
}

impl Model for Owner {
    ghost use Rattle.ww_word.specs.declared.owner.Owner.{Owner};

    ghost Value = { Owner };

    ghost view = { λ o. record { seat = o.seat; stamp = o.stamp; flags = o.flags } };

    ghost inverse = { λ o. record { seat = o.seat; stamp = o.stamp; flags = o.flags } };
}

impl Owner {
    ghost use Rattle.std.specs.Prelude.{◌≡◌, ◌<◌, ◌↔◌, IsTrue, None, Some};
    ghost use Rattle.ww_word.specs.Owner.{idle, with_waiters, handed_to};
    ghost use Rattle.ww_word.specs.AnySeats.{IsValid, Fits};

    /// The owner with this seat, or none, this stamp and these flags.
    pub fn of(seat: Option<u16>, stamp: u64, flags: u8) -> Owner
        ensures { result ≡ record { seat = seat; stamp = stamp; flags = flags } }
    {
        Owner { seat, stamp, flags }
    }

    /// Its seat, `None` of a free lock.
    pub fn seat(self) -> Option<u16>
        ensures { result ≡ self.seat }
    {
        self.seat
    }

    /// The stamp of its context, 0 without one and of a free lock.
    pub fn stamp(self) -> u64
        ensures { result ≡ self.stamp }
    {
        self.stamp
    }

    pub fn flags(self) -> u8
        ensures { result ≡ self.flags }
    {
        self.flags
    }

    /// The same owner with other flags.
    pub fn with_flags(self, flags: u8) -> Owner
        ensures { result ≡ record self { flags = flags } }
    {
        Owner {
            seat: self.seat,
            stamp: self.stamp,
            flags,
        }
    }

    /// The same owner, with `WAITERS` set.
    pub fn with_waiters(self) -> Owner
        ensures same { result ≡ with_waiters self }
        ensures valid { IsValid self → IsValid result }
    {
        Owner {
            seat: self.seat,
            stamp: self.stamp,
            flags: self.flags | WAITERS,
        }
    }

    /// The owner of a lock that an unlock hands to the first waiter.
    pub fn handed_to(seat: u16, stamp: u64) -> Owner
        ensures same { result ≡ handed_to seat stamp }
        ensures valid { Fits seat stamp → IsValid result }
    {
        Owner {
            seat: Some(seat),
            stamp,
            flags: WAITERS | PICKUP,
        }
    }

    /// Whether there is an owner word for this.
    fn is_valid(self) -> bool
        ensures { IsTrue result ↔ IsValid self }
    {
        let is_free_lock = self.stamp == 0 && self.flags <= WAITERS;
        self.seat
            .map_or(is_free_lock, |seat| fits(seat, self.stamp))
            && are_flags(self.flags)
    }
}

/// Whether a word has room for the seat with the stamp.
fn fits(seat: u16, stamp: u64) -> bool
    ensures { IsTrue result ↔ Fits seat stamp }
{
    (seat < 16 && stamp <= MAX_STAMP) || (seat <= MANY_SEATS && stamp <= MOST_STAMP)
}

/// Whether the flags may be set together.
fn are_flags(flags: u8) -> bool
    ensures { IsTrue result ↔ AreFlags flags }
{
    matches!(flags, 0 | WAITERS) || flags == WAITERS | HANDOFF || flags == WAITERS | PICKUP
}

/// The greatest stamp of a table with this many seats.
pub fn most_stamp(seats: u16) -> u64
    ensures { result ≡ most_for seats }
{
    if seats > 16 { MOST_STAMP } else { MAX_STAMP }
}

/// The word of a lock that a seat owns.
#[inline(always)]
pub fn pack_seat(flags: u8, seat: u16, stamp: u64) -> u64
    requires flags { AreFlags flags }
    requires fits { Fits seat stamp }
    ensures { result ≡ seat_word flags seat stamp }
{
    if seat < 16 {
        u64::from(flags) + 8 * (u64::from(seat) + 1) + 256 * stamp
    } else {
        u64::from(7 - flags) + 8 * u64::from(seat) + 32768 * stamp
    }
}

/// The owner word.
pub fn pack(owner: Owner) -> u64
    requires { IsValid owner }
    ensures { result ≡ packed owner }
{
    match owner.seat {
        None => u64::from(owner.flags),
        Some(seat) => pack_seat(owner.flags, seat, owner.stamp),
    }
}

/// The word without its flags, as a number that two words share iff they are of one seat and stamp.
pub fn without_flags(word: u64) -> u64
    ensures { result ≡ unflagged word }
{
    let is_wide = matches!(word % 8, 2 | 4) || matches!(word % 8, 6 | 7);
    if is_wide {
        2 * (word / 8) + 1
    } else {
        2 * (word / 8)
    }
}

/// The parts of a word, if it is an owner word.
fn parts_of(word: u64) -> Owner
    ensures { (owner : Owner) → IsValid owner → packed owner ≡ word → result ≡ owner }
{
    let low = (word % 8) as u8;
    let above = word / 8;
    if are_flags(low) {
        Owner {
            seat: ((above % 32) as u16).checked_sub(1),
            stamp: above / 32,
            flags: low,
        }
    } else {
        Owner {
            seat: Some((above % 4096) as u16),
            stamp: above / 4096,
            flags: 7 - low,
        }
    }
}

/// The owner that packs to the word, or `None` if none does.
pub fn unpack(word: u64) -> Option<Owner>
    ensures { IsReadOf word result }
{
    let owner = parts_of(word);
    (owner.is_valid() && pack(owner) == word).then_some(owner)
}
