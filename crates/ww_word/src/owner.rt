//! The owner of a lock, as a value, with its flags.

ghost use Rattle.std.specs.Prelude.{◌≡◌, ◌↔◌, IsTrue};
ghost use Rattle.ww_word.specs.Owner.{IsValid, AreFlags, packed, IsReadOf};

/// Flag of an owner word: somebody stands in the wait list.
pub const WAITERS: u8 = 1;

/// Flag of an owner word: the next unlock hands the lock to the first waiter.
pub const HANDOFF: u8 = 2;

/// Flag of an owner word: the lock was handed to its owner, which has not picked it up yet.
pub const PICKUP: u8 = 4;

/// How many seats there are: one of them owns a lock, or none does.
pub const MAX_SEATS: usize = 16;

/// The greatest stamp that an owner word has room for.
pub const MAX_STAMP: u64 = (1 << 56) - 1;

/// The owner of a lock, and which of its flags are set. The flags are the kernel's. Ours is that the word also has the
/// owner's seat and stamp, so that one load shows whether the owner is an older context.
#[derive(Clone, Copy, Debug, PartialEq, Eq)]
pub struct Owner {
    /// The owner's seat, `None` of a free lock.
    pub seat: Option<u8>,
    /// The stamp of the owner's context, 0 of an owner without a context and of a free lock.
    pub stamp: u64,
    /// [`WAITERS`], [`HANDOFF`] and [`PICKUP`], added up.
    pub flags: u8,
}

impl Owner {
    ghost use Rattle.std.specs.Prelude.{◌≡◌, ◌<◌, ◌^◌, ◌↔◌, IsTrue, None};
    ghost use Rattle.ww_word.specs.Owner.{IsValid, with_waiters, handed_to};

    /// Whether nobody owns the lock.
    pub fn is_free(self) -> bool
        ensures { IsTrue result ↔ (self.seat ≡ None) }
    {
        self.seat.is_none()
    }

    /// The same owner, with [`WAITERS`] set.
    pub fn with_waiters(self) -> Owner
        ensures same { result ≡ with_waiters self }
        ensures valid { IsValid self → IsValid result }
    {
        Owner {
            flags: self.flags | WAITERS,
            ..self
        }
    }

    /// The owner of a lock that an unlock hands to the first waiter, by that waiter's seat and stamp. The waiter stands
    /// in the list until it picks the lock up, so [`WAITERS`] is set beside [`PICKUP`].
    pub fn handed_to(seat: u8, stamp: u64) -> Owner
        ensures same { result ≡ handed_to seat stamp }
        ensures valid { seat < 16 → stamp < 2 ^ 56 → IsValid result }
    {
        Owner {
            seat: Some(seat),
            stamp,
            flags: WAITERS | PICKUP,
        }
    }

    /// Whether there is an owner word for this.
    fn is_valid(self) -> bool
        ensures { IsTrue result ↔ IsValid self }
    {
        let is_free_lock = self.stamp == 0 && self.flags <= WAITERS;
        self.seat
            .map_or(is_free_lock, |seat| usize::from(seat) < MAX_SEATS)
            && self.stamp <= MAX_STAMP
            && are_flags(self.flags)
    }
}

/// Whether the flags may be set together.
fn are_flags(flags: u8) -> bool
    ensures { IsTrue result ↔ AreFlags flags }
{
    matches!(flags, 0 | WAITERS) || flags == WAITERS | HANDOFF || flags == WAITERS | PICKUP
}

/// The owner word: the flags in the lowest three bits, the seat plus one in the next five, and the stamp above.
pub fn pack(owner: Owner) -> u64
    requires { IsValid owner }
    ensures { result ≡ packed owner }
{
    let number = owner.seat.map_or(0, |seat| u64::from(seat) + 1);
    u64::from(owner.flags) + 8 * number + 256 * owner.stamp
}

/// The owner that packs to the word, or `None` if none does.
pub fn unpack(word: u64) -> Option<Owner>
    ensures { IsReadOf word result }
{
    let above_flags = word / 8;
    let owner = Owner {
        seat: ((above_flags % 32) as u8).checked_sub(1),
        stamp: above_flags / 32,
        flags: (word % 8) as u8,
    };
    owner.is_valid().then_some(owner)
}
