//! The numbers of answers for C, and how its lock calls wait.

ghost use Rattle.std.specs.Prelude.{◌≡◌};
ghost use Rattle.ww_c.specs.Codes.{code_of, no_desk_code, outlook_code, waits_of, wounded_code};

use ww_seat::Waits;
use ww_steps::{Age, Answer, NoDesk, NoOutlook, Outlook};

pub(crate) const EBUSY: i32 = -16;

pub(crate) const EINVAL: i32 = -22;

pub(crate) const ENOMEM: i32 = -12;

pub(crate) const EALREADY: i32 = -114;

/// The context of a lock's owner is older, or younger, than that of the seat that looks.
pub(crate) const OLDER: i32 = 8192;

pub(crate) const YOUNGER: i32 = 16384;

/// Nobody has the lock, and somebody waits for it.
pub(crate) const NOBODY: i32 = 32768;

/// The number of an answer for C.
#[inline(always)]
pub(crate) fn code(answer: Answer) -> i32
    ensures { result ≡ code_of answer }
{
    match answer {
        Answer::Done => 0,
        Answer::Again => 1,
        Answer::Sleeps => 3,
        Answer::Awaits => 5,
        Answer::Busy => EBUSY,
        Answer::Invalid => EINVAL,
        Answer::Already => EALREADY,
        Answer::NoSpace => -28,
        Answer::Deadlk(_) => -35,
        Answer::Interrupted(_) => -4,
    }
}

/// The number for C of why no desk was made.
pub(crate) fn no_desk(why: NoDesk) -> i32
    ensures { result ≡ no_desk_code why }
{
    match why {
        NoDesk::NoSeat => EINVAL,
        NoDesk::MadeBefore => EALREADY,
        NoDesk::NoRoom => ENOMEM,
    }
}

/// The number for C of whose a lock is.
pub(crate) fn whose(seen: Result<Outlook, NoOutlook>) -> i32
    ensures { result ≡ outlook_code seen }
{
    match seen {
        Ok(Outlook::Free) => 0,
        Ok(Outlook::Due) => NOBODY,
        Ok(Outlook::Owned(seat, Age::Unknown)) => i32::from(seat) + 1,
        Ok(Outlook::Owned(seat, Age::Older)) => i32::from(seat) + 1 + OLDER,
        Ok(Outlook::Owned(seat, Age::Younger)) => i32::from(seat) + 1 + YOUNGER,
        Err(NoOutlook::Inside) => EBUSY,
        Err(NoOutlook::NoLock) => EINVAL,
    }
}

/// The number for C of whether a context is wounded.
pub(crate) fn wounded(seen: Result<bool, NoOutlook>) -> i32
    ensures { result ≡ wounded_code seen }
{
    match seen {
        Ok(wounded) => i32::from(wounded),
        Err(NoOutlook::Inside) => EBUSY,
        Err(NoOutlook::NoLock) => EINVAL,
    }
}

/// How a lock call of C waits: `heeds` says that it may be cancelled.
#[inline(always)]
pub(crate) fn waits(heeds: bool) -> Waits
    ensures { result ≡ waits_of heeds }
{
    if heeds {
        Waits::UntilCancelled
    } else {
        Waits::ToTheEnd
    }
}
