//! What a desk sees from outside the guards, between any two steps: whose a lock is, and whether its own context is wounded.

ghost use Rattle.std.specs.Prelude.{◌≡◌, ◌==◌, if◌then◌else◌};
ghost use Rattle.ww_steps.specs.declared.outlook.Outlook.TheVariants.{Free, Due};
ghost use Rattle.ww_steps.specs.Outlooks.{age_of};

use crate::desk::Desk;

/// How old a context is beside another.
#[derive(Clone, Copy, Debug, PartialEq, Eq)]
pub enum Age {
    /// One of the two seats has no context, or the context is the same.
    Unknown,
    Older,
    Younger,
}

/// Whose a lock is.
#[derive(Clone, Copy, Debug, PartialEq, Eq)]
pub enum Outlook {
    /// Nobody has the lock or waits for it.
    Free,
    /// Nobody has it, and somebody waits for it.
    Due,
    /// The seat of this number has it, or was handed it; and how old its context is, beside that of this desk.
    Owned(u16, Age),
}

/// Why nothing is seen.
#[derive(Clone, Copy, Debug, PartialEq, Eq)]
pub enum NoOutlook {
    /// The desk is inside a guard, where others wait for its next step.
    Inside,
    /// There is no lock of this number.
    NoLock,
}

/// How old the context with the other stamp is.
fn age_beside(own: u64, other: u64) -> Age
    ensures { result ≡ age_of own other }
{
    if own == 0 || other == 0 {
        return Age::Unknown;
    }
    if other < own {
        return Age::Older;
    }
    if own < other {
        Age::Younger
    } else {
        Age::Unknown
    }
}

/// What is seen of a lock that nobody has, by the flags of its word.
fn unowned(flags: u8) -> Outlook
    ensures { result ≡ (if flags == 0 then Free else Due) }
{
    if flags == 0 {
        Outlook::Free
    } else {
        Outlook::Due
    }
}

impl Desk {
    ghost use Rattle.ww_steps.specs.Outlooks.{IsOutlookAnswer, IsWoundedAnswer};

    /// Whose a lock is, by one look at its word. It decides nothing, and tells nothing of later.
    #[tactic(auto, using(crate::proofs::Seeing::seen_keeps))]
    pub fn outlook(&mut self, lock: u32) -> Result<Outlook, NoOutlook>
        ensures { IsOutlookAnswer self.old lock result self.new }
    {
        if self.station.is_inside() {
            return Err(NoOutlook::Inside);
        }
        if !self.station.is_lock(lock) {
            return Err(NoOutlook::NoLock);
        }
        let owner = self.station.seat.whose(&self.station.board, lock);
        let Some(seat) = owner.seat() else {
            return Ok(unowned(owner.flags()));
        };
        let age = age_beside(self.station.seat.stamp(), owner.stamp());
        Ok(Outlook::Owned(seat, age))
    }

    /// Whether an older context has signed this one, which holds a lock: then its call ends once it is in a list and can't
    /// take its lock. It decides nothing.
    #[tactic(auto, using(crate::proofs::Seeing::may_look_signed, crate::proofs::Seeing::looked_keeps))]
    pub fn is_wounded(&mut self) -> Result<bool, NoOutlook>
        ensures { IsWoundedAnswer self.old result self.new }
    {
        if self.station.is_inside() {
            return Err(NoOutlook::Inside);
        }
        if self.holds_none() {
            return Ok(false);
        }
        Ok(self.station.seat.sign(&self.station.board) != 0)
    }
}
