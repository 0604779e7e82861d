//! The events inside the guard of a wait list, its entrance and exit.

ghost use Rattle.std.specs.Prelude.{◌≡◌, ◌≢◌, ◌⊎◌, ◌↔◌, ◌<◌, ℕ, false, [], length, slice_set, IsTrue};
ghost use Rattle.std.specs.List.{slice_index_or};
ghost use Rattle.ww_queue.specs.Queue.{Has, left};
ghost use Rattle.ww_model.specs.declared.state.Holder.TheVariants.{Nobody, Taken, Handed};
ghost use Rattle.ww_model.specs.Event.{given_to, giving, still_asked};

use crate::event::{Answer, NotPossible};
use crate::state::{Core, Holder};
use ww_queue::{Entry, Kind, Queue};

impl Core {
    ghost use Rattle.std.specs.Prelude.{◌≡◌, ◌≢◌, ◌↔◌, ℕ, IsTrue};
    ghost use Rattle.ww_model.specs.declared.event.Event.TheVariants.{Guard, Join, Sign, Take, Ask, Give, Die, Unguard};
    ghost use Rattle.ww_model.specs.Event.{Possible, IsSafe, IsPaid};
    ghost use Rattle.ww_queue.specs.declared.kind.Kind.TheVariants.{WaitDie};
    ghost use Rattle.ww_model.specs.State.{waiter_of};
    ghost use Rattle.ww_model.specs.Snapshot.{state_of, IsFirst};
    ghost use Rattle.ww_model.specs.Step.{IsStep};

    fn can_guard(&self, seat: u8, lock: u8) -> bool
        ensures { IsTrue result ↔ Possible (state_of self.now) (Guard seat lock) }
    {
        let may_want = self.may_own(seat) && self.is_calm(seat);
        self.has_seat(seat)
            && self.has_lock(lock)
            && !self.is_inside_some(seat)
            && self.guard_at(lock).is_none()
            && (self.waits_at(seat, lock)
                || (!self.waits_some(seat) && (self.owns(seat, lock) || may_want)))
    }

    pub(crate) fn guard(&mut self, seat: u8, lock: u8) -> Result<Answer, NotPossible>
        ensures { IsStep self.old (Guard seat lock) self.new result }
    {
        if !self.can_guard(seat, lock) {
            return Err(NotPossible);
        }
        self.guards[lock as usize] = Some(seat);
        Ok(Answer::Done)
    }

    fn can_join(&self, seat: u8, lock: u8) -> bool
        ensures { IsTrue result ↔ Possible (state_of self.now) (Join seat lock) }
    {
        self.is_inside(seat, lock)
            && !self.waits_at(seat, lock)
            && self.may_own(seat)
            && self.is_calm(seat)
            && self.has_other(seat, lock)
    }

    /// The seat as a waiter.
    fn waiter_of(&self, seat: u8) -> Entry
        ensures { result ≡ waiter_of (state_of self.now) seat }
    {
        Entry {
            seat,
            stamp: self.stamp_at(seat),
            holds: self.owns_some(seat),
        }
    }

    pub(crate) fn join(&mut self, seat: u8, lock: u8) -> Result<Answer, NotPossible>
        ensures { IsStep self.old (Join seat lock) self.new result }
    {
        if !self.can_join(seat, lock) {
            return Err(NotPossible);
        }
        let waiter = self.waiter_of(seat);
        self.queues[lock as usize].join(waiter);
        Ok(Answer::Done)
    }

    fn can_sign(&self, seat: u8, victim: u8) -> bool
        ensures { IsTrue result ↔ Possible (state_of self.now) (Sign seat victim) }
    {
        self.is_inside(seat, self.place_of(seat))
            && self.sign_at(victim) == 0
            && self.owed_to(seat, victim).is_some()
    }

    pub(crate) fn sign(&mut self, seat: u8, victim: u8) -> Result<Answer, NotPossible>
        ensures { IsStep self.old (Sign seat victim) self.new result }
    {
        if !self.can_sign(seat, victim) {
            return Err(NotPossible);
        }
        let stamp = self.owed_to(seat, victim).unwrap_or(0);
        self.signs[victim as usize] = stamp;
        Ok(Answer::Met(stamp))
    }

    fn can_take(&self, seat: u8, lock: u8) -> bool
        ensures { IsTrue result ↔ Possible (state_of self.now) (Take seat lock) }
    {
        self.is_inside(seat, lock)
            && self.may_own(seat)
            && self.is_calm(seat)
            && is_free_for(self.owner_at(lock), seat)
    }

    pub(crate) fn take(&mut self, seat: u8, lock: u8) -> Result<Answer, NotPossible>
        ensures { IsStep self.old (Take seat lock) self.new result }
    {
        if !self.can_take(seat, lock) {
            return Err(NotPossible);
        }
        self.queues[lock as usize].leave(seat);
        self.owners[lock as usize] = Holder::Taken(seat);
        self.asked[lock as usize] = false;
        Ok(Answer::Locked)
    }

    /// Whether the seat is the first waiter of the lock.
    fn is_first(&self, seat: u8, lock: u8) -> bool
        ensures { IsTrue result ↔ IsFirst ((state_of self.now).queue lock) seat }
    {
        match self.waiters_at(lock).first() {
            Some(waiter) => waiter.seat == seat,
            None => false,
        }
    }

    fn can_ask(&self, seat: u8, lock: u8) -> bool
        ensures { IsTrue result ↔ Possible (state_of self.now) (Ask seat lock) }
    {
        self.is_inside(seat, lock)
            && self.is_first(seat, lock)
            && is_taken_by_other(self.owner_at(lock), seat)
            && !self.is_asked(lock)
    }

    pub(crate) fn ask(&mut self, seat: u8, lock: u8) -> Result<Answer, NotPossible>
        ensures { IsStep self.old (Ask seat lock) self.new result }
    {
        if !self.can_ask(seat, lock) {
            return Err(NotPossible);
        }
        self.asked[lock as usize] = true;
        Ok(Answer::Done)
    }

    fn can_give(&self, seat: u8, lock: u8) -> bool
        ensures { IsTrue result ↔ Possible (state_of self.now) (Give seat lock) }
    {
        self.is_inside(seat, lock)
            && self.owns(seat, lock)
            && (!self.is_asked(lock) || !self.waiters_at(lock).is_empty())
    }

    pub(crate) fn give(&mut self, seat: u8, lock: u8) -> Result<Answer, NotPossible>
        ensures { IsStep self.old (Give seat lock) self.new result }
    {
        if !self.can_give(seat, lock) {
            return Err(NotPossible);
        }
        let next = given_to(self.is_asked(lock), self.waiters_at(lock));
        self.owners[lock as usize] = next;
        self.asked[lock as usize] = false;
        Ok(giving(next))
    }

    fn can_die(&self, seat: u8, lock: u8) -> bool
        ensures { IsTrue result ↔ Possible (state_of self.now) (Die seat lock) }
    {
        self.is_inside(seat, lock)
            && self.waits_at(seat, lock)
            && self.has_other(seat, lock)
            && self.heeded_at(seat) == 0
            && self.dies(seat, lock).is_some()
    }

    pub(crate) fn die(&mut self, seat: u8, lock: u8) -> Result<Answer, NotPossible>
        ensures { IsStep self.old (Die seat lock) self.new result }
    {
        if !self.can_die(seat, lock) {
            return Err(NotPossible);
        }
        let stamp = self.dies(seat, lock).unwrap_or(0);
        depart(&mut self.queues, &mut self.asked, seat, lock);
        Ok(Answer::Deadlk(stamp))
    }

    /// Whether each seat that is owed a sign has one.
    fn all_signed(&self, owed: &[(u8, u64)]) -> bool
        ensures { IsTrue result ↔ ((v k : ℕ) → Has owed.now (v, k) → (state_of self.now).sign v ≢ 0) }
    {
        for pair in owed {
            if self.sign_at(pair.0) == 0 {
                return false;
            }
        }
        true
    }

    /// Whether, in Wait-Die, the seat neither has to die at the lock nor is signed.
    fn is_safe(&self, seat: u8, lock: u8) -> bool
        ensures { let c = state_of self.now in IsTrue result ↔ (c.kind ≡ WaitDie → IsSafe c seat lock) }
    {
        match self.kind {
            Kind::WoundWait => true,
            Kind::WaitDie => self.dies(seat, lock).is_none() && self.sign_at(seat) == 0,
        }
    }

    /// Whether nothing is still owed inside the guard, also to the seat itself.
    fn is_paid(&self, seat: u8, lock: u8) -> bool
        ensures { IsTrue result ↔ IsPaid (state_of self.now) seat lock }
    {
        let owed = self.owes(seat, lock);
        self.all_signed(owed.as_slice()) && self.is_safe(seat, lock)
    }

    fn can_unguard(&self, seat: u8, lock: u8) -> bool
        ensures { IsTrue result ↔ Possible (state_of self.now) (Unguard seat lock) }
    {
        self.is_inside(seat, lock)
            && (!self.waits_at(seat, lock) || self.has_other(seat, lock))
            && self.heeded_at(seat) == 0
            && self.is_paid(seat, lock)
    }

    pub(crate) fn unguard(&mut self, seat: u8, lock: u8) -> Result<Answer, NotPossible>
        ensures { IsStep self.old (Unguard seat lock) self.new result }
    {
        if !self.can_unguard(seat, lock) {
            return Err(NotPossible);
        }
        self.guards[lock as usize] = None;
        Ok(Answer::Done)
    }
}

/// Whether nobody owns the lock, or it was handed to the seat.
fn is_free_for(holder: Holder, seat: u8) -> bool
    ensures { IsTrue result ↔ ((holder ≡ Nobody) ⊎ (holder ≡ Handed seat)) }
{
    match holder {
        Holder::Nobody => true,
        Holder::Taken(_) => false,
        Holder::Handed(owner) => owner == seat,
    }
}

fn is_taken_by_other(holder: Holder, seat: u8) -> bool
    ensures { IsTrue result ↔ ((t : ℕ) × (t ≢ seat) × (holder ≡ Taken t)) }
{
    match holder {
        Holder::Taken(owner) => owner != seat,
        Holder::Nobody | Holder::Handed(_) => false,
    }
}

/// Who owns a lock once it is released.
fn given_to(is_asked: bool, waiters: &[Entry]) -> Holder
    ensures { result ≡ given_to is_asked waiters.now }
{
    match waiters.first() {
        Some(waiter) if is_asked => Holder::Handed(waiter.seat),
        _ => Holder::Nobody,
    }
}

/// How a lock was released.
fn giving(next: Holder) -> Answer
    ensures { result ≡ giving next }
{
    match next {
        Holder::Nobody | Holder::Taken(_) => Answer::Free,
        Holder::Handed(seat) => Answer::Handed(seat),
    }
}

/// A waiter leaves the wait list of a lock. Once the list is empty nobody asks for the lock any more.
pub(crate) fn depart(queues: &mut Vec<Queue>, asked: &mut Vec<bool>, seat: u8, lock: u8)
    requires list { lock < length queues.old.items }
    requires flag { lock < length asked.old.items }
    ensures list { let q = left (slice_index_or queues.old.items lock []) seat in queues.new.items ≡ slice_set queues.old.items lock q }
    ensures flag { let q = left (slice_index_or queues.old.items lock []) seat in asked.new.items ≡ slice_set asked.old.items lock (still_asked q (slice_index_or asked.old.items lock false)) }
{
    let queue = &mut queues[lock as usize];
    queue.leave(seat);
    if queue.entries().is_empty() {
        asked[lock as usize] = false;
    }
}
