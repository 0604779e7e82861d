//! Predicates and values in which the conditions of events are stated.

ghost use Rattle.std.specs.Prelude.{suc, ◌≡◌, ◌==◌, ◌≤◌, ◌↔◌, IsTrue, length, None};
ghost use Rattle.std.specs.List.{list_any, slice_index_or};
ghost use Rattle.ww_model.specs.declared.state.Holder.TheVariants.{Nobody};
ghost use Rattle.ww_model.specs.State.{is_taken_by, last_below};
ghost use Rattle.ww_model.specs.Event.{owed_to};
ghost use Rattle.ww_model.specs.Snapshot.{guard_number};

use crate::state::{Core, Holder, MAX_LOCKS};
use arrayvec::ArrayVec;
use ww_queue::{Entry, Kind, MAX_WAITERS, Queue, must_die, owed_signs};
use ww_word::Owner;

impl Core {
    ghost use Rattle.std.specs.Prelude.{◌≡◌, ◌<◌, ◌↔◌, IsTrue};
    ghost use Rattle.ww_queue.specs.Queue.{Stands};
    ghost use Rattle.ww_model.specs.State.{Owns, OwnsSome, Inside, Away, MayOwn, IsCalm, HasOther, owns_some, owner_as, dies, owes, place_of};
    ghost use Rattle.ww_model.specs.Event.{IsIdle, owed_to};
    ghost use Rattle.ww_model.specs.Snapshot.{state_of, guard_number, InsideSome, StandsSome};

    pub(crate) fn has_seat(&self, seat: u8) -> bool
        ensures { IsTrue result ↔ (seat < (state_of self.now).seats) }
    {
        (seat as usize) < self.stamps.len()
    }

    pub(crate) fn has_lock(&self, lock: u8) -> bool
        ensures { IsTrue result ↔ (lock < (state_of self.now).locks) }
    {
        (lock as usize) < self.owners.len()
    }

    /// The stamp of the seat's context, 0 without one and of a seat that isn't there.
    pub(crate) fn stamp_at(&self, seat: u8) -> u64
        ensures { result ≡ (state_of self.now).stamp seat }
    {
        self.stamps.get(seat as usize).copied().unwrap_or(0)
    }

    pub(crate) fn sign_at(&self, seat: u8) -> u64
        ensures { result ≡ (state_of self.now).sign seat }
    {
        self.signs.get(seat as usize).copied().unwrap_or(0)
    }

    pub(crate) fn cancel_at(&self, seat: u8) -> u8
        ensures { result ≡ (state_of self.now).cancel seat }
    {
        self.cancels.get(seat as usize).copied().unwrap_or(0)
    }

    pub(crate) fn heeded_at(&self, seat: u8) -> u8
        ensures { result ≡ (state_of self.now).heeded seat }
    {
        self.heeded.get(seat as usize).copied().unwrap_or(0)
    }

    pub(crate) fn owner_at(&self, lock: u8) -> Holder
        ensures { result ≡ (state_of self.now).owner lock }
    {
        self.owners
            .get(lock as usize)
            .copied()
            .unwrap_or(Holder::Nobody)
    }

    pub(crate) fn is_asked(&self, lock: u8) -> bool
        ensures { result ≡ (state_of self.now).asked lock }
    {
        self.asked.get(lock as usize).copied().unwrap_or(false)
    }

    pub(crate) fn waiters_at(&self, lock: u8) -> &[Entry]
        ensures { result.now ≡ (state_of self.now).queue lock }
    {
        match self.queues.get(lock as usize) {
            Some(queue) => queue.entries(),
            None => &[],
        }
    }

    /// The seat inside the guard of the lock.
    pub(crate) fn guard_at(&self, lock: u8) -> Option<u8>
        ensures { guard_number result ≡ (state_of self.now).guard lock }
    {
        self.guards.get(lock as usize).copied().flatten()
    }

    pub(crate) fn owns(&self, seat: u8, lock: u8) -> bool
        ensures { IsTrue result ↔ Owns (state_of self.now) seat lock }
    {
        is_taken_by(self.owner_at(lock), seat)
    }

    pub(crate) fn owns_some(&self, seat: u8) -> bool
        ensures same { result ≡ owns_some (state_of self.now) seat }
        ensures some { IsTrue result ↔ OwnsSome (state_of self.now) seat }
    {
        any_taken_by(&self.owners, seat)
    }

    pub(crate) fn is_inside(&self, seat: u8, lock: u8) -> bool
        ensures { IsTrue result ↔ Inside (state_of self.now) seat lock }
    {
        is_guard_of(self.guard_at(lock), seat) && self.has_lock(lock) && self.has_seat(seat)
    }

    /// Whether the seat is inside the guard of some lock.
    pub(crate) fn is_inside_some(&self, seat: u8) -> bool
        ensures { IsTrue result ↔ InsideSome (state_of self.now) seat }
    {
        any_guarded_by(&self.guards, seat)
    }

    /// Whether the seat stands in the wait list of the lock.
    pub(crate) fn waits_at(&self, seat: u8, lock: u8) -> bool
        ensures { IsTrue result ↔ Stands ((state_of self.now).queue lock) seat }
    {
        has_waiter(self.waiters_at(lock), seat)
    }

    /// Whether the seat stands in the wait list of some lock.
    pub(crate) fn waits_some(&self, seat: u8) -> bool
        ensures { IsTrue result ↔ StandsSome (state_of self.now) seat }
    {
        any_has_waiter(&self.queues, seat)
    }

    /// Whether the seat is inside no guard and stands in no wait list.
    pub(crate) fn is_away(&self, seat: u8) -> bool
        ensures { IsTrue result ↔ Away (state_of self.now) seat }
    {
        self.has_seat(seat) && !self.is_inside_some(seat) && !self.waits_some(seat)
    }

    /// Whether the seat has a context or owns no lock.
    pub(crate) fn may_own(&self, seat: u8) -> bool
        ensures { IsTrue result ↔ MayOwn (state_of self.now) seat }
    {
        self.stamp_at(seat) > 0 || !self.owns_some(seat)
    }

    /// Whether the seat has no sign or owns a lock.
    pub(crate) fn is_calm(&self, seat: u8) -> bool
        ensures { IsTrue result ↔ IsCalm (state_of self.now) seat }
    {
        self.sign_at(seat) == 0 || self.owns_some(seat)
    }

    /// Whether the lock has an owner other than the seat.
    pub(crate) fn has_other(&self, seat: u8, lock: u8) -> bool
        ensures { IsTrue result ↔ HasOther (state_of self.now) seat lock }
    {
        match self.owner_at(lock) {
            Holder::Nobody => false,
            Holder::Taken(owner) | Holder::Handed(owner) => owner != seat,
        }
    }

    /// Whether the owner word of the lock is 0.
    pub(crate) fn is_idle(&self, lock: u8) -> bool
        ensures { IsTrue result ↔ IsIdle (state_of self.now) lock }
    {
        self.has_lock(lock)
            && is_nobody(self.owner_at(lock))
            && self.waiters_at(lock).is_empty()
            && !self.is_asked(lock)
    }

    /// The owner of the lock, as decoded from its owner word, ignoring WAITERS and HANDOFF: only the seat, the stamp
    /// and PICKUP count.
    fn owner_word(&self, lock: u8) -> Owner
        ensures { result ≡ owner_as (state_of self.now) ((state_of self.now).owner lock) }
    {
        match self.owner_at(lock) {
            Holder::Nobody => Owner {
                seat: None,
                stamp: 0,
                flags: 0,
            },
            Holder::Taken(seat) => Owner {
                seat: Some(seat),
                stamp: self.stamp_at(seat),
                flags: 0,
            },
            Holder::Handed(seat) => Owner::handed_to(seat, self.stamp_at(seat)),
        }
    }

    /// The stamp for which the seat has to die at the lock.
    pub(crate) fn dies(&self, seat: u8, lock: u8) -> Option<u64>
        ensures { result ≡ dies (state_of self.now) seat lock }
    {
        let queue = self.queues.get(lock as usize)?;
        let owner = self.owner_word(lock);
        must_die(self.kind, owner, queue, seat, self.sign_at(seat))
    }

    /// The seats that this one has to sign inside the guard of the lock, with the stamps.
    pub(crate) fn owes(&self, seat: u8, lock: u8) -> ArrayVec<(u8, u64), MAX_WAITERS>
        ensures { result.items ≡ owes (state_of self.now) seat lock }
    {
        let owner = self.owner_word(lock);
        match self.queues.get(lock as usize) {
            Some(queue) => owed_signs(self.kind, owner, queue, seat),
            None => ArrayVec::new(),
        }
    }

    /// The lock in whose guard the seat is.
    pub(crate) fn place_of(&self, seat: u8) -> u8
        ensures { result ≡ place_of (state_of self.now) seat }
    {
        last_guarded_by(&self.guards, seat)
    }

    /// The stamp that the seat owes to the other, inside the guard where it is.
    pub(crate) fn owed_to(&self, seat: u8, victim: u8) -> Option<u64>
        ensures { let c = state_of self.now in result ≡ owed_to victim (owes c seat (place_of c seat)) }
    {
        let owed = self.owes(seat, self.place_of(seat));
        find_owed(owed.as_slice(), victim)
    }
}

fn is_nobody(holder: Holder) -> bool
    ensures { IsTrue result ↔ (holder ≡ Nobody) }
{
    matches!(holder, Holder::Nobody)
}

fn is_taken_by(holder: Holder, seat: u8) -> bool
    ensures { result ≡ is_taken_by seat holder }
{
    matches!(holder, Holder::Taken(owner) if owner == seat)
}

/// Whether one of the locks is taken by the seat.
fn any_taken_by(owners: &[Holder], seat: u8) -> bool
    ensures { result ≡ list_any (is_taken_by seat) owners.now }
{
    owners.iter().any(|holder| is_taken_by(*holder, seat))
}

pub(crate) fn is_guard_of(guard: Option<u8>, seat: u8) -> bool
    ensures { result ≡ (guard_number guard == suc seat) }
{
    guard == Some(seat)
}

/// Whether one of the guards has the seat inside.
fn any_guarded_by(guards: &[Option<u8>], seat: u8) -> bool
    ensures { result ≡ list_any (λ guard. guard_number guard == suc seat) guards.now }
{
    guards.iter().any(|guard| is_guard_of(*guard, seat))
}

/// The last of the guards that has the seat inside, 0 if none has.
fn last_guarded_by(guards: &[Option<u8>], seat: u8) -> u8
    requires { length guards.now ≤ MAX_LOCKS }
    ensures { result ≡ last_below (length guards.now) (λ n. guard_number (slice_index_or guards.now n None) == suc seat) }
{
    let mut last = 0;
    for (n, guard) in guards.iter().enumerate() {
        if is_guard_of(*guard, seat) {
            last = n as u8;
        }
    }
    last
}

fn has_waiter(waiters: &[Entry], seat: u8) -> bool
    ensures { result ≡ list_any (λ waiter. waiter.seat == seat) waiters.now }
{
    waiters.iter().any(|waiter| waiter.seat == seat)
}

/// Whether the seat stands in one of the wait lists.
fn any_has_waiter(queues: &[Queue], seat: u8) -> bool
    ensures { result ≡ list_any (list_any (λ waiter. waiter.seat == seat)) queues.now }
{
    queues.iter().any(|queue| has_waiter(queue.entries(), seat))
}

/// The stamp that is owed to the seat.
fn find_owed(owed: &[(u8, u64)], seat: u8) -> Option<u64>
    ensures { result ≡ owed_to seat owed.now }
{
    owed.iter().find(|pair| pair.0 == seat).map(|pair| pair.1)
}
