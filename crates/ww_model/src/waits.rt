//! Who waits for whom: the rings of contexts that wait for each other, and which of them is condemned.

ghost use Rattle.std.specs.Prelude.{◌≡◌, ◌≢◌, ◌==◌, ◌⊎◌, IsSome};
ghost use Rattle.std.specs.List.{list_any};
ghost use Rattle.ww_model.specs.declared.state.Holder.TheVariants.{Taken, Handed};
ghost use Rattle.ww_model.specs.Waits.{IsRing, IsLeastRing, FindsChosen, Finds, CondemnedOf};
ghost use Rattle.ww_model.specs.Snapshot.{state_of};
ghost use Rattle.ww_model.specs.Least.{lesser_of};

use crate::state::{Core, Holder};
use crate::terms::is_guard_of;
use arrayvec::ArrayVec;
use ww_word::MAX_SEATS;

/// A ring of contexts that each wait for the next, and the last for the first: the one with the least seat that is in
/// any ring, beginning with that seat. `None` where there is no ring. The kernel keeps no such list: where a ring would
/// close, its rules have condemned a member before.
pub fn cycle_in(core: &Core) -> Option<ArrayVec<u8, MAX_SEATS>>
    ensures { let c = state_of core.now in FindsChosen (IsRing c) (λ ring. IsLeastRing c ring.items) result }
{
    // Where nobody's ring is found there is none, since each waiter is one of the seats: the core's state was
    // reached, which is known where a field is used.
    let _reached = &core.kind;
    for seat in 0..core.seats() {
        if let Some(ring) = core.ring_from(seat) {
            return Some(ring);
        }
    }
    None
}

/// The seat of the list with the least number that is condemned: signed, and due to die where it waits. In a ring there
/// is always one.
pub fn condemned_in(core: &Core, ring: &[u8]) -> Option<u8>
    ensures least { CondemnedOf (state_of core.now) ring.now result }
    ensures ring { IsRing (state_of core.now) ring.now → IsSome result }
{
    // In a reached state each ring has a condemned member; that this one was is known where a field is used.
    let _reached = &core.kind;
    let mut least = None;
    for seat in ring {
        if core.is_condemned(*seat) {
            least = Some(lesser_of(least, *seat));
        }
    }
    least
}

impl Core {
    ghost use Rattle.std.specs.Prelude.{◌≡◌, ◌<◌, ◌↔◌, IsTrue};
    ghost use Rattle.ww_model.specs.Waits.{WaitsAt, WaitsFor, IsOneOf, IsRing, IsCondemned, FindsChosen, Finds};
    ghost use Rattle.ww_model.specs.Snapshot.{state_of};
    ghost use Rattle.ww_model.specs.Least.{IsRingFrom, DiesAt, DiesSome};

    /// The seat for which this one waits at the lock, if it waits there.
    fn awaited_at(&self, seat: u8, lock: u8) -> Option<u8>
        ensures { Finds (λ b. WaitsAt (state_of self.now) seat b lock) result }
    {
        if !self.waits_at(seat, lock) {
            return None;
        }
        // Inside the guard a seat waits for nobody.
        if is_guard_of(self.guard_at(lock), seat) {
            return None;
        }
        other_owner(self.owner_at(lock), seat)
    }

    /// The seat for which this one waits, if it waits at some lock: it stands in one wait list at most.
    fn waits_for(&self, seat: u8) -> Option<u8>
        ensures { Finds (WaitsFor (state_of self.now) seat) result }
    {
        for lock in 0..self.locks() {
            if let Some(owner) = self.awaited_at(seat, lock) {
                return Some(owner);
            }
        }
        None
    }

    /// The ring that begins with this seat, if the seat is in a ring.
    fn ring_from(&self, first: u8) -> Option<ArrayVec<u8, MAX_SEATS>>
        requires { first < (state_of self.now).seats }
        ensures { let c = state_of self.now in
            FindsChosen (λ ring. IsRing c ring × IsOneOf first ring) (λ ring. IsRingFrom c first ring.items) result }
    {
        // In a reached state, which this one is known to be where a field is used, nobody waits for two: there is one
        // way to go. It ends, or it comes to a seat where it was.
        let _reached = &self.kind;
        let mut ring = ArrayVec::new();
        let mut here = first;
        while !is_one_of(ring.as_slice(), here) {
            ring.push(here);
            let Some(next) = self.waits_for(here) else {
                return None;
            };
            here = next;
        }
        if here == first { Some(ring) } else { None }
    }

    /// Whether the seat has to die at the lock, where it waits for another.
    fn dies_at(&self, seat: u8, lock: u8) -> bool
        ensures { IsTrue result ↔ DiesAt (state_of self.now) seat lock }
    {
        match self.awaited_at(seat, lock) {
            Some(_) => self.dies(seat, lock).is_some(),
            None => false,
        }
    }

    /// Whether it has to at some lock.
    fn dies_some(&self, seat: u8) -> bool
        ensures { IsTrue result ↔ DiesSome (state_of self.now) seat }
    {
        for lock in 0..self.locks() {
            if self.dies_at(seat, lock) {
                return true;
            }
        }
        false
    }

    /// Whether the seat is signed, owns a lock, and has to die where it waits.
    fn is_condemned(&self, seat: u8) -> bool
        ensures { IsTrue result ↔ IsCondemned (state_of self.now) seat }
    {
        self.sign_at(seat) > 0 && self.owns_some(seat) && self.dies_some(seat)
    }
}

/// The owner of a lock, if that is another seat than this one.
fn other_owner(holder: Holder, seat: u8) -> Option<u8>
    ensures { Finds (λ b. (seat ≢ b) × ((holder ≡ Taken b) ⊎ (holder ≡ Handed b))) result }
{
    match holder {
        Holder::Nobody => None,
        Holder::Taken(owner) | Holder::Handed(owner) => (owner != seat).then_some(owner),
    }
}

fn is_one_of(seats: &[u8], seat: u8) -> bool
    ensures { result ≡ list_any (λ other. other == seat) seats.now }
{
    seats.contains(&seat)
}

fn lesser_of(least: Option<u8>, seat: u8) -> u8
    ensures { result ≡ lesser_of least seat }
{
    match least {
        Some(other) => other.min(seat),
        None => seat,
    }
}
