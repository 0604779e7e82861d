//! The state of the core, and what can be asked of it.

ghost use Rattle.std.specs.Prelude.{◌≡◌, IfOk, [], replicate};

use std::alloc::{AllocError, Global};
use std::marker::Model;
use ww_queue::{Entry, Kind, Queue};

/// How many locks a core has at most.
pub const MAX_LOCKS: usize = 64;

/// Who owns a lock.
#[derive(Clone, Copy, Debug, PartialEq, Eq)]
pub enum Holder {
    /// Nobody.
    Nobody,
    /// The seat has taken it.
    Taken(u8),
    /// It was handed to the seat, which has not taken it yet.
    Handed(u8),
}

/// The core: the state of all seats and locks at one moment. It is made at its start, and only steps change it: so its
/// state is always a reached one. Contracts see it as plain lists, and name the state that they show.
#[derive(Debug, Drop)]
pub struct Core {
    pub(crate) kind: Kind,
    /// The stamp drawn last.
    pub(crate) drawn: u64,
    pub(crate) commits: u64,
    // Of each seat: the stamp of its context, and the stamp of the older context that condemns it; 0 without one.
    pub(crate) stamps: Vec<u64>,
    pub(crate) signs: Vec<u64>,
    // Of each lock: the owner, whether it is asked to hand the lock over, the waiters, and the seat inside the guard.
    pub(crate) owners: Vec<Holder>,
    pub(crate) asked: Vec<bool>,
    pub(crate) queues: Vec<Queue>,
    pub(crate) guards: Vec<Option<u8>>,
    // Whose cancel of each seat is pending, and whose it has heeded and not answered yet: that seat plus 1, 0 if
    // nobody's.
    pub(crate) cancels: Vec<u8>,
    pub(crate) heeded: Vec<u8>,
}

impl Model for Core {
    ghost use Rattle.ww_model.specs.Snapshot.{Snapshot};

    ghost Value = { Snapshot };

    ghost use Rattle.ww_model.specs.Snapshot.{IsCore};
    ghost use Rattle.ww_model.specs.Core.{snapshot_of};

    ghost view = { snapshot_of };

    ghost invariant = { λ core. IsCore (snapshot_of core) };
}

impl Core {
    ghost use Rattle.std.specs.Prelude.{ℕ, ◌≡◌, ◌<◌, ◌≤◌, ◌⊎◌, IfOk};
    ghost use Rattle.ww_word.specs.declared.owner.TheConstants.{MAX_SEATS};
    ghost use Rattle.ww_model.specs.declared.state.Holder.TheVariants.{Taken, Handed};
    ghost use Rattle.ww_model.specs.State.{start};
    ghost use Rattle.ww_model.specs.Run.{Reached};
    ghost use Rattle.ww_model.specs.Snapshot.{state_of};

    /// A core in which nothing has happened yet.
    pub fn new(alloc: Global, kind: Kind, locks: u8, seats: u8) -> Result<Core, AllocError>
        requires some_lock { 1 ≤ locks }
        requires locks { locks ≤ MAX_LOCKS }
        requires some_seat { 1 ≤ seats }
        requires seats { seats ≤ MAX_SEATS }
        ensures state { IfOk result (λ core. state_of core ≡ start kind locks seats) }
        ensures reached { IfOk result (λ core. Reached (state_of core)) }
    {
        let (locks, seats) = (locks as usize, seats as usize);
        Ok(Core {
            kind,
            drawn: 0,
            commits: 0,
            stamps: vec![in alloc; 0; seats]?,
            signs: vec![in alloc; 0; seats]?,
            owners: vec![in alloc; Holder::Nobody; locks]?,
            asked: vec![in alloc; false; locks]?,
            queues: empty_queues(alloc, locks)?,
            guards: vec![in alloc; None; locks]?,
            cancels: vec![in alloc; 0; seats]?,
            heeded: vec![in alloc; 0; seats]?,
        })
    }

    /// A run of possible events comes to the core's state, so what holds of every reached state holds of it.
    pub fn is_reached(&self)
        ensures { Reached (state_of self.now) }
    {
        // It is known where a field is used.
        let _kind = &self.kind;
    }

    /// How many locks there are.
    pub fn locks(&self) -> u8
        ensures { result ≡ (state_of self.now).locks }
    {
        self.owners.len() as u8
    }

    /// How many seats there are.
    pub fn seats(&self) -> u8
        ensures { result ≡ (state_of self.now).seats }
    {
        self.stamps.len() as u8
    }

    /// Who owns the lock: nobody, or one of the seats.
    pub fn owner_of(&self, lock: u8) -> Holder
        requires { lock < (state_of self.now).locks }
        ensures owner { result ≡ (state_of self.now).owner lock }
        ensures seat { (seat : ℕ) → (result ≡ Taken seat) ⊎ (result ≡ Handed seat) → seat < (state_of self.now).seats }
    {
        self.owners[lock as usize]
    }

    /// The waiters of the lock, in their order.
    pub fn queue_of(&self, lock: u8) -> &[Entry]
        requires { lock < (state_of self.now).locks }
        ensures { result.now ≡ (state_of self.now).queue lock }
    {
        let queue = &self.queues[lock as usize];
        queue.entries()
    }

    /// The stamp of the seat's context, 0 without one.
    pub fn stamp_of(&self, seat: u8) -> u64
        requires { seat < (state_of self.now).seats }
        ensures { result ≡ (state_of self.now).stamp seat }
    {
        self.stamps[seat as usize]
    }

    /// The sign of the seat: the stamp of the older context that condemns it, 0 if none does.
    pub fn sign_of(&self, seat: u8) -> u64
        requires { seat < (state_of self.now).seats }
        ensures { result ≡ (state_of self.now).sign seat }
    {
        self.signs[seat as usize]
    }

    /// Whose cancel of the seat is pending: that seat plus 1, 0 if none is. One at most is pending for a seat; the
    /// cancel that it has heeded is pending no longer.
    pub fn cancel_of(&self, seat: u8) -> u8
        requires { seat < (state_of self.now).seats }
        ensures { result ≡ (state_of self.now).cancel seat }
    {
        self.cancels[seat as usize]
    }
}

/// This many empty wait lists.
fn empty_queues(alloc: Global, count: usize) -> Result<Vec<Queue>, AllocError>
    ensures { IfOk result (λ queues. queues.items ≡ replicate count []) }
{
    let mut queues = Vec::new(alloc);
    for _ in 0..count {
        queues.push(Queue::new())?;
    }
    Ok(queues)
}
