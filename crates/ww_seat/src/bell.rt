//! What a thread sleeps on, and what others wake it by.
ghost use Rattle.std.specs.Prelude.{◌≡◌, ◌+◌, true};
ghost use Rattle.std.specs.Arc.{arc_value};

use crate::staying_away::pause_for;
use crossbeam_utils::rule::{Outcome, Protocol};
use crossbeam_utils::sync::parker::{Pass, RuledParker, RuledUnparker};
use std::alloc::{AllocError, Global};
use std::sync::atomic::{AtomicBool, Ordering};
use std::sync::{Arc, Wait};

/// How often a waiter listens before it sleeps, and for how many pauses before it listens again. It lets nobody else run
/// for that: where others want its processor, it would lose a time slice.
const LISTENS: u32 = 256;

const PAUSES: u32 = 8;

/// Nothing is asked of a token. A pass counts the tokens that it gave, or took.
pub(crate) struct Rings;

impl Protocol<bool, u64> for Rings {
    ghost holds = { λ _ _. Unit {0} };

    ghost first = { 0 };
}

/// A token was given, and is there.
struct Rang;

impl Outcome<bool, u64> for Rang {
    ghost then = { λ v _ now w. (now ≡ true) × (w ≡ v + 1) };
}

/// A token was there, and was taken. The parker's pass counts those.
struct Heard;

impl Outcome<bool, u64> for Heard {
    ghost then = { λ v was _ w. (was ≡ true) × (w ≡ v + 1) };
}

/// What one thread sleeps on. Nobody else has it.
#[derive(Drop)]
pub struct Parker {
    parker: RuledParker<u64, Rings>,
    pass: Pass<u64>,
    /// Whether a bell rang since it last listened. No contract speaks of it: it only ends the pauses before a sleep.
    rang: Arc<AtomicBool, Global>,
    ghost own: { pass.table_id ≡ (arc_value parker.unparker.state).shared.table_id },
}

impl Parker {
    ghost use Rattle.std.specs.Prelude.{IfOk};
    ghost use Rattle.std.specs.Prelude.{◌≡◌, ◌+◌};
    ghost use Rattle.ww_seat.specs.Bells.{leads_to, table_of, taken_at};

    /// No token was taken yet.
    pub fn new(alloc: Global) -> Result<Parker, AllocError>
        ensures { IfOk result (λ parker. taken_at parker ≡ 0) }
    {
        let (parker, pass) = RuledParker::ruled(alloc)?;
        let rang = Arc::new(alloc, AtomicBool::new(false))?;
        Ok(Parker { parker, pass, rang })
    }

    /// A wire that leads to it.
    pub fn wire(&self) -> Result<Wire, AllocError>
        ensures { IfOk result (λ wire. leads_to wire ≡ table_of self.now) }
    {
        let unparker = self.parker.unparker().clone()?;
        let rang = Arc::try_clone(&self.rang)?;
        Ok(Wire { unparker, rang })
    }

    /// Gives others a while to ring: a sleep after that costs no system call.
    pub(crate) fn listen(&self) {
        for _ in 0..LISTENS {
            if self.rang.load(Ordering::SeqCst) {
                break;
            }
            pause_for(PAUSES);
        }
        self.rang.store(false, Ordering::SeqCst);
    }

    /// Sleeps until its token is there, and takes it.
    pub fn park<R: Wait>(&mut self, rt: &R)
        ensures placed { table_of self.new ≡ table_of self.old }
        ensures taken { taken_at self.new ≡ taken_at self.old + 1 }
    {
        self.parker.park_as::<Heard, R>(rt, &mut self.pass);
    }
}

/// What bells of one parker are made of. Threads may share it; a bell they may not.
#[derive(Drop)]
pub struct Wire {
    unparker: RuledUnparker<u64, Rings>,
    rang: Arc<AtomicBool, Global>,
}

/// Wakes the thread that sleeps on one parker, by its token. It counts the tokens that it gave.
#[derive(Drop)]
pub struct Bell {
    unparker: RuledUnparker<u64, Rings>,
    pass: Pass<u64>,
    rang: Arc<AtomicBool, Global>,
    ghost own: { pass.table_id ≡ (arc_value unparker.state).shared.table_id },
}

impl Bell {
    ghost use Rattle.std.specs.Prelude.{IfOk};
    ghost use Rattle.ww_seat.specs.Bells.{leads_to, rings_at, rung};

    /// A bell of the parker to which the wire leads. It has given no token yet.
    pub fn hang(wire: &Wire) -> Result<Bell, AllocError>
        ensures placed { IfOk result (λ bell. rings_at bell ≡ leads_to wire.now) }
        ensures silent { IfOk result (λ bell. rung bell ≡ 0) }
    {
        let unparker = wire.unparker.clone()?;
        let pass = unparker.pass();
        let rang = Arc::try_clone(&wire.rang)?;
        Ok(Bell {
            unparker,
            pass,
            rang,
        })
    }

    /// Gives the token, and wakes the thread that sleeps there.
    pub(crate) fn ring(&mut self)
        ensures rung { rung self.new ≡ rung self.old + 1 }
        ensures placed { rings_at self.new ≡ rings_at self.old }
    {
        self.unparker.unpark_as::<Rang>(&mut self.pass);
        self.rang.store(true, Ordering::SeqCst);
    }
}
