//! What a context does in each of the three ways, however it waits.

ghost use Rattle.std.specs.Prelude.{ℕ, ◌≡◌, ◌<◌, ◌∷◌, [], List, length, IfOk, IfErr};
ghost use Rattle.ww_lock.specs.Holding.{Holding, IsAtHome};
ghost use Rattle.ww_lock.specs.Waits.{Waits};
ghost use Rattle.ww_users.specs.Ways.{IsContext, IsRefusal, IsWayAnswer};
ghost use Rattle.ww_users.specs.Trips.{HasLocked, IsHalt};

use crate::fault::UserFault;
use std::sync::Wait;
use ww_lock::{Acquiring, Backoff, Halt, Pass, Waits, World};

/// Starts a context that holds no lock yet.
#[inline(always)]
pub(crate) fn begin(world: &World, pass: Pass) -> Result<Acquiring, (Pass, UserFault)>
    requires { IsAtHome pass world.now }
    ensures begun { IfOk result (λ a. IsContext pass a × (a.held ≡ [])) }
    ensures spent { (waits : Waits) (list : List ℕ) → IfErr result (λ e. IsRefusal waits pass list e.0 e.1) }
{
    match pass.begin(world) {
        Ok(acquiring) => Ok(acquiring),
        Err(pass) => Err((pass, UserFault::PassSpent)),
    }
}

/// After EDEADLK: releases all locks, and takes the contended one, however long that takes. Where that wait is called
/// off the context ends.
pub(crate) fn back_off<R: Wait>(
    world: &World,
    backoff: Backoff,
    rt: &R,
    waits: Waits,
) -> Result<Acquiring, (Pass, UserFault)>
    requires { IsAtHome backoff.holding world.now }
    ensures { (pass : Holding) (list : List ℕ) → IsContext pass backoff.holding → IsWayAnswer waits pass list (λ a. a.held ≡ backoff.contended ∷ []) result }
{
    match backoff.unlock_all(rt, world).lock_slow_as(rt, world, waits) {
        Ok(acquiring) => Ok(acquiring),
        Err((contended, by)) => Err((contended.fini(world), UserFault::Interrupted(by))),
    }
}

/// Releases all locks, and ends the context.
pub(crate) fn give_up<R: Wait>(world: &World, acquiring: Acquiring, rt: &R) -> Pass
    requires { IsAtHome acquiring world.now }
    ensures { result ≡ record acquiring { held = []; stamp = 0 } }
{
    acquiring.unlock_all(rt, world).fini(world)
}

/// Takes a lock. EALREADY means that the context goes on.
pub(crate) fn lock_one<R: Wait>(
    world: &World,
    acquiring: Acquiring,
    rt: &R,
    n: u8,
    waits: Waits,
) -> Result<Acquiring, Halt>
    requires home { IsAtHome acquiring world.now }
    requires node { n < length world.now.first }
    ensures ok { IfOk result (HasLocked acquiring n) }
    ensures err { IfErr result (IsHalt waits acquiring) }
{
    acquiring.lock_as(rt, world, n, waits).going_on()
}
