//! The loop of a caller whose own code takes the locks.

ghost use Rattle.std.specs.Prelude.{IfOk, IfErr};
ghost use Rattle.ww_users.specs.Rounds.{IsRound, IsHaltingRound, MayRunRounds, HasRunRounds, IsPutOff};

use crate::context::give_up;
use std::sync::Wait;
use ww_lock::{Acquiring, Backoff, Halt, Pass, World};

/// Runs a body that takes locks until it gets no EDEADLK. After EDEADLK all locks are released and the contended
/// one is taken, and the body runs again: it finds that lock held, and is to take the others again. A body that takes a
/// lock that is held already goes on by `going_on`.
pub fn lock_until<R: Wait, F: Fn(Acquiring) -> Result<Acquiring, Backoff>>(
    rt: &R,
    world: &World,
    acquiring: Acquiring,
    body: F,
) -> Acquiring
    requires { MayRunRounds IsRound acquiring world.now (F.pre body) (F.post body) }
    ensures { HasRunRounds acquiring world.now (F.post body) result }
{
    let mut acquiring = acquiring;
    for _ in rt.forever() {
        match body(acquiring) {
            Ok(acquiring) => return acquiring,
            Err(backoff) => acquiring = backoff.back_off(rt, world),
        }
    }
    unreachable!()
}

/// Runs a body as `lock_until` does, but each wait may be cancelled: those of the body, which reports that by `going_on`,
/// and those of the back-offs. Then all locks are released, the context ends, and the call returns by whom.
pub fn lock_until_interruptible<R: Wait, F: Fn(Acquiring) -> Result<Acquiring, Halt>>(
    rt: &R,
    world: &World,
    acquiring: Acquiring,
    body: F,
) -> Result<Acquiring, (Pass, u8)>
    requires { MayRunRounds IsHaltingRound acquiring world.now (F.pre body) (F.post body) }
    ensures round { IfOk result (HasRunRounds acquiring world.now (F.post body)) }
    ensures put_off { IfErr result (λ e. IsPutOff acquiring world.now e.1 e.0) }
{
    let mut acquiring = acquiring;
    for _ in rt.forever() {
        match body(acquiring) {
            Ok(acquiring) => return Ok(acquiring),
            Err(Halt::Interrupted(acquiring, by)) => {
                return Err((give_up(world, acquiring, rt), by));
            }
            Err(Halt::Deadlk(backoff)) => {
                let contended = backoff.unlock_all(rt, world);
                match contended.lock_slow_interruptible(rt, world) {
                    Ok(again) => acquiring = again,
                    Err((contended, by)) => return Err((contended.fini(world), by)),
                }
            }
        }
    }
    unreachable!()
}
