//! An example of a caller of the locks: it moves an amount from one node to another.

ghost use Rattle.std.specs.Prelude.{◌≡◌, ◌≢◌, ◌<◌, length, IfOk, IfErr};
ghost use Rattle.ww_plain.specs.Transaction.{move};
ghost use Rattle.ww_lock.specs.Holding.{IsAtHome};
ghost use Rattle.ww_lock.specs.Moves.{backed_off, having_slept};
ghost use Rattle.ww_users.specs.Rounds.{KeepsContext, IsRound};
ghost use Rattle.ww_bank.specs.Caller.{IsLockedMore, HasBoth, HasRecord};

use std::sync::Wait;
use thiserror::Error;
use ww_lock::{Acquiring, Backoff, Pass, Receipt, World};
use ww_plain::Txn;
use ww_users::lock_until;

/// Why nothing was moved, and nothing recorded.
#[derive(Clone, Copy, Debug, PartialEq, Eq, Drop, Error)]
pub(crate) enum TransferFault {
    /// The pass has no context left to start.
    #[error("the pass has no context left to start")]
    Spent,
    /// A growth was refused.
    #[error("no memory")]
    NoMemory,
}

/// Moves an amount from one node to another, in a context that holds both locks. The receipt says whether the amount
/// was there, and whether there was room for it.
pub(crate) fn transfer<R: Wait>(
    rt: &R,
    world: &World,
    pass: Pass,
    from: u8,
    to: u8,
    amount: u64,
) -> (Pass, Result<Receipt, TransferFault>)
    requires home { IsAtHome pass world.now }
    requires from { from < length world.now.first }
    requires to { to < length world.now.first }
    requires different { from ≢ to }
    ensures home { IsAtHome result.0 world.now }
    ensures caller { result.0.caller ≡ pass.caller }
    ensures told { IfOk result.1 (HasRecord pass result.0 (move from to amount)) }
    ensures refused { IfErr result.1 (λ _. result.0.own ≡ pass.own) }
{
    let acquiring = match pass.begin(world) {
        Ok(acquiring) => acquiring,
        Err(pass) => return (pass, Err(TransferFault::Spent)),
    };
    let mut done = lock_both(rt, world, acquiring, from, to).done();
    let Ok(prepared) = done.prepare(world, Txn::Move(from, to, amount)) else {
        let pass = done.unlock_all(rt, world).fini(world);
        return (pass, Err(TransferFault::NoMemory));
    };
    let (committed, receipt) = done.commit(world, prepared);
    let pass = committed.unlock_all(rt, world).fini(world);
    (pass, Ok(receipt))
}

/// Takes two locks in the order given. After EDEADLK it releases all, takes the lock that it couldn't get, and begins
/// again.
fn lock_both<R: Wait>(rt: &R, world: &World, acquiring: Acquiring, from: u8, to: u8) -> Acquiring
    requires home { IsAtHome acquiring world.now }
    requires from { from < length world.now.first }
    requires to { to < length world.now.first }
    ensures same { KeepsContext acquiring result }
    ensures both { HasBoth from to result }
{
    let body = |acquiring: Acquiring|
        requires home { IsAtHome acquiring world.now }
        requires from { from < length world.now.first }
        requires to { to < length world.now.first }
        ensures round { IsRound acquiring result }
        ensures both { IfOk result (HasBoth from to) }
    { lock_in_turn(rt, world, acquiring, from, to) };
    lock_until(rt, world, acquiring, body)
}

/// Takes two locks in the order given, or as far as it can.
fn lock_in_turn<R: Wait>(
    rt: &R,
    world: &World,
    acquiring: Acquiring,
    from: u8,
    to: u8,
) -> Result<Acquiring, Backoff>
    requires home { IsAtHome acquiring world.now }
    requires from { from < length world.now.first }
    requires to { to < length world.now.first }
    ensures round { IsRound acquiring result }
    ensures both { IfOk result (HasBoth from to) }
{
    let acquiring = lock_one(rt, world, acquiring, from)?;
    lock_one(rt, world, acquiring, to)
}

/// Takes a lock that the context may hold already.
fn lock_one<R: Wait>(
    rt: &R,
    world: &World,
    acquiring: Acquiring,
    n: u8,
) -> Result<Acquiring, Backoff>
    requires home { IsAtHome acquiring world.now }
    requires node { n < length world.now.first }
    ensures locked { IfOk result (IsLockedMore acquiring n) }
    ensures refused { IfErr result (λ b. b.holding ≡ backed_off (having_slept acquiring b.holding.deaf)) }
{
    acquiring.lock(rt, world, n).going_on()
}
