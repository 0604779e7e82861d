//! Which way the locks of a transaction are taken.

ghost use Rattle.std.specs.Prelude.{◌≡◌, ◌≤◌, ◌<◌, ◌∷◌, [], length, map, IfSome};
ghost use Rattle.ww_plain.specs.Transaction.{transaction_of, listed};
ghost use Rattle.ww_plain.specs.Footprint.{with_target};
ghost use Rattle.ww_lock.specs.Holding.{IsAtHome};
ghost use Rattle.ww_users.specs.Ways.{MayTakeList, HoldsExactly, IsWayAnswer, IsOrderAnswer};
ghost use Rattle.ww_txn.specs.Transact.{MayTransact, HoldsFootprint};

use arrayvec::ArrayVec;
use std::sync::Wait;
use ww_lock::{Pass, Waits, World};
use ww_plain::{By, MAX_NODES, Txn};
use ww_users::{Taken, lock_list_as, lock_order_as, lock_walk_as};

/// Takes a transaction's locks in a context. Get and Add name their way, Sum and Reverse use the walk, all others the
/// fixed list.
pub(crate) fn lock_all<R: Wait>(world: &World, pass: Pass, rt: &R, txn: &Txn, waits: Waits) -> Taken
    requires { MayTransact (transaction_of txn.now) pass world.now }
    ensures { IsWayAnswer waits pass (listed (transaction_of txn.now)) (HoldsFootprint (transaction_of txn.now)) result }
{
    match txn {
        Txn::Get(by, nodes) => lock_by(world, pass, rt, *by, nodes, waits),
        Txn::Add(by, amounts) => lock_by(world, pass, rt, *by, &nodes_of(amounts), waits),
        Txn::Move(from, to, _) => lock_list_as(world, pass, rt, &[*from, *to], waits),
        Txn::Link(node, _, target) => lock_link(world, pass, rt, *node, *target, waits),
        Txn::Sum(start, port, most) => lock_walk_as(world, pass, rt, *start, *port, *most, waits),
        Txn::Reverse(start, port, most) => lock_walk_as(
            world, pass, rt, *start, *port, *most, waits,
        ),
        Txn::Peek(node) => lock_list_as(world, pass, rt, &[*node], waits),
    }
}

/// Takes the locks of a list by the way that is named.
fn lock_by<R: Wait>(world: &World, pass: Pass, rt: &R, by: By, list: &[u8], waits: Waits) -> Taken
    requires may { MayTakeList list.now pass world.now }
    requires few { length list.now ≤ MAX_NODES }
    ensures { IsOrderAnswer waits pass list.now result }
{
    match by {
        By::List => lock_list_as(world, pass, rt, list, waits),
        By::Order => lock_order_as(world, pass, rt, list, waits),
    }
}

/// Takes the locks of a node and of a target, where there is one.
fn lock_link<R: Wait>(
    world: &World,
    pass: Pass,
    rt: &R,
    node: u8,
    target: Option<u8>,
    waits: Waits,
) -> Taken
    requires home { IsAtHome pass world.now }
    requires nodes { (node < length world.now.first) × IfSome target (λ t. t < length world.now.first) }
    ensures { IsWayAnswer waits pass [] (HoldsExactly (with_target (node ∷ []) target)) result }
{
    match target {
        Some(target) if target != node => lock_list_as(world, pass, rt, &[node, target], waits),
        _ => lock_list_as(world, pass, rt, &[node], waits),
    }
}

/// The nodes of a list of amounts, in its order.
fn nodes_of(amounts: &[(u8, u64)]) -> ArrayVec<u8, MAX_NODES>
    requires { length amounts.now ≤ MAX_NODES }
    ensures { result.items ≡ map (λ pair. pair.0) amounts.now }
{
    let mut nodes = ArrayVec::new();
    for (node, _) in amounts {
        nodes.push(*node);
    }
    nodes
}
