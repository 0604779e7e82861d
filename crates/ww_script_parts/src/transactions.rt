//! The forms of transactions. All of a transaction's own faults are reported before any fault of its members.

ghost use Rattle.std.specs.Prelude.{map};
ghost use Rattle.serde_json.specs.View.{view};
ghost use Rattle.ww_plain.specs.Transaction.{transaction_of};
ghost use Rattle.ww_json.specs.Parts.{Gives, Says, below, each};
ghost use Rattle.ww_script_parts.specs.Transactions.{by_in, get_of as get_members, pair_in, add_of as add_members, move_of as move_members, target_in, link_of as link_members, course_of as course_members, sum_of as sum_members, reverse_of as reverse_members, peek_of as peek_members, locking_worded, transaction_worded, locking_in};

use crate::ranges::Ranges;
use serde_json::Value;
use std::alloc::Global;
use ww_json::{InputFault, array_of, below_of, counted_of, number_of, ranged_of, text_of};
use ww_plain::{By, MAX_NODES, Txn};

#[tactic(auto, unfolding(crate::specs::Transactions::by_in))]
fn by_of(value: &Value) -> Result<By, InputFault>
    ensures { Says (λ by. by) result (by_in (view value.now)) }
{
    match text_of(value)? {
        "list" => Ok(By::List),
        "order" => Ok(By::Order),
        _ => Err(InputFault::BadWord),
    }
}

fn each_below(alloc: Global, limit: u8, items: &[Value]) -> Result<Vec<u8>, InputFault>
    ensures { Gives (λ numbers. numbers.items) result (each (below limit) (map view items.now)) }
{
    let mut numbers = Vec::with_capacity(alloc, items.len())?;
    for item in items {
        let number = below_of(limit, item)?;
        numbers.push(number)?;
    }
    Ok(numbers)
}

fn get_of(alloc: Global, size: u8, members: &[Value]) -> Result<Txn, InputFault>
    ensures { Gives transaction_of result (get_members size (map view members.now)) }
{
    match members {
        [by, nodes] => {
            let by = by_of(by)?;
            let items = counted_of(1, MAX_NODES, nodes)?;
            let nodes = each_below(alloc, size, items)?;
            Ok(Txn::Get(by, nodes))
        }
        _ => Err(InputFault::BadWord),
    }
}

/// A node of a graph of `size` nodes, and an amount.
#[tactic(auto, unfolding(crate::specs::Transactions::pair_in))]
fn pair_of(size: u8, value: &Value) -> Result<(u8, u64), InputFault>
    ensures { Says (λ pair. pair) result (pair_in size (view value.now)) }
{
    match array_of(value)?.as_slice() {
        [node, amount] => {
            let node = below_of(size, node)?;
            let amount = number_of(amount)?;
            Ok((node, amount))
        }
        _ => Err(InputFault::BadWord),
    }
}

fn each_pair(alloc: Global, size: u8, items: &[Value]) -> Result<Vec<(u8, u64)>, InputFault>
    ensures { Gives (λ pairs. pairs.items) result (each (pair_in size) (map view items.now)) }
{
    let mut pairs = Vec::with_capacity(alloc, items.len())?;
    for item in items {
        let pair = pair_of(size, item)?;
        pairs.push(pair)?;
    }
    Ok(pairs)
}

fn add_of(alloc: Global, size: u8, members: &[Value]) -> Result<Txn, InputFault>
    ensures { Gives transaction_of result (add_members size (map view members.now)) }
{
    match members {
        [by, pairs] => {
            let by = by_of(by)?;
            let items = counted_of(1, MAX_NODES, pairs)?;
            let pairs = each_pair(alloc, size, items)?;
            Ok(Txn::Add(by, pairs))
        }
        _ => Err(InputFault::BadWord),
    }
}

fn move_of(size: u8, members: &[Value]) -> Result<Txn, InputFault>
    ensures { Says transaction_of result (move_members size (map view members.now)) }
{
    match members {
        [from, to, amount] => {
            let from = below_of(size, from)?;
            let to = below_of(size, to)?;
            let amount = number_of(amount)?;
            Ok(Txn::Move(from, to, amount))
        }
        _ => Err(InputFault::BadWord),
    }
}

/// A link's target: null, or the number of one of the `size` nodes. Another is out of range.
#[tactic(auto, unfolding(crate::specs::Transactions::target_in))]
fn target_of(size: u8, value: &Value) -> Result<Option<u8>, InputFault>
    ensures { Says (λ target. target) result (target_in size (view value.now)) }
{
    if value.is_null() {
        return Ok(None);
    }
    let target = below_of(size, value)?;
    Ok(Some(target))
}

fn link_of(ranges: Ranges, members: &[Value]) -> Result<Txn, InputFault>
    ensures { Says transaction_of result (link_members ranges (map view members.now)) }
{
    match members {
        [node, port, target] => {
            let node = below_of(ranges.nodes, node)?;
            let port = below_of(ranges.ports, port)?;
            let target = target_of(ranges.nodes, target)?;
            Ok(Txn::Link(node, port, target))
        }
        _ => Err(InputFault::BadWord),
    }
}

/// Where a walk starts, along which port it leads, and its greatest length.
fn course_of(ranges: Ranges, members: &[Value]) -> Result<(u8, u8, u8), InputFault>
    ensures { Says (λ course. course) result (course_members ranges (map view members.now)) }
{
    match members {
        [start, port, length] => {
            let start = below_of(ranges.nodes, start)?;
            let port = below_of(ranges.ports, port)?;
            let length = ranged_of(1, MAX_NODES as u8, length)?;
            Ok((start, port, length))
        }
        _ => Err(InputFault::BadWord),
    }
}

#[tactic(auto, unfolding(crate::specs::Transactions::sum_of))]
fn sum_of(ranges: Ranges, members: &[Value]) -> Result<Txn, InputFault>
    ensures { Says transaction_of result (sum_members ranges (map view members.now)) }
{
    let (start, port, length) = course_of(ranges, members)?;
    Ok(Txn::Sum(start, port, length))
}

#[tactic(auto, unfolding(crate::specs::Transactions::reverse_of))]
fn reverse_of(ranges: Ranges, members: &[Value]) -> Result<Txn, InputFault>
    ensures { Says transaction_of result (reverse_members ranges (map view members.now)) }
{
    let (start, port, length) = course_of(ranges, members)?;
    Ok(Txn::Reverse(start, port, length))
}

fn peek_of(size: u8, members: &[Value]) -> Result<Txn, InputFault>
    ensures { Says transaction_of result (peek_members size (map view members.now)) }
{
    match members {
        [node] => {
            let node = below_of(size, node)?;
            Ok(Txn::Peek(node))
        }
        _ => Err(InputFault::BadWord),
    }
}

/// What follows this word, of a transaction that takes locks.
fn locking_worded(
    alloc: Global,
    ranges: Ranges,
    word: &str,
    members: &[Value],
) -> Result<Txn, InputFault>
    ensures { Gives transaction_of result (locking_worded ranges word.now (map view members.now)) }
{
    match word {
        "get" => get_of(alloc, ranges.nodes, members),
        "add" => add_of(alloc, ranges.nodes, members),
        "move" => move_of(ranges.nodes, members),
        "link" => link_of(ranges, members),
        "sum" => sum_of(ranges, members),
        "reverse" => reverse_of(ranges, members),
        _ => Err(InputFault::BadWord),
    }
}

/// What follows this word, of any transaction.
pub(crate) fn transaction_worded(
    alloc: Global,
    ranges: Ranges,
    word: &str,
    members: &[Value],
) -> Result<Txn, InputFault>
    ensures { Gives transaction_of result (transaction_worded ranges word.now (map view members.now)) }
{
    match word {
        "peek" => peek_of(ranges.nodes, members),
        _ => locking_worded(alloc, ranges, word, members),
    }
}

/// A transaction that takes locks: a word, and then the members that it asks for.
#[tactic(auto, unfolding(crate::specs::Transactions::locking_in))]
pub(crate) fn locking_of(alloc: Global, ranges: Ranges, value: &Value) -> Result<Txn, InputFault>
    ensures { Gives transaction_of result (locking_in ranges (view value.now)) }
{
    match array_of(value)?.as_slice() {
        [word, members @ ..] => locking_worded(alloc, ranges, text_of(word)?, members),
        [] => Err(InputFault::BadWord),
    }
}
