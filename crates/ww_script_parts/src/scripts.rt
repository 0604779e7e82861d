//! Scripts on a graph, as an input writes them.

ghost use Rattle.std.specs.Prelude.{◌≤◌, length, map};
ghost use Rattle.serde_json.specs.View.{view};
ghost use Rattle.ww_json.specs.Parts.{Gives, Says, each};
ghost use Rattle.ww_script_parts.specs.Acts.{deed_of, act_in};
ghost use Rattle.ww_script_parts.specs.Scripts.{script_lists, port_in, first_ports, ports_in, node_in, graph_in, script_in, scripts_in, plan_in};

use crate::acts::{Act, act_of};
use crate::ranges::Ranges;
use crate::version::Version;
use serde_json::Value;
use std::alloc::Global;
use std::marker::Model;
use ww_json::{
    InputFault, below_of, bool_of, counted_of, kind_of, member_of, number_of, only_of, size_of,
};
use ww_plain::{Graph, MAX_NODES, Node, PORTS};
use ww_queue::Kind;
use ww_word::MAX_SEATS;

/// How many scripts there are at most.
const MAX_SCRIPTS: usize = MAX_SEATS;

/// How many acts a script has at most.
const MAX_ACTS: usize = 10_000;

/// 1 to 16 scripts of acts on one graph, and whether the places of the transactions are to be told. Each transaction's
/// numbers are those of the graph, and each cancel is of one of the scripts. Of a node's ports the first `ports` are in
/// use, as many as its version has: the others are empty, and no transaction names them. Contracts see all of it as a
/// plan.
#[derive(Debug, Drop)]
pub struct Scripts {
    pub kind: Kind,
    pub history: bool,
    pub ports: u8,
    pub graph: Graph,
    pub scripts: Vec<Vec<Act>>,
}

impl Model for Scripts {
    ghost use Rattle.ww_script_parts.specs.Scripts.{Plan, IsPlan, plan_of};

    ghost Value = { Plan };

    ghost view = { λ s. plan_of s.kind s.history s.ports s.graph s.scripts };

    ghost invariant = { λ s. IsPlan (plan_of s.kind s.history s.ports s.graph s.scripts) };
}

/// A port: null, or a number below 64; one that names none of the `size` nodes makes a bad graph.
#[tactic(auto, unfolding(crate::specs::Scripts::port_in))]
fn port_of(size: usize, value: &Value) -> Result<Option<u8>, InputFault>
    ensures { Says (λ port. port) result (port_in size (view value.now)) }
{
    if value.is_null() {
        return Ok(None);
    }
    let target = below_of(MAX_NODES as u8, value)?;
    if usize::from(target) < size {
        Ok(Some(target))
    } else {
        Err(InputFault::BadGraph)
    }
}

/// The items as the first ports of a node. The others are empty.
fn first_ports(size: usize, items: &[Value]) -> Result<[Option<u8>; PORTS], InputFault>
    requires few { length items.now ≤ PORTS }
    ensures { Says (λ ports. ports) result (first_ports (each (port_in size) (map view items.now))) }
{
    let mut ports = [None; PORTS];
    for (index, item) in items.iter().enumerate() {
        ports[index] = port_of(size, item)?;
    }
    Ok(ports)
}

/// As many ports as a node of this version has.
#[tactic(auto, unfolding(crate::specs::Scripts::ports_in))]
fn ports_of(version: Version, size: usize, value: &Value) -> Result<[Option<u8>; PORTS], InputFault>
    ensures { Says (λ ports. ports) result (ports_in version size (view value.now)) }
{
    let count = usize::from(version.ports());
    let items = counted_of(count, count, value)?;
    first_ports(size, items)
}

#[tactic(auto, unfolding(crate::specs::Scripts::node_in))]
fn node_of(version: Version, size: usize, value: &Value) -> Result<Node, InputFault>
    ensures { Says (λ node. node) result (node_in version size (view value.now)) }
{
    let members = size_of(value)?;
    let number = member_of("value", value)?;
    let ports = member_of("ports", value)?;
    only_of(2, members)?;
    let number = number_of(number)?;
    let ports = ports_of(version, size, ports)?;
    Ok(Node {
        value: number,
        ports,
    })
}

fn each_node(
    alloc: Global,
    version: Version,
    size: usize,
    items: &[Value],
) -> Result<Vec<Node>, InputFault>
    ensures { Gives (λ nodes. nodes.items) result (each (node_in version size) (map view items.now)) }
{
    let mut nodes = Vec::with_capacity(alloc, items.len())?;
    for item in items {
        let node = node_of(version, size, item)?;
        nodes.push(node)?;
    }
    Ok(nodes)
}

#[tactic(auto, unfolding(crate::specs::Scripts::graph_in), using(ww_json::proofs::Each::length_map_view))]
fn nodes_of(alloc: Global, version: Version, value: &Value) -> Result<Vec<Node>, InputFault>
    ensures { Gives (λ nodes. nodes.items) result (graph_in version (view value.now)) }
{
    let items = counted_of(1, MAX_NODES, value)?;
    each_node(alloc, version, items.len(), items)
}

fn graph_of(alloc: Global, version: Version, value: &Value) -> Result<Graph, InputFault>
    ensures { Gives (λ graph. graph) result (graph_in version (view value.now)) }
{
    match Graph::new(nodes_of(alloc, version, value)?) {
        Ok(graph) => Ok(graph),
        Err(_) => Err(InputFault::BadGraph),
    }
}

fn each_act(alloc: Global, ranges: Ranges, items: &[Value]) -> Result<Vec<Act>, InputFault>
    ensures { Gives (λ script. map deed_of script.items) result
        (each (act_in ranges) (map view items.now)) }
{
    let mut acts = Vec::with_capacity(alloc, items.len())?;
    for item in items {
        let act = act_of(alloc, ranges, item)?;
        acts.push(act)?;
    }
    Ok(acts)
}

#[tactic(auto, unfolding(crate::specs::Scripts::script_in))]
fn script_of(alloc: Global, ranges: Ranges, value: &Value) -> Result<Vec<Act>, InputFault>
    ensures { Gives (λ script. map deed_of script.items) result (script_in ranges (view value.now)) }
{
    let items = counted_of(0, MAX_ACTS, value)?;
    each_act(alloc, ranges, items)
}

fn each_script(alloc: Global, ranges: Ranges, items: &[Value]) -> Result<Vec<Vec<Act>>, InputFault>
    ensures { Gives script_lists result (each (script_in ranges) (map view items.now)) }
{
    let mut scripts = Vec::with_capacity(alloc, items.len())?;
    for item in items {
        let script = script_of(alloc, ranges, item)?;
        scripts.push(script)?;
    }
    Ok(scripts)
}

/// The scripts, which may name one another by their numbers.
#[tactic(auto, unfolding(crate::specs::Scripts::scripts_in), using(ww_json::proofs::Each::length_map_view))]
fn all_scripts_of(
    alloc: Global,
    nodes: u8,
    ports: u8,
    value: &Value,
) -> Result<Vec<Vec<Act>>, InputFault>
    ensures { Gives script_lists result (scripts_in nodes ports (view value.now)) }
{
    let items = counted_of(1, MAX_SCRIPTS, value)?;
    let ranges = Ranges {
        nodes,
        ports,
        scripts: items.len() as u8,
    };
    each_script(alloc, ranges, items)
}

/// All of an input but its version. First the keys are looked at, `members` of them, and then the fields in turn.
#[tactic(auto, unfolding(crate::specs::Scripts::plan_in))]
pub fn scripts_of(
    alloc: Global,
    version: Version,
    members: usize,
    value: &Value,
) -> Result<Scripts, InputFault>
    ensures { Gives (λ scripts. scripts) result (plan_in version members (view value.now)) }
{
    let kind = member_of("kind", value)?;
    let history = member_of("history", value)?;
    let nodes = member_of("nodes", value)?;
    let scripts = member_of("scripts", value)?;
    only_of(5, members)?;
    let kind = kind_of(kind)?;
    let history = bool_of(history)?;
    let graph = graph_of(alloc, version, nodes)?;
    let ports = version.ports();
    let scripts = all_scripts_of(alloc, graph.size(), ports, scripts)?;
    Ok(Scripts {
        kind,
        history,
        ports,
        graph,
        scripts,
    })
}
