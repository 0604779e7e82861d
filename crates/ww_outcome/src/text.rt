//! The text of an outcome, line by line.

ghost use Rattle.std.specs.Prelude.{◌≡◌, ◌≤◌, ◌++◌, map, string_bytes, OnOk, IfOk};
ghost use Rattle.std.specs.List.{flat_map};
ghost use Rattle.ww_plain.specs.Meaning.{answer_of};
ghost use Rattle.ww_outcome.specs.Said.{said_of};
ghost use Rattle.ww_json.specs.Pieces.{spaced, spaced_or_dash, numbered};
ghost use Rattle.ww_outcome.specs.Text.{answer_text, said_text, reply_line, script_lines, place_line, node_line, outcome_lines};

use crate::outcome::{Outcome, ScriptAnswer};
use std::alloc::{AllocError, Global};
use ww_json::{push_number, push_option};
use ww_plain::{Graph, Node, PORTS, Reply};

fn push_values(out: &mut String, values: &[u64]) -> Result<(), AllocError>
    ensures { OnOk result (string_bytes out.new ≡ string_bytes out.old ++ flat_map spaced values.now) }
{
    for value in values {
        push_number(out, " ", *value)?;
    }
    Ok(())
}

fn push_reply(out: &mut String, reply: &Reply) -> Result<(), AllocError>
    ensures { OnOk result (string_bytes out.new ≡ string_bytes out.old
        ++ answer_text (answer_of reply.now)) }
{
    match reply {
        Reply::Values(values) => {
            out.push_str("values")?;
            push_values(out, values)
        }
        Reply::Done => out.push_str("done"),
        Reply::Moved => out.push_str("moved"),
        Reply::Short => out.push_str("short"),
        Reply::Full => out.push_str("full"),
        Reply::Was(target) => {
            out.push_str("was")?;
            push_option(out, *target)
        }
        Reply::Sum(count, total) => {
            push_number(out, "sum ", *count)?;
            push_number(out, " ", *total)
        }
        Reply::End(last) => push_number(out, "end ", *last),
    }
}

fn push_answer(out: &mut String, answer: &ScriptAnswer) -> Result<(), AllocError>
    ensures { OnOk result (string_bytes out.new ≡ string_bytes out.old ++ said_text (said_of answer.now)) }
{
    match answer {
        ScriptAnswer::Reply(reply) => push_reply(out, reply),
        ScriptAnswer::Already(node) => push_number(out, "already ", *node),
        ScriptAnswer::Interrupted(script) => push_number(out, "interrupted ", *script),
        ScriptAnswer::Cancel(true) => out.push_str("cancelled"),
        ScriptAnswer::Cancel(false) => out.push_str("pending"),
    }
}

#[tactic(auto, unfolding(crate::specs::Text::reply_line))]
fn push_answer_line(
    out: &mut String,
    script: usize,
    index: usize,
    answer: &ScriptAnswer,
) -> Result<(), AllocError>
    ensures { OnOk result (string_bytes out.new ≡ string_bytes out.old
        ++ reply_line script index (said_of answer.now)) }
{
    push_number(out, "reply ", script)?;
    push_number(out, " ", index)?;
    out.push_str(" ")?;
    push_answer(out, answer)?;
    out.push_str("\n")
}

#[tactic(auto, unfolding(crate::specs::Text::script_lines))]
fn push_script(out: &mut String, script: usize, answers: &[ScriptAnswer]) -> Result<(), AllocError>
    ensures { OnOk result (string_bytes out.new ≡ string_bytes out.old
        ++ script_lines script (map said_of answers.now)) }
{
    for (index, answer) in answers.iter().enumerate() {
        push_answer_line(out, script, index, answer)?;
    }
    Ok(())
}

fn push_scripts(out: &mut String, scripts: &[Vec<ScriptAnswer>]) -> Result<(), AllocError>
    ensures { OnOk result (string_bytes out.new ≡ string_bytes out.old
        ++ numbered script_lines 0 (map (λ answers. map said_of answers.items) scripts.now)) }
{
    for (script, answers) in scripts.iter().enumerate() {
        push_script(out, script, answers)?;
    }
    Ok(())
}

#[tactic(auto, unfolding(crate::specs::Text::place_line))]
fn push_place_line(out: &mut String, place: usize, taken: &(u8, u64)) -> Result<(), AllocError>
    ensures { OnOk result (string_bytes out.new ≡ string_bytes out.old ++ place_line place taken.now) }
{
    let (script, seq) = *taken;
    push_number(out, "at ", place)?;
    push_number(out, " ", script)?;
    push_number(out, " ", seq)?;
    out.push_str("\n")
}

fn push_places(out: &mut String, places: &[(u8, u64)]) -> Result<(), AllocError>
    ensures { OnOk result (string_bytes out.new ≡ string_bytes out.old
        ++ numbered place_line 0 places.now) }
{
    for (place, taken) in places.iter().enumerate() {
        push_place_line(out, place, taken)?;
    }
    Ok(())
}

fn push_ports(out: &mut String, ports: &[Option<u8>]) -> Result<(), AllocError>
    ensures { OnOk result (string_bytes out.new ≡ string_bytes out.old ++ flat_map spaced_or_dash ports.now) }
{
    for port in ports {
        push_option(out, *port)?;
    }
    Ok(())
}

#[tactic(auto, unfolding(crate::specs::Text::node_line))]
fn push_node_line(out: &mut String, ports: u8, index: u8, node: &Node) -> Result<(), AllocError>
    requires few { ports ≤ PORTS }
    ensures { OnOk result (string_bytes out.new ≡ string_bytes out.old ++ node_line ports index node.now) }
{
    push_number(out, "node ", index)?;
    push_number(out, " ", node.value)?;
    push_ports(out, &node.ports[..usize::from(ports)])?;
    out.push_str("\n")
}

fn push_graph(out: &mut String, ports: u8, graph: &Graph) -> Result<(), AllocError>
    requires few { ports ≤ PORTS }
    ensures { OnOk result (string_bytes out.new ≡ string_bytes out.old
        ++ numbered (node_line ports) 0 graph.now) }
{
    for index in 0..graph.size() {
        let node = graph.node(index);
        push_node_line(out, ports, index, &node)?;
    }
    Ok(())
}

/// The lines of an outcome.
#[tactic(auto, unfolding(crate::specs::Text::outcome_lines))]
pub fn outcome_text(alloc: Global, outcome: &Outcome) -> Result<Vec<u8>, AllocError>
    ensures { IfOk result (λ text. text.items ≡ outcome_lines outcome.now) }
{
    let mut out = String::new(alloc);
    push_scripts(&mut out, &outcome.replies)?;
    if let Some(places) = &outcome.places {
        push_places(&mut out, places)?;
    }
    push_graph(&mut out, outcome.ports, &outcome.graph)?;
    Ok(out.into_bytes())
}
