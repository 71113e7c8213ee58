//! A drawing as a text for `dot`.

ghost use Rattle.std.specs.Prelude.{◌≡◌, ◌++◌, OnOk, true};
ghost use Rattle.std.specs.List.{flat_map};
ghost use Rattle.draw_graph.specs.Texts.{boxes_text, cluster_front, cluster_label, cluster_text, drawing_text, edge_line, edges_text, dot_escaped, escaped_byte, head_text, ink_text, line_front, lines_text, node_line, origin_text, reason_steps, steps_text, thick_line};

use crate::drawing::{Cluster, Drawing, Edge, Edges, Ink};
use ppc_semantics::Instruction;
use std::alloc::AllocError;
use text_values::{put_bytes, put_decimal};
use why_text::{Telling, ToldEvent, ToldStep, put_action, put_instruction, put_name};

fn put_escaped_byte(text: &mut Vec<u8>, byte: u8) -> Result<(), AllocError>
    ensures { OnOk result (text.new.items ≡ text.old.items ++ escaped_byte byte) }
{
    if byte == b'"' || byte == b'\\' {
        put_bytes(text, b"\\")?;
    }
    text.push(byte)?;
    Ok(())
}

fn put_escaped(text: &mut Vec<u8>, bytes: &[u8]) -> Result<(), AllocError>
    ensures { OnOk result (text.new.items ≡ text.old.items ++ dot_escaped bytes.now) }
{
    for byte in bytes {
        put_escaped_byte(text, *byte)?;
    }
    Ok(())
}

#[tactic(auto, unfolding(crate::specs::Texts::origin_text))]
fn put_origin(text: &mut Vec<u8>, instruction: Option<Instruction>) -> Result<(), AllocError>
    ensures { OnOk result (text.new.items ≡ text.old.items ++ origin_text instruction) }
{
    match instruction {
        None => Ok(()),
        Some(instruction) => {
            put_bytes(text, b"\\n")?;
            put_instruction(text, instruction)
        }
    }
}

#[tactic(auto, unfolding(crate::specs::Texts::node_line))]
fn put_node(text: &mut Vec<u8>, telling: Telling<'_>, event: ToldEvent) -> Result<(), AllocError>
    requires { telling.shows ≡ true }
    ensures { OnOk result (text.new.items
        ≡ text.old.items
        ++ node_line telling.entry.locations.now telling.entry.initial_count event) }
{
    put_name(text, telling.initial_count, event.number)?;
    put_bytes(text, b" [label=\"")?;
    put_name(text, telling.initial_count, event.number)?;
    put_bytes(text, b": ")?;
    put_action(text, telling, event.event.action)?;
    put_origin(text, event.instruction)?;
    put_bytes(text, b"\"];\n")
}

fn put_nodes(
    text: &mut Vec<u8>,
    telling: Telling<'_>,
    events: &[ToldEvent],
) -> Result<(), AllocError>
    requires { telling.shows ≡ true }
    ensures { OnOk result (text.new.items
        ≡ text.old.items
        ++ flat_map (node_line telling.entry.locations.now telling.entry.initial_count)
        events.now) }
{
    for event in events {
        put_node(text, telling, *event)?;
    }
    Ok(())
}

#[tactic(auto, unfolding(crate::specs::Texts::cluster_front))]
fn put_cluster_front(text: &mut Vec<u8>, thread: usize) -> Result<(), AllocError>
    ensures { OnOk result (text.new.items ≡ text.old.items ++ cluster_front thread) }
{
    put_bytes(text, b"subgraph cluster_")?;
    put_decimal(text, thread as u64)?;
    Ok(())
}

#[tactic(auto, unfolding(crate::specs::Texts::cluster_label))]
fn put_cluster_label(text: &mut Vec<u8>, thread: usize) -> Result<(), AllocError>
    ensures { OnOk result (text.new.items ≡ text.old.items ++ cluster_label thread) }
{
    put_bytes(text, b" {\nlabel=\"P")?;
    put_decimal(text, thread as u64)?;
    put_bytes(text, b"\";\n")?;
    Ok(())
}

#[tactic(auto, unfolding(crate::specs::Texts::cluster_text))]
fn put_cluster(
    text: &mut Vec<u8>,
    telling: Telling<'_>,
    cluster: &Cluster,
) -> Result<(), AllocError>
    requires { telling.shows ≡ true }
    ensures { OnOk result (text.new.items
        ≡ text.old.items
        ++ cluster_text telling.entry.locations.now telling.entry.initial_count
        cluster.now) }
{
    put_cluster_front(text, cluster.thread)?;
    put_cluster_label(text, cluster.thread)?;
    put_nodes(text, telling, &cluster.events)?;
    put_bytes(text, b"}\n")
}

fn put_clusters(
    text: &mut Vec<u8>,
    telling: Telling<'_>,
    clusters: &[Cluster],
) -> Result<(), AllocError>
    requires { telling.shows ≡ true }
    ensures { OnOk result (text.new.items
        ≡ text.old.items
        ++ flat_map (cluster_text telling.entry.locations.now telling.entry.initial_count)
        clusters.now) }
{
    for cluster in clusters {
        put_cluster(text, telling, cluster)?;
    }
    Ok(())
}

#[tactic(auto, unfolding(crate::specs::Texts::ink_text))]
fn ink_bytes(ink: Ink) -> &'static [u8]
    ensures { result.now ≡ ink_text ink }
{
    match ink {
        Ink::Order => b"color=\"#000000\", fontcolor=\"#000000\"",
        Ink::ReadsFrom => b"color=\"#D55E00\", fontcolor=\"#D55E00\", constraint=false",
        Ink::Coherence => b"color=\"#0072B2\", fontcolor=\"#0072B2\", constraint=false",
        Ink::FromReads => b"color=\"#E69F00\", fontcolor=\"#E69F00\", constraint=false",
        Ink::Dependency => {
            b"color=\"#009E73\", fontcolor=\"#009E73\", style=dashed, constraint=false"
        }
        Ink::Fence => b"color=\"#CC79A7\", fontcolor=\"#CC79A7\", style=dotted, constraint=false",
        Ink::Named => b"color=\"#56B4E9\", fontcolor=\"#56B4E9\", constraint=false",
    }
}

#[tactic(auto, unfolding(crate::specs::Texts::line_front))]
fn put_front(
    text: &mut Vec<u8>,
    initial_count: usize,
    from: usize,
    to: usize,
    name: &[u8],
) -> Result<(), AllocError>
    ensures { OnOk result (text.new.items
        ≡ text.old.items ++ line_front initial_count from to name.now) }
{
    put_name(text, initial_count, from)?;
    put_bytes(text, b" -> ")?;
    put_name(text, initial_count, to)?;
    put_bytes(text, b" [label=\"")?;
    put_escaped(text, name)
}

#[tactic(auto, unfolding(crate::specs::Texts::edge_line))]
fn put_edge(
    text: &mut Vec<u8>,
    initial_count: usize,
    name: &[u8],
    ink: Ink,
    pair: Edge,
) -> Result<(), AllocError>
    ensures { OnOk result (text.new.items
        ≡ text.old.items ++ edge_line initial_count name.now ink pair) }
{
    put_front(text, initial_count, pair.0, pair.1, name)?;
    put_bytes(text, b"\", ")?;
    put_bytes(text, ink_bytes(ink))?;
    put_bytes(text, b"];\n")
}

fn put_edges(text: &mut Vec<u8>, initial_count: usize, edges: &Edges) -> Result<(), AllocError>
    ensures { OnOk result (text.new.items ≡ text.old.items ++ edges_text initial_count edges.now) }
{
    for pair in &edges.pairs {
        put_edge(text, initial_count, &edges.name, edges.ink, *pair)?;
    }
    Ok(())
}

fn put_relations(
    text: &mut Vec<u8>,
    initial_count: usize,
    relations: &[Edges],
) -> Result<(), AllocError>
    ensures { OnOk result (text.new.items
        ≡ text.old.items ++ flat_map (edges_text initial_count) relations.now) }
{
    for relation in relations {
        put_edges(text, initial_count, relation)?;
    }
    Ok(())
}

#[tactic(auto, unfolding(crate::specs::Texts::thick_line))]
fn put_thick(
    text: &mut Vec<u8>,
    initial_count: usize,
    from: usize,
    to: usize,
    name: &[u8],
) -> Result<(), AllocError>
    ensures { OnOk result (text.new.items
        ≡ text.old.items ++ thick_line initial_count from to name.now) }
{
    put_front(text, initial_count, from, to, name)?;
    put_bytes(
        text,
        b"\", color=\"#000000\", fontcolor=\"#000000\", penwidth=4, constraint=false];\n",
    )
}

fn put_step(
    text: &mut Vec<u8>,
    initial_count: usize,
    from: usize,
    step: &ToldStep,
) -> Result<(), AllocError>
    ensures { OnOk result (text.new.items
        ≡ text.old.items ++ thick_line initial_count from step.now.to step.now.label.items) }
{
    put_thick(text, initial_count, from, step.to, &step.label)
}

fn put_steps(
    text: &mut Vec<u8>,
    initial_count: usize,
    first: usize,
    steps: &[ToldStep],
) -> Result<(), AllocError>
    ensures { OnOk result (text.new.items
        ≡ text.old.items ++ steps_text initial_count first steps.now) }
{
    let mut from = first;
    for step in steps {
        put_step(text, initial_count, from, step)?;
        from = step.to;
    }
    Ok(())
}

#[tactic(auto, unfolding(crate::specs::Texts::reason_steps))]
fn put_reason_steps(
    text: &mut Vec<u8>,
    initial_count: usize,
    first: Option<usize>,
    steps: &[ToldStep],
) -> Result<(), AllocError>
    ensures { OnOk result (text.new.items
        ≡ text.old.items ++ reason_steps initial_count first steps.now) }
{
    match first {
        None => Ok(()),
        Some(first) => put_steps(text, initial_count, first, steps),
    }
}

#[tactic(auto, unfolding(crate::specs::Texts::head_text))]
fn put_head(text: &mut Vec<u8>, title: &[u8]) -> Result<(), AllocError>
    ensures { OnOk result (text.new.items ≡ text.old.items ++ head_text title.now) }
{
    put_bytes(text, b"digraph \"")?;
    put_escaped(text, title)?;
    put_bytes(text, b"\" {\nlabel=\"")?;
    put_escaped(text, title)?;
    put_bytes(text, b"\";\nnode [shape=box];\n")
}

#[tactic(auto, unfolding(crate::specs::Texts::boxes_text))]
fn put_boxes(text: &mut Vec<u8>, telling: Telling<'_>, drawing: &Drawing) -> Result<(), AllocError>
    requires { telling.shows ≡ true }
    ensures { OnOk result (text.new.items
        ≡ text.old.items
        ++ boxes_text telling.entry.locations.now telling.entry.initial_count drawing.now) }
{
    put_nodes(text, telling, &drawing.initial)?;
    put_clusters(text, telling, &drawing.clusters)
}

#[tactic(auto, unfolding(crate::specs::Texts::lines_text))]
fn put_lines(text: &mut Vec<u8>, initial_count: usize, drawing: &Drawing) -> Result<(), AllocError>
    ensures { OnOk result (text.new.items
        ≡ text.old.items ++ lines_text initial_count drawing.now) }
{
    put_relations(text, initial_count, &drawing.edges)?;
    put_reason_steps(text, initial_count, drawing.first, &drawing.steps)
}

/// Appends a drawing. Errors: want of memory.
#[tactic(auto, unfolding(crate::specs::Texts::drawing_text))]
pub fn put_drawing(
    text: &mut Vec<u8>,
    telling: Telling<'_>,
    drawing: &Drawing,
) -> Result<(), AllocError>
    requires { telling.shows ≡ true }
    ensures { OnOk result (text.new.items
        ≡ text.old.items
        ++ drawing_text telling.entry.locations.now telling.entry.initial_count
        drawing.now) }
{
    put_head(text, &drawing.title)?;
    put_boxes(text, telling, drawing)?;
    put_lines(text, telling.initial_count, drawing)?;
    put_bytes(text, b"}\n")
}
