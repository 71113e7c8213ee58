//! The lines, and the whole picture.

ghost use Rattle.std.specs.Prelude.{◌≡◌, ◌++◌, IfOk, OnOk, map, true};
ghost use Rattle.std.specs.List.{flat_map, list_any};
ghost use Rattle.draw_scene.specs.Lines.{edge_by, edge_line, edge_lines, is_edge, joining_lines, line_between, line_ink_of, drawing_lines, lines_with, seen_line, step_line};
ghost use Rattle.draw_scene.specs.Scene.{IsPicture};

use crate::boxes::{column_labels, store_labels};
use crate::links::{Link, is_edge, label_of, links_of};
use crate::places::place_of;
use draw_graph::{Drawing, Edge, Edges, Ink};
use draw_layout::{Ink as LineInk, Line, Picture, Position};
use std::alloc::{AllocError, Global};
use why_text::Telling;

fn line_ink_of(ink: Ink) -> LineInk
    ensures { result ≡ line_ink_of ink }
{
    match ink {
        Ink::Order => LineInk::Order,
        Ink::ReadsFrom => LineInk::ReadsFrom,
        Ink::Coherence => LineInk::Coherence,
        Ink::FromReads => LineInk::FromReads,
        Ink::Dependency => LineInk::Dependency,
        Ink::Fence => LineInk::Fence,
        Ink::Named => LineInk::Shown,
    }
}

// Appends a line from box to box, but not between initial stores.
fn put_joined(
    alloc: Global,
    lines: &mut Vec<Line>,
    from: Option<Position>,
    to: Option<Position>,
    name: &[u8],
    ink: LineInk,
    is_thick: bool,
) -> Result<(), AllocError>
    ensures { OnOk result (map seen_line lines.new.items
        ≡ map seen_line lines.old.items ++ joining_lines from to name.now ink is_thick) }
{
    let (Some(from), Some(to)) = (from, to) else {
        return Ok(());
    };
    if from.row == 0 && to.row == 0 {
        return Ok(());
    }
    let name = Vec::from_slice(alloc, name)?;
    lines.push(Line {
        from,
        to,
        name,
        ink,
        is_thick,
    })?;
    Ok(())
}

#[tactic(auto, unfolding(crate::specs::Lines::line_between))]
fn put_between(
    alloc: Global,
    lines: &mut Vec<Line>,
    drawing: &Drawing,
    pair: Edge,
    name: &[u8],
    ink: LineInk,
    is_thick: bool,
) -> Result<(), AllocError>
    ensures { OnOk result (map seen_line lines.new.items
        ≡ map seen_line lines.old.items
        ++ line_between drawing.now pair.0 pair.1 name.now ink is_thick) }
{
    let from = place_of(drawing, pair.0);
    let to = place_of(drawing, pair.1);
    put_joined(alloc, lines, from, to, name, ink, is_thick)
}

// Appends the line of a pair of a relation.
fn put_edge(
    alloc: Global,
    lines: &mut Vec<Line>,
    drawing: &Drawing,
    links: &[Link],
    name: &[u8],
    ink: Ink,
    pair: Edge,
) -> Result<(), AllocError>
    ensures { OnOk result (map seen_line lines.new.items
        ≡ map seen_line lines.old.items ++ edge_line drawing.now links.now name.now ink pair) }
{
    match label_of(links, name, ink, pair) {
        None => put_between(alloc, lines, drawing, pair, name, line_ink_of(ink), false),
        Some(label) => put_between(alloc, lines, drawing, pair, label, line_ink_of(ink), true),
    }
}

fn put_edges(
    alloc: Global,
    lines: &mut Vec<Line>,
    drawing: &Drawing,
    links: &[Link],
    edges: &Edges,
) -> Result<(), AllocError>
    ensures { OnOk result (map seen_line lines.new.items
        ≡ map seen_line lines.old.items ++ edge_lines drawing.now links.now edges.now) }
{
    for pair in &edges.pairs {
        put_edge(alloc, lines, drawing, links, &edges.name, edges.ink, *pair)?;
    }
    Ok(())
}

// Appends the lines of all relations.
fn put_relations(
    alloc: Global,
    lines: &mut Vec<Line>,
    drawing: &Drawing,
    links: &[Link],
) -> Result<(), AllocError>
    ensures { OnOk result (map seen_line lines.new.items
        ≡ map seen_line lines.old.items
        ++ flat_map (edge_lines drawing.now links.now) drawing.now.edges.items) }
{
    for edges in &drawing.edges {
        put_edges(alloc, lines, drawing, links, edges)?;
    }
    Ok(())
}

// Whether an edge is the line of a step.
fn is_any_edge(link: &Link, edges: &[Edges]) -> bool
    ensures { result ≡ list_any (is_edge link.now) edges.now }
{
    for one in edges {
        if is_edge(link, one) {
            return true;
        }
    }
    false
}

// Appends the line of a step, unless it is that of an edge.
fn put_step(
    alloc: Global,
    lines: &mut Vec<Line>,
    drawing: &Drawing,
    link: &Link,
) -> Result<(), AllocError>
    ensures { OnOk result (map seen_line lines.new.items
        ≡ map seen_line lines.old.items ++ step_line drawing.now link.now) }
{
    if is_any_edge(link, &drawing.edges) {
        return Ok(());
    }
    let pair = (link.from, link.to);
    let label = link.label.as_bytes();
    put_between(alloc, lines, drawing, pair, label, LineInk::Step, true)
}

fn put_steps(
    alloc: Global,
    lines: &mut Vec<Line>,
    drawing: &Drawing,
    links: &[Link],
) -> Result<(), AllocError>
    ensures { OnOk result (map seen_line lines.new.items
        ≡ map seen_line lines.old.items ++ flat_map (step_line drawing.now) links.now) }
{
    for link in links {
        put_step(alloc, lines, drawing, link)?;
    }
    Ok(())
}

fn lines_with(alloc: Global, drawing: &Drawing, links: &[Link]) -> Result<Vec<Line>, AllocError>
    ensures { IfOk result (λ v. map seen_line v.items ≡ lines_with drawing.now links.now) }
{
    let mut lines = Vec::new(alloc);
    put_relations(alloc, &mut lines, drawing, links)?;
    put_steps(alloc, &mut lines, drawing, links)?;
    Ok(lines)
}

fn lines_of(alloc: Global, drawing: &Drawing) -> Result<Vec<Line>, AllocError>
    ensures { IfOk result (λ v. map seen_line v.items ≡ drawing_lines drawing.now) }
{
    let links = links_of(alloc, drawing.first, &drawing.steps)?;
    lines_with(alloc, drawing, &links)
}

/// The picture of a drawing. Errors: want of memory.
pub fn picture_of(
    alloc: Global,
    telling: Telling<'_>,
    drawing: &Drawing,
) -> Result<Picture, AllocError>
    requires { telling.shows ≡ true }
    ensures { IfOk result (IsPicture telling.entry.locations.now telling.entry.initial_count
        drawing.now) }
{
    let title = Vec::from_slice(alloc, &drawing.title)?;
    let initial = store_labels(alloc, telling, &drawing.initial)?;
    let threads = column_labels(alloc, telling, &drawing.clusters)?;
    let lines = lines_of(alloc, drawing)?;
    Ok(Picture {
        title,
        initial,
        threads,
        lines,
    })
}
