//! Each drawing once, under the names of its models.

ghost use Rattle.std.specs.Prelude.{◌≡◌, ◌++◌, IfOk, OnOk, map};
ghost use Rattle.std.specs.List.{flat_map};
ghost use Rattle.report_details.specs.Figures.{first_drawn, drawing_groups, figure, figure_if, figure_of, figures};

use crate::names::{firsts_of, group_text};
use crate::reported::ReportedModel;
use escaped_texts::{put_close, put_element, put_open};
use std::alloc::{AllocError, Global};
use text_values::put_bytes;

// The first model whose drawing is this one.
fn first_drawn(drawings: &[Vec<u8>], drawing: &[u8]) -> usize
    ensures { result ≡ first_drawn 0 (map (λ d. d.items) drawings.now) drawing.now }
{
    for (number, other) in drawings.iter().enumerate() {
        if other.as_slice() == drawing {
            return number;
        }
    }
    drawings.len()
}

fn drawing_groups(alloc: Global, drawings: &[Vec<u8>]) -> Result<Vec<usize>, AllocError>
    ensures { IfOk result (λ v. v.items ≡ drawing_groups (map (λ d. d.items) drawings.now)) }
{
    let mut groups = Vec::new(alloc);
    for drawing in drawings {
        groups.push(first_drawn(drawings, drawing))?;
    }
    Ok(groups)
}

#[tactic(auto, unfolding(crate::specs::Figures::figure, escaped_texts::specs::Elements::element))]
fn put_figure(text: &mut Vec<u8>, group: &[u8], drawing: &[u8]) -> Result<(), AllocError>
    ensures { OnOk result (text.new.items ≡ text.old.items ++ figure group.now drawing.now) }
{
    put_open(text, b"figure", &[])?;
    put_element(text, b"b", &[], group)?;
    put_bytes(text, drawing)?;
    put_close(text, b"figure")
}

#[tactic(auto, unfolding(crate::specs::Figures::figure_if))]
fn put_figure_if(text: &mut Vec<u8>, group: &[u8], drawing: &[u8]) -> Result<(), AllocError>
    ensures { OnOk result (text.new.items ≡ text.old.items ++ figure_if group.now drawing.now) }
{
    if drawing.is_empty() {
        return Ok(());
    }
    put_figure(text, group, drawing)
}

fn put_figure_of(
    alloc: Global,
    text: &mut Vec<u8>,
    models: &[ReportedModel<'_>],
    drawings: &[Vec<u8>],
    groups: &[usize],
    first: usize,
) -> Result<(), AllocError>
    ensures { OnOk result (text.new.items
        ≡ text.old.items
        ++ figure_of models.now (map (λ d. d.items) drawings.now) groups.now first) }
{
    match drawings.get(first) {
        None => Ok(()),
        Some(drawing) => {
            let group = group_text(alloc, models, groups, first)?;
            put_figure_if(text, &group, drawing)
        }
    }
}

fn put_each_figure(
    alloc: Global,
    text: &mut Vec<u8>,
    models: &[ReportedModel<'_>],
    drawings: &[Vec<u8>],
    groups: &[usize],
    firsts: &[usize],
) -> Result<(), AllocError>
    ensures { OnOk result (text.new.items
        ≡ text.old.items
        ++ flat_map (figure_of models.now (map (λ d. d.items) drawings.now) groups.now)
        firsts.now) }
{
    for first in firsts {
        put_figure_of(alloc, text, models, drawings, groups, *first)?;
    }
    Ok(())
}

/// Appends each drawing once, under the names of its models. Errors: want of memory.
pub fn put_figures(
    alloc: Global,
    text: &mut Vec<u8>,
    models: &[ReportedModel<'_>],
    drawings: &[Vec<u8>],
) -> Result<(), AllocError>
    ensures { OnOk result (text.new.items
        ≡ text.old.items ++ figures models.now (map (λ d. d.items) drawings.now)) }
{
    let groups = drawing_groups(alloc, drawings)?;
    let firsts = firsts_of(alloc, &groups)?;
    put_each_figure(alloc, text, models, drawings, &groups, &firsts)
}
