//! The bytes of a drawing.

ghost use Rattle.std.specs.Prelude.{◌≡◌, ◌++◌, IfOk, OnOk, true};
ghost use Rattle.std.specs.List.{flat_map};
ghost use Rattle.draw_scene.specs.Drawn.{AddsDrawn, AddsFigure, AddsUnless, AddsSvg, AddsSvgOf, caption, reason_words, step_words, walk_words};
ghost use Rattle.draw_graph.specs.Texts.{drawing_text};

use crate::lines::picture_of;
use draw_graph::{Drawing, put_drawing};
use draw_layout::{LayoutError, Picture, lay_out};
use draw_svg::put_svg;
use escaped_texts::put_element;
use std::alloc::{AllocError, Global};
use text_values::put_bytes;
use why_text::{Telling, ToldStep, put_name};

/// The style of a drawing that stands alone: that of the page, on white.
pub const STYLE: &[u8] = b"\
<style>\
svg{background:#fff;font-family:ui-monospace,'DejaVu Sans Mono',Menlo,Consolas,monospace}\n\
.th{fill:#f2f0eb;opacity:.75}.b{fill:#fff;stroke:#59626d}\n\
.tn,.e,.i{text-anchor:middle;font-size:13px;font-weight:600}\n\
.tn{fill:#59626d}.e{fill:#1d2329}.i{fill:#59626d;font-size:12px;font-weight:400}\n\
.a{font-size:12px;font-weight:600;paint-order:stroke;stroke:#fff;stroke-width:4px;\
stroke-linejoin:round}\n\
.l{fill:none;stroke-width:1.7}.dep .l{stroke-dasharray:7 4}.fence .l{stroke-dasharray:2 3}\n\
.po .l{stroke:#3a424b}.po .h,.po.a{fill:#3a424b}.rf .l{stroke:#b03a00}.rf .h,.rf.a{fill:#b03a00}\n\
.co .l{stroke:#0060a0}.co .h,.co.a{fill:#0060a0}.fr .l{stroke:#855600}.fr .h,.fr.a{fill:#855600}\n\
.dep .l{stroke:#006b4c}.dep .h,.dep.a{fill:#006b4c}\n\
.fence .l{stroke:#983a78}.fence .h,.fence.a{fill:#983a78}\n\
.named .l{stroke:#5248ac}.named .h,.named.a{fill:#5248ac}\n\
.step .l{stroke:#111;stroke-width:4}.step .h,.step.a{fill:#111}.step.a{font-size:13px;transform:translateY(-2px)}\
</style>";

/// What is drawn in the place of a picture that does not fit.
pub const TOO_LARGE: &[u8] = b"\
<svg xmlns=\"http://www.w3.org/2000/svg\" width=\"400\" height=\"40\">\
<text x=\"8\" y=\"24\">This execution is too large for a drawing.</text></svg>\n";

/// What stands before the steps of a reason in a caption.
pub const THICK: &[u8] = b". The thick arrows: ";

/// As what a drawing is written.
#[derive(Clone, Copy, Debug, PartialEq, Eq)]
pub enum Format {
    /// A text for `dot` of Graphviz.
    Dot,
    /// An `svg` element with a style, for a file of its own.
    Svg,
    /// The caption and the `svg` element of a figure, for a page that has a style.
    Figure,
}

// Appends a picture, with this style.
fn put_picture(
    alloc: Global,
    text: &mut Vec<u8>,
    style: &[u8],
    picture: &Picture,
) -> Result<(), AllocError>
    ensures { OnOk result (AddsSvg style.now picture.now text.old.items text.new.items) }
{
    match lay_out(alloc, picture) {
        Ok(layout) => put_svg(text, style, picture, &layout),
        Err(LayoutError::Unfit) => put_bytes(text, TOO_LARGE),
        Err(LayoutError::Memory(e)) => Err(e),
    }
}

fn put_scene(
    alloc: Global,
    text: &mut Vec<u8>,
    style: &[u8],
    telling: Telling<'_>,
    drawing: &Drawing,
) -> Result<(), AllocError>
    requires { telling.shows ≡ true }
    ensures { OnOk result (AddsSvgOf style.now telling.entry.locations.now
        telling.entry.initial_count drawing.now text.old.items text.new.items) }
{
    let picture = picture_of(alloc, telling, drawing)?;
    put_picture(alloc, text, style, &picture)
}

#[tactic(auto, unfolding(crate::specs::Drawn::step_words))]
fn put_step_words(
    words: &mut Vec<u8>,
    initial_count: usize,
    step: &ToldStep,
) -> Result<(), AllocError>
    ensures { OnOk result (words.new.items ≡ words.old.items ++ step_words initial_count step.now) }
{
    put_bytes(words, b" -")?;
    put_bytes(words, &step.label)?;
    put_bytes(words, b"-> ")?;
    put_name(words, initial_count, step.to)
}

fn put_steps_words(
    words: &mut Vec<u8>,
    initial_count: usize,
    steps: &[ToldStep],
) -> Result<(), AllocError>
    ensures { OnOk result (words.new.items
        ≡ words.old.items ++ flat_map (step_words initial_count) steps.now) }
{
    for step in steps {
        put_step_words(words, initial_count, step)?;
    }
    Ok(())
}

#[tactic(auto, unfolding(crate::specs::Drawn::walk_words))]
fn put_walk_words(
    words: &mut Vec<u8>,
    initial_count: usize,
    first: usize,
    steps: &[ToldStep],
) -> Result<(), AllocError>
    ensures { OnOk result (words.new.items
        ≡ words.old.items ++ walk_words initial_count first steps.now) }
{
    put_bytes(words, THICK)?;
    put_name(words, initial_count, first)?;
    put_steps_words(words, initial_count, steps)
}

fn put_reason_words(
    words: &mut Vec<u8>,
    initial_count: usize,
    first: Option<usize>,
    steps: &[ToldStep],
) -> Result<(), AllocError>
    ensures { OnOk result (words.new.items
        ≡ words.old.items ++ reason_words initial_count first steps.now) }
{
    match first {
        None => Ok(()),
        Some(first) => put_walk_words(words, initial_count, first, steps),
    }
}

// Appends the caption of a figure.
#[tactic(auto, unfolding(crate::specs::Drawn::caption))]
fn put_caption(
    alloc: Global,
    text: &mut Vec<u8>,
    initial_count: usize,
    drawing: &Drawing,
) -> Result<(), AllocError>
    ensures { OnOk result (text.new.items
        ≡ text.old.items ++ caption initial_count drawing.now) }
{
    let mut words = Vec::from_slice(alloc, &drawing.title)?;
    put_reason_words(&mut words, initial_count, drawing.first, &drawing.steps)?;
    put_element(text, b"figcaption", &[], &words)
}

fn put_figure(
    alloc: Global,
    text: &mut Vec<u8>,
    telling: Telling<'_>,
    drawing: &Drawing,
) -> Result<(), AllocError>
    requires { telling.shows ≡ true }
    ensures { OnOk result (AddsFigure telling.entry.locations.now telling.entry.initial_count
        drawing.now text.old.items text.new.items) }
{
    put_caption(alloc, text, telling.initial_count, drawing)?;
    put_scene(alloc, text, b"", telling, drawing)
}

// Appends a drawing.
fn put_drawn(
    alloc: Global,
    text: &mut Vec<u8>,
    format: Format,
    telling: Telling<'_>,
    drawing: &Drawing,
) -> Result<(), AllocError>
    requires { telling.shows ≡ true }
    ensures { OnOk result (AddsDrawn format telling.entry.locations.now
        telling.entry.initial_count drawing.now text.old.items text.new.items) }
{
    match format {
        Format::Dot => put_drawing(text, telling, drawing),
        Format::Svg => put_scene(alloc, text, STYLE, telling, drawing),
        Format::Figure => put_figure(alloc, text, telling, drawing),
    }
}

/// Appends a drawing, unless it is passed over. Errors: want of memory.
pub fn put_unless_skipped(
    alloc: Global,
    text: &mut Vec<u8>,
    is_skipped: bool,
    format: Format,
    telling: Telling<'_>,
    drawing: &Drawing,
) -> Result<(), AllocError>
    requires { telling.shows ≡ true }
    ensures { OnOk result (AddsUnless is_skipped format telling.entry.locations.now
        telling.entry.initial_count drawing.now text.old.items text.new.items) }
{
    if is_skipped {
        return Ok(());
    }
    put_drawn(alloc, text, format, telling, drawing)
}
