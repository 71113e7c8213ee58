//! The elements.

ghost use Rattle.std.specs.Prelude.{◌≡◌, ◌++◌, ◌<◌, ◌≤◌, ◌^◌, OnOk, length, slice_get};
ghost use Rattle.draw_svg.specs.Svg.{at_point, sizes, ink_class, line_class, text_at, rectangle, box_texts, box_at, thread_name, ground, grounds, stores, events_from, thread_boxes, threads_boxes, line_path, head_path, svg_line, anchor, name_front, name_text, lines_text, names_text, svg_start, view_text, head_text, boxes_text, svg_text};

use crate::bytes::{put_bytes, put_number};
use crate::path::{head_bytes, put_pair, put_path};
use draw_layout::{Arrow, Frame, Ink, Label, Layout, Line, Picture, top_of};
use escaped_texts::put_escaped;
use std::alloc::AllocError;

#[tactic(auto, unfolding(crate::specs::Svg::at_point))]
fn put_point(text: &mut Vec<u8>, x: u64, y: u64) -> Result<(), AllocError>
    ensures { OnOk result (text.new.items ≡ text.old.items ++ at_point x y) }
{
    put_bytes(text, b" x=\"")?;
    put_number(text, x)?;
    put_bytes(text, b"\" y=\"")?;
    put_number(text, y)?;
    put_bytes(text, b"\"")
}

#[tactic(auto, unfolding(crate::specs::Svg::sizes))]
fn put_sizes(text: &mut Vec<u8>, width: u64, height: u64) -> Result<(), AllocError>
    ensures { OnOk result (text.new.items ≡ text.old.items ++ sizes width height) }
{
    put_bytes(text, b" width=\"")?;
    put_number(text, width)?;
    put_bytes(text, b"\" height=\"")?;
    put_number(text, height)?;
    put_bytes(text, b"\"")
}

#[tactic(auto, unfolding(crate::specs::Svg::ink_class))]
fn ink_class(ink: Ink) -> &'static [u8]
    ensures { result.now ≡ ink_class ink }
{
    match ink {
        Ink::Order => b"po",
        Ink::ReadsFrom => b"rf",
        Ink::Coherence => b"co",
        Ink::FromReads => b"fr",
        Ink::Dependency => b"dep",
        Ink::Fence => b"fence",
        Ink::Shown => b"named",
        Ink::Step => b"step",
    }
}

#[tactic(auto, unfolding(crate::specs::Svg::line_class))]
fn line_class(ink: Ink, is_thick: bool) -> &'static [u8]
    ensures { result.now ≡ line_class ink is_thick }
{
    if is_thick { b"step" } else { ink_class(ink) }
}

#[tactic(auto, unfolding(crate::specs::Svg::text_at))]
fn put_text(
    text: &mut Vec<u8>,
    class: &[u8],
    x: u64,
    y: u64,
    shown: &[u8],
) -> Result<(), AllocError>
    ensures { OnOk result (text.new.items
        ≡ text.old.items ++ text_at class.now x y shown.now) }
{
    put_bytes(text, b"<text class=\"")?;
    put_bytes(text, class)?;
    put_bytes(text, b"\"")?;
    put_point(text, x, y)?;
    put_bytes(text, b">")?;
    put_escaped(text, shown)?;
    put_bytes(text, b"</text>")
}

#[tactic(auto, unfolding(crate::specs::Svg::rectangle))]
fn put_rectangle(
    text: &mut Vec<u8>,
    class: &[u8],
    x: u64,
    y: u64,
    width: u64,
    height: u64,
) -> Result<(), AllocError>
    ensures { OnOk result (text.new.items
        ≡ text.old.items ++ rectangle class.now x y width height) }
{
    put_bytes(text, b"<rect class=\"")?;
    put_bytes(text, class)?;
    put_bytes(text, b"\"")?;
    put_point(text, x, y)?;
    put_sizes(text, width, height)?;
    put_bytes(text, b" rx=\"5\"></rect>")
}

#[tactic(auto, unfolding(crate::specs::Svg::box_texts))]
fn put_box_texts(text: &mut Vec<u8>, x: u64, middle: u64, label: &Label) -> Result<(), AllocError>
    requires { middle < 2 ^ 60 }
    ensures { OnOk result (text.new.items ≡ text.old.items ++ box_texts x middle label.now) }
{
    if label.instruction.is_empty() {
        put_text(text, b"e", x, middle + 5, &label.action)
    } else {
        put_text(text, b"e", x, middle.saturating_sub(3), &label.action)?;
        put_text(text, b"i", x, middle + 14, &label.instruction)
    }
}

#[tactic(auto, unfolding(crate::specs::Svg::box_at))]
fn put_box(
    text: &mut Vec<u8>,
    x: u32,
    y: u32,
    width: u16,
    height: u16,
    label: &Label,
) -> Result<(), AllocError>
    ensures { OnOk result (text.new.items
        ≡ text.old.items ++ box_at x y width height label.now) }
{
    let (x, y) = (u64::from(x), u64::from(y));
    let (width, height) = (u64::from(width), u64::from(height));
    put_rectangle(text, b"b", x, y, width, height)?;
    put_box_texts(text, x + width / 2, y + height / 2, label)
}

#[tactic(auto, unfolding(crate::specs::Svg::thread_name))]
fn put_thread_name(text: &mut Vec<u8>, x: u64, y: u64, thread: u64) -> Result<(), AllocError>
    ensures { OnOk result (text.new.items ≡ text.old.items ++ thread_name x y thread) }
{
    put_bytes(text, b"<text class=\"tn\"")?;
    put_point(text, x, y)?;
    put_bytes(text, b">P")?;
    put_number(text, thread)?;
    put_bytes(text, b"</text>")
}

#[tactic(auto, unfolding(crate::specs::Svg::ground))]
fn put_ground(
    text: &mut Vec<u8>,
    layout: &Layout,
    left: u32,
    thread: usize,
) -> Result<(), AllocError>
    ensures { OnOk result (text.new.items ≡ text.old.items ++ ground layout.now left thread) }
{
    let first = u64::from(layout.frame.first_row);
    let (left, width) = (u64::from(left), u64::from(layout.frame.box_width));
    let height = u64::from(layout.bottom).saturating_sub(first) + 36;
    let (x, y) = (left.saturating_sub(10), first.saturating_sub(26));
    put_rectangle(text, b"th", x, y, width + 20, height)?;
    put_thread_name(
        text,
        left + width / 2,
        first.saturating_sub(9),
        thread as u64,
    )
}

fn left_at(layout: &Layout, column: usize) -> Option<u32>
    ensures { result ≡ slice_get layout.now.lefts.items column }
{
    layout.lefts.get(column).copied()
}

fn put_grounds(
    text: &mut Vec<u8>,
    layout: &Layout,
    threads: &[Vec<Label>],
) -> Result<(), AllocError>
    ensures { OnOk result (text.new.items
        ≡ text.old.items ++ grounds layout.now 0 layout.now.lefts.items threads.now) }
{
    for (thread, _events) in threads.iter().enumerate() {
        match left_at(layout, thread) {
            None => return Ok(()),
            Some(left) => put_ground(text, layout, left, thread)?,
        }
    }
    Ok(())
}

fn put_stores(text: &mut Vec<u8>, layout: &Layout, labels: &[Label]) -> Result<(), AllocError>
    ensures { OnOk result (text.new.items
        ≡ text.old.items ++ stores layout.now layout.now.lefts.items labels.now) }
{
    for (column, label) in labels.iter().enumerate() {
        match left_at(layout, column) {
            None => return Ok(()),
            Some(left) => put_box(text, left, 8, layout.frame.box_width, 46, label)?,
        }
    }
    Ok(())
}

// The boxes of the events of a thread.
fn put_events(
    text: &mut Vec<u8>,
    frame: Frame,
    left: u32,
    labels: &[Label],
) -> Result<(), AllocError>
    requires { length labels.now ≤ 255 }
    ensures { OnOk result (text.new.items
        ≡ text.old.items ++ events_from frame left 0 labels.now) }
{
    for (index, label) in labels.iter().enumerate() {
        let top = top_of(frame, index as u8 + 1);
        put_box(text, left, top, frame.box_width, frame.box_height, label)?;
    }
    Ok(())
}

fn put_thread(
    text: &mut Vec<u8>,
    frame: Frame,
    left: u32,
    labels: &[Label],
) -> Result<(), AllocError>
    ensures { OnOk result (text.new.items
        ≡ text.old.items ++ thread_boxes frame left labels.now) }
{
    if labels.len() < 256 {
        put_events(text, frame, left, labels)
    } else {
        Ok(())
    }
}

fn put_threads(
    text: &mut Vec<u8>,
    layout: &Layout,
    threads: &[Vec<Label>],
) -> Result<(), AllocError>
    ensures { OnOk result (text.new.items
        ≡ text.old.items ++ threads_boxes layout.now layout.now.lefts.items threads.now) }
{
    for (thread, events) in threads.iter().enumerate() {
        match left_at(layout, thread) {
            None => return Ok(()),
            Some(left) => put_thread(text, layout.frame, left, events)?,
        }
    }
    Ok(())
}

#[tactic(auto, unfolding(crate::specs::Svg::line_path))]
fn put_line_path(text: &mut Vec<u8>, arrow: Arrow) -> Result<(), AllocError>
    ensures { OnOk result (text.new.items ≡ text.old.items ++ line_path arrow) }
{
    put_bytes(text, b"<path class=\"l\" d=\"")?;
    put_path(text, arrow)?;
    put_bytes(text, b"\"></path>")
}

#[tactic(auto, unfolding(crate::specs::Svg::head_path))]
fn put_head_path(text: &mut Vec<u8>, arrow: Arrow) -> Result<(), AllocError>
    ensures { OnOk result (text.new.items ≡ text.old.items ++ head_path arrow) }
{
    put_bytes(text, b"<path class=\"h\" d=\"M")?;
    put_pair(text, u64::from(arrow.end.x), u64::from(arrow.end.y))?;
    put_bytes(text, head_bytes(arrow))?;
    put_bytes(text, b"\"></path>")
}

#[tactic(auto, unfolding(crate::specs::Svg::svg_line))]
fn put_line(text: &mut Vec<u8>, line: &Line, arrow: Arrow) -> Result<(), AllocError>
    ensures { OnOk result (text.new.items ≡ text.old.items ++ svg_line line.now arrow) }
{
    put_bytes(text, b"<g class=\"")?;
    put_bytes(text, line_class(line.ink, line.is_thick))?;
    put_bytes(text, b"\">")?;
    put_line_path(text, arrow)?;
    put_head_path(text, arrow)?;
    put_bytes(text, b"</g>")
}

#[tactic(auto, unfolding(crate::specs::Svg::anchor))]
fn anchor(ends: bool) -> &'static [u8]
    ensures { result.now ≡ anchor ends }
{
    if ends { b" text-anchor=\"end\"" } else { b"" }
}

#[tactic(auto, unfolding(crate::specs::Svg::name_front))]
fn put_name_front(text: &mut Vec<u8>, line: &Line, arrow: Arrow) -> Result<(), AllocError>
    ensures { OnOk result (text.new.items ≡ text.old.items ++ name_front line.now arrow) }
{
    put_bytes(text, b"<text class=\"a ")?;
    put_bytes(text, line_class(line.ink, line.is_thick))?;
    put_bytes(text, b"\"")?;
    put_point(text, u64::from(arrow.name.x), u64::from(arrow.name.y))?;
    put_bytes(text, anchor(arrow.name_ends))
}

#[tactic(auto, unfolding(crate::specs::Svg::name_text))]
fn put_name(text: &mut Vec<u8>, line: &Line, arrow: Arrow) -> Result<(), AllocError>
    ensures { OnOk result (text.new.items ≡ text.old.items ++ name_text line.now arrow) }
{
    put_name_front(text, line, arrow)?;
    put_bytes(text, b">")?;
    put_escaped(text, &line.name)?;
    put_bytes(text, b"</text>")
}

fn arrow_at(arrows: &[Arrow], number: usize) -> Option<Arrow>
    ensures { result ≡ slice_get arrows.now number }
{
    arrows.get(number).copied()
}

fn put_lines(text: &mut Vec<u8>, lines: &[Line], arrows: &[Arrow]) -> Result<(), AllocError>
    ensures { OnOk result (text.new.items
        ≡ text.old.items ++ lines_text lines.now arrows.now) }
{
    for (number, line) in lines.iter().enumerate() {
        match arrow_at(arrows, number) {
            None => return Ok(()),
            Some(arrow) => put_line(text, line, arrow)?,
        }
    }
    Ok(())
}

fn put_names(text: &mut Vec<u8>, lines: &[Line], arrows: &[Arrow]) -> Result<(), AllocError>
    ensures { OnOk result (text.new.items
        ≡ text.old.items ++ names_text lines.now arrows.now) }
{
    for (number, line) in lines.iter().enumerate() {
        match arrow_at(arrows, number) {
            None => return Ok(()),
            Some(arrow) => put_name(text, line, arrow)?,
        }
    }
    Ok(())
}

#[tactic(auto, unfolding(crate::specs::Svg::svg_start))]
fn svg_start() -> &'static [u8]
    ensures { result.now ≡ svg_start }
{
    b"<svg xmlns=\"http://www.w3.org/2000/svg\" viewBox=\"0 0 "
}

#[tactic(auto, unfolding(crate::specs::Svg::view_text))]
fn put_view(text: &mut Vec<u8>, layout: &Layout) -> Result<(), AllocError>
    ensures { OnOk result (text.new.items ≡ text.old.items ++ view_text layout.now) }
{
    let (width, height) = (u64::from(layout.width), u64::from(layout.height));
    put_bytes(text, svg_start())?;
    put_pair(text, width, height)?;
    put_bytes(text, b"\"")?;
    put_sizes(text, width, height)
}

#[tactic(auto, unfolding(crate::specs::Svg::head_text))]
fn put_head(text: &mut Vec<u8>, layout: &Layout, title: &[u8]) -> Result<(), AllocError>
    ensures { OnOk result (text.new.items
        ≡ text.old.items ++ head_text layout.now title.now) }
{
    put_view(text, layout)?;
    put_bytes(text, b" role=\"img\"><title>")?;
    put_escaped(text, title)?;
    put_bytes(text, b"</title>")
}

#[tactic(auto, unfolding(crate::specs::Svg::boxes_text))]
fn put_boxes(text: &mut Vec<u8>, picture: &Picture, layout: &Layout) -> Result<(), AllocError>
    ensures { OnOk result (text.new.items
        ≡ text.old.items ++ boxes_text picture.now layout.now) }
{
    put_stores(text, layout, &picture.initial)?;
    put_threads(text, layout, &picture.threads)
}

/// Appends a picture that has this layout. `style` is a `<style>` element where the picture stands
/// alone, and empty in a page that has one. Errors: want of memory.
#[tactic(auto, unfolding(crate::specs::Svg::svg_text))]
pub fn put_svg(
    text: &mut Vec<u8>,
    style: &[u8],
    picture: &Picture,
    layout: &Layout,
) -> Result<(), AllocError>
    ensures { OnOk result (text.new.items
        ≡ text.old.items ++ svg_text style.now picture.now layout.now) }
{
    put_head(text, layout, &picture.title)?;
    put_bytes(text, style)?;
    put_grounds(text, layout, &picture.threads)?;
    put_lines(text, &picture.lines, &layout.arrows)?;
    put_boxes(text, picture, layout)?;
    put_names(text, &picture.lines, &layout.arrows)?;
    put_bytes(text, b"</svg>\n")
}
