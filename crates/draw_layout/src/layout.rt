//! The layout of a picture.

ghost use Rattle.std.specs.Prelude.{◌≡◌, ◌≤◌, ◌<◌, ◌^◌, true, false, MatchResult, IfOk, length};
ghost use Rattle.std.specs.List.{list_all};
ghost use Rattle.draw_layout.specs.Layout.{has_box, line_fits, sizes_fit, picture_fits, lefts_of, arrows_of, columns_of, picture_frame, picture_bottom, IsLayoutWith, IsLayout};

use crate::arrow::{Arrow, arrow_of};
use crate::ends::{End, ends_of};
use crate::frame::{
    Frame, bottom_of, columns_of, frame_of, left_of, longest_spine, longest_text, most_rows,
    page_height, page_width,
};
use crate::picture::{Line, Picture, Position};
use std::alloc::{AllocError, Global};

/// Where all of a picture stands.
#[derive(Drop)]
pub struct Layout {
    /// The sizes of boxes, and where the threads begin.
    pub frame: Frame,
    /// The lower edge of the last row.
    pub bottom: u32,
    /// The width of the whole.
    pub width: u32,
    /// The height of the whole.
    pub height: u32,
    /// The left edges of the columns.
    pub lefts: Vec<u32>,
    /// The lines, in their order.
    pub arrows: Vec<Arrow>,
}

/// Why a picture has no layout.
#[derive(Debug, Drop)]
pub enum LayoutError {
    /// It does not fit.
    Unfit,
    /// Want of memory.
    Memory(AllocError),
}

impl From<AllocError> for LayoutError {
    ghost use Rattle.draw_layout.specs.declared.layout.LayoutError.{LayoutError};

    ghost from_gives = { λ e r. r ≡ LayoutError.Memory e };

    fn from(error: AllocError) -> Self {
        LayoutError::Memory(error)
    }
}

// Whether this box is in the picture.
fn has_box(picture: &Picture, at: Position) -> bool
    ensures { result ≡ has_box picture.now at }
{
    if at.row == 0 {
        return usize::from(at.column) < picture.initial.len();
    }
    match picture.threads.get(usize::from(at.column)) {
        None => false,
        Some(thread) => usize::from(at.row) <= thread.len(),
    }
}

#[tactic(auto, unfolding(crate::specs::Layout::line_fits))]
fn line_fits(picture: &Picture, line: &Line) -> bool
    ensures { result ≡ line_fits picture.now line.now }
{
    has_box(picture, line.from)
        && has_box(picture, line.to)
        && !(line.from.row == 0 && line.to.row == 0)
        && line.name.len() < 256
}

#[tactic(auto, unfolding(crate::specs::Layout::sizes_fit))]
fn sizes_fit(picture: &Picture) -> bool
    ensures { result ≡ sizes_fit picture.now }
{
    let columns = columns_of(picture);
    0 < columns
        && columns < 9
        && most_rows(&picture.threads) < 129
        && picture.lines.len() < 513
        && longest_text(picture) < 513
        && longest_spine(&picture.lines) < 513
}

fn lines_fit(picture: &Picture, lines: &[Line]) -> bool
    ensures { result ≡ list_all (line_fits picture.now) lines.now }
{
    for line in lines {
        if !line_fits(picture, line) {
            return false;
        }
    }
    true
}

/// Whether a picture fits: 1 to 8 columns, at most 128 rows and 512 lines, texts of at most 512
/// letters, names of at most 255, and each line joins two of its boxes, not two initial stores.
pub fn fits(picture: &Picture) -> bool
    ensures { result ≡ picture_fits picture.now }
{
    sizes_fit(picture) && lines_fit(picture, &picture.lines)
}

fn lefts_of(alloc: Global, ends: &[End], frame: Frame, columns: u8) -> Result<Vec<u32>, AllocError>
    requires { length ends.now ≤ 1024 }
    ensures { IfOk result (λ v. v.items ≡ lefts_of ends.now frame columns) }
{
    let mut lefts = Vec::new(alloc);
    for column in 0..columns {
        lefts.push(left_of(ends, frame, column))?;
    }
    Ok(lefts)
}

fn arrows_of(
    alloc: Global,
    ends: &[End],
    frame: Frame,
    bottom: u32,
    lines: &[Line],
) -> Result<Vec<Arrow>, AllocError>
    requires few { length ends.now ≤ 1024 }
    requires bounded { bottom ≤ 2 ^ 26 }
    requires short { length lines.now < 2 ^ 60 }
    ensures { IfOk result (λ v. v.items ≡ arrows_of ends.now frame bottom 0 lines.now) }
{
    let mut arrows = Vec::with_capacity(alloc, lines.len())?;
    for (number, line) in lines.iter().enumerate() {
        arrows.push(arrow_of(ends, frame, bottom, number, line))?;
    }
    Ok(arrows)
}

#[tactic(auto, unfolding(crate::specs::Layout::picture_frame, crate::specs::Layout::sizes_fit))]
fn picture_frame(picture: &Picture, ends: &[End]) -> Frame
    requires fits { sizes_fit picture.now ≡ true }
    requires few { length ends.now ≤ 1024 }
    ensures { result ≡ picture_frame picture.now ends.now }
{
    let (longest, spine) = (longest_text(picture), longest_spine(&picture.lines));
    frame_of(longest, spine, 0 < picture.initial.len(), ends)
}

#[tactic(auto, unfolding(crate::specs::Layout::picture_bottom, crate::specs::Layout::sizes_fit))]
fn picture_bottom(picture: &Picture, ends: &[End]) -> u32
    requires fits { sizes_fit picture.now ≡ true }
    requires few { length ends.now ≤ 1024 }
    ensures value { result ≡ picture_bottom picture.now ends.now }
    ensures bounded { result ≤ 2 ^ 26 }
{
    bottom_of(
        picture_frame(picture, ends),
        most_rows(&picture.threads) as u8,
    )
}

// How many columns a picture has whose sizes fit.
#[tactic(auto, unfolding(crate::specs::Layout::sizes_fit))]
fn column_count(picture: &Picture) -> u8
    requires { sizes_fit picture.now ≡ true }
    ensures value { result ≡ columns_of picture.now }
    ensures some { 0 < result }
{
    columns_of(picture) as u8
}

// The layout of a picture whose lines have these ends.
fn layout_with(alloc: Global, picture: &Picture, ends: &[End]) -> Result<Layout, AllocError>
    requires fits { sizes_fit picture.now ≡ true }
    requires few { length ends.now ≤ 1024 }
    requires short { length picture.now.lines.items < 2 ^ 60 }
    ensures { IfOk result (λ l. IsLayoutWith picture.now ends.now l) }
{
    let frame = picture_frame(picture, ends);
    let bottom = picture_bottom(picture, ends);
    let columns = column_count(picture);
    let lefts = lefts_of(alloc, ends, frame, columns)?;
    let arrows = arrows_of(alloc, ends, frame, bottom, &picture.lines)?;
    let width = page_width(ends, frame, columns - 1);
    let height = page_height(ends, bottom);
    Ok(Layout {
        frame,
        bottom,
        width,
        height,
        lefts,
        arrows,
    })
}

// The layout of a picture whose sizes fit.
#[tactic(auto, using(crate::proofs::Walks::ends_few, crate::proofs::Walks::lines_few))]
fn layout_of(alloc: Global, picture: &Picture) -> Result<Layout, AllocError>
    requires { sizes_fit picture.now ≡ true }
    ensures { IfOk result (λ l. IsLayout picture.now l) }
{
    let ends = ends_of(alloc, &picture.lines)?;
    layout_with(alloc, picture, &ends)
}

/// The layout of a picture. Errors: the picture does not fit; want of memory.
pub fn lay_out(alloc: Global, picture: &Picture) -> Result<Layout, LayoutError>
    ensures { MatchResult result
        (λ l. IsLayout picture.now l)
        (λ e. e ≡ LayoutError.Unfit → picture_fits picture.now ≡ false) }
{
    if !fits(picture) {
        return Err(LayoutError::Unfit);
    }
    Ok(layout_of(alloc, picture)?)
}
