//! Columns and rows.

ghost use Rattle.std.specs.Prelude.{◌≡◌, ◌<◌, ◌≤◌, ◌^◌, length};
ghost use Rattle.draw_layout.specs.Layout.{label_length, longest_in, spine_length, longest_spine, longest_text, most_rows, box_width, box_height, band, frame_of, columns_of, left_of, top_of, bottom_of, page_width, page_height};

use crate::ends::{Course, End, Side, course_of};
use crate::picture::{Label, Line, Picture};
use crate::ports::{lanes, most_ports, reach};

/// The sizes of all boxes, and where the threads begin.
#[derive(Clone, Copy)]
pub struct Frame {
    /// The width of a box.
    pub box_width: u16,
    /// The height of an event's box.
    pub box_height: u16,
    /// The upper edge of the first event's box.
    pub first_row: u16,
}

fn label_length(label: &Label) -> usize
    ensures { result ≡ label_length label.now }
{
    label.action.len().max(label.instruction.len())
}

// The longest text of some boxes, or `most`.
fn longest_in(most: usize, labels: &[Label]) -> usize
    ensures { result ≡ longest_in most labels.now }
{
    let mut most = most;
    for label in labels {
        most = most.max(label_length(label));
    }
    most
}

// The length of the name of a line straight down, which stands in half a box.
fn spine_length(line: &Line) -> usize
    ensures { result ≡ spine_length line.now }
{
    match course_of(line) {
        Course::Spine => line.name.len(),
        _ => 0,
    }
}

/// The longest name of a line straight down.
pub fn longest_spine(lines: &[Line]) -> usize
    ensures { result ≡ longest_spine lines.now }
{
    let mut most = 0;
    for line in lines {
        most = most.max(spine_length(line));
    }
    most
}

/// The longest text that boxes must hold.
pub fn longest_text(picture: &Picture) -> usize
    ensures { result ≡ longest_text picture.now }
{
    let mut most = longest_in(12, &picture.initial);
    for thread in &picture.threads {
        most = longest_in(most, thread);
    }
    most
}

/// The most events of a thread, 1 at least.
pub fn most_rows(threads: &[Vec<Label>]) -> usize
    ensures { result ≡ most_rows threads.now }
{
    let mut most = 1;
    for thread in threads {
        most = most.max(thread.len());
    }
    most
}

/// How many columns a picture has.
pub fn columns_of(picture: &Picture) -> usize
    ensures { result ≡ columns_of picture.now }
{
    picture.threads.len().max(picture.initial.len())
}

fn box_width(longest: usize, spine: usize, ends: &[End]) -> u16
    requires few { length ends.now ≤ 1024 }
    requires short { longest ≤ 512 }
    requires spine_short { spine ≤ 512 }
    ensures { result ≡ box_width longest spine ends.now }
{
    let text = 8 * longest.max(2 * spine + 2) + 20;
    let ports = 20 * (1 + most_ports(ends, true));
    text.max(ports) as u16
}

fn box_height(ends: &[End]) -> u16
    requires { length ends.now ≤ 1024 }
    ensures { result ≡ box_height ends.now }
{
    let ports = 20 * (1 + most_ports(ends, false));
    ports.max(46) as u16
}

// The height of the band of the initial stores and of the lines at them.
fn band(has_initial: bool, ends: &[End]) -> u16
    requires { length ends.now ≤ 1024 }
    ensures value { result ≡ band has_initial ends.now }
    ensures bounded { result ≤ 17000 }
{
    if has_initial {
        (58 + 16 * lanes(ends, true)) as u16
    } else {
        0
    }
}

/// The sizes for boxes with texts, and names of lines straight down, of these lengths.
pub fn frame_of(longest: usize, spine: usize, has_initial: bool, ends: &[End]) -> Frame
    requires few { length ends.now ≤ 1024 }
    requires short { longest ≤ 512 }
    requires spine_short { spine ≤ 512 }
    ensures { result ≡ frame_of longest spine has_initial ends.now }
{
    Frame {
        box_width: box_width(longest, spine, ends),
        box_height: box_height(ends),
        first_row: 34 + band(has_initial, ends),
    }
}

/// The left edge of a column.
#[tactic(auto, using(crate::proofs::Walks::left_more))]
pub fn left_of(ends: &[End], frame: Frame, column: u8) -> u32
    requires { length ends.now ≤ 1024 }
    ensures value { result ≡ left_of ends.now frame column }
    ensures bounded { result ≤ 2 ^ 28 }
{
    let mut left = 12 + reach(ends, 0, Side::Left);
    for before in 0..column {
        let right = left + u32::from(frame.box_width) + reach(ends, before, Side::Right);
        left = right + 64 + reach(ends, before + 1, Side::Left);
    }
    left
}

/// The upper edge of a box of this row.
pub fn top_of(frame: Frame, row: u8) -> u32
    ensures value { result ≡ top_of frame row }
    ensures bounded { result ≤ 2 ^ 25 }
{
    if row == 0 {
        8
    } else {
        u32::from(frame.first_row) + (u32::from(row) - 1) * (u32::from(frame.box_height) + 30)
    }
}

/// The lower edge of the last row.
pub fn bottom_of(frame: Frame, rows: u8) -> u32
    ensures value { result ≡ bottom_of frame rows }
    ensures bounded { result ≤ 2 ^ 26 }
{
    top_of(frame, rows) + u32::from(frame.box_height)
}

/// The width of the whole.
pub fn page_width(ends: &[End], frame: Frame, last_column: u8) -> u32
    requires { length ends.now ≤ 1024 }
    ensures { result ≡ page_width ends.now frame last_column }
{
    let right = left_of(ends, frame, last_column) + u32::from(frame.box_width);
    right + reach(ends, last_column, Side::Right) + 12
}

/// The height of the whole.
pub fn page_height(ends: &[End], bottom: u32) -> u32
    requires few { length ends.now ≤ 1024 }
    requires bounded { bottom ≤ 2 ^ 26 }
    ensures { result ≡ page_height ends.now bottom }
{
    bottom + 20 + 16 * lanes(ends, false) as u32
}
