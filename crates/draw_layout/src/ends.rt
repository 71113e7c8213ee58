//! The ends of the lines at the sides of the boxes.

ghost use Rattle.std.specs.Prelude.{◌≡◌, ◌<◌, ◌^◌, ◌++◌, IfOk, OnOk, length};
ghost use Rattle.draw_layout.specs.Ends.{turns_right, is_order, is_spine, course_of, turn_of, side_of, has_wire, has_name, name_room, end_of, ends_with, ends_of};

use crate::picture::{Ink, Line, Position};
use std::alloc::{AllocError, Global};

/// A side of a box.
#[derive(Clone, Copy)]
pub enum Side {
    /// The left side.
    Left,
    /// The right side.
    Right,
    /// The lower side, of an initial store.
    Below,
}

/// The way of a line.
#[derive(Clone, Copy)]
pub enum Course {
    /// Straight down, from an event to the next of its thread.
    Spine,
    /// A curve between neighbouring columns.
    Near,
    /// Beside one column.
    Beside,
    /// Below all boxes, between columns that are no neighbours.
    Far,
    /// From an initial store, above the threads.
    FromStore,
    /// To an initial store.
    ToStore,
}

/// One end of a line, at a side of a box.
#[derive(Clone, Copy)]
pub struct End {
    /// Twice the number of the line, and one more at its last end.
    pub number: usize,
    /// The box.
    pub at: Position,
    /// The side.
    pub side: Side,
    /// The row of the box at the other end.
    pub other_row: u8,
    /// The room that is kept for the line's name.
    pub room: u16,
    /// The way of the line.
    pub course: Course,
    /// Whether it is the line's first end.
    pub is_first: bool,
}

// Whether lines of this ink go round the right side of a column.
fn turns_right(ink: Ink, goes_down: bool) -> bool
    ensures { result ≡ turns_right ink goes_down }
{
    match ink {
        Ink::ReadsFrom | Ink::Coherence | Ink::FromReads => true,
        Ink::Step => !goes_down,
        Ink::Order | Ink::Dependency | Ink::Fence | Ink::Shown => false,
    }
}

fn is_order(ink: Ink) -> bool
    ensures { result ≡ is_order ink }
{
    matches!(ink, Ink::Order)
}

/// The way of a line.
pub fn course_of(line: &Line) -> Course
    ensures { result ≡ course_of line.now }
{
    let from = line.from;
    let to = line.to;
    if from.row == 0 {
        Course::FromStore
    } else if to.row == 0 {
        Course::ToStore
    } else if from.column == to.column {
        if is_order(line.ink) && usize::from(to.row) == usize::from(from.row) + 1 {
            Course::Spine
        } else {
            Course::Beside
        }
    } else if from.column.abs_diff(to.column) == 1 {
        Course::Near
    } else {
        Course::Far
    }
}

/// Whether a line of this course goes straight down.
pub fn is_spine(course: Course) -> bool
    ensures { result ≡ is_spine course }
{
    matches!(course, Course::Spine)
}

// The side of a column at which a line between its boxes goes.
fn turn_of(line: &Line) -> Side
    ensures { result ≡ turn_of line.now }
{
    if turns_right(line.ink, line.from.row < line.to.row) {
        Side::Right
    } else {
        Side::Left
    }
}

// The side of a box at which a line to another box ends.
fn side_of(at: Position, other: Position, turn: Side) -> Side
    ensures { result ≡ side_of at other turn }
{
    if at.row == 0 {
        Side::Below
    } else if at.column < other.column {
        Side::Right
    } else if other.column < at.column {
        Side::Left
    } else if other.row == 0 {
        Side::Left
    } else {
        turn
    }
}

/// Whether an upright piece of the line stands beside this end.
pub fn has_wire(end: End) -> bool
    ensures { result ≡ has_wire end }
{
    match end.course {
        Course::Spine | Course::Near => false,
        Course::Beside | Course::ToStore => end.is_first,
        Course::Far => true,
        Course::FromStore => !end.is_first,
    }
}

// Whether the line's name stands at this end.
fn has_name(course: Course, is_first: bool) -> bool
    ensures { result ≡ has_name course is_first }
{
    match course {
        Course::FromStore => !is_first,
        _ => is_first,
    }
}

// The room that a name of this length takes.
fn name_room(length: usize) -> u16
    ensures { result ≡ name_room length }
{
    if length < 256 {
        length as u16 * 8 + 12
    } else {
        2060
    }
}

/// An end of the line of this number.
pub fn end_of(number: usize, line: &Line, is_first: bool) -> End
    requires { number < 2 ^ 62 }
    ensures { result ≡ end_of number line.now is_first }
{
    let course = course_of(line);
    let (at, other) = if is_first {
        (line.from, line.to)
    } else {
        (line.to, line.from)
    };
    let room = if has_name(course, is_first) {
        name_room(line.name.len())
    } else {
        12
    };
    let number = if is_first { 2 * number } else { 2 * number + 1 };
    let side = side_of(at, other, turn_of(line));
    let other_row = other.row;
    End {
        number,
        at,
        side,
        other_row,
        room,
        course,
        is_first,
    }
}

// Appends the ends of a line that is not straight down.
fn push_ends(ends: &mut Vec<End>, number: usize, line: &Line) -> Result<(), AllocError>
    requires { number < 2 ^ 62 }
    ensures { OnOk result (ends.new.items
        ≡ ends.old.items ++ ends_with (course_of line.now) number line.now) }
{
    match course_of(line) {
        Course::Spine => Ok(()),
        _ => {
            ends.push(end_of(number, line, true))?;
            ends.push(end_of(number, line, false))?;
            Ok(())
        }
    }
}

/// The ends of the lines that are not straight down, in the order of the lines. Errors: want of
/// memory.
pub fn ends_of(alloc: Global, lines: &[Line]) -> Result<Vec<End>, AllocError>
    requires { length lines.now < 2 ^ 60 }
    ensures { IfOk result (λ v. v.items ≡ ends_of 0 lines.now) }
{
    let mut ends = Vec::new(alloc);
    for (number, line) in lines.iter().enumerate() {
        push_ends(&mut ends, number, line)?;
    }
    Ok(ends)
}
