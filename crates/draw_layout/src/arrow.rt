//! Where a line stands.

ghost use Rattle.std.specs.Prelude.{◌≡◌, ◌≤◌, ◌<◌, ◌^◌, length};
ghost use Rattle.draw_layout.specs.Layout.{inset_of, outward, is_left, point_of, bend_of, bend_at, lane_at, arrow_of, spine_of, sided_of, name_point, is_above};

use crate::ends::{Course, End, Side, course_of, end_of, has_wire, is_spine};
use crate::frame::{Frame, left_of, top_of};
use crate::picture::{Line, Position};
use crate::ports::{lane_of, port_of, ports_at, reach, stub, wire_of};

/// A point: to the right, and down.
#[derive(Clone, Copy)]
pub struct Point {
    /// To the right.
    pub x: u32,
    /// Down.
    pub y: u32,
}

/// Where a line and its name stand.
#[derive(Clone, Copy)]
pub struct Arrow {
    /// The way of the line.
    pub course: Course,
    /// Where it begins.
    pub start: Point,
    /// How far to the right its first upright piece stands, or its curve begins.
    pub first: u32,
    /// How far down its level piece stands, if it has one.
    pub lane: u32,
    /// How far to the right its last upright piece stands, or its curve ends.
    pub last: u32,
    /// Where it ends.
    pub end: Point,
    /// Where its name stands.
    pub name: Point,
    /// Whether the name ends there.
    pub name_ends: bool,
}

// How far along a side of this length an end stands.
fn inset_of(ends: &[End], size: u16, end: End) -> u32
    requires { length ends.now ≤ 1024 }
    ensures value { result ≡ inset_of ends.now size end }
    ensures bounded { result ≤ 2 ^ 17 }
{
    let others = (ports_at(ends, end.at, end.side) as u32).saturating_sub(1);
    u32::from(size).saturating_sub(20 * others) / 2 + 20 * port_of(ends, end) as u32
}

// So far out from a side of a column, which stands at `left`.
fn outward(side: Side, left: u32, frame: Frame, out: u32) -> u32
    requires left_bounded { left ≤ 2 ^ 28 }
    requires out_bounded { out ≤ 2 ^ 18 }
    ensures value { result ≡ outward side left frame out }
    ensures bounded { result ≤ 2 ^ 29 }
{
    match side {
        Side::Left => left.saturating_sub(out),
        Side::Right => left + u32::from(frame.box_width) + out,
        Side::Below => left + out,
    }
}

/// The point of the border of a box at which a line ends.
pub fn point_of(ends: &[End], frame: Frame, end: End) -> Point
    requires { length ends.now ≤ 1024 }
    ensures value { result ≡ point_of ends.now frame end }
    ensures x_bounded { result.x ≤ 2 ^ 29 }
    ensures y_bounded { result.y ≤ 2 ^ 29 }
{
    let left = left_of(ends, frame, end.at.column);
    let top = top_of(frame, end.at.row);
    match end.side {
        Side::Below => Point {
            x: left + inset_of(ends, frame.box_width, end),
            y: top + 46,
        },
        side => Point {
            x: outward(side, left, frame, 0),
            y: top + inset_of(ends, frame.box_height, end),
        },
    }
}

// How far from its box a line bends: to its upright piece, or where the upright pieces end.
fn bend_of(ends: &[End], end: End) -> u32
    requires { length ends.now ≤ 1024 }
    ensures value { result ≡ bend_of ends.now end }
    ensures bounded { result ≤ 2 ^ 18 }
{
    if has_wire(end) {
        let names = stub(ends, end.at.column, end.side);
        u32::from(names) + 8 * (wire_of(ends, end) as u32 + 1)
    } else {
        reach(ends, end.at.column, end.side)
    }
}

fn bend_at(ends: &[End], frame: Frame, end: End) -> u32
    requires { length ends.now ≤ 1024 }
    ensures { result ≡ bend_at ends.now frame end }
{
    let left = left_of(ends, frame, end.at.column);
    outward(end.side, left, frame, bend_of(ends, end))
}

fn is_above(course: Course) -> bool
    ensures { result ≡ is_above course }
{
    matches!(course, Course::FromStore | Course::ToStore)
}

// How far down the level piece of the line of this end stands.
fn lane_at(ends: &[End], bottom: u32, end: End) -> u32
    requires few { length ends.now ≤ 1024 }
    requires bounded { bottom ≤ 2 ^ 26 }
    ensures { result ≡ lane_at ends.now bottom end }
{
    if is_above(end.course) {
        64 + 16 * lane_of(ends, true, end.number) as u32
    } else {
        bottom + 30 + 16 * lane_of(ends, false, end.number) as u32
    }
}

// Beside a box, above the line.
fn name_point(point: Point, side: Side) -> Point
    requires x_bounded { point.x ≤ 2 ^ 29 }
    ensures { result ≡ name_point point side }
{
    let y = point.y.saturating_sub(4);
    match side {
        Side::Left => Point {
            x: point.x.saturating_sub(8),
            y,
        },
        _ => Point { x: point.x + 8, y },
    }
}

// Straight down from the middle of a box to that of the next.
#[tactic(auto, unfolding(crate::specs::Layout::spine_of))]
fn spine_of(ends: &[End], frame: Frame, line: &Line) -> Arrow
    requires { length ends.now ≤ 1024 }
    ensures { result ≡ spine_of ends.now frame line.now }
{
    let x = left_of(ends, frame, line.from.column) + u32::from(frame.box_width) / 2;
    let from = top_of(frame, line.from.row) + u32::from(frame.box_height);
    let start = Point { x, y: from };
    let end = Point {
        x,
        y: top_of(frame, line.to.row),
    };
    let name = Point {
        x: x + 8,
        y: from + 19,
    };
    Arrow {
        course: Course::Spine,
        start,
        first: x,
        lane: from,
        last: x,
        end,
        name,
        name_ends: false,
    }
}

fn is_left(side: Side) -> bool
    ensures { result ≡ is_left side }
{
    matches!(side, Side::Left)
}

// From a side to a side.
#[tactic(auto, unfolding(crate::specs::Layout::sided_of))]
fn sided_of(ends: &[End], frame: Frame, bottom: u32, first: End, last: End) -> Arrow
    requires few { length ends.now ≤ 1024 }
    requires bounded { bottom ≤ 2 ^ 26 }
    ensures { result ≡ sided_of ends.now frame bottom first last }
{
    let start = point_of(ends, frame, first);
    let end = point_of(ends, frame, last);
    let (name, side) = match first.course {
        Course::FromStore => (name_point(end, last.side), last.side),
        _ => (name_point(start, first.side), first.side),
    };
    Arrow {
        course: first.course,
        start,
        first: bend_at(ends, frame, first),
        lane: lane_at(ends, bottom, first),
        last: bend_at(ends, frame, last),
        end,
        name,
        name_ends: is_left(side),
    }
}

/// Where the line of this number stands.
pub fn arrow_of(ends: &[End], frame: Frame, bottom: u32, number: usize, line: &Line) -> Arrow
    requires few { length ends.now ≤ 1024 }
    requires bounded { bottom ≤ 2 ^ 26 }
    requires number_bounded { number < 2 ^ 60 }
    ensures { result ≡ arrow_of ends.now frame bottom number line.now }
{
    if is_spine(course_of(line)) {
        spine_of(ends, frame, line)
    } else {
        let first = end_of(number, line, true);
        sided_of(ends, frame, bottom, first, end_of(number, line, false))
    }
}
