//! Ports and wires: which of the ends at a side of a box comes where, and which of the upright
//! pieces beside a column.

ghost use Rattle.std.specs.Prelude.{◌≡◌, ◌≤◌, ◌^◌, length};
ghost use Rattle.draw_layout.specs.Ends.{is_same_side, is_at, is_beside, is_before, is_wire_beside, has_lane, is_lane, port_of, ports_at, stub, wires, wire_of, reach, lanes, lane_of, most_ports, is_side};

use crate::ends::{Course, End, Side, has_wire};
use crate::picture::Position;

/// Whether two sides are one.
pub fn is_same_side(side: Side, other: Side) -> bool
    ensures { result ≡ is_same_side side other }
{
    match (side, other) {
        (Side::Left, Side::Left) | (Side::Right, Side::Right) | (Side::Below, Side::Below) => true,
        _ => false,
    }
}

// Whether an end is at this side of this box.
fn is_at(at: Position, side: Side, end: End) -> bool
    ensures { result ≡ is_at at side end }
{
    end.at.column == at.column && end.at.row == at.row && is_same_side(end.side, side)
}

// Whether an end is at this side of this column.
fn is_beside(column: u8, side: Side, end: End) -> bool
    ensures { result ≡ is_beside column side end }
{
    end.at.column == column && is_same_side(end.side, side)
}

// Whether an end comes before another at one side: by the row of the other box, then by number.
fn is_before(end: End, other: End) -> bool
    ensures { result ≡ is_before end other }
{
    end.other_row < other.other_row || end.other_row == other.other_row && end.number < other.number
}

/// The index of an end among those at its side of its box.
pub fn port_of(ends: &[End], end: End) -> usize
    ensures value { result ≡ port_of ends.now end }
    ensures bounded { result ≤ length ends.now }
{
    ends.iter()
        .filter(|other| is_at(end.at, end.side, **other) && is_before(**other, end))
        .count()
}

/// How many ends are at this side of this box.
pub fn ports_at(ends: &[End], at: Position, side: Side) -> usize
    ensures value { result ≡ ports_at ends.now at side }
    ensures bounded { result ≤ length ends.now }
{
    ends.iter().filter(|end| is_at(at, side, **end)).count()
}

/// The length of the straight pieces at this side of a column, over which names stand.
pub fn stub(ends: &[End], column: u8, side: Side) -> u16
    ensures { result ≡ stub ends.now column side }
{
    let mut most = 12;
    for end in ends {
        if is_beside(column, side, *end) {
            most = most.max(end.room);
        }
    }
    most
}

fn is_wire_beside(column: u8, side: Side, end: End) -> bool
    ensures { result ≡ is_wire_beside column side end }
{
    has_wire(end) && is_beside(column, side, end)
}

/// How many upright pieces stand at this side of a column.
pub fn wires(ends: &[End], column: u8, side: Side) -> usize
    ensures value { result ≡ wires ends.now column side }
    ensures bounded { result ≤ length ends.now }
{
    ends.iter()
        .filter(|end| is_wire_beside(column, side, **end))
        .count()
}

/// The index of the upright piece beside an end among those at its side of its column.
pub fn wire_of(ends: &[End], end: End) -> usize
    ensures value { result ≡ wire_of ends.now end }
    ensures bounded { result ≤ length ends.now }
{
    ends.iter()
        .filter(|other| {
            is_wire_beside(end.at.column, end.side, **other) && other.number < end.number
        })
        .count()
}

/// How far names and upright pieces reach at this side of a column.
#[tactic(auto, unfolding(crate::specs::Ends::reach))]
pub fn reach(ends: &[End], column: u8, side: Side) -> u32
    requires { length ends.now ≤ 1024 }
    ensures value { result ≡ reach ends.now column side }
    ensures bounded { result ≤ 2 ^ 17 }
{
    u32::from(stub(ends, column, side)) + 8 * wires(ends, column, side) as u32
}

// Whether a line of this course has a level piece above the threads, or else below them.
fn has_lane(course: Course, is_above: bool) -> bool
    ensures { result ≡ has_lane course is_above }
{
    match course {
        Course::FromStore | Course::ToStore => is_above,
        Course::Far => !is_above,
        Course::Spine | Course::Near | Course::Beside => false,
    }
}

fn is_lane(is_above: bool, end: End) -> bool
    ensures { result ≡ is_lane is_above end }
{
    end.is_first && has_lane(end.course, is_above)
}

/// How many lines have a level piece above the threads, or below them.
pub fn lanes(ends: &[End], is_above: bool) -> usize
    ensures value { result ≡ lanes ends.now is_above }
    ensures bounded { result ≤ length ends.now }
{
    ends.iter().filter(|end| is_lane(is_above, **end)).count()
}

/// How many lines before that of this end have a level piece there.
pub fn lane_of(ends: &[End], is_above: bool, number: usize) -> usize
    ensures value { result ≡ lane_of ends.now is_above number }
    ensures bounded { result ≤ length ends.now }
{
    ends.iter()
        .filter(|end| is_lane(is_above, **end) && end.number < number)
        .count()
}

// Whether a side is the lower one, or else one of the others.
fn is_side(lower: bool, side: Side) -> bool
    ensures { result ≡ is_side lower side }
{
    match side {
        Side::Left | Side::Right => !lower,
        Side::Below => lower,
    }
}

/// The most ends at one side of a box: at lower sides, or at the others.
pub fn most_ports(ends: &[End], lower: bool) -> usize
    requires { length ends.now ≤ 1024 }
    ensures value { result ≡ most_ports ends.now lower }
    ensures bounded { result ≤ 1024 }
{
    let mut most = 0;
    for end in ends {
        if is_side(lower, end.side) {
            most = most.max(ports_at(ends, end.at, end.side));
        }
    }
    most
}
