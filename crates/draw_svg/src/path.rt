//! The paths of a line.

ghost use Rattle.std.specs.Prelude.{◌≡◌, ◌++◌, OnOk};
ghost use Rattle.draw_svg.specs.Paths.{toward, pair, start_at, level_to, upright_to, round, level_turn, upright_turn, last_piece, spine_path, curve, near_path, beside_path, from_lane, to_lane, far_path, from_store_path, to_store_path, path_on, side_head, head_on};

use crate::bytes::{put_bytes, put_number};
use draw_layout::{Arrow, Course, Point};
use std::alloc::AllocError;

// `step` away from `a`, to where `b` stands.
fn toward(a: u32, b: u32, step: u8) -> u64
    ensures { result ≡ toward a b step }
{
    if a < b {
        u64::from(a) + u64::from(step)
    } else {
        u64::from(a).saturating_sub(u64::from(step))
    }
}

#[tactic(auto, unfolding(crate::specs::Paths::pair))]
/// Appends two numbers. Errors: want of memory.
pub fn put_pair(text: &mut Vec<u8>, x: u64, y: u64) -> Result<(), AllocError>
    ensures { OnOk result (text.new.items ≡ text.old.items ++ pair x y) }
{
    put_number(text, x)?;
    put_bytes(text, b" ")?;
    put_number(text, y)
}

#[tactic(auto, unfolding(crate::specs::Paths::start_at))]
fn put_start(text: &mut Vec<u8>, point: Point) -> Result<(), AllocError>
    ensures { OnOk result (text.new.items ≡ text.old.items ++ start_at point) }
{
    put_bytes(text, b"M")?;
    put_pair(text, u64::from(point.x), u64::from(point.y))
}

#[tactic(auto, unfolding(crate::specs::Paths::level_to))]
fn put_level(text: &mut Vec<u8>, x: u64) -> Result<(), AllocError>
    ensures { OnOk result (text.new.items ≡ text.old.items ++ level_to x) }
{
    put_bytes(text, b"H")?;
    put_number(text, x)
}

#[tactic(auto, unfolding(crate::specs::Paths::upright_to))]
fn put_upright(text: &mut Vec<u8>, y: u64) -> Result<(), AllocError>
    ensures { OnOk result (text.new.items ≡ text.old.items ++ upright_to y) }
{
    put_bytes(text, b"V")?;
    put_number(text, y)
}

#[tactic(auto, unfolding(crate::specs::Paths::round))]
fn put_round(text: &mut Vec<u8>, x: u64, y: u64, next_x: u64, next_y: u64) -> Result<(), AllocError>
    ensures { OnOk result (text.new.items ≡ text.old.items ++ round x y next_x next_y) }
{
    put_bytes(text, b"Q")?;
    put_pair(text, x, y)?;
    put_bytes(text, b" ")?;
    put_pair(text, next_x, next_y)
}

#[tactic(auto, unfolding(crate::specs::Paths::level_turn))]
fn put_level_turn(text: &mut Vec<u8>, x: u32, y: u32, from: u32, to: u32) -> Result<(), AllocError>
    ensures { OnOk result (text.new.items ≡ text.old.items ++ level_turn x y from to) }
{
    put_level(text, toward(x, from, 8))?;
    put_round(
        text,
        u64::from(x),
        u64::from(y),
        u64::from(x),
        toward(y, to, 8),
    )
}

#[tactic(auto, unfolding(crate::specs::Paths::upright_turn))]
fn put_upright_turn(
    text: &mut Vec<u8>,
    x: u32,
    y: u32,
    from: u32,
    to: u32,
) -> Result<(), AllocError>
    ensures { OnOk result (text.new.items ≡ text.old.items ++ upright_turn x y from to) }
{
    put_upright(text, toward(y, from, 8))?;
    put_round(
        text,
        u64::from(x),
        u64::from(y),
        toward(x, to, 8),
        u64::from(y),
    )
}

#[tactic(auto, unfolding(crate::specs::Paths::last_piece))]
fn put_last_piece(text: &mut Vec<u8>, arrow: Arrow) -> Result<(), AllocError>
    ensures { OnOk result (text.new.items ≡ text.old.items ++ last_piece arrow) }
{
    put_level(text, toward(arrow.end.x, arrow.last, 6))
}

#[tactic(auto, unfolding(crate::specs::Paths::spine_path))]
fn put_spine(text: &mut Vec<u8>, arrow: Arrow) -> Result<(), AllocError>
    ensures { OnOk result (text.new.items ≡ text.old.items ++ spine_path arrow) }
{
    put_start(text, arrow.start)?;
    put_upright(text, u64::from(arrow.end.y.saturating_sub(6)))
}

#[tactic(auto, unfolding(crate::specs::Paths::curve))]
fn put_curve(text: &mut Vec<u8>, arrow: Arrow) -> Result<(), AllocError>
    ensures { OnOk result (text.new.items ≡ text.old.items ++ curve arrow) }
{
    let end_y = u64::from(arrow.end.y);
    put_bytes(text, b"C")?;
    put_pair(
        text,
        toward(arrow.first, arrow.last, 48),
        u64::from(arrow.start.y),
    )?;
    put_bytes(text, b" ")?;
    put_pair(text, toward(arrow.last, arrow.first, 48), end_y)?;
    put_bytes(text, b" ")?;
    put_pair(text, u64::from(arrow.last), end_y)
}

#[tactic(auto, unfolding(crate::specs::Paths::near_path))]
fn put_near(text: &mut Vec<u8>, arrow: Arrow) -> Result<(), AllocError>
    ensures { OnOk result (text.new.items ≡ text.old.items ++ near_path arrow) }
{
    put_start(text, arrow.start)?;
    put_level(text, u64::from(arrow.first))?;
    put_curve(text, arrow)?;
    put_last_piece(text, arrow)
}

#[tactic(auto, unfolding(crate::specs::Paths::beside_path))]
fn put_beside(text: &mut Vec<u8>, arrow: Arrow) -> Result<(), AllocError>
    ensures { OnOk result (text.new.items ≡ text.old.items ++ beside_path arrow) }
{
    put_start(text, arrow.start)?;
    put_level_turn(text, arrow.first, arrow.start.y, arrow.start.x, arrow.end.y)?;
    put_upright_turn(text, arrow.first, arrow.end.y, arrow.start.y, arrow.end.x)?;
    put_level(text, toward(arrow.end.x, arrow.first, 6))
}

#[tactic(auto, unfolding(crate::specs::Paths::from_lane))]
fn put_from_lane(text: &mut Vec<u8>, arrow: Arrow, from: u32) -> Result<(), AllocError>
    ensures { OnOk result (text.new.items ≡ text.old.items ++ from_lane arrow from) }
{
    put_level_turn(text, arrow.last, arrow.lane, from, arrow.end.y)?;
    put_upright_turn(text, arrow.last, arrow.end.y, arrow.lane, arrow.end.x)?;
    put_last_piece(text, arrow)
}

#[tactic(auto, unfolding(crate::specs::Paths::to_lane))]
fn put_to_lane(text: &mut Vec<u8>, arrow: Arrow, to: u32) -> Result<(), AllocError>
    ensures { OnOk result (text.new.items ≡ text.old.items ++ to_lane arrow to) }
{
    put_start(text, arrow.start)?;
    put_level_turn(text, arrow.first, arrow.start.y, arrow.start.x, arrow.lane)?;
    put_upright_turn(text, arrow.first, arrow.lane, arrow.start.y, to)
}

#[tactic(auto, unfolding(crate::specs::Paths::far_path))]
fn put_far(text: &mut Vec<u8>, arrow: Arrow) -> Result<(), AllocError>
    ensures { OnOk result (text.new.items ≡ text.old.items ++ far_path arrow) }
{
    put_to_lane(text, arrow, arrow.last)?;
    put_from_lane(text, arrow, arrow.first)
}

#[tactic(auto, unfolding(crate::specs::Paths::from_store_path))]
fn put_from_store(text: &mut Vec<u8>, arrow: Arrow) -> Result<(), AllocError>
    ensures { OnOk result (text.new.items ≡ text.old.items ++ from_store_path arrow) }
{
    put_start(text, arrow.start)?;
    put_upright_turn(text, arrow.start.x, arrow.lane, arrow.start.y, arrow.last)?;
    put_from_lane(text, arrow, arrow.start.x)
}

#[tactic(auto, unfolding(crate::specs::Paths::to_store_path))]
fn put_to_store(text: &mut Vec<u8>, arrow: Arrow) -> Result<(), AllocError>
    ensures { OnOk result (text.new.items ≡ text.old.items ++ to_store_path arrow) }
{
    put_to_lane(text, arrow, arrow.end.x)?;
    put_level_turn(text, arrow.end.x, arrow.lane, arrow.first, arrow.end.y)?;
    put_upright(text, u64::from(arrow.end.y) + 6)
}

/// Appends the path of a line. Errors: want of memory.
#[tactic(auto, unfolding(crate::specs::Paths::path_on))]
pub fn put_path(text: &mut Vec<u8>, arrow: Arrow) -> Result<(), AllocError>
    ensures { OnOk result (text.new.items ≡ text.old.items ++ path_on arrow.course arrow) }
{
    match arrow.course {
        Course::Spine => put_spine(text, arrow),
        Course::Near => put_near(text, arrow),
        Course::Beside => put_beside(text, arrow),
        Course::Far => put_far(text, arrow),
        Course::FromStore => put_from_store(text, arrow),
        Course::ToStore => put_to_store(text, arrow),
    }
}

fn side_head(from: u32, x: u32) -> &'static [u8]
    ensures { result.now ≡ side_head from x }
{
    if from < x { b"l-9-5v10z" } else { b"l9-5v10z" }
}

/// The two other points of the head of a line.
pub fn head_bytes(arrow: Arrow) -> &'static [u8]
    ensures { result.now ≡ head_on arrow.course arrow }
{
    match arrow.course {
        Course::Spine => b"l-5-9h10z",
        Course::ToStore => b"l-5 9h10z",
        Course::Beside => side_head(arrow.first, arrow.end.x),
        Course::Near | Course::Far | Course::FromStore => side_head(arrow.last, arrow.end.x),
    }
}
