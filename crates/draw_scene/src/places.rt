//! Where the box of an event stands.

ghost use Rattle.std.specs.Prelude.{◌≡◌};
ghost use Rattle.draw_scene.specs.Lines.{above, below, index_of, place_in, place_of, position};

use draw_graph::{Cluster, Drawing};
use draw_layout::Position;
use why_text::ToldEvent;

fn index_of(number: usize, events: &[ToldEvent]) -> Option<usize>
    ensures { result ≡ index_of number 0 events.now }
{
    for (index, event) in events.iter().enumerate() {
        if event.number == number {
            return Some(index);
        }
    }
    None
}

fn position(column: usize, row: usize) -> Option<Position>
    ensures { result ≡ position column row }
{
    if column < 255 && row < 255 {
        Some(Position {
            column: column as u8,
            row: row as u8,
        })
    } else {
        None
    }
}

fn above(index: Option<usize>) -> Option<Position>
    ensures { result ≡ above index }
{
    match index {
        None => None,
        Some(index) => position(index, 0),
    }
}

fn below(thread: usize, index: Option<usize>) -> Option<Position>
    ensures { result ≡ below thread index }
{
    match index {
        Some(index) if index < 254 => position(thread, index + 1),
        _ => None,
    }
}

fn place_in(number: usize, clusters: &[Cluster]) -> Option<Position>
    ensures { result ≡ place_in number 0 clusters.now }
{
    for (thread, cluster) in clusters.iter().enumerate() {
        let place = below(thread, index_of(number, &cluster.events));
        if place.is_some() {
            return place;
        }
    }
    None
}

/// Where the box of the event of this number stands.
#[tactic(auto, unfolding(crate::specs::Lines::place_of))]
pub fn place_of(drawing: &Drawing, number: usize) -> Option<Position>
    ensures { result ≡ place_of drawing.now number }
{
    match above(index_of(number, &drawing.initial)) {
        Some(place) => Some(place),
        None => place_in(number, &drawing.clusters),
    }
}
