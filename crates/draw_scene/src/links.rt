//! The steps of a reason, and which relations they go by.

ghost use Rattle.std.specs.Prelude.{◌≡◌, IfOk, map};
ghost use Rattle.std.specs.Option.{option_map};
ghost use Rattle.draw_scene.specs.Lines.{has_parts, goes_by, is_edge, is_link_by, is_part_of, is_text, label_of, links_from, links_of};

use draw_graph::{Edge, Edges, Ink};
use std::alloc::{AllocError, Global};
use text_values::Name;
use why_text::ToldStep;

/// A step: from one event to another, by their numbers.
#[derive(Drop)]
pub struct Link {
    /// Where it begins.
    pub from: usize,
    /// Where it leads to.
    pub to: usize,
    /// What carries it.
    pub label: Name,
}

fn links_from(alloc: Global, first: usize, steps: &[ToldStep]) -> Result<Vec<Link>, AllocError>
    ensures { IfOk result (λ v. v.items ≡ links_from first steps.now) }
{
    let mut links = Vec::with_capacity(alloc, steps.len())?;
    let mut from = first;
    for step in steps {
        let label = Name::new(alloc, &step.label)?;
        links.push(Link {
            from,
            to: step.to,
            label,
        })?;
        from = step.to;
    }
    Ok(links)
}

/// The steps, each from where the one before it leads to. Errors: want of memory.
pub fn links_of(
    alloc: Global,
    first: Option<usize>,
    steps: &[ToldStep],
) -> Result<Vec<Link>, AllocError>
    ensures { IfOk result (λ v. v.items ≡ links_of first steps.now) }
{
    match first {
        None => Ok(Vec::new(alloc)),
        Some(first) => links_from(alloc, first, steps),
    }
}

fn is_text(bytes: &[u8], other: &[u8]) -> bool
    ensures { result ≡ is_text bytes.now other.now }
{
    bytes == other
}

fn has_parts(ink: Ink) -> bool
    ensures { result ≡ has_parts ink }
{
    match ink {
        Ink::ReadsFrom | Ink::Coherence | Ink::FromReads => true,
        Ink::Order | Ink::Dependency | Ink::Fence | Ink::Named => false,
    }
}

fn is_part_of(label: &[u8], name: &[u8]) -> bool
    ensures { result ≡ is_part_of label.now name.now }
{
    match label.strip_prefix(name) {
        None => false,
        Some(rest) => is_text(rest, b"e") || is_text(rest, b"i"),
    }
}

#[tactic(auto, unfolding(crate::specs::Lines::goes_by))]
fn goes_by(label: &[u8], name: &[u8], ink: Ink) -> bool
    ensures { result ≡ goes_by label.now name.now ink }
{
    is_text(label, name) || has_parts(ink) && is_part_of(label, name)
}

fn is_link_by(name: &[u8], ink: Ink, pair: Edge, link: &Link) -> bool
    ensures { result ≡ is_link_by name.now ink pair link.now }
{
    link.from == pair.0 && link.to == pair.1 && goes_by(link.label.as_bytes(), name, ink)
}

/// The label of the first step that goes by this pair of a relation.
pub fn label_of<'a>(links: &'a [Link], name: &[u8], ink: Ink, pair: Edge) -> Option<&'a [u8]>
    ensures { option_map (λ label. label.now) result ≡ label_of links.now name.now ink pair }
{
    for link in links {
        if is_link_by(name, ink, pair, link) {
            return Some(link.label.as_bytes());
        }
    }
    None
}

/// Whether one of these edges is the line of a step.
pub fn is_edge(link: &Link, edges: &Edges) -> bool
    ensures { result ≡ is_edge link.now edges.now }
{
    for pair in &edges.pairs {
        if is_link_by(&edges.name, edges.ink, *pair, link) {
            return true;
        }
    }
    false
}
