//! The boxes.

ghost use Rattle.std.specs.Prelude.{◌≡◌, IfOk, map, true};
ghost use Rattle.draw_scene.specs.Scene.{column_texts, event_text, event_texts, origin_text, store_texts, texts_in, thread_texts};

use draw_graph::Cluster;
use draw_layout::Label;
use ppc_semantics::Instruction;
use std::alloc::{AllocError, Global};
use text_values::put_bytes;
use why_text::{Telling, ToldEvent, put_action, put_instruction, put_name};

#[tactic(auto, unfolding(crate::specs::Scene::event_text))]
fn event_text(alloc: Global, telling: Telling<'_>, event: ToldEvent) -> Result<Vec<u8>, AllocError>
    requires { telling.shows ≡ true }
    ensures { IfOk result (λ v. v.items
        ≡ event_text telling.entry.locations.now telling.entry.initial_count event) }
{
    let mut text = Vec::new(alloc);
    put_name(&mut text, telling.initial_count, event.number)?;
    put_bytes(&mut text, b": ")?;
    put_action(&mut text, telling, event.event.action)?;
    Ok(text)
}

fn origin_text(alloc: Global, instruction: Option<Instruction>) -> Result<Vec<u8>, AllocError>
    ensures { IfOk result (λ v. v.items ≡ origin_text instruction) }
{
    let mut text = Vec::new(alloc);
    if let Some(instruction) = instruction {
        put_instruction(&mut text, instruction)?;
    }
    Ok(text)
}

fn store_label(alloc: Global, telling: Telling<'_>, event: ToldEvent) -> Result<Label, AllocError>
    requires { telling.shows ≡ true }
    ensures { IfOk result (λ b. texts_in b
        ≡ store_texts telling.entry.locations.now telling.entry.initial_count event) }
{
    let action = event_text(alloc, telling, event)?;
    let instruction = Vec::from_slice(alloc, b"initial")?;
    Ok(Label {
        action,
        instruction,
    })
}

fn event_label(alloc: Global, telling: Telling<'_>, event: ToldEvent) -> Result<Label, AllocError>
    requires { telling.shows ≡ true }
    ensures { IfOk result (λ b. texts_in b
        ≡ event_texts telling.entry.locations.now telling.entry.initial_count event) }
{
    let action = event_text(alloc, telling, event)?;
    let instruction = origin_text(alloc, event.instruction)?;
    Ok(Label {
        action,
        instruction,
    })
}

/// The boxes of the initial stores. Errors: want of memory.
pub fn store_labels(
    alloc: Global,
    telling: Telling<'_>,
    events: &[ToldEvent],
) -> Result<Vec<Label>, AllocError>
    requires { telling.shows ≡ true }
    ensures { IfOk result (λ v. map texts_in v.items
        ≡ map (store_texts telling.entry.locations.now telling.entry.initial_count) events.now) }
{
    let mut labels = Vec::new(alloc);
    for event in events {
        labels.push(store_label(alloc, telling, *event)?)?;
    }
    Ok(labels)
}

fn thread_labels(
    alloc: Global,
    telling: Telling<'_>,
    cluster: &Cluster,
) -> Result<Vec<Label>, AllocError>
    requires { telling.shows ≡ true }
    ensures { IfOk result (λ v. column_texts v
        ≡ thread_texts telling.entry.locations.now telling.entry.initial_count cluster.now) }
{
    let mut labels = Vec::new(alloc);
    for event in &cluster.events {
        labels.push(event_label(alloc, telling, *event)?)?;
    }
    Ok(labels)
}

/// The boxes of the events of each thread. Errors: want of memory.
pub fn column_labels(
    alloc: Global,
    telling: Telling<'_>,
    clusters: &[Cluster],
) -> Result<Vec<Vec<Label>>, AllocError>
    requires { telling.shows ≡ true }
    ensures { IfOk result (λ v. map column_texts v.items
        ≡ map (thread_texts telling.entry.locations.now telling.entry.initial_count)
        clusters.now) }
{
    let mut columns = Vec::new(alloc);
    for cluster in clusters {
        columns.push(thread_labels(alloc, telling, cluster)?)?;
    }
    Ok(columns)
}
