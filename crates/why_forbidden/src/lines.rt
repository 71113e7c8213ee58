//! The lines of a drawing: pairs of relations.

ghost use Rattle.std.specs.Prelude.{◌≡◌, ◌≤◌, ◌↔◌, ℕ, IfOk};
ghost use Rattle.std.specs.List.{All, AllZip};
ghost use Rattle.binding_kinds.specs.declared.kinds.Kind.TheVariants as kinds;
ghost use Rattle.bit_rows.specs.Relation.{Events, Has, IsMember, IsRelation, Relation};
ghost use Rattle.candidate_spaces.specs.Space.{Candidate};
ghost use Rattle.cat_machine.specs.Columns.{HasColumnValue};
ghost use Rattle.cat_machine.specs.Executions.{events_of};
ghost use Rattle.cat_machine.specs.Values.{IsFor};
ghost use Rattle.why_witness.specs.Pairs.{HasPair};
ghost use Rattle.why_forbidden.specs.Drawable.{AreAllLinesAt, AreLinesAt, AreValuesOf, HasCount};
ghost use Rattle.why_forbidden.specs.Drawings.{AreShownLines, IsCandidateAt, PairsOfName};
ghost use Rattle.why_forbidden.specs.Drawings as drawings;
ghost use Rattle.why_forbidden.specs.Language.{IsOfLanguage};
ghost use Rattle.draw_relations.specs.Values.{IsSized, IsSizedAt};

use crate::labels::predefined_value;
use bit_relations::{EventSet, Rel};
use candidates::Space;
use cat_eval::Column;
use draw_graph::{Edges, Ink, edges};
use draw_relations::ShownValues;
use relation_columns::Cursor;
use std::alloc::{AllocError, Global};
use text_values::Predefined;
use why_labels::PredefinedValue;

/// A relation that is drawn.
#[derive(Drop)]
pub struct DrawnRelation {
    /// Its name and its values.
    pub value: PredefinedValue,
    /// How its edges look.
    pub ink: Ink,
}

// The relations that are drawn.
const RELATIONS: [(Predefined, Ink); 11] = [
    (Predefined::ProgramOrder, Ink::Order),
    (Predefined::ReadsFrom, Ink::ReadsFrom),
    (Predefined::Coherence, Ink::Coherence),
    (Predefined::FromReads, Ink::FromReads),
    (Predefined::AddressDependency, Ink::Dependency),
    (Predefined::DataDependency, Ink::Dependency),
    (Predefined::ControlDependency, Ink::Dependency),
    (Predefined::SyncOrder, Ink::Fence),
    (Predefined::LwsyncOrder, Ink::Fence),
    (Predefined::EieioOrder, Ink::Fence),
    (Predefined::IsyncOrder, Ink::Fence),
];

fn drawn_relation(
    alloc: Global,
    space: &Space,
    relation: (Predefined, Ink),
) -> Result<DrawnRelation, AllocError>
    ensures { IfOk result (AreValuesOf space.now relation) }
{
    let value = predefined_value(alloc, space, relation.0)?;
    Ok(DrawnRelation {
        value,
        ink: relation.1,
    })
}

fn relation_values(
    alloc: Global,
    space: &Space,
    relations: &[(Predefined, Ink)],
) -> Result<Vec<DrawnRelation>, AllocError>
    ensures { IfOk result (λ v. AllZip (AreValuesOf space.now) relations.now v.items) }
{
    let mut found = Vec::new(alloc);
    for index in 0..relations.len() {
        found.push(drawn_relation(alloc, space, relations[index])?)?;
    }
    Ok(found)
}

/// The relations that are drawn, with their values. Errors: want of memory.
pub fn drawn_relations(alloc: Global, space: &Space) -> Result<Vec<DrawnRelation>, AllocError>
    ensures { IfOk result (λ v. AllZip (AreValuesOf space.now) drawings.relations v.items) }
{
    relation_values(alloc, space, &RELATIONS)
}

// The value in a candidate.
fn relation_at(values: &Column, candidate: usize) -> Rel
    ensures { (s : Events) (r : Relation) → IsFor kinds.OfRelation values.now
        → HasColumnValue values.now candidate s r → result ≡ r }
{
    let mut relation = Rel::empty(0);
    if let Column::Relations(relations) = values {
        if candidate < relations.len() {
            relations.read(&mut Cursor::new(), candidate, &mut relation);
        }
    }
    relation
}

// The pairs of the relation in a candidate.
fn relation_of(space: &Space, value: &PredefinedValue, candidate: usize) -> Rel
    requires { IsOfLanguage space.now value.now }
    ensures { (one : Candidate) → IsCandidateAt space.now candidate one
        → IsRelation result (events_of one) (PairsOfName one value.now.name) }
{
    let _space = space;
    relation_at(&value.column, candidate)
}

// The edges of a relation between the events that are drawn.
fn lines_of(
    alloc: Global,
    space: &Space,
    relation: &DrawnRelation,
    candidate: usize,
    drawn: &EventSet,
) -> Result<Edges, AllocError>
    requires value { IsOfLanguage space.now relation.now.value }
    requires count { HasCount space.now candidate drawn.now.count }
    ensures { IfOk result (AreLinesAt space.now candidate (IsMember drawn.now)
        (relation.now.value.name, relation.now.ink)) }
{
    let pairs = relation_of(space, &relation.value, candidate);
    let pairs = edges(alloc, &pairs, drawn)?;
    let name = Vec::from_slice(alloc, relation.value.name.spelling())?;
    Ok(Edges {
        name,
        ink: relation.ink,
        pairs,
    })
}

/// The edges of each relation between the events that are drawn. Errors: want of memory.
#[inline(never)]
pub fn all_lines(
    alloc: Global,
    space: &Space,
    relations: &[DrawnRelation],
    candidate: usize,
    drawn: &EventSet,
) -> Result<Vec<Edges>, AllocError>
    requires values { AllZip (AreValuesOf space.now) drawings.relations relations.now }
    requires count { HasCount space.now candidate drawn.now.count }
    ensures { IfOk result (λ v. AreAllLinesAt space.now candidate (IsMember drawn.now) v.items) }
{
    let mut lines = Vec::new(alloc);
    for index in 0..relations.len() {
        lines.push(lines_of(alloc, space, &relations[index], candidate, drawn)?)?;
    }
    Ok(lines)
}

// The value of a shown relation in a candidate of so many events.
fn shown_at(values: &Column, candidate: usize, count: usize) -> Rel
    requires few { count ≤ 128 }
    requires sized { IsSizedAt values.now candidate count }
    ensures count { result.count ≡ count }
    ensures pairs { (a b : ℕ) → Has result a b ↔ HasPair values.now candidate a b }
{
    if let Column::Relations(relations) = values {
        if candidate < relations.len() {
            let mut relation = Rel::empty(0);
            relations.read(&mut Cursor::new(), candidate, &mut relation);
            return relation;
        }
    }
    Rel::empty(count)
}

fn shown_line(
    alloc: Global,
    shown: &ShownValues,
    candidate: usize,
    drawn: &EventSet,
) -> Result<Edges, AllocError>
    requires { IsSizedAt shown.now.values candidate drawn.now.count }
    ensures { IfOk result (AreShownLines candidate (IsMember drawn.now) shown.now) }
{
    let pairs = shown_at(&shown.values, candidate, drawn.count());
    let pairs = edges(alloc, &pairs, drawn)?;
    let name = Vec::from_slice(alloc, shown.name.as_bytes())?;
    Ok(Edges {
        name,
        ink: Ink::Named,
        pairs,
    })
}

/// The edges of each relation that a model shows between the events that are drawn. Errors: want of
/// memory.
#[inline(never)]
pub fn shown_lines(
    alloc: Global,
    space: &Space,
    shown: &[ShownValues],
    candidate: usize,
    drawn: &EventSet,
) -> Result<Vec<Edges>, AllocError>
    requires sized { All (λ v. IsSized space.now v.values) shown.now }
    requires count { HasCount space.now candidate drawn.now.count }
    ensures { IfOk result (λ v.
        AllZip (AreShownLines candidate (IsMember drawn.now)) shown.now v.items) }
{
    let _space = space;
    let mut lines = Vec::new(alloc);
    for index in 0..shown.len() {
        lines.push(shown_line(alloc, &shown[index], candidate, drawn)?)?;
    }
    Ok(lines)
}
