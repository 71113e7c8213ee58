//! Which names stand in what a name is bound to.

ghost use Rattle.std.specs.Prelude.{◌≡◌, IfOk, option_map};
ghost use Rattle.std.specs.List.{filter_map};
ghost use Rattle.why_labels.specs.Inside.{body_at, names_in, names_inside, relation_in};
ghost use Rattle.why_labels.specs.Operands.{AreEarlier};

use crate::unions::{ModelName, earlier_names};
use binding_graph::{Body, Code, Input, ResolvedItem, Role, Source, Step};
use std::alloc::{AllocError, Global};

fn relation_in(step: Step) -> Option<Source>
    ensures { result ≡ relation_in step }
{
    match step {
        Step::PushRelation(source) => Some(source),
        _ => None,
    }
}

fn relations_in(alloc: Global, steps: &[Step]) -> Result<Vec<Source>, AllocError>
    ensures { IfOk result (λ v. v.items ≡ filter_map relation_in steps.now) }
{
    steps
        .iter()
        .filter_map(|step| relation_in(*step))
        .collect(alloc)
}

// The names of relations in an expression of the item at this index.
fn names_in(
    alloc: Global,
    item: usize,
    inputs: &[Input],
    code: &Code,
) -> Result<Vec<ModelName>, AllocError>
    ensures names { IfOk result (λ v. v.items ≡ names_in item inputs.now code.now) }
    ensures earlier { IfOk result (λ v. AreEarlier item v.items) }
{
    let sources = relations_in(alloc, &code.steps)?;
    earlier_names(alloc, item, inputs, &sources)
}

/// What a group binds at a position.
pub fn body_at(role: &Role, position: usize) -> Option<&Body>
    ensures { option_map (λ b. b.now) result ≡ body_at role.now position }
{
    match role {
        Role::Group { bodies, .. } => bodies.get(position),
        Role::Check(_) => None,
        Role::Silent => None,
    }
}

/// The names of relations in what a bound name stands for, from left to right: those of the
/// language and of earlier items. Errors: want of memory.
pub fn names_inside(
    alloc: Global,
    items: &[ResolvedItem],
    input: Input,
) -> Result<Vec<ModelName>, AllocError>
    ensures names { IfOk result (λ v. v.items ≡ names_inside items.now input) }
    ensures earlier { IfOk result (λ v. AreEarlier input.item v.items) }
{
    match items.get(input.item) {
        None => Ok(Vec::new(alloc)),
        Some(item) => match body_at(&item.role, input.position) {
            None => Ok(Vec::new(alloc)),
            Some(body) => names_in(alloc, input.item, &item.inputs, &body.code),
        },
    }
}
