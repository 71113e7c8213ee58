//! The value of an expression in each candidate.

ghost use Rattle.std.specs.Prelude.{IfOk};
ghost use Rattle.why_witness.specs.Values.{AreValues, IsGroupOf};

use binding_graph::{Body, Code, ResolvedItem, Role};
use candidates::Space;
use cat_eval::{Column, eval_group};
use std::alloc::{AllocError, Global};
use text_values::Name;

// A group of one name, which stands for what the code means.
fn group_of(alloc: Global, code: &Code) -> Result<ResolvedItem, AllocError>
    ensures { IfOk result (λ item. IsGroupOf code.now item.role) }
{
    let steps = Vec::from_slice(alloc, &code.steps)?;
    let kind = code.kind;
    let name = Name::new(alloc, b"")?;
    let mut bodies = Vec::new(alloc);
    bodies.push(Body {
        name,
        code: Code { kind, steps },
    })?;
    Ok(ResolvedItem {
        role: Role::Group {
            recursive: false,
            bodies,
        },
        inputs: Vec::new(alloc),
        functions: Vec::new(alloc),
    })
}

/// The value of an expression in each candidate of a space. `inputs` are the values of the names of
/// other items that it uses, in their order. Errors: want of memory.
pub fn expression_column(
    alloc: Global,
    code: &Code,
    space: &Space,
    inputs: &[&Column],
) -> Result<Column, AllocError>
    ensures { IfOk result (AreValues code.now inputs.now space.now) }
{
    let group = group_of(alloc, code)?;
    let mut columns = eval_group(alloc, &group, space, inputs)?;
    Ok(columns.swap_remove(0))
}
