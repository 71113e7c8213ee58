//! Checks that rows of stores are tried on.

ghost use Rattle.std.specs.Prelude.{IsTrue, IfOk, IfSome, Contains};
ghost use Rattle.cut_spaces.specs.Rows.{RefusesMore, IsTried};

use binding_graph::{CheckCode, Kind, ResolvedItem, Role};
use order_growth::{Growth, code_growth};
use std::alloc::{AllocError, Global};

/// At most so many steps are run for each row.
const MOST_STEPS: usize = 16;

/// Whether the check, which uses no name of another item, is one that refuses more where there are
/// more pairs, and is told soon. Errors: want of memory.
fn refuses(alloc: Global, check: &CheckCode) -> Result<bool, AllocError>
    ensures { IfOk result (λ b. IsTrue b → RefusesMore check.now) }
{
    if check.negated || check.flag.is_some() || check.code.kind == Kind::OfSet {
        return Ok(false);
    }
    if check.code.steps.len() > MOST_STEPS {
        return Ok(false);
    }
    Ok(code_growth(alloc, &check.code.steps, &[])? == Growth::Grows)
}

/// Whether rows are tried on the item. Errors: want of memory.
fn is_tried(alloc: Global, item: &ResolvedItem) -> Result<bool, AllocError>
    ensures { IfOk result (λ b. IsTrue b → IsTried item.now) }
{
    if !item.inputs.is_empty() {
        return Ok(false);
    }
    match &item.role {
        Role::Check(check) => refuses(alloc, check),
        Role::Group { .. } | Role::Silent => Ok(false),
    }
}

/// The first item that rows are tried on. Errors: want of memory.
pub(crate) fn tried<'a>(
    alloc: Global,
    items: &'a [ResolvedItem],
) -> Result<Option<&'a ResolvedItem>, AllocError>
    ensures { IfOk result (λ o. IfSome o (λ r. Contains items.now r.now × IsTried r.now)) }
{
    for item in items {
        if is_tried(alloc, item)? {
            return Ok(Some(item));
        }
    }
    Ok(None)
}
