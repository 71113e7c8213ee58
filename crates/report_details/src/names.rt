//! Groups of models, by their names.

ghost use Rattle.std.specs.Prelude.{◌≡◌, ◌++◌, IfOk, OnOk, codes, map};
ghost use Rattle.text_values.specs.Joined.{joined};
ghost use Rattle.report_details.specs.Names.{name_if, names_in, count_of_models, names_text, group_text, first_if, firsts_from};

use crate::reported::ReportedModel;
use std::alloc::{AllocError, Global};
use text_values::{put_between, put_bytes, put_decimal};

// Adds the name of a model where this holds.
fn push_if<'a>(
    names: &mut Vec<&'a [u8]>,
    holds: bool,
    model: &ReportedModel<'a>,
) -> Result<(), AllocError>
    ensures { OnOk result (map (λ n. n.now) names.new.items
        ≡ map (λ n. n.now) names.old.items ++ name_if holds model.now) }
{
    if holds {
        names.push(model.name)?;
    }
    Ok(())
}

// The names of the models of a group.
fn names_in<'a>(
    alloc: Global,
    models: &[ReportedModel<'a>],
    groups: &[usize],
    group: usize,
) -> Result<Vec<&'a [u8]>, AllocError>
    ensures { IfOk result (λ v. map (λ n. n.now) v.items ≡ names_in models.now groups.now group) }
{
    let mut names = Vec::new(alloc);
    for (number, model) in models.iter().enumerate() {
        match groups.get(number).copied() {
            None => return Ok(names),
            Some(other) => push_if(&mut names, other == group, model)?,
        }
    }
    Ok(names)
}

fn joined_names(alloc: Global, names: &[&[u8]]) -> Result<Vec<u8>, AllocError>
    ensures { IfOk result (λ v. v.items ≡ joined (codes ", ") (map (λ n. n.now) names.now)) }
{
    let mut text = Vec::new(alloc);
    for (index, name) in names.iter().enumerate() {
        put_between(&mut text, b", ", index)?;
        put_bytes(&mut text, *name)?;
    }
    Ok(text)
}

#[tactic(auto, unfolding(crate::specs::Names::count_of_models))]
fn count_of_models(alloc: Global, count: usize) -> Result<Vec<u8>, AllocError>
    ensures { IfOk result (λ v. v.items ≡ count_of_models count) }
{
    let mut text = Vec::new(alloc);
    put_decimal(&mut text, count as u64)?;
    put_bytes(&mut text, b" models")?;
    Ok(text)
}

#[tactic(auto, unfolding(crate::specs::Names::names_text))]
fn names_text(alloc: Global, names: &[&[u8]]) -> Result<Vec<u8>, AllocError>
    ensures { IfOk result (λ v. v.items ≡ names_text (map (λ n. n.now) names.now)) }
{
    if names.len() > 6 {
        count_of_models(alloc, names.len())
    } else {
        joined_names(alloc, names)
    }
}

/// Which models are of a group. Errors: want of memory.
pub fn group_text(
    alloc: Global,
    models: &[ReportedModel<'_>],
    groups: &[usize],
    group: usize,
) -> Result<Vec<u8>, AllocError>
    ensures { IfOk result (λ v. v.items ≡ group_text models.now groups.now group) }
{
    let names = names_in(alloc, models, groups, group)?;
    names_text(alloc, &names)
}

// Adds a model where its group is its own.
fn push_first(firsts: &mut Vec<usize>, number: usize, group: usize) -> Result<(), AllocError>
    ensures { OnOk result (firsts.new.items ≡ firsts.old.items ++ first_if group number) }
{
    if group == number {
        firsts.push(number)?;
    }
    Ok(())
}

/// The first model of each group. Errors: want of memory.
pub fn firsts_of(alloc: Global, groups: &[usize]) -> Result<Vec<usize>, AllocError>
    ensures { IfOk result (λ v. v.items ≡ firsts_from 0 groups.now) }
{
    let mut firsts = Vec::new(alloc);
    for (number, group) in groups.iter().enumerate() {
        push_first(&mut firsts, number, *group)?;
    }
    Ok(firsts)
}
