//! The values of factors in the candidates of a space.

ghost use Rattle.std.specs.Prelude.{◌≡◌, ◌↔◌, ℕ, IfOk};
ghost use Rattle.bit_rows.specs.Relation.{Has, IsRegular};
ghost use Rattle.why_witness.specs.Pairs.{HasPair};
ghost use Rattle.why_walks.specs.Factors.{factor_steps};
ghost use Rattle.why_walks.specs.Values.{AreFactorValues, AreLinksAt, IsLinkAt, IsOn, HasFactorColumn, value_part};

use crate::factor::{Factor, Repeats, factors};
use crate::run::Link;
use binding_graph::{Code, Kind};
use bit_relations::Rel;
use candidates::Space;
use cat_eval::Column;
use relation_columns::Cursor;
use std::alloc::{AllocError, Global};
use why_witness::expression_column;

/// A factor of an expression, with its values.
#[derive(Drop)]
pub struct FactorValues {
    /// How often it takes the steps of its relation.
    pub repeats: Repeats,
    /// The expression of the relation.
    pub code: Code,
    /// The relation in each candidate.
    pub values: Column,
}

fn factor_value(
    alloc: Global,
    factor: &Factor,
    space: &Space,
    inputs: &[&Column],
) -> Result<FactorValues, AllocError>
    ensures part { IfOk result (λ v. value_part v ≡ factor_steps factor.now) }
    ensures values { IfOk result (HasFactorColumn inputs.now space.now) }
{
    let steps = Vec::from_slice(alloc, &factor.steps)?;
    let kind = Kind::OfRelation;
    let code = Code { kind, steps };
    let values = expression_column(alloc, &code, space, inputs)?;
    let repeats = factor.repeats;
    Ok(FactorValues {
        repeats,
        code,
        values,
    })
}

/// The factors of the composition that an expression is, with their values in the candidates of a
/// space. `inputs` are the values of the names of other items that it uses, in their order. Errors:
/// want of memory.
pub fn factor_values(
    alloc: Global,
    code: &Code,
    space: &Space,
    inputs: &[&Column],
) -> Result<Vec<FactorValues>, AllocError>
    ensures { IfOk result (λ v. AreFactorValues code.now inputs.now space.now v.items) }
{
    let parts = factors(alloc, &code.steps)?;
    let mut values = Vec::new(alloc);
    for index in 0..parts.len() {
        values.push(factor_value(alloc, &parts[index], space, inputs)?)?;
    }
    Ok(values)
}

// The relation of a candidate; the empty one of no events where there is none.
fn relation_at(values: &Column, candidate: usize) -> Rel
    ensures pairs { (a b : ℕ) → Has result a b ↔ HasPair values.now candidate a b }
    ensures regular { IsRegular result }
    ensures count { (n : ℕ) → IsOn candidate n values.now → result.count ≡ n }
{
    let mut relation = Rel::empty(0);
    if let Column::Relations(relations) = values {
        if candidate < relations.len() {
            relations.read(&mut Cursor::new(), candidate, &mut relation);
        }
    }
    let _regular = relation.count();
    relation
}

fn link_at(factor: &FactorValues, candidate: usize) -> Link
    ensures { IsLinkAt candidate factor.now result }
{
    let repeats = factor.repeats;
    let relation = relation_at(&factor.values, candidate);
    Link { repeats, relation }
}

/// The relations of factors in the candidate of this number. Errors: want of memory.
pub fn links_at(
    alloc: Global,
    factors: &[FactorValues],
    candidate: usize,
) -> Result<Vec<Link>, AllocError>
    ensures { IfOk result (λ v. AreLinksAt candidate factors.now v.items) }
{
    let mut links = Vec::new(alloc);
    for factor in factors {
        links.push(link_at(factor, candidate))?;
    }
    Ok(links)
}
