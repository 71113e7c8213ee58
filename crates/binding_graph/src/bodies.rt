//! The bodies of groups and checks, each read once: their first fault, and their steps.

ghost use Rattle.std.specs.Prelude.{◌≡◌, ◌++◌, ◌∷◌, ℕ, List, [], map, reverse, false, IfOk, OnOk};
ghost use Rattle.text_values.specs.ModelValues.{term_of};
ghost use Rattle.binding_kinds.specs.Value.{Naming, Bound, entry_of, bound_value_of};
ghost use Rattle.binding_kinds.specs.Kinds.{takes_body};
ghost use Rattle.binding_kinds.specs.Verdict.{or_else, unless};
ghost use Rattle.binding_kinds.specs.Senses.{Sense, HaveSenses, kind_in, term_fault};
ghost use Rattle.binding_kinds.specs.First.{first_in};
ghost use Rattle.binding_kinds.specs.Fits.{AreSoundSenses, AreKnown, IsFit};
ghost use Rattle.binding_graph.specs.Inputs.{IsIndexed};
ghost use Rattle.binding_graph.specs.Usages.{Usage, usage_of, with_values, with_functions, with_all_values, with_all_functions};
ghost use Rattle.binding_graph.specs.Meaning.{IsCode};
ghost use Rattle.binding_graph.specs.Readings.{IsFinding, AreGrown, AreNamed, fault_of};
ghost use Rattle.binding_graph.specs.Resolved.{AreBodies, IsGroup, IsCheck, IsLabelled};

use crate::reading::read_term;
use crate::resolved::{Body, CheckCode, Code, ResolvedItem, Role};
use crate::uses::{Uses, copied_lists};
use crate::workspace::Workspace;
use binding_kinds::{Judged, ModelFault, Sight, binding_fault, or_else, takes_body, unless};
use std::alloc::{AllocError, Global};
use text_values::{Binding, Check, Expression, Name};

/// An expression that was read.
#[derive(Drop)]
struct Reading {
    /// Its kind and its first fault.
    judged: Judged,
    /// Its steps, where it has no fault.
    code: Code,
}

/// Reads an expression, and makes its steps.
fn read_code(
    alloc: Global,
    sight: &Sight,
    term: &Expression,
    work: &mut Workspace,
) -> Result<Reading, AllocError>
    ensures judged { let names = reverse (map entry_of sight.now.entries.now) in
        (senses : List Sense) → HaveSenses sight.now.functions.now senses
        → sight.now.parameters.now ≡ []
        → IfOk result (λ r.
        IsFinding senses names sight.now.from false (term_of term.now) r.judged) }
    ensures kind { IfOk result (λ r. r.code.kind ≡ r.judged.kind) }
    ensures code { let names = reverse (map entry_of sight.now.entries.now) in
        (senses : List Sense) → HaveSenses sight.now.functions.now senses → AreSoundSenses senses
        → sight.now.parameters.now ≡ []
        → IsIndexed work.old.uses.indexes.items work.old.uses.values.items
        → IsFit senses names (term_of term.now)
        → IfOk result (λ r. IsCode senses names (reverse work.new.uses.values.items) sight.now.from
        (term_of term.now) r.code) }
    ensures uses { let us = map usage_of sight.now.functions.now in
        let names = reverse (map entry_of sight.now.entries.now) in
        let ps = sight.now.parameters.now in
        OnOk result (AreGrown (with_values us names ps sight.now.from (term_of term.now))
        (with_functions us names ps (term_of term.now)) work.old.uses work.new.uses) }
{
    work.template.clear();
    let judged = read_term(
        alloc,
        sight,
        false,
        term,
        &mut work.template,
        &mut work.uses,
    )?;
    let code = Code {
        kind: judged.kind,
        steps: work
            .lowering
            .lower(alloc, &work.uses, sight.from, &work.template.pieces)?,
    };
    Ok(Reading { judged, code })
}

/// Adds a name with the steps of its body.
fn push_body(
    alloc: Global,
    bodies: &mut Vec<Body>,
    name: &Name,
    code: Code,
) -> Result<(), AllocError>
    ensures { OnOk result (bodies.new.items
        ≡ bodies.old.items ++ (record { name = name.now; code = code }) ∷ []) }
{
    bodies.push(Body {
        name: name.copied(alloc)?,
        code,
    })?;
    Ok(())
}

/// Reads the bodies of a group, or finds its first fault. Errors: want of memory.
pub fn read_bodies(
    alloc: Global,
    sight: &Sight,
    recursive: bool,
    group: &[Binding],
    work: &mut Workspace,
) -> Result<Result<Vec<Body>, ModelFault>, AllocError>
    ensures fault { let names = reverse (map entry_of sight.now.entries.now) in
        (senses : List Sense) → HaveSenses sight.now.functions.now senses
        → sight.now.parameters.now ≡ []
        → IfOk result (λ r. fault_of r
        ≡ first_in senses names sight.now.from recursive [] (map bound_value_of group.now)) }
    ensures named { let names = reverse (map entry_of sight.now.entries.now) in
        (senses : List Sense) → HaveSenses sight.now.functions.now senses
        → sight.now.parameters.now ≡ []
        → IfOk result (λ r. IfOk r (λ v. AreNamed senses names
        (map bound_value_of group.now) v.items)) }
    ensures bodies { let us = map usage_of sight.now.functions.now in
        let names = reverse (map entry_of sight.now.entries.now) in
        (senses : List Sense) → HaveSenses sight.now.functions.now senses → AreSoundSenses senses
        → AreKnown names → sight.now.parameters.now ≡ []
        → IsIndexed work.old.uses.indexes.items work.old.uses.values.items
        → IfOk result (λ r. IfOk r (λ v. AreBodies senses us names sight.now.from
        (reverse work.old.uses.values.items) (map bound_value_of group.now) v.items)) }
    ensures uses { let us = map usage_of sight.now.functions.now in
        let names = reverse (map entry_of sight.now.entries.now) in
        sight.now.parameters.now ≡ []
        → IfOk result (λ r. IfOk r (λ v. AreGrown
        (with_all_values us names sight.now.from (map bound_value_of group.now))
        (with_all_functions us names (map bound_value_of group.now)) work.old.uses
        work.new.uses)) }
{
    let mut bodies = Vec::with_capacity(alloc, group.len())?;
    for (index, binding) in group.iter().enumerate() {
        let Reading { judged, code } = read_code(alloc, sight, &binding.body, work)?;
        let own = binding_fault(judged.kind, recursive, &group[..index], binding);
        if let Some(fault) = or_else(own, judged.fault) {
            return Ok(Err(fault));
        }
        push_body(alloc, &mut bodies, &binding.name, code)?;
    }
    Ok(Ok(bodies))
}

/// The item of a group with those bodies, which uses that. Errors: want of memory.
pub fn group_item(
    alloc: Global,
    recursive: bool,
    bodies: Vec<Body>,
    uses: &Uses,
) -> Result<ResolvedItem, AllocError>
    ensures { (senses : List Sense) (us : List Usage) (names : List Naming) (from : ℕ)
        (bounds : List Bound) → AreBodies senses us names from [] bounds bodies.items
        → reverse uses.now.values.items ≡ with_all_values us names from bounds []
        → reverse uses.now.functions.items ≡ with_all_functions us names bounds []
        → IfOk result (IsGroup senses us names from recursive bounds) }
{
    let (inputs, functions) = copied_lists(alloc, &uses.values, &uses.functions)?;
    Ok(ResolvedItem {
        role: Role::Group { recursive, bodies },
        inputs,
        functions,
    })
}

/// The first fault of a check or a flag whose body is judged so.
fn check_fault(check: &Check, body: Judged) -> Option<ModelFault>
    ensures { result
        ≡ or_else (unless (takes_body check.now.word body.kind) ModelFault.Kind) body.fault }
{
    let here = unless(takes_body(check.word, body.kind), ModelFault::Kind);
    or_else(here, body.fault)
}

/// Reads a check or a flag, or finds its first fault. Errors: want of memory.
pub fn read_check(
    alloc: Global,
    sight: &Sight,
    check: &Check,
    flag: Option<Name>,
    work: &mut Workspace,
) -> Result<Result<ResolvedItem, ModelFault>, AllocError>
    ensures fault { let names = reverse (map entry_of sight.now.entries.now) in
        (senses : List Sense) → HaveSenses sight.now.functions.now senses
        → sight.now.parameters.now ≡ []
        → IfOk result (λ r. fault_of r
        ≡ or_else
        (unless
        (takes_body check.now.word (kind_in senses names (term_of check.now.body)))
        ModelFault.Kind)
        (term_fault senses names sight.now.from false (term_of check.now.body))) }
    ensures item { let us = map usage_of sight.now.functions.now in
        let names = reverse (map entry_of sight.now.entries.now) in
        (senses : List Sense) → HaveSenses sight.now.functions.now senses → AreSoundSenses senses
        → AreKnown names → sight.now.parameters.now ≡ []
        → IfOk result (λ r. IfOk r (λ x. IsCheck senses us names sight.now.from check.now.word
        (term_of check.now.body) x)) }
    ensures label { IfOk result (λ r. IfOk r (λ x. IsLabelled check.now.negated flag x.role)) }
{
    work.uses.clear();
    let Reading { judged, code } = read_code(alloc, sight, &check.body, work)?;
    if let Some(fault) = check_fault(check, judged) {
        return Ok(Err(fault));
    }
    let (inputs, functions) = copied_lists(alloc, &work.uses.values, &work.uses.functions)?;
    Ok(Ok(ResolvedItem {
        role: Role::Check(CheckCode {
            negated: check.negated,
            word: check.word,
            code,
            flag,
        }),
        inputs,
        functions,
    }))
}
