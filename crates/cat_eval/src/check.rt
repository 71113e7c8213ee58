//! Whether a check holds.

ghost use Rattle.std.specs.Prelude.{◌≡◌, ◌⊎◌, ◌&&◌, List, Bool, false, Some, None, length, unwrap_or, IsTrue, IfOk};
ghost use Rattle.candidate_spaces.specs.Space.{candidates_in};
ghost use Rattle.cat_eval.specs.Kept.{is_asked_at, AreWhere, KeptAnswersOf, AreAskedOver, IsLastAnswer};
ghost use Rattle.cat_eval.specs.OverNames.{IsAnswerOver};
ghost use Rattle.cat_machine.specs.Values.{AnswersOf, AreAnswers};
ghost use Rattle.cat_machine.specs.Seen.{seen_in};
ghost use Rattle.cat_eval.specs.Tables.{IsOver};
ghost use Rattle.cat_machine.specs.Steady.{IsSteady};

use crate::asked_run::AskedRun;
use crate::evaluator::Evaluator;
use crate::keeper::Keeper;
use crate::runs::{has_many, visit_runs};
use crate::steady::{is_as_before, steady_after};
use crate::visit::{Visit, visit_all};
use binding_graph::{CheckCode, ResolvedItem, Role};
use bit_relations::Rel;
use candidates::Space;
use cat_machine::{Column, Machine, NamedColumn, Names, Seen};
use std::alloc::{AllocError, Global};
use std::mem;

/// A check on its way through the candidates.
#[derive(Drop)]
struct CheckRun<'a> {
    check: &'a CheckCode,
    inputs: &'a [&'a Column],
    /// Whether each candidate is kept. Without a list all are.
    kept: Option<&'a [bool]>,
    answers: Vec<bool>,
    /// The answer in the last candidate, where it is known.
    known: Option<bool>,
    /// Up to where the candidates have the inputs of the last one.
    steady: usize,
}

/// Whether the check is asked of a candidate: of those that are kept.
pub(crate) fn is_asked_at(kept: Option<&[bool]>, candidate: usize) -> bool
    ensures { result ≡ is_asked_at kept.entry candidate }
{
    match kept {
        Some(kept) => kept.get(candidate).copied().unwrap_or(false),
        None => true,
    }
}

/// Whether the check holds, where it is asked.
pub(crate) fn is_held(asked: bool, known: Option<bool>) -> bool
    ensures { result ≡ (asked && unwrap_or known false) }
{
    asked && known.unwrap_or(false)
}

impl CheckRun<'_> {
    /// Whether the check holds in a candidate, evaluated.
    fn evaluated(
        &self,
        machine: &mut Machine,
        base: &Seen,
        candidate: usize,
    ) -> Result<bool, AllocError>
        ensures { IfOk result (IsAnswerOver self.now.check.now self.now.inputs.now base.now
            candidate self.now.check.now.code.kind) }
    {
        let names = Names {
            base,
            inputs: self.inputs,
            own: &[],
            candidate,
        };
        machine.run(&self.check.code.steps, &names)?;
        let met = machine.is_as_asked(self.check.code.kind, self.check.word, base.count());
        Ok(met != self.check.negated)
    }

    /// Whether the check holds in a candidate, where it is known, as in one that is asked or is the
    /// same as the last one.
    fn known_in(
        &self,
        machine: &mut Machine,
        base: &Seen,
        candidate: usize,
        same: bool,
        asked: bool,
    ) -> Result<Option<bool>, AllocError>
        ensures asked { IsTrue asked → IfOk result (λ known. known ≡ None → ⊥) }
        ensures right { IfOk result (λ known. (answer : Bool) → known ≡ Some answer
            → (IsTrue same × (self.now.known ≡ Some answer))
            ⊎ IsAnswerOver self.now.check.now self.now.inputs.now base.now candidate
            self.now.check.now.code.kind answer) }
    {
        if same && self.known.is_some() {
            return Ok(self.known);
        }
        if asked {
            return Ok(Some(self.evaluated(machine, base, candidate)?));
        }
        Ok(None)
    }
}

impl Visit for CheckRun<'_> {
    ghost has_taken = { λ first bases run. (run.check ≡ first.check) × (run.inputs ≡ first.inputs)
        × (run.kept ≡ first.kept)
        × AreAskedOver first.check.now first.inputs.now first.kept bases run.answers.items
        × IsLastAnswer first.check.now first.inputs.now bases run.known
        × IsSteady first.inputs.now (length run.answers.items) run.steady };

    fn visit(
        &mut self,
        machine: &mut Machine,
        base: &Seen,
        candidate: usize,
        again: bool,
    ) -> Result<(), AllocError> {
        let same = is_as_before(again, candidate, self.steady);
        let asked = is_asked_at(self.kept, candidate);
        self.known = self.known_in(machine, base, candidate, same, asked)?;
        self.steady = steady_after(self.inputs, self.steady, candidate);
        self.answers.push(is_held(asked, self.known))?;
        Ok(())
    }
}

/// Whether a check holds, where candidates are kept.
#[inline(never)]
fn asked_answers<'a>(
    alloc: Global,
    check: &'a CheckCode,
    inputs: &'a [&'a Column],
    kept: Option<&'a [bool]>,
    named: &[NamedColumn],
    space: &Space,
    slots: &mut Vec<Rel>,
) -> Result<Vec<bool>, AllocError>
    ensures { IfOk result (λ v. AreAskedOver check.now inputs.now kept.entry
        (seen_in named.now 0 (candidates_in space.now.combinations.items)) v.items) }
{
    let relations = mem::replace(slots, Vec::new(alloc));
    let keeper = Keeper::of(alloc, &check.code.steps, relations)?;
    let mut run = AskedRun {
        check,
        inputs,
        kept,
        keeper,
        answers: Vec::with_capacity(alloc, space.len())?,
        known: None,
        until: 0,
    };
    visit_runs(named, space, &mut run)?;
    let answers = run.answers;
    let keeper = run.keeper;
    *slots = keeper.relations;
    Ok(answers)
}

/// The answers of a check that is evaluated in each candidate by itself.
#[inline(never)]
fn visited_answers<'a>(
    alloc: Global,
    check: &'a CheckCode,
    inputs: &'a [&'a Column],
    kept: Option<&'a [bool]>,
    named: &[NamedColumn],
    space: &Space,
    machine: &mut Machine,
) -> Result<Vec<bool>, AllocError>
    ensures { IfOk result (λ v. AreAskedOver check.now inputs.now kept.entry
        (seen_in named.now 0 (candidates_in space.now.combinations.items)) v.items) }
{
    let mut run = CheckRun {
        check,
        inputs,
        kept,
        answers: Vec::with_capacity(alloc, space.len())?,
        known: None,
        steady: 0,
    };
    visit_all(named, space, machine, &mut run)?;
    Ok(run.answers)
}

/// Whether a check holds, where candidates are kept, with the columns of the predefined names that
/// it uses.
fn answers_over<'a>(
    alloc: Global,
    check: &'a CheckCode,
    inputs: &'a [&'a Column],
    kept: Option<&'a [bool]>,
    named: &[NamedColumn],
    space: &Space,
    machine: &mut Machine,
    slots: &mut Vec<Rel>,
) -> Result<Vec<bool>, AllocError>
    ensures { IfOk result (λ v. AreAskedOver check.now inputs.now kept.entry
        (seen_in named.now 0 (candidates_in space.now.combinations.items)) v.items) }
{
    if has_many(space) {
        asked_answers(alloc, check, inputs, kept, named, space, slots)
    } else {
        visited_answers(alloc, check, inputs, kept, named, space, machine)
    }
}

/// Whether a check or flag holds, for each candidate of a space. `inputs` are the values of the
/// item's inputs, in their order. An item of another kind has no answers. Errors: want of memory.
#[inline(never)]
pub fn eval_check(
    alloc: Global,
    item: &ResolvedItem,
    space: &Space,
    inputs: &[&Column],
) -> Result<Vec<bool>, AllocError>
    ensures { IfOk result (λ v. AnswersOf item.now.role inputs.now space.now v.items) }
{
    let mut evaluator = Evaluator::new(alloc);
    evaluator.check(alloc, item, space, inputs)
}

impl Evaluator {
    /// As `eval_check`, over the space of the evaluator.
    pub fn check(
        &mut self,
        alloc: Global,
        item: &ResolvedItem,
        space: &Space,
        inputs: &[&Column],
    ) -> Result<Vec<bool>, AllocError>
        requires { IsOver self.old space.now }
        ensures over { IsOver self.new space.now }
        ensures answers { IfOk result (λ v. AnswersOf item.now.role inputs.now space.now v.items) }
    {
        match &item.role {
            Role::Check(check) => self.ask(alloc, item, check, space, inputs, None),
            Role::Group { .. } | Role::Silent => Ok(Vec::new(alloc)),
        }
    }

    /// As `check`, in the candidates that are kept: of the others it says that the check does not
    /// hold.
    pub fn check_kept(
        &mut self,
        alloc: Global,
        item: &ResolvedItem,
        space: &Space,
        inputs: &[&Column],
        kept: &[bool],
    ) -> Result<Vec<bool>, AllocError>
        requires { IsOver self.old space.now }
        ensures over { IsOver self.new space.now }
        ensures answers { IfOk result (λ v.
            KeptAnswersOf kept.now item.now.role inputs.now space.now v.items) }
    {
        match &item.role {
            Role::Check(check) => self.ask(alloc, item, check, space, inputs, Some(kept)),
            Role::Group { .. } | Role::Silent => Ok(Vec::new(alloc)),
        }
    }

    /// Whether a check holds, where candidates are kept.
    fn ask<'a>(
        &mut self,
        alloc: Global,
        item: &ResolvedItem,
        check: &'a CheckCode,
        space: &Space,
        inputs: &'a [&'a Column],
        kept: Option<&'a [bool]>,
    ) -> Result<Vec<bool>, AllocError>
        requires { IsOver self.old space.now }
        ensures over { IsOver self.new space.now }
        ensures answers { item.now.role ≡ Role.Check check.now
            → IfOk result (λ v. (all : List Bool)
            × AreAnswers check.now inputs.now (candidates_in space.now.combinations.items)
            all × AreWhere (is_asked_at kept.entry) all v.items) }
    {
        self.need_names(alloc, item, space)?;
        let none = Column::of_sets(alloc);
        let mut named = NamedColumn::none(alloc, &none);
        self.table.list(&self.needs.names, &mut named)?;
        let machine = &mut self.machine;
        let slots = &mut self.slots;
        answers_over(
            alloc,
            check,
            inputs,
            kept,
            named.as_slice(),
            space,
            machine,
            slots,
        )
    }
}
