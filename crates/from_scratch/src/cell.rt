//! A test under a model, from scratch.

ghost use denote.Ref.{Bor};
ghost use Rattle.std.specs.Prelude.{◌≡◌, ◌<◌, ◌+◌, ◌∷◌, ◌++◌, ℕ, [], List, Vec, Some, None, IfOk, OnOk, length, option_map, reverse, slice_index_or, vec_len};
ghost use Rattle.text_values.specs.TestValue.{formula_of};
ghost use Rattle.litmus_printing.specs.Printing.{condition_text};
ghost use Rattle.candidate_spaces.specs.Space.{shown_in};
ghost use Rattle.cat_eval.specs.Wanted.{WantedColumnsOf};
ghost use Rattle.cat_eval.specs.Kept.{KeptAnswersOf};
ghost use Rattle.cat_eval.specs.Tables.{IsOver};
ghost use Rattle.cat_machine.specs.Values.{AnswersOf};
ghost use Rattle.verdict.specs.Evaluated.{IsEvaluatedAs};
ghost use Rattle.outcome_states.specs.Kept.{of_raised, AreKeptBy};
ghost use Rattle.from_scratch.specs.Answers.{AreSoundItems};
ghost use Rattle.from_scratch.specs.Known.{column_of, AreFound, IsAnswered, ColumnsAt, IsGroup, HasAllColumns, HasNoOtherColumns, of_flags, kept_of, flags_of, AreKeptAndFlagged};
ghost use Rattle.from_scratch.specs.Keeping.{IsGone, IsLeftOut, IsAnsweredBut};
ghost use Rattle.from_scratch.specs.Cell.{IsSaidFromSome, IsEvaluationBy};

use crate::keeping::{Keeping, LastUsers, last_users, let_go_behind};
use binding_graph::{CheckCode, Input, Resolved, ResolvedItem, Role, used};
use candidates::Space;
use cat_eval::{Column, Evaluator};
use litmus_printing::print_condition;
use std::alloc::{AllocError, Global};
use text_values::{Name, Test};
use verdict::{Outcome, OutcomeResult, Raised, Refusal, outcome_kept};

/// A flag: its name, and whether its check holds on each candidate.
pub struct FlagAnswer<'a> {
    /// The name after `as`.
    pub name: &'a Name,
    /// For each candidate, whether the check holds there.
    pub holds: Vec<bool>,
}

impl Drop for FlagAnswer<'_> {
    fn drop(self) {
        let FlagAnswer { name: _, holds: _ } = self;
    }
}

/// What is known of a model's items over the candidates.
#[derive(Drop)]
pub struct ItemAnswers<'a> {
    /// For each item, the values of its names; none where it is no group or is not used.
    pub columns: Vec<Vec<Column>>,
    /// For each candidate, whether all checks hold there.
    pub kept: Vec<bool>,
    /// The flags, in the order of the text.
    pub flags: Vec<FlagAnswer<'a>>,
}

// All candidates of a space, as kept.
fn all_kept(alloc: Global, space: &Space) -> Result<Vec<bool>, AllocError>
    ensures { IfOk result (λ v. AreKeptBy [] (length (shown_in space.now)) v.items) }
{
    vec![in alloc; true; space.len()]
}

fn no_answers<'a>(
    alloc: Global,
    items: usize,
    kept: Vec<bool>,
) -> Result<ItemAnswers<'a>, AllocError>
    ensures count { IfOk result (λ a. vec_len a.columns ≡ items) }
    ensures empty { IfOk result (λ a. (j : ℕ) → j < items → ColumnsAt a j (λ cs. cs ≡ [])) }
    ensures kept { IfOk result (λ a. kept_of a ≡ kept.items) }
    ensures flags { IfOk result (λ a. flags_of a ≡ []) }
{
    let mut columns = Vec::with_capacity(alloc, items)?;
    'items: for _at in 0..items {
        columns.push(Vec::new(alloc))?;
    }
    Ok(ItemAnswers {
        columns,
        kept,
        flags: Vec::new(alloc),
    })
}

// The value of a name of another item, where it is known.
fn column_of<'c>(columns: &'c [Vec<Column>], name: &Input) -> Option<&'c Column>
    ensures { option_map (λ c. c.now) result ≡ column_of columns.now name.now }
{
    match columns.get(name.item) {
        Some(names) => names.get(name.position),
        None => None,
    }
}

/// The values of the names of other items that the item uses, in its order, of those that are
/// known. Errors: want of memory.
pub fn inputs<'c>(
    alloc: Global,
    columns: &'c [Vec<Column>],
    item: &ResolvedItem,
) -> Result<Vec<&'c Column>, AllocError>
    ensures { IfOk result (λ v. AreFound columns.now item.now.inputs.items v.items) }
{
    let mut found = Vec::with_capacity(alloc, item.inputs.len())?;
    for input in &item.inputs {
        if let Some(column) = column_of(columns, input) {
            found.push(column)?;
        }
    }
    Ok(found)
}

// The values of a group's names that are wanted.
fn group_columns(
    alloc: Global,
    evaluator: &mut Evaluator,
    space: &Space,
    item: &ResolvedItem,
    wanted: &[bool],
    columns: &[Vec<Column>],
) -> Result<Vec<Column>, AllocError>
    requires { IsOver evaluator.old space.now }
    ensures over { IsOver evaluator.new space.now }
    ensures found { IfOk result (λ v. (inputs : List (Bor Column))
        × AreFound columns.now item.now.inputs.items inputs
        × WantedColumnsOf wanted.now item.now.role inputs space.now v.items) }
{
    let inputs = inputs(alloc, columns, item)?;
    evaluator.group_wanted(alloc, item, wanted, space, &inputs)
}

// Whether the check holds, for each candidate.
fn check_answers(
    alloc: Global,
    evaluator: &mut Evaluator,
    space: &Space,
    item: &ResolvedItem,
    columns: &[Vec<Column>],
) -> Result<Vec<bool>, AllocError>
    requires { IsOver evaluator.old space.now }
    ensures over { IsOver evaluator.new space.now }
    ensures found { IfOk result (λ v. (inputs : List (Bor Column))
        × AreFound columns.now item.now.inputs.items inputs
        × AnswersOf item.now.role inputs space.now v.items) }
{
    let inputs = inputs(alloc, columns, item)?;
    evaluator.check(alloc, item, space, &inputs)
}

// Whether a check holds, for each candidate, among those that are kept.
fn kept_answers(
    alloc: Global,
    evaluator: &mut Evaluator,
    space: &Space,
    item: &ResolvedItem,
    columns: &[Vec<Column>],
    kept: &[bool],
) -> Result<Vec<bool>, AllocError>
    requires { IsOver evaluator.old space.now }
    ensures over { IsOver evaluator.new space.now }
    ensures found { IfOk result (λ v. (inputs : List (Bor Column))
        × AreFound columns.now item.now.inputs.items inputs
        × KeptAnswersOf kept.now item.now.role inputs space.now v.items) }
{
    let inputs = inputs(alloc, columns, item)?;
    evaluator.check_kept(alloc, item, space, &inputs, kept)
}

// The answers of one flag more.
fn push_flag<'a>(
    flags: &mut Vec<FlagAnswer<'a>>,
    name: &'a Name,
    holds: Vec<bool>,
) -> Result<(), AllocError>
    ensures { OnOk result (of_flags flags.new.items
        ≡ of_flags flags.old.items ++ (name.now, holds.items) ∷ []) }
{
    flags.push(FlagAnswer { name, holds })?;
    Ok(())
}

fn answer_flag<'a>(
    alloc: Global,
    evaluator: &mut Evaluator,
    space: &Space,
    at: usize,
    item: &ResolvedItem,
    name: &'a Name,
    answers: &mut ItemAnswers<'a>,
) -> Result<(), AllocError>
    requires { IsOver evaluator.old space.now }
    ensures over { IsOver evaluator.new space.now }
    ensures answered { (check : CheckCode) → item.now.role ≡ Role.Check check
        → check.flag ≡ Some name.now
        → OnOk result (IsAnswered space.now at item.now answers.old answers.new) }
{
    let holds = check_answers(alloc, evaluator, space, item, &answers.columns)?;
    push_flag(&mut answers.flags, name, holds)
}

// A check looks only at the candidates that the checks before it keep.
fn answer_kept<'a>(
    alloc: Global,
    evaluator: &mut Evaluator,
    space: &Space,
    at: usize,
    item: &ResolvedItem,
    answers: &mut ItemAnswers<'a>,
) -> Result<(), AllocError>
    requires { IsOver evaluator.old space.now }
    ensures over { IsOver evaluator.new space.now }
    ensures answered { (check : CheckCode) → item.now.role ≡ Role.Check check → check.flag ≡ None
        → OnOk result (IsAnswered space.now at item.now answers.old answers.new) }
{
    answers.kept = kept_answers(
        alloc,
        evaluator,
        space,
        item,
        &answers.columns,
        &answers.kept,
    )?;
    Ok(())
}

fn answer_check<'a>(
    alloc: Global,
    evaluator: &mut Evaluator,
    space: &Space,
    at: usize,
    item: &ResolvedItem,
    check: &'a CheckCode,
    answers: &mut ItemAnswers<'a>,
) -> Result<(), AllocError>
    requires { IsOver evaluator.old space.now }
    ensures over { IsOver evaluator.new space.now }
    ensures answered { item.now.role ≡ Role.Check check.now
        → OnOk result (IsAnswered space.now at item.now answers.old answers.new) }
{
    match &check.flag {
        Some(name) => answer_flag(alloc, evaluator, space, at, item, name, answers),
        None => answer_kept(alloc, evaluator, space, at, item, answers),
    }
}

fn put_columns(columns: &mut Vec<Vec<Column>>, at: usize, found: Vec<Column>)
    ensures count { vec_len columns.new ≡ vec_len columns.old }
    ensures others { (j : ℕ) → (j ≡ at → ⊥) → (d : Vec Column Global)
        → slice_index_or columns.new.items j d ≡ slice_index_or columns.old.items j d }
    ensures here { at < vec_len columns.old → (d : Vec Column Global)
        → slice_index_or columns.new.items at d ≡ found }
{
    if at < columns.len() {
        columns[at] = found;
    }
}

// Of the names of a group those that are wanted get values.
fn answer_group(
    alloc: Global,
    evaluator: &mut Evaluator,
    space: &Space,
    at: usize,
    item: &ResolvedItem,
    wanted: &[bool],
    answers: &mut ItemAnswers,
) -> Result<(), AllocError>
    requires { IsOver evaluator.old space.now }
    ensures over { IsOver evaluator.new space.now }
    ensures answered { IsGroup item.now.role
        → OnOk result (IsAnsweredBut (IsLeftOut wanted.now at) space.now at item.now answers.old
        answers.new) }
{
    let found = group_columns(alloc, evaluator, space, item, wanted, &answers.columns)?;
    put_columns(&mut answers.columns, at, found);
    Ok(())
}

fn answer_item<'a>(
    alloc: Global,
    evaluator: &mut Evaluator,
    space: &Space,
    at: usize,
    item: &'a ResolvedItem,
    wanted: &[bool],
    answers: &mut ItemAnswers<'a>,
) -> Result<(), AllocError>
    requires { IsOver evaluator.old space.now }
    ensures over { IsOver evaluator.new space.now }
    ensures answered { OnOk result (IsAnsweredBut (IsLeftOut wanted.now at) space.now at item.now
        answers.old answers.new) }
{
    match &item.role {
        Role::Group { .. } => answer_group(alloc, evaluator, space, at, item, wanted, answers),
        Role::Check(check) => answer_check(alloc, evaluator, space, at, item, check, answers),
        Role::Silent => Ok(()),
    }
}

// Answers the item at that index, of whose names those get values that an item behind it uses, and
// lets columns go that none uses.
fn answer_next<'a>(
    alloc: Global,
    evaluator: &mut Evaluator,
    space: &Space,
    last: &LastUsers,
    at: usize,
    item: &'a ResolvedItem,
    wanted: &mut Vec<bool>,
    answers: &mut ItemAnswers<'a>,
) -> Result<(), AllocError>
    requires { IsOver evaluator.old space.now }
    ensures over { IsOver evaluator.new space.now }
    ensures answered { OnOk result (IsAnsweredBut (IsGone last.now (at + 1)) space.now at item.now
        answers.old answers.new) }
{
    last.list_wanted(at, item, wanted)?;
    let wanted = wanted.as_slice();
    answer_item(alloc, evaluator, space, at, item, wanted, answers)?;
    let_go_behind(alloc, last, at, &item.inputs, &mut answers.columns);
    Ok(())
}

/// The items that checks and flags reach, over all candidates. What is said asks that each item
/// uses names of earlier items alone, and that the bodies of recursive groups grow with their
/// names: what `binding_graph::resolve` ensures of a model without fault gives the first
/// (`resolved_ordered` of proofs/Ordered), and `evaluation_laws::items_are_coded` the second.
/// Errors: want of memory.
#[inline(never)]
pub fn answers<'a>(
    alloc: Global,
    space: &Space,
    resolved: &'a Resolved,
) -> Result<ItemAnswers<'a>, AllocError>
    ensures said { let items = resolved.now.items.items in
        AreSoundItems items
        → IfOk result (λ a. AreKeptAndFlagged space.now (reverse items) (kept_of a) (flags_of a)) }
    ensures long { IfOk result (λ a. length (kept_of a) ≡ length (shown_in space.now)) }
    ensures columns { let items = resolved.now.items.items in
        AreSoundItems items → IfOk result (HasAllColumns space.now items) }
    ensures count { IfOk result (λ a. vec_len a.columns ≡ length resolved.now.items.items) }
    ensures no_others { IfOk result (HasNoOtherColumns resolved.now.items.items) }
{
    let mut evaluator = Evaluator::new(alloc);
    answers_by(alloc, &mut evaluator, space, resolved, Keeping::All)
}

/// As `answers`, by an evaluator that has evaluated nothing, or items over this space. All columns
/// are there in the end where all are to be kept.
fn answers_by<'a>(
    alloc: Global,
    evaluator: &mut Evaluator,
    space: &Space,
    resolved: &'a Resolved,
    keeping: Keeping,
) -> Result<ItemAnswers<'a>, AllocError>
    requires { IsOver evaluator.old space.now }
    ensures over { IsOver evaluator.new space.now }
    ensures said { let items = resolved.now.items.items in
        AreSoundItems items
        → IfOk result (λ a. AreKeptAndFlagged space.now (reverse items) (kept_of a) (flags_of a)) }
    ensures long { IfOk result (λ a. length (kept_of a) ≡ length (shown_in space.now)) }
    ensures columns { let items = resolved.now.items.items in
        keeping ≡ Keeping.All → AreSoundItems items → IfOk result (HasAllColumns space.now items) }
    ensures count { IfOk result (λ a. vec_len a.columns ≡ length resolved.now.items.items) }
    ensures no_others { IfOk result (HasNoOtherColumns resolved.now.items.items) }
{
    let mut answers = no_answers(alloc, resolved.items.len(), all_kept(alloc, space)?)?;
    let indexes = used(alloc, resolved)?;
    let last = last_users(alloc, keeping, &resolved.items, &indexes)?;
    evaluator.prepare(alloc, space, &resolved.items, &indexes)?;
    let mut wanted = Vec::new(alloc);
    for at in &indexes {
        let item = &resolved.items[*at];
        answer_next(
            alloc,
            evaluator,
            space,
            &last,
            *at,
            item,
            &mut wanted,
            &mut answers,
        )?;
    }
    Ok(answers)
}

fn raised<'a>(alloc: Global, flags: &'a [FlagAnswer<'a>]) -> Result<Vec<Raised<'a>>, AllocError>
    ensures { IfOk result (λ v. of_raised v.items ≡ of_flags flags.now) }
{
    let mut raised = Vec::with_capacity(alloc, flags.len())?;
    for flag in flags {
        raised.push(Raised {
            name: flag.name,
            holds: &flag.holds,
        })?;
    }
    Ok(raised)
}

/// What the test says over the space, by an evaluator that has evaluated nothing yet, or items over
/// this space. Errors: want of memory.
pub fn evaluated(
    alloc: Global,
    evaluator: &mut Evaluator,
    test: &Test,
    resolved: &Resolved,
    space: &Space,
) -> Result<Outcome, AllocError>
    requires { IsOver evaluator.old space.now }
    ensures over { IsOver evaluator.new space.now }
    ensures said { IfOk result (λ o. IsSaidFromSome space.now test.now o) }
    ensures answers { AreSoundItems resolved.now.items.items
        → IfOk result (λ o. IsEvaluatedAs
        (IsEvaluationBy resolved.now.items.items space.now test.now) o.result) }
{
    let found = answers_by(alloc, evaluator, space, resolved, Keeping::WhileNeeded)?;
    let flags = raised(alloc, &found.flags)?;
    outcome_kept(
        alloc,
        space,
        &test.condition,
        &test.observed,
        &found.kept,
        &flags,
    )
}

/// The outcome of a test that is refused. Errors: want of memory.
pub fn refused(alloc: Global, test: &Test, refusal: Refusal) -> Result<Outcome, AllocError>
    ensures kind { IfOk result (λ o. o.kind ≡ test.now.condition.quantifier) }
    ensures text { IfOk result (λ o. o.condition
        ≡ condition_text test.now.condition.quantifier
        (formula_of test.now.condition.proposition)) }
    ensures refusal { IfOk result (λ o. o.result ≡ OutcomeResult.Refused refusal) }
{
    Ok(Outcome {
        kind: test.condition.quantifier,
        condition: print_condition(alloc, &test.condition)?,
        result: OutcomeResult::Refused(refusal),
    })
}
