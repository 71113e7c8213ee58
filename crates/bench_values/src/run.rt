//! What a node gives.

ghost use Rattle.std.specs.Prelude.{◌≡◌, ◌∷◌, [], IfOk, map, option_map};
ghost use Rattle.text_values.specs.TestValue.{formula_of};
ghost use Rattle.ppc_lowering.specs.declared.fault.EvalRefusal.{EvalRefusal};
ghost use Rattle.outcome_states.specs.declared.answer.Outcome.{Outcome};
ghost use Rattle.outcome_states.specs.declared.answer.Refusal.TheVariants as refusals;
ghost use Rattle.outcome_states.specs.Kept.{of_raised};
ghost use Rattle.binding_shapes.specs.Shapes.{role_shape, role_with};
ghost use Rattle.bench_items.specs.Items.{role_content};
ghost use Rattle.bench_values.specs.Makes.{IsSpaceValue, column_kind, role_over, RoleMakes, HasGroupColumns, HasCheckAnswers, checks_among, flags_among, IsVerdictOutcome, IsVerdictOver, refused, Makes};
ghost use Rattle.bench_values.specs.Parts.{SpacePartsContent, HasParts};
ghost use Rattle.bench_values.specs.Spaces.{space_content, no_executions};
ghost use Rattle.bench_values.specs.Values.{column_value, first_space, space_of, refusal_of, columns_of, answers_of};
ghost use Rattle.bench_values.specs.Views.{given_content, space_parts, verdict_parts};

use crate::given::{Given, GivenParts, SpaceParts, VerdictParts};
use crate::value::NodeValue;
use binding_graph::{Kind, ResolvedItem, Role};
use binding_shapes::role_with_kinds;
use candidates::{EvalRefusal, Space, SpaceFault, space};
use cat_eval::{Column, eval_check, eval_group};
use litmus_printing::print_condition;
use std::alloc::{AllocError, Global};
use text_copies::{copied_entries, copied_threads};
use text_values::{Condition, Name, Place, Proposition, Quantifier, Test};
use verdict::{Outcome, OutcomeResult, Raised, Refusal, outcome};

// A space without candidates.
fn no_space(alloc: Global) -> Space
    ensures { space_content result ≡ no_executions }
{
    Space {
        locations: Vec::new(alloc),
        registers: Vec::new(alloc),
        combinations: Vec::new(alloc),
    }
}

// The space among the values of inputs.
fn first_space<'v>(values: &[&'v NodeValue]) -> Option<&'v Space>
    ensures { option_map (λ s. space_content s.now) result
        ≡ first_space (map (λ v. v.now) values.now) }
{
    match values.first() {
        Some(value) => value.space(),
        None => None,
    }
}

fn refusal_of(values: &[&NodeValue]) -> Option<EvalRefusal>
    ensures { result ≡ refusal_of (map (λ v. v.now) values.now) }
{
    match values.first() {
        Some(value) => value.refusal(),
        None => None,
    }
}

fn columns_of<'v>(alloc: Global, values: &[&'v NodeValue]) -> Result<Vec<&'v Column>, AllocError>
    ensures { IfOk result (λ v. map (λ c. c.now) v.items
        ≡ columns_of (map (λ v. v.now) values.now)) }
{
    let mut columns = Vec::with_capacity(alloc, values.len())?;
    for value in values {
        if let Some(column) = value.column() {
            columns.push(column)?;
        }
    }
    Ok(columns)
}

fn answers_of<'v>(alloc: Global, values: &[&'v NodeValue]) -> Result<Vec<&'v [bool]>, AllocError>
    ensures { IfOk result (λ v. map (λ a. a.now) v.items
        ≡ answers_of (map (λ v. v.now) values.now)) }
{
    let mut found = Vec::with_capacity(alloc, values.len())?;
    for value in values {
        if let Some(answers) = value.check() {
            found.push(answers)?;
        }
    }
    Ok(found)
}

// The answers of the checks.
fn checks_among<'a>(
    alloc: Global,
    flags: &[Option<Name>],
    answers: &[&'a [bool]],
) -> Result<Vec<&'a [bool]>, AllocError>
    ensures { IfOk result (λ v. map (λ a. a.now) v.items
        ≡ checks_among flags.now (map (λ a. a.now) answers.now)) }
{
    let mut checks = Vec::with_capacity(alloc, answers.len())?;
    for at in 0..flags.len().min(answers.len()) {
        match &flags[at] {
            Some(_) => {}
            None => checks.push(answers[at])?,
        }
    }
    Ok(checks)
}

// The answers of the flags, each with its name.
fn flags_among<'a>(
    alloc: Global,
    flags: &'a [Option<Name>],
    answers: &[&'a [bool]],
) -> Result<Vec<Raised<'a>>, AllocError>
    ensures { IfOk result (λ v. of_raised v.items
        ≡ flags_among flags.now (map (λ a. a.now) answers.now)) }
{
    let mut raised = Vec::with_capacity(alloc, flags.len())?;
    for at in 0..flags.len().min(answers.len()) {
        match &flags[at] {
            Some(name) => raised.push(Raised {
                name,
                holds: answers[at],
            })?,
            None => {}
        }
    }
    Ok(raised)
}

fn places_of(alloc: Global, names: &[Name]) -> Result<Vec<Place>, AllocError>
    ensures { IfOk result (λ v. v.items ≡ map Place.Location names.now) }
{
    let mut places = Vec::with_capacity(alloc, names.len())?;
    for name in names {
        places.push(Place::Location(name.copied(alloc)?))?;
    }
    Ok(places)
}

// A test of these parts, and of nothing more.
fn part_test(alloc: Global, parts: &SpaceParts) -> Result<Test, AllocError>
    ensures { IfOk result (HasParts (space_parts parts.now)) }
{
    Ok(Test {
        name: Name::new(alloc, b"")?,
        init: copied_entries(alloc, &parts.init)?,
        threads: copied_threads(alloc, &parts.threads)?,
        observed: places_of(alloc, &parts.locations)?,
        condition: Condition {
            quantifier: Quantifier::Exists,
            proposition: Proposition::Constant(true),
        },
    })
}

// The space of a test, or why it has none.
fn test_space(alloc: Global, test: &Test) -> Result<NodeValue, AllocError>
    ensures { (parts : SpacePartsContent) → HasParts parts test.now
        → IfOk result (IsSpaceValue parts) }
{
    match space(alloc, test) {
        Ok(found) => Ok(NodeValue::of_space(found)),
        Err(SpaceFault::Refused(refusal)) => Ok(NodeValue::of_refusal(refusal)),
        Err(SpaceFault::OutOfMemory(fault)) => Err(fault),
    }
}

fn space_value(alloc: Global, parts: &SpaceParts) -> Result<NodeValue, AllocError>
    ensures { IfOk result (λ v. IsSpaceValue (space_parts parts.now) v) }
{
    let test = part_test(alloc, parts)?;
    test_space(alloc, &test)
}

fn one_value(alloc: Global, value: NodeValue) -> Result<Vec<NodeValue>, AllocError>
    ensures { IfOk result (λ v. v.items ≡ value ∷ []) }
{
    let mut values = Vec::with_capacity(alloc, 1)?;
    values.push(value)?;
    Ok(values)
}

fn column_values(alloc: Global, columns: Vec<Column>) -> Result<Vec<NodeValue>, AllocError>
    ensures { IfOk result (λ v. v.items ≡ map column_value columns.items) }
{
    let mut values = Vec::with_capacity(alloc, columns.len())?;
    for column in columns {
        values.push(NodeValue::of_column(alloc, column))?;
    }
    Ok(values)
}

fn column_kind(column: &Column) -> Kind
    ensures { result ≡ column_kind column.now }
{
    match column {
        Column::Sets(_) => Kind::OfSet,
        Column::Relations(_) => Kind::OfRelation,
    }
}

fn column_kinds(alloc: Global, columns: &[&Column]) -> Result<Vec<Kind>, AllocError>
    ensures { IfOk result (λ v. v.items ≡ map column_kind (map (λ c. c.now) columns.now)) }
{
    let mut kinds = Vec::with_capacity(alloc, columns.len())?;
    for column in columns {
        kinds.push(column_kind(column))?;
    }
    Ok(kinds)
}

// What an item does, where the names that it uses have these columns.
fn role_over(alloc: Global, role: &Role, columns: &[&Column]) -> Result<Role, AllocError>
    ensures { let kinds = map column_kind (map (λ c. c.now) columns.now) in
        IfOk result (λ r. role_content r ≡ role_with kinds (role_content role.now)) }
{
    let kinds = column_kinds(alloc, columns)?;
    role_with_kinds(alloc, role, &kinds)
}

// An item that does this.
#[tactic(auto, using(crate::proofs::Making::role_made))]
fn item_over(alloc: Global, role: &Role, columns: &[&Column]) -> Result<ResolvedItem, AllocError>
    ensures { IfOk result (λ r. role_content r.role
        ≡ role_over (role_shape (role_content role.now)) (map (λ c. c.now) columns.now)) }
{
    Ok(ResolvedItem {
        role: role_over(alloc, role, columns)?,
        inputs: Vec::new(alloc),
        functions: Vec::new(alloc),
    })
}

fn group_columns<'v>(
    alloc: Global,
    role: &'v Role,
    values: &[&'v NodeValue],
    space: &Space,
) -> Result<Vec<Column>, AllocError>
    ensures { let given = map (λ v. v.now) values.now in
        space_content space.now ≡ space_of given
        → IfOk result (λ v. HasGroupColumns (role_shape (role_content role.now)) (space_of given)
        (columns_of given) v.items) }
{
    let inputs = columns_of(alloc, values)?;
    let item = item_over(alloc, role, &inputs)?;
    eval_group(alloc, &item, space, &inputs)
}

fn check_answers<'v>(
    alloc: Global,
    role: &'v Role,
    values: &[&'v NodeValue],
    space: &Space,
) -> Result<Vec<bool>, AllocError>
    ensures { let given = map (λ v. v.now) values.now in
        space_content space.now ≡ space_of given
        → IfOk result (λ v. HasCheckAnswers (role_shape (role_content role.now)) (space_of given)
        (columns_of given) v.items) }
{
    let inputs = columns_of(alloc, values)?;
    let item = item_over(alloc, role, &inputs)?;
    eval_check(alloc, &item, space, &inputs)
}

fn item_values<'v>(
    alloc: Global,
    role: &'v Role,
    values: &[&'v NodeValue],
    space: &Space,
) -> Result<Vec<NodeValue>, AllocError>
    ensures { let given = map (λ v. v.now) values.now in
        space_content space.now ≡ space_of given
        → IfOk result (λ v.
        RoleMakes (role_shape (role_content role.now)) (space_of given) (columns_of given)
        v.items) }
{
    match role {
        Role::Group { .. } => {
            let columns = group_columns(alloc, role, values, space)?;
            column_values(alloc, columns)
        }
        Role::Check(_) => {
            let answers = check_answers(alloc, role, values, space)?;
            one_value(alloc, NodeValue::of_check(answers))
        }
        Role::Silent => Ok(Vec::new(alloc)),
    }
}

fn evaluated<'v>(
    alloc: Global,
    parts: &'v VerdictParts,
    values: &[&'v NodeValue],
    space: &Space,
) -> Result<Outcome, AllocError>
    ensures { let given = map (λ v. v.now) values.now in
        space_content space.now ≡ space_of given
        → IfOk result (λ o.
        IsVerdictOutcome (verdict_parts parts.now) (space_of given) (answers_of given) o) }
{
    let answers = answers_of(alloc, values)?;
    let checks = checks_among(alloc, &parts.flags, &answers)?;
    let flags = flags_among(alloc, &parts.flags, &answers)?;
    outcome(
        alloc,
        space,
        &parts.condition,
        &parts.observed,
        &checks,
        &flags,
    )
}

fn refused(alloc: Global, condition: &Condition, refusal: Refusal) -> Result<Outcome, AllocError>
    ensures { IfOk result (λ o. o
        ≡ refused condition.now.quantifier (formula_of condition.now.proposition) refusal) }
{
    Ok(Outcome {
        kind: condition.quantifier,
        condition: print_condition(alloc, condition)?,
        result: OutcomeResult::Refused(refusal),
    })
}

fn verdict_over<'v>(
    alloc: Global,
    parts: &'v VerdictParts,
    values: &[&'v NodeValue],
    space: &Space,
) -> Result<Outcome, AllocError>
    ensures { let given = map (λ v. v.now) values.now in
        space_content space.now ≡ space_of given
        → IfOk result (λ o. IsVerdictOver (refusal_of given) (verdict_parts parts.now) given o) }
{
    match refusal_of(values) {
        Some(refusal) => refused(alloc, &parts.condition, Refusal::Space(refusal)),
        None => evaluated(alloc, parts, values, space),
    }
}

// What a node gives over a space.
fn made_over<'v>(
    alloc: Global,
    parts: &'v GivenParts,
    values: &[&'v NodeValue],
    space: &Space,
) -> Result<Vec<NodeValue>, AllocError>
    ensures { let given = map (λ v. v.now) values.now in
        space_content space.now ≡ space_of given
        → IfOk result (λ v. Makes (given_content parts.now) given v.items) }
{
    match parts {
        GivenParts::Space(parts) => one_value(alloc, space_value(alloc, parts)?),
        GivenParts::Item(item) => item_values(alloc, &item.item().role, values, space),
        GivenParts::Verdict(parts) => {
            let outcome = verdict_over(alloc, parts, values, space)?;
            one_value(alloc, NodeValue::of_outcome(outcome))
        }
        GivenParts::Fault(parts) => {
            let outcome = refused(alloc, &parts.condition, Refusal::Model(parts.fault))?;
            one_value(alloc, NodeValue::of_outcome(outcome))
        }
    }
}

// What a node gives: over no candidates where none of the values is a space.
fn made<'v>(
    alloc: Global,
    parts: &'v GivenParts,
    values: &[&'v NodeValue],
) -> Result<Vec<NodeValue>, AllocError>
    ensures { IfOk result (λ v.
        Makes (given_content parts.now) (map (λ v. v.now) values.now) v.items) }
{
    match first_space(values) {
        Some(space) => made_over(alloc, parts, values, space),
        None => made_over(alloc, parts, values, &no_space(alloc)),
    }
}

/// What a node gives, from what it is given of the texts and from the values of the nodes that it
/// uses, the space first and then in the order of its inputs. Over a test without a space, columns
/// and answers are those over no candidates, and the outcome says why there is no space. Errors:
/// out of memory.
pub fn run_node<'v>(
    alloc: Global,
    given: &'v Given,
    values: &[&'v NodeValue],
) -> Result<Vec<NodeValue>, AllocError>
    ensures { IfOk result (λ v. Makes given.now (map (λ v. v.now) values.now) v.items) }
{
    made(alloc, &given.parts, values)
}
