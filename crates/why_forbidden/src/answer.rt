//! Which executions satisfy what a test asks for, and why a model forbids them.

ghost use Rattle.std.specs.Prelude.{◌≡◌, ◌++◌, ◌-◌, ◌^◌, ◌<◌, ◌≤◌, IfOk, OnOk};
ghost use Rattle.candidate_spaces.specs.Space.{candidate_count, IsShownAt};
ghost use Rattle.why_text.specs.Origins.{AreAllRuns};
ghost use Rattle.from_scratch.specs.Answers.{AreSoundItems};
ghost use Rattle.why_forbidden.specs.Checked.{IsFirstRefusal};
ghost use Rattle.why_forbidden.specs.Outcomes.{IsReasonFor};
ghost use Rattle.why_forbidden.specs.Told.{events_from, numbers_from};
ghost use Rattle.why_forbidden.specs.Views.{AreFoundOf, AreWithKept, AreWithReason, IsOutcomeAdded, IsOutcome, IsOutcomeIf, case_of, judgement_of, scene_of};
ghost use Rattle.why_forbidden.specs.Whys.{AddsTo, IsFoundText, IsSaid, IsSaidOver, IsWhy, head_text, refusal_text};

use crate::checks::{FirstRefusal, first_refusal};
use crate::evaluated::Evaluated;
use crate::telling::{Judged, Told, reason_told, told_events};
use binding_graph::{ResolveFault, Resolved, resolve};
use candidates::{Execution, Space, SpaceFault, space};
use litmus_printing::print_condition;
use ppc_semantics::Run;
use std::alloc::{AllocError, Global};
use text_values::{ModelText, Test, put_bytes, put_decimal};
use why_text::{
    Findings, Reason, ToldEvent, all_runs, instructions_of, is_satisfied, put_findings,
};

/// What is asked of `why`.
#[derive(Clone, Copy, Debug, PartialEq, Eq)]
pub struct Asked {
    /// Whether the reasons are told also where an execution is kept.
    pub is_forbidden: bool,
    /// Whether what carries a step is told one level deeper.
    pub is_deep: bool,
}

// What comes of a candidate.
#[derive(Drop)]
enum Outcome {
    // It does not satisfy the proposition.
    Other,
    // It is kept, and has these events.
    Kept(Vec<ToldEvent>),
    // It is forbidden.
    Forbidden(Reason),
}

fn numbers_from(alloc: Global, first: usize, end: usize) -> Result<Vec<usize>, AllocError>
    ensures { IfOk result (λ v. v.items ≡ numbers_from first (end - first)) }
{
    let mut numbers = Vec::new(alloc);
    for number in first..end {
        numbers.push(number)?;
    }
    Ok(numbers)
}

// The events of a candidate but for the initial stores, which are the first.
fn program_events(
    alloc: Global,
    initial_count: usize,
    told: Told<'_>,
) -> Result<Vec<ToldEvent>, AllocError>
    ensures { IfOk result (λ v. v.items ≡ events_from initial_count (scene_of told.entry)) }
{
    let numbers = numbers_from(alloc, initial_count, told.events.len())?;
    told_events(alloc, told, &numbers)
}

/// Why a candidate is forbidden. Errors: want of memory.
pub fn forbidden(
    alloc: Global,
    judged: Judged<'_>,
    is_deep: bool,
    told: Told<'_>,
    refusal: &FirstRefusal,
) -> Result<Reason, AllocError>
    requires { IsFirstRefusal judged.checks.now told.candidate refusal.now }
    ensures { IfOk result (IsReasonFor (judgement_of judged.entry is_deep) judged.entry.checks.now
        (scene_of told.entry) refusal.now) }
{
    let check = &judged.checks[refusal.index];
    reason_told(alloc, judged, is_deep, told, check, &refusal.witness)
}

// What comes of a candidate that satisfies the proposition.
fn judged_outcome(
    alloc: Global,
    test: &Test,
    space: &Space,
    judged: Judged<'_>,
    is_deep: bool,
    told: Told<'_>,
) -> Result<Outcome, AllocError>
    ensures { IfOk result (IsOutcomeIf (case_of test.now space.now judged.entry is_deep)
        (scene_of told.entry)) }
{
    match first_refusal(alloc, judged.checks, told.candidate)? {
        None => Ok(Outcome::Kept(program_events(alloc, space.locations.len(), told)?)),
        Some(refusal) => Ok(Outcome::Forbidden(forbidden(alloc, judged, is_deep, told, &refusal)?)),
    }
}

// What comes of a candidate, given as an execution.
fn execution_outcome(
    alloc: Global,
    test: &Test,
    space: &Space,
    judged: Judged<'_>,
    is_deep: bool,
    runs: &[Vec<Run>],
    candidate: usize,
    execution: &Execution,
) -> Result<Outcome, AllocError>
    requires shown { IsShownAt space.now candidate execution.now }
    requires runs { AreAllRuns test.now runs.now }
    ensures { IfOk result (IsOutcome (case_of test.now space.now judged.entry is_deep) candidate) }
{
    if !is_satisfied(&space.locations, &test.condition.proposition, execution) {
        return Ok(Outcome::Other);
    }
    let instructions = instructions_of(alloc, runs, execution)?;
    let told = Told {
        candidate,
        events: &execution.events,
        instructions: &instructions,
    };
    judged_outcome(alloc, test, space, judged, is_deep, told)
}

fn outcome_of(
    alloc: Global,
    test: &Test,
    space: &Space,
    judged: Judged<'_>,
    is_deep: bool,
    runs: &[Vec<Run>],
    candidate: usize,
) -> Result<Outcome, AllocError>
    requires within { candidate < candidate_count space.now }
    requires runs { AreAllRuns test.now runs.now }
    ensures { IfOk result (IsOutcome (case_of test.now space.now judged.entry is_deep) candidate) }
{
    match space.execution(alloc, candidate)? {
        None => Ok(Outcome::Other),
        Some(execution) => execution_outcome(
            alloc, test, space, judged, is_deep, runs, candidate, &execution,
        ),
    }
}

// The findings with one execution more that is kept.
fn add_kept(findings: &mut Findings, events: Vec<ToldEvent>)
    requires { findings.old.kept < 2 ^ 64 - 1 }
    ensures { AreWithKept events.items findings.old findings.new }
{
    if findings.kept == 0 {
        findings.shown = events;
    }
    findings.kept += 1;
}

// The findings with one reason more.
fn add_forbidden(findings: &mut Findings, reason: Reason) -> Result<(), AllocError>
    ensures { OnOk result (AreWithReason reason findings.old findings.new) }
{
    findings.reasons.push(reason)?;
    Ok(())
}

// The findings with one outcome more.
fn add_outcome(findings: &mut Findings, outcome: Outcome) -> Result<(), AllocError>
    requires { findings.old.kept < 2 ^ 64 - 1 }
    ensures { OnOk result (IsOutcomeAdded outcome findings.old findings.new) }
{
    match outcome {
        Outcome::Other => Ok(()),
        Outcome::Kept(events) => {
            add_kept(findings, events);
            Ok(())
        }
        Outcome::Forbidden(reason) => add_forbidden(findings, reason),
    }
}

fn findings_of(
    alloc: Global,
    test: &Test,
    space: &Space,
    judged: Judged<'_>,
    is_deep: bool,
) -> Result<Findings, AllocError>
    requires { candidate_count space.now ≤ 16384 }
    ensures { IfOk result (AreFoundOf (case_of test.now space.now judged.entry is_deep)
        (candidate_count space.now)) }
{
    let runs = all_runs(alloc, test)?;
    let mut findings = Findings {
        kept: 0,
        shown: Vec::new(alloc),
        reasons: Vec::new(alloc),
    };
    for candidate in 0..space.len() {
        let outcome = outcome_of(alloc, test, space, judged, is_deep, &runs, candidate)?;
        add_outcome(&mut findings, outcome)?;
    }
    Ok(findings)
}

// Appends what is found of the candidates of a space.
fn put_explained(
    alloc: Global,
    text: &mut Vec<u8>,
    asked: Asked,
    test: &Test,
    model: &ModelText,
    resolved: &Resolved,
    space: &Space,
) -> Result<(), AllocError>
    requires sound { AreSoundItems resolved.now.items.items }
    requires few { candidate_count space.now ≤ 16384 }
    ensures { OnOk result (AddsTo text.old.items text.new.items (IsFoundText asked test.now
        model.now resolved.now.items.items space.now)) }
{
    let evaluated = Evaluated::of(alloc, space, resolved)?;
    let judged = evaluated.as_judged(model, resolved);
    let findings = findings_of(alloc, test, space, judged, asked.is_deep)?;
    put_findings(alloc, text, asked.is_forbidden, &space.locations, &findings)
}

// The test and its condition.
fn put_head(alloc: Global, text: &mut Vec<u8>, test: &Test) -> Result<(), AllocError>
    ensures { OnOk result (text.new.items ≡ text.old.items ++ head_text test.now) }
{
    let condition = print_condition(alloc, &test.condition)?;
    put_bytes(text, b"Test ")?;
    put_bytes(text, test.name.as_bytes())?;
    put_bytes(text, b"\nCondition ")?;
    put_bytes(text, &condition)?;
    put_bytes(text, b"\n")
}

fn put_refused(text: &mut Vec<u8>, letter: &[u8], number: u8) -> Result<(), AllocError>
    ensures { OnOk result (text.new.items ≡ text.old.items ++ refusal_text letter.now number) }
{
    put_bytes(text, b"Refused ")?;
    put_bytes(text, letter)?;
    put_decimal(text, u64::from(number))?;
    put_bytes(text, b"\n")
}

// Appends what is found of a test under a model without a fault.
fn put_over_candidates(
    alloc: Global,
    text: &mut Vec<u8>,
    asked: Asked,
    test: &Test,
    model: &ModelText,
    resolved: &Resolved,
) -> Result<(), AllocError>
    requires { AreSoundItems resolved.now.items.items }
    ensures { OnOk result (AddsTo text.old.items text.new.items (IsSaidOver asked test.now model.now
        resolved.now.items.items)) }
{
    match space(alloc, test) {
        Ok(space) => put_explained(alloc, text, asked, test, model, resolved, &space),
        Err(SpaceFault::Refused(refusal)) => put_refused(text, b"E", refusal.number()),
        Err(SpaceFault::OutOfMemory(e)) => Err(e),
    }
}

// Appends what is found of a test under a model.
fn put_body(
    alloc: Global,
    text: &mut Vec<u8>,
    asked: Asked,
    test: &Test,
    model: &ModelText,
) -> Result<(), AllocError>
    ensures { OnOk result (AddsTo text.old.items text.new.items (IsSaid asked test.now model.now)) }
{
    match resolve(alloc, model) {
        Ok(resolved) => put_over_candidates(alloc, text, asked, test, model, &resolved),
        Err(ResolveFault::Refused(fault)) => put_refused(text, b"M", fault.number()),
        Err(ResolveFault::OutOfMemory(e)) => Err(e),
    }
}

/// Why a model forbids what the condition of a test asks for, and an execution that it keeps.
/// Errors: want of memory.
pub fn why(
    alloc: Global,
    asked: Asked,
    test: &Test,
    model: &ModelText,
) -> Result<Vec<u8>, AllocError>
    ensures { IfOk result (λ v. IsWhy asked test.now model.now v.items) }
{
    let mut text = Vec::new(alloc);
    put_head(alloc, &mut text, test)?;
    put_body(alloc, &mut text, asked, test, model)?;
    Ok(text)
}
