//! Executions of a test as drawings.

ghost use Rattle.std.specs.Prelude.{◌≡◌, ◌<◌, ◌^◌, IfOk, false, length};
ghost use Rattle.std.specs.List.{All};
ghost use Rattle.candidates.specs.Listed.{ListsExecutions};
ghost use Rattle.candidate_spaces.specs.Space.{IsShownAt, candidate_count};
ghost use Rattle.why_text.specs.Origins.{AreAllRuns};
ghost use Rattle.from_scratch.specs.FromScratch.{AreItemsOf, IsFaultless};
ghost use Rattle.why_forbidden.specs.Drawable.{AddsDrawing, AreEdgesAt, AreReady, HasCount, IsGraphAt, subject_of};
ghost use Rattle.bit_rows.specs.Relation.{IsMember};
ghost use Rattle.why_forbidden.specs.Drawings.{AreDrawingsOf, AreDrawn, AreSteps, IsCheckText, IsDrawn, IsFate, step_ends};
ghost use Rattle.why_forbidden.specs.Drawings.{IsFirstRefusalIfAny, comment_end, comment_front, refused_comment, title_text};
ghost use Rattle.why_forbidden.specs.Drawings as drawings;
ghost use Rattle.why_forbidden.specs.Views.{judgement_of, scene_of};

use crate::answer::forbidden;
use crate::boxes::{boxes, clusters};
use crate::checks::{FirstRefusal, first_refusal};
use crate::evaluated::Evaluated;
use crate::lines::{DrawnRelation, all_lines, drawn_relations, shown_lines};
use crate::telling::{Judged, Told};
use binding_graph::{ResolveFault, Resolved, resolve};
use bit_relations::EventSet;
use candidates::{Execution, Space, SpaceFault, space};
use cat_printing::print_item;
use draw_graph::{Drawing, Edges, drawn_events};
use draw_relations::{ShownValues, shown_values};
use draw_scene::{Format, put_unless_skipped};
use ppc_semantics::Run;
use std::alloc::{AllocError, Global};
use text_values::{ModelText, Test, put_bytes, put_decimal};
use why_text::{Telling, ToldStep, all_runs, instructions_of, is_satisfied};

/// Which executions are drawn.
#[derive(Clone, Copy)]
pub enum Wanted {
    /// Those that the model keeps and that have what the test asks for.
    Shown,
    /// Those that the model forbids and that have what the test asks for.
    Forbidden,
    /// All, kept or forbidden.
    All,
}

/// What is asked of `draw`.
#[derive(Clone, Copy)]
pub struct DrawRequest {
    /// Which executions are drawn.
    pub wanted: Wanted,
    /// How many of these are passed over.
    pub skipped: u64,
    /// How many there are at most, with those that are passed over.
    pub most: u64,
    /// As what they are written.
    pub format: Format,
}

// Whether an execution is asked for that has what the test asks for, or not, and that the model
// keeps, or not.
fn is_wanted(wanted: Wanted, satisfied: bool, kept: bool) -> bool
    ensures { result ≡ drawings.is_execution_wanted wanted satisfied kept }
{
    match wanted {
        Wanted::Shown => satisfied && kept,
        Wanted::Forbidden => satisfied && !kept,
        Wanted::All => true,
    }
}

// A test under a model over its candidates.
#[derive(Clone, Copy)]
struct Scene<'a> {
    test: &'a Test,
    space: &'a Space,
    judged: Judged<'a>,
    relations: &'a [DrawnRelation],
    runs: &'a [Vec<Run>],
    shown: &'a [ShownValues],
}

#[tactic(auto, unfolding(crate::specs::Drawings::title_text))]
fn title_of(
    alloc: Global,
    name: &[u8],
    candidate: usize,
    fate: &[u8],
) -> Result<Vec<u8>, AllocError>
    ensures { IfOk result (λ v. v.items ≡ title_text name.now candidate fate.now) }
{
    let mut title = Vec::new(alloc);
    put_bytes(&mut title, name)?;
    put_bytes(&mut title, b", execution ")?;
    put_decimal(&mut title, candidate as u64)?;
    put_bytes(&mut title, fate)?;
    Ok(title)
}

// The check that refuses, as it is printed.
fn check_text(
    alloc: Global,
    judged: Judged<'_>,
    refusal: &FirstRefusal,
) -> Result<Vec<u8>, AllocError>
    requires within { refusal.now.index < length judged.checks.now }
    requires named { All (λ c. c.item < length judged.text.now) judged.checks.now }
    ensures { IfOk result (λ v.
        IsCheckText judged.entry.checks.now judged.entry.text.now refusal.now v.items) }
{
    let check = &judged.checks[refusal.index];
    print_item(alloc, &judged.text[check.item])
}

// What comes of an execution.
fn fate_of(
    alloc: Global,
    judged: Judged<'_>,
    candidate: usize,
    found: &Option<FirstRefusal>,
) -> Result<Vec<u8>, AllocError>
    requires judged { IsFirstRefusalIfAny judged.checks.now candidate found.now }
    requires named { All (λ c. c.item < length judged.text.now) judged.checks.now }
    ensures { IfOk result (λ v.
        IsFate judged.entry.checks.now judged.entry.text.now found.now v.items) }
{
    match found {
        None => Vec::from_slice(alloc, b": kept"),
        Some(refusal) => {
            let check = check_text(alloc, judged, refusal)?;
            let mut fate = Vec::from_slice(alloc, b": forbidden by ")?;
            put_bytes(&mut fate, &check)?;
            Ok(fate)
        }
    }
}

// The steps of the reason why the execution is forbidden, if it is, and where they begin.
fn steps_of(
    alloc: Global,
    judged: Judged<'_>,
    told: Told<'_>,
    found: &Option<FirstRefusal>,
) -> Result<(Option<usize>, Vec<ToldStep>), AllocError>
    requires { IsFirstRefusalIfAny judged.checks.now told.candidate found.now }
    ensures { IfOk result (λ r. AreSteps (judgement_of judged.entry false) judged.entry.checks.now
        (scene_of told.entry) found.now r.0 r.1.items) }
{
    match found {
        None => Ok((None, Vec::new(alloc))),
        Some(refusal) => {
            let reason = forbidden(alloc, judged, false, told, refusal)?;
            Ok((reason.first, reason.steps))
        }
    }
}

// The events at which the steps of a reason begin and end.
fn step_ends(
    alloc: Global,
    first: Option<usize>,
    steps: &[ToldStep],
) -> Result<Vec<usize>, AllocError>
    ensures { IfOk result (λ v. v.items ≡ step_ends first steps.now) }
{
    let mut ends = Vec::new(alloc);
    let Some(first) = first else {
        return Ok(ends);
    };
    ends.push(first)?;
    for step in steps {
        ends.push(step.to)?;
    }
    Ok(ends)
}

// The edges of an execution between the events that are drawn.
fn edges_of(
    alloc: Global,
    scene: Scene<'_>,
    candidate: usize,
    drawn: &EventSet,
) -> Result<Vec<Edges>, AllocError>
    requires ready { AreReady (subject_of scene) scene.relations.now }
    requires count { HasCount scene.space.now candidate drawn.now.count }
    ensures { IfOk result (λ v.
        AreEdgesAt (subject_of scene.entry) candidate (IsMember drawn.now) v.items) }
{
    let mut lines = all_lines(alloc, scene.space, scene.relations, candidate, drawn)?;
    let mut shown = shown_lines(alloc, scene.space, scene.shown, candidate, drawn)?;
    lines.append(&mut shown)?;
    Ok(lines)
}

// The graph of an execution.
fn drawing_of(
    alloc: Global,
    scene: Scene<'_>,
    candidate: usize,
    execution: &Execution,
    found: &Option<FirstRefusal>,
) -> Result<Drawing, AllocError>
    requires ready { AreReady (subject_of scene) scene.relations.now }
    requires runs { AreAllRuns scene.test.now scene.runs.now }
    requires shown { IsShownAt scene.space.now candidate execution.now }
    requires judged { IsFirstRefusalIfAny scene.judged.checks.now candidate found.now }
    ensures { IfOk result (IsGraphAt (subject_of scene.entry) candidate found.now) }
{
    let instructions = instructions_of(alloc, scene.runs, execution)?;
    let told = Told {
        candidate,
        events: &execution.events,
        instructions: &instructions,
    };
    let fate = fate_of(alloc, scene.judged, candidate, found)?;
    let (first, steps) = steps_of(alloc, scene.judged, told, found)?;
    let ends = step_ends(alloc, first, &steps)?;
    let drawn = drawn_events(&execution.events, &execution.reads_from, &ends);
    Ok(Drawing {
        title: title_of(alloc, scene.test.name.as_bytes(), candidate, &fate)?,
        initial: boxes(alloc, told, &drawn, None)?,
        clusters: clusters(alloc, told, &drawn, scene.test.threads.len())?,
        edges: edges_of(alloc, scene, candidate, &drawn)?,
        first,
        steps,
    })
}

// Draws a candidate if it is asked for, and says whether it is.
fn put_candidate(
    alloc: Global,
    text: &mut Vec<u8>,
    scene: Scene<'_>,
    request: DrawRequest,
    is_skipped: bool,
    candidate: usize,
) -> Result<bool, AllocError>
    requires ready { AreReady (subject_of scene) scene.relations.now }
    requires runs { AreAllRuns scene.test.now scene.runs.now }
    requires within { candidate < candidate_count scene.space.now }
    ensures { IfOk result (AddsDrawing request is_skipped (subject_of scene.entry) candidate
        text.old.items text.new.items) }
{
    let Some(execution) = scene.space.execution(alloc, candidate)? else {
        return Ok(false);
    };
    let locations = &scene.space.locations;
    let satisfied = is_satisfied(locations, &scene.test.condition.proposition, &execution);
    let found = first_refusal(alloc, scene.judged.checks, candidate)?;
    if !is_wanted(request.wanted, satisfied, found.is_none()) {
        return Ok(false);
    }
    let drawing = drawing_of(alloc, scene, candidate, &execution, &found)?;
    let telling = Telling {
        shows: true,
        locations,
        initial_count: locations.len(),
    };
    put_unless_skipped(alloc, text, is_skipped, request.format, telling, &drawing)?;
    Ok(true)
}

// Draws the candidates that are asked for.
fn candidates_text(
    alloc: Global,
    scene: Scene<'_>,
    request: DrawRequest,
) -> Result<Vec<u8>, AllocError>
    requires ready { AreReady (subject_of scene) scene.relations.now }
    requires runs { AreAllRuns scene.test.now scene.runs.now }
    requires few { candidate_count scene.space.now < 2 ^ 64 }
    ensures { IfOk result (λ v. AreDrawingsOf request (subject_of scene.entry)
        (candidate_count scene.entry.space.now) v.items) }
{
    let mut text = Vec::new(alloc);
    let mut count = 0;
    for candidate in 0..scene.space.len() {
        let is_skipped = count < request.skipped;
        if count < request.most
            && put_candidate(alloc, &mut text, scene, request, is_skipped, candidate)?
        {
            count += 1;
        }
    }
    Ok(text)
}

// The drawings of a test under a model.
fn space_text<'x>(
    alloc: Global,
    test: &'x Test,
    model: &'x ModelText,
    resolved: &'x Resolved,
    space: &'x Space,
    request: DrawRequest,
) -> Result<Vec<u8>, AllocError>
    requires faultless { IsFaultless model.now }
    requires items { AreItemsOf model.now resolved.now.items.items }
    requires executions { ListsExecutions test.now space.now }
    ensures { IfOk result (λ v. AreDrawn request test.now model.now v.items) }
{
    let evaluated = Evaluated::of(alloc, space, resolved)?;
    let relations = drawn_relations(alloc, space)?;
    let runs = all_runs(alloc, test)?;
    let shown = shown_values(alloc, space, model)?;
    let scene = Scene {
        test,
        space,
        judged: evaluated.as_judged(model, resolved),
        relations: &relations,
        runs: &runs,
        shown: &shown,
    };
    candidates_text(alloc, scene, request)
}

#[tactic(auto, unfolding(crate::specs::Drawings::comment_front))]
fn comment_front(format: Format) -> &'static [u8]
    ensures { result.now ≡ comment_front format }
{
    match format {
        Format::Dot => b"// Refused ",
        Format::Svg | Format::Figure => b"<!-- Refused ",
    }
}

#[tactic(auto, unfolding(crate::specs::Drawings::comment_end))]
fn comment_end(format: Format) -> &'static [u8]
    ensures { result.now ≡ comment_end format }
{
    match format {
        Format::Dot => b"\n",
        Format::Svg | Format::Figure => b" -->\n",
    }
}

// A comment that tells a refusal.
#[tactic(auto, unfolding(crate::specs::Drawings::refused_comment))]
fn comment(alloc: Global, format: Format, letter: &[u8], number: u8) -> Result<Vec<u8>, AllocError>
    ensures { IfOk result (λ v. v.items ≡ refused_comment format letter.now number) }
{
    let mut text = Vec::new(alloc);
    put_bytes(&mut text, comment_front(format))?;
    put_bytes(&mut text, letter)?;
    put_decimal(&mut text, u64::from(number))?;
    put_bytes(&mut text, comment_end(format))?;
    Ok(text)
}

// The drawings of a test under a model without fault.
fn resolved_text(
    alloc: Global,
    test: &Test,
    model: &ModelText,
    resolved: &Resolved,
    request: DrawRequest,
) -> Result<Vec<u8>, AllocError>
    requires faultless { IsFaultless model.now }
    requires items { AreItemsOf model.now resolved.now.items.items }
    ensures { IfOk result (λ v. IsDrawn request test.now model.now v.items) }
{
    match space(alloc, test) {
        Ok(space) => space_text(alloc, test, model, resolved, &space, request),
        Err(SpaceFault::Refused(refusal)) => {
            comment(alloc, request.format, b"E", refusal.number())
        }
        Err(SpaceFault::OutOfMemory(e)) => Err(e),
    }
}

/// Drawings of executions of a test under a model, one after another; of a model with a fault and
/// of a test that is refused, a comment that tells its number. Errors: want of memory.
pub fn draw(
    alloc: Global,
    test: &Test,
    model: &ModelText,
    request: DrawRequest,
) -> Result<Vec<u8>, AllocError>
    ensures { IfOk result (λ v. IsDrawn request test.now model.now v.items) }
{
    match resolve(alloc, model) {
        Ok(resolved) => resolved_text(alloc, test, model, &resolved, request),
        Err(ResolveFault::Refused(fault)) => comment(alloc, request.format, b"M", fault.number()),
        Err(ResolveFault::OutOfMemory(e)) => Err(e),
    }
}
