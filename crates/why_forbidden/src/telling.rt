//! A refusal as it is told.

ghost use Rattle.std.specs.Prelude.{◌≡◌, ◌++◌, [], IfOk, MatchOption, OnOk, length, map, drop, option_map, slice_get, slice_index_or};
ghost use Rattle.why_walks.specs.Walks.{runs_of};
ghost use Rattle.why_forbidden.specs.Steps.{AreStepStarts, AreToldSteps, AreStepsTo, HasNoSteps, HasSteps, IsToldStep, AreStartsBack, ends_of, legs_to, next_event, numbers_of};
ghost use Rattle.why_forbidden.specs.Steps.{starts_at, starts_through, with_event, with_events};
ghost use Rattle.why_forbidden.specs.Told.{IsReason, told_at, told_events, written};
ghost use Rattle.why_forbidden.specs.Views.{judgement_of, leg_of, scene_of, start_of};

use crate::checks::CheckValues;
use crate::labels::label;
use binding_graph::{Code, ResolvedItem};
use bit_relations::MAX_EVENTS;
use candidates::Event;
use cat_printing::print_item;
use ppc_semantics::Instruction;
use std::alloc::{AllocError, Global};
use text_values::Item;
use why_labels::{EventPair, NameValues};
use why_text::{Reason, ToldEvent, ToldStep};
use why_walks::{FactorValues, links_at, walk};
use why_witness::Witness;

/// A model over the candidates of a test.
#[derive(Clone, Copy)]
pub struct Judged<'a> {
    /// The items as the model writes them.
    pub text: &'a [Item],
    /// The same items, resolved.
    pub items: &'a [ResolvedItem],
    /// The values of the names.
    pub values: NameValues<'a>,
    /// The checks that are no flags.
    pub checks: &'a [CheckValues<'a>],
}

/// The events of a candidate, with the instructions that they come from.
#[derive(Clone, Copy)]
pub struct Told<'a> {
    /// The number of the candidate.
    pub candidate: usize,
    /// Its events.
    pub events: &'a [Event],
    /// For each event its instruction.
    pub instructions: &'a [Option<Instruction>],
}

/// The instruction that an event comes from, if it comes from one.
pub fn instruction_at(instructions: &[Option<Instruction>], number: usize) -> Option<Instruction>
    ensures { result ≡ slice_index_or instructions.now number None }
{
    match instructions.get(number) {
        Some(instruction) => *instruction,
        None => None,
    }
}

fn told_at(told: Told<'_>, number: usize) -> Option<ToldEvent>
    ensures { result ≡ told_at (scene_of told.entry) number }
{
    let event = told.events.get(number)?;
    Some(ToldEvent {
        number,
        event: *event,
        instruction: instruction_at(told.instructions, number),
    })
}

/// The events of these numbers. Errors: want of memory.
pub fn told_events(
    alloc: Global,
    told: Told<'_>,
    numbers: &[usize],
) -> Result<Vec<ToldEvent>, AllocError>
    ensures { IfOk result (λ v. v.items ≡ told_events (scene_of told.entry) numbers.now) }
{
    numbers
        .iter()
        .filter_map(|number| told_at(told, *number))
        .collect(alloc)
}

// The event where a step begins, and of which expression it is a step.
#[derive(Clone, Copy)]
struct Start<'a> {
    event: usize,
    code: &'a Code,
}

// A step from an event to another.
#[derive(Clone, Copy)]
struct Leg<'a> {
    from: usize,
    to: usize,
    code: &'a Code,
}

// Where the step at an index leads: to where the next begins, and the last to the end.
fn next_event(starts: &[Start<'_>], index: usize, end: usize) -> usize
    ensures { result ≡ next_event (map start_of (drop index starts.now)) end }
{
    match starts.get(index) {
        Some(start) => start.event,
        None => end,
    }
}

fn legs_to<'a>(alloc: Global, starts: &[Start<'a>], end: usize) -> Result<Vec<Leg<'a>>, AllocError>
    ensures { IfOk result (λ v. map leg_of v.items ≡ legs_to (map start_of starts.now) end) }
{
    let mut legs = Vec::with_capacity(alloc, starts.len())?;
    for index in 0..starts.len() {
        let start = starts[index];
        legs.push(Leg {
            from: start.event,
            to: next_event(starts, index + 1, end),
            code: start.code,
        })?;
    }
    Ok(legs)
}

fn step(
    alloc: Global,
    judged: Judged<'_>,
    is_deep: bool,
    item: usize,
    candidate: usize,
    leg: Leg<'_>,
) -> Result<ToldStep, AllocError>
    ensures { IfOk result (IsToldStep (judgement_of judged.entry is_deep) item candidate
        (leg_of leg.entry)) }
{
    let pair = EventPair {
        candidate,
        from: leg.from,
        to: leg.to,
    };
    let label = label(alloc, judged, is_deep, item, leg.code, pair)?;
    Ok(ToldStep { label, to: leg.to })
}

// The steps that begin at these starts, the last of which leads to the end.
fn steps_to(
    alloc: Global,
    judged: Judged<'_>,
    is_deep: bool,
    item: usize,
    candidate: usize,
    starts: &[Start<'_>],
    end: usize,
) -> Result<Vec<ToldStep>, AllocError>
    ensures { IfOk result (λ v. AreStepsTo (judgement_of judged.entry is_deep) item candidate
        (map start_of starts.now) end v.items) }
{
    let legs = legs_to(alloc, starts, end)?;
    let mut steps = Vec::with_capacity(alloc, legs.len())?;
    for leg in &legs {
        steps.push(step(alloc, judged, is_deep, item, candidate, *leg)?)?;
    }
    Ok(steps)
}

// Adds a start at each of the events.
fn add_starts<'a>(
    starts: &mut Vec<Start<'a>>,
    code: &'a Code,
    events: &[usize],
) -> Result<(), AllocError>
    ensures { OnOk result (map start_of starts.new.items
        ≡ map start_of starts.old.items ++ starts_at code.now events.now) }
{
    for event in events {
        starts.push(Start {
            event: *event,
            code,
        })?;
    }
    Ok(())
}

// A start at each of the events.
fn starts_at<'a>(
    alloc: Global,
    code: &'a Code,
    events: &[usize],
) -> Result<Vec<Start<'a>>, AllocError>
    ensures { IfOk result (λ v. map start_of v.items ≡ starts_at code.now events.now) }
{
    let mut starts = Vec::new(alloc);
    add_starts(&mut starts, code, events)?;
    Ok(starts)
}

fn run_at(runs: &[Vec<usize>], index: usize) -> &[usize]
    ensures { result.now ≡ slice_index_or (runs_of runs.now) index [] }
{
    match runs.get(index) {
        Some(run) => run,
        None => &[],
    }
}

// The starts of a walk through factors, by the events where the steps of each begin.
fn starts_through<'a>(
    alloc: Global,
    factors: &'a [FactorValues],
    runs: &[Vec<usize>],
) -> Result<Vec<Start<'a>>, AllocError>
    ensures { IfOk result (λ v. map start_of v.items
        ≡ starts_through factors.now (runs_of runs.now)) }
{
    let mut starts = Vec::new(alloc);
    for index in 0..factors.len() {
        add_starts(&mut starts, &factors[index].code, run_at(runs, index))?;
    }
    Ok(starts)
}

// The starts of the walk through the factors of the check's expression from an event back to it;
// none where there is no such walk, or it has no step.
fn starts_back<'a>(
    alloc: Global,
    check: &'a CheckValues<'_>,
    told: Told<'_>,
    event: usize,
) -> Result<Option<Vec<Start<'a>>>, AllocError>
    ensures { IfOk result (λ found. MatchOption found
        (HasNoSteps check.now told.entry.candidate (length told.entry.events.now) event)
        (λ v. HasSteps check.now told.entry.candidate (length told.entry.events.now) event
        (map start_of v.items))) }
{
    let links = links_at(alloc, &check.factors, told.candidate)?;
    if told.events.len() > MAX_EVENTS {
        return Ok(None);
    }
    let Some(runs) = walk(alloc, &links, told.events.len(), event, event)? else {
        return Ok(None);
    };
    let starts = starts_through(alloc, &check.factors, &runs)?;
    if starts.is_empty() {
        return Ok(None);
    }
    Ok(Some(starts))
}

// From an event back to it, in one step where no factor takes any.
fn round<'a>(
    alloc: Global,
    check: &'a CheckValues<'_>,
    told: Told<'_>,
    event: usize,
) -> Result<Vec<Start<'a>>, AllocError>
    ensures { IfOk result (λ v. AreStartsBack check.now told.entry.candidate
        (length told.entry.events.now) event (map start_of v.items)) }
{
    match starts_back(alloc, check, told, event)? {
        Some(starts) => Ok(starts),
        None => starts_at(alloc, &check.check.code, &[event]),
    }
}

// Where the steps begin that the witness shows.
fn starts_of<'a>(
    alloc: Global,
    check: &'a CheckValues<'_>,
    told: Told<'_>,
    witness: &Witness,
) -> Result<Vec<Start<'a>>, AllocError>
    ensures { IfOk result (λ v. AreStepStarts check.now told.entry.candidate
        (length told.entry.events.now) witness.now (map start_of v.items)) }
{
    match witness {
        Witness::Cycle(events) => starts_at(alloc, &check.check.code, events),
        Witness::Reflexive(event) => round(alloc, check, told, *event),
        Witness::Pair(from, _) => starts_at(alloc, &check.check.code, &[*from]),
        Witness::Member(_) => Ok(Vec::new(alloc)),
        Witness::Met => Ok(Vec::new(alloc)),
    }
}

// The events where the first step begins and where the last leads.
fn ends_of(witness: &Witness) -> Option<(usize, usize)>
    ensures { result ≡ ends_of witness.now }
{
    match witness {
        Witness::Cycle(events) => match events.first() {
            Some(event) => Some((*event, *event)),
            None => None,
        },
        Witness::Reflexive(event) => Some((*event, *event)),
        Witness::Pair(from, to) => Some((*from, *to)),
        Witness::Member(event) => Some((*event, *event)),
        Witness::Met => None,
    }
}

// Adds an event, if it is not among them.
fn add_event(numbers: &mut Vec<usize>, event: usize) -> Result<(), AllocError>
    ensures { OnOk result (numbers.new.items ≡ with_event numbers.old.items event) }
{
    if !numbers.contains(&event) {
        numbers.push(event)?;
    }
    Ok(())
}

fn add_events(numbers: &mut Vec<usize>, starts: &[Start<'_>]) -> Result<(), AllocError>
    ensures { OnOk result (numbers.new.items
        ≡ with_events numbers.old.items (map start_of starts.now)) }
{
    for start in starts {
        add_event(numbers, start.event)?;
    }
    Ok(())
}

// The events where the steps begin and end, each once.
fn numbers_of(
    alloc: Global,
    ends: Option<(usize, usize)>,
    starts: &[Start<'_>],
) -> Result<Vec<usize>, AllocError>
    ensures { IfOk result (λ v. v.items ≡ numbers_of ends (map start_of starts.now)) }
{
    let mut numbers = Vec::new(alloc);
    if let Some((first, last)) = ends {
        numbers.push(first)?;
        add_events(&mut numbers, starts)?;
        add_event(&mut numbers, last)?;
    }
    Ok(numbers)
}

// The check, as it is printed.
fn check_text(
    alloc: Global,
    judged: Judged<'_>,
    check: &CheckValues<'_>,
) -> Result<Vec<u8>, AllocError>
    ensures { IfOk result (λ v. v.items
        ≡ written (slice_get judged.entry.text.now check.now.item)) }
{
    match judged.text.get(check.item) {
        Some(item) => print_item(alloc, item),
        None => Ok(Vec::new(alloc)),
    }
}

fn steps_of(
    alloc: Global,
    judged: Judged<'_>,
    is_deep: bool,
    item: usize,
    candidate: usize,
    ends: Option<(usize, usize)>,
    starts: &[Start<'_>],
) -> Result<Vec<ToldStep>, AllocError>
    ensures { IfOk result (λ v. AreToldSteps (judgement_of judged.entry is_deep) item candidate ends
        (map start_of starts.now) v.items) }
{
    match ends {
        Some((_, last)) => steps_to(alloc, judged, is_deep, item, candidate, starts, last),
        None => Ok(Vec::new(alloc)),
    }
}

fn first_of(ends: Option<(usize, usize)>) -> Option<usize>
    ensures { result ≡ option_map (λ ends. ends.0) ends }
{
    match ends {
        Some((first, _)) => Some(first),
        None => None,
    }
}

/// Why the check refuses the candidate, each step with what carries it, one level deeper if it is
/// to be. Errors: want of memory.
pub fn reason_told(
    alloc: Global,
    judged: Judged<'_>,
    is_deep: bool,
    told: Told<'_>,
    check: &CheckValues<'_>,
    witness: &Witness,
) -> Result<Reason, AllocError>
    ensures { IfOk result (IsReason (judgement_of judged.entry is_deep) (scene_of told.entry)
        check.now witness.now) }
{
    let starts = starts_of(alloc, check, told, witness)?;
    let ends = ends_of(witness);
    let numbers = numbers_of(alloc, ends, &starts)?;
    Ok(Reason {
        check: check_text(alloc, judged, check)?,
        events: told_events(alloc, told, &numbers)?,
        first: first_of(ends),
        steps: steps_of(
            alloc,
            judged,
            is_deep,
            check.item,
            told.candidate,
            ends,
            &starts,
        )?,
    })
}
