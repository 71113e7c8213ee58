//! Where the time of one evaluation goes.

use crate::timing::Work;
use binding_graph::{Resolved, Role, Source, Step, resolve};
use candidates::space;
use cat_syntax::{ModelText, read_model};
use command_answers::eval;
use cut_spaces::eval_cell;
use from_scratch::answers;
use litmus_ppc::{Test, read_test};
use std::alloc::Global;

/// How far an evaluation goes, from the two texts on.
#[derive(Clone, Copy)]
pub enum Phase {
    /// Both texts are read.
    Read,
    /// And the model is resolved.
    Resolved,
    /// And the candidates of the test are made, not under the model.
    Space,
    /// And each item that is evaluated goes over the candidates with the predefined names that it
    /// uses, without an operator.
    Names,
    /// And with its operators, and the names of other items.
    Items,
    /// And the outcome is found.
    Outcome,
    /// And the log is written.
    Log,
}

/// The phases, in order.
pub const PHASES: [Phase; 7] = [
    Phase::Read,
    Phase::Resolved,
    Phase::Space,
    Phase::Names,
    Phase::Items,
    Phase::Outcome,
    Phase::Log,
];

impl Phase {
    /// What is printed before its time.
    pub fn name(self) -> &'static str {
        match self {
            Phase::Read => "reading",
            Phase::Resolved => "resolving",
            Phase::Space => "candidates",
            Phase::Names => "predefined names",
            Phase::Items => "items",
            Phase::Outcome => "outcome",
            Phase::Log => "log",
        }
    }
}

/// An evaluation of a test's text under a model's, as far as a phase.
#[derive(Drop)]
pub struct Evaluation<'a> {
    /// How far it goes.
    pub phase: Phase,
    /// The text of the model.
    pub model: &'a [u8],
    /// The text of the test.
    pub test: &'a [u8],
}

impl Work for Evaluation<'_> {
    fn once(&self, alloc: Global) {
        match self.phase {
            Phase::Log => drop(eval(alloc, self.model, self.test)),
            _ => self.once_read(alloc),
        }
    }
}

impl Evaluation<'_> {
    /// Reads both texts and goes on as far as the phase. What is refused on the way is left there.
    fn once_read(&self, alloc: Global) {
        let known_model = read_model(alloc, self.model);
        let known_test = read_test(alloc, self.test);
        if let (Ok(model), Ok(test)) = (&known_model, &known_test) {
            go_on(alloc, self.phase, model, test);
        }
    }
}

/// Goes on from a model and a test as far as a phase.
fn go_on(alloc: Global, phase: Phase, model: &ModelText, test: &Test) {
    match phase {
        Phase::Read => {}
        Phase::Resolved => drop(resolve(alloc, model)),
        Phase::Space => {
            drop(resolve(alloc, model));
            drop(space(alloc, test));
        }
        Phase::Names => evaluate_items(alloc, model, test, true),
        Phase::Items => evaluate_items(alloc, model, test, false),
        Phase::Outcome | Phase::Log => drop(eval_cell(alloc, test, model)),
    }
}

/// Evaluates the items of the model over the candidates of the test, or of each item the predefined
/// names alone.
fn evaluate_items(alloc: Global, model: &ModelText, test: &Test, is_names_alone: bool) {
    if let Ok(mut resolved) = resolve(alloc, model) {
        if is_names_alone {
            keep_names(&mut resolved);
        }
        let known_space = space(alloc, test);
        if let Ok(space) = &known_space {
            drop(answers(alloc, space, &resolved));
        }
    }
}

/// Leaves of each item's steps those that put a predefined name on a stack.
fn keep_names(resolved: &mut Resolved) {
    for item in &mut resolved.items {
        keep_names_of(&mut item.role);
    }
}

/// Leaves the same of one item's steps.
fn keep_names_of(role: &mut Role) {
    match role {
        Role::Group { bodies, .. } => {
            for body in bodies {
                body.code.steps.retain(|step| is_name(*step));
            }
        }
        Role::Check(check) => check.code.steps.retain(|step| is_name(*step)),
        Role::Silent => {}
    }
}

/// Whether a step puts a predefined name on a stack.
fn is_name(step: Step) -> bool {
    match step {
        Step::PushSet(source) | Step::PushRelation(source) => {
            matches!(source, Source::Predefined(_))
        }
        _ => false,
    }
}
