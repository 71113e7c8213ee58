//! The checks of labels, made once a whole text is read.

ghost use Rattle.std.specs.Prelude.{◌≡◌, ℕ, List, [], ◌∷◌, ◌++◌, length, IfOk};
ghost use Rattle.std.specs.Ordering.{nat_cmp};
ghost use Rattle.std.specs.Cmp.Lexicographic.{slice_cmp};
ghost use Rattle.std.specs.BTreeMap.{get_by};
ghost use Rattle.text_values.specs.declared.test.Step as declared_step;
ghost use Rattle.litmus_table.specs.Checks.{AreFirst, first_from, label_rule, target_rule, instruction_rule, step_rule, first_fault};
ghost use Rattle.litmus_words.specs.Machine.{fresh, noted};
ghost use Rattle.litmus_table.specs.Reading.{thread_of};
ghost use Rattle.litmus_table.specs.Bounds.{AllAtMost, IsFoundWithin};

use litmus_tokens::LitmusRule;
use std::alloc::{AllocError, Global};
use std::collections::BTreeMap;
use text_values::{Instruction, Name, Step, Thread};

/// A fault of a label in a text that the grammar allows.
#[derive(Clone, Copy)]
pub struct LateFault {
    /// The broken rule, L10 or L11.
    pub rule: LitmusRule,
    /// The byte offset of the label.
    pub offset: usize,
}

/// The steps of a thread, each with a byte offset: of a label, or of the label that a branch names.
#[derive(Drop)]
pub struct PlacedThread {
    steps: Vec<Step>,
    offsets: Vec<usize>,
}

impl PlacedThread {
    /// A thread without steps.
    pub fn new(alloc: Global) -> PlacedThread
        ensures { thread_of result ≡ fresh }
    {
        PlacedThread {
            steps: Vec::new(alloc),
            offsets: Vec::new(alloc),
        }
    }

    /// Adds a step with the offset of its label, if it has one. Errors: out of memory.
    pub fn push(&mut self, step: Step, offset: usize) -> Result<(), AllocError>
        ensures { IfOk result (λ _. thread_of self.new ≡ noted step offset (thread_of self.old)) }
    {
        self.offsets.push(offset)?;
        self.steps.push(step)?;
        Ok(())
    }

    /// The thread without the offsets.
    pub fn into_thread(self) -> Thread
        ensures { result.steps.items ≡ (thread_of self).steps }
    {
        Thread { steps: self.steps }
    }

    // The number of the step that first defines each label.
    fn definitions(&self, alloc: Global) -> Result<BTreeMap<&[u8], usize>, AllocError>
        ensures { IfOk result (λ m. AreFirst m self.now.steps.items) }
    {
        let mut first = BTreeMap::new(alloc);
        for (i, step) in self.steps.iter().enumerate() {
            note_first(&mut first, step, i)?;
        }
        Ok(first)
    }

    /// The first step that defines a label again, or that branches to a label that stands before it
    /// or nowhere in the thread; `None` if no step does.
    pub fn check_labels(&self, alloc: Global) -> Result<Option<LateFault>, AllocError>
        ensures found { IfOk result (λ f. f
            ≡ first_fault (λ w. first_from w 0 self.now.steps.items) 0 self.now.steps.items
            self.now.offsets.items) }
        ensures within { (n : ℕ) → AllAtMost n self.now.offsets.items
            → IfOk result (IsFoundWithin n) }
    {
        let definitions = self.definitions(alloc)?;
        for (i, step) in self.steps.iter().enumerate() {
            if i >= self.offsets.len() {
                return Ok(None);
            }
            if let Some(rule) = step_rule(&definitions, step, i) {
                return Ok(Some(LateFault {
                    rule,
                    offset: self.offsets[i],
                }));
            }
        }
        Ok(None)
    }
}

// Keeps the number of a step that defines a label, if none before it does.
fn note_first<'a>(
    first: &mut BTreeMap<&'a [u8], usize>,
    step: &'a Step,
    number: usize,
) -> Result<(), AllocError>
    ensures { (before : List declared_step.Step) → length before ≡ number
        → AreFirst first.old before
        → IfOk result (λ _. AreFirst first.new (before ++ step.now ∷ [])) }
{
    match step {
        Step::Label(name) => {
            if first.contains_key(name.as_bytes()) {
                return Ok(());
            }
            first.insert(name.as_bytes(), number)?;
            Ok(())
        }
        Step::Instruction(_) => Ok(()),
    }
}

// The rule that the step of this number breaks.
fn step_rule(definitions: &BTreeMap<&[u8], usize>, step: &Step, number: usize) -> Option<LitmusRule>
    ensures { result
        ≡ step_rule (λ w. get_by (λ k. slice_cmp nat_cmp w k.now) definitions.now) step.now number }
{
    match step {
        Step::Label(name) => label_rule(definitions, name, number),
        Step::Instruction(instruction) => instruction_rule(definitions, instruction, number),
    }
}

// The rule that a label breaks, as the step of this number.
fn label_rule(definitions: &BTreeMap<&[u8], usize>, name: &Name, i: usize) -> Option<LitmusRule>
    ensures { result
        ≡ label_rule (get_by (λ k. slice_cmp nat_cmp name.now k.now) definitions.now) i }
{
    match definitions.get(name.as_bytes()) {
        Some(first) if *first < i => Some(LitmusRule::Label),
        _ => None,
    }
}

// The rule that an instruction breaks, as the step of this number.
fn instruction_rule(
    definitions: &BTreeMap<&[u8], usize>,
    instruction: &Instruction,
    i: usize,
) -> Option<LitmusRule>
    ensures { result
        ≡ instruction_rule (λ w. get_by (λ k. slice_cmp nat_cmp w k.now) definitions.now)
        instruction.now i }
{
    match instruction {
        Instruction::BranchIf {
            condition: _,
            label,
        } => target_rule(definitions, label, i),
        Instruction::Branch { label } => target_rule(definitions, label, i),
        _ => None,
    }
}

// The rule that a branch to a label breaks, as the step of this number.
fn target_rule(definitions: &BTreeMap<&[u8], usize>, label: &Name, i: usize) -> Option<LitmusRule>
    ensures { result
        ≡ target_rule (get_by (λ k. slice_cmp nat_cmp label.now k.now) definitions.now) i }
{
    match definitions.get(label.as_bytes()) {
        None => Some(LitmusRule::Label),
        Some(first) if *first < i => Some(LitmusRule::BackwardBranch),
        Some(_) => None,
    }
}
