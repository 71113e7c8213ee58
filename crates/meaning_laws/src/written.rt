//! The numbers that a test writes have 32 bits, since its text is read so.

ghost use Rattle.std.specs.Prelude.{All};
ghost use Rattle.text_values.specs.TestValue.{content_of, formula_of};
ghost use Rattle.meaning_laws.specs.Words.{IsWrittenWord, HasWordImmediate, IsStepOfWords, IsFormulaOfWords, IsTestOfWords};

use text_values::{InitEntry, Instruction, Proposition, Step, Test, Thread, Value};

fn value_is_word(value: &Value)
    ensures { IsWrittenWord value.now }
{
    match value {
        Value::Number(number) => {
            let _number = *number;
        }
        Value::Address(_) => {}
    }
}

fn entries_are_words(entries: &[InitEntry])
    ensures { All (λ e. IsWrittenWord e.value) entries.now }
{
    for entry in entries {
        value_is_word(&entry.value);
    }
}

fn immediate_is_word(instruction: &Instruction)
    ensures { HasWordImmediate instruction.now }
{
    match instruction {
        Instruction::LoadImmediate { target: _, value } => {
            let _value = *value;
        }
        _ => {}
    }
}

fn step_is_of_words(step: &Step)
    ensures { IsStepOfWords step.now }
{
    match step {
        Step::Label(_) => {}
        Step::Instruction(instruction) => immediate_is_word(instruction),
    }
}

fn steps_are_of_words(steps: &[Step])
    ensures { All IsStepOfWords steps.now }
{
    for step in steps {
        step_is_of_words(step);
    }
}

fn threads_are_of_words(threads: &[Thread])
    ensures { All (λ t. All IsStepOfWords t.steps.items) threads.now }
{
    for thread in threads {
        steps_are_of_words(&thread.steps);
    }
}

fn formula_is_of_words(proposition: &Proposition)
    ensures { IsFormulaOfWords (formula_of proposition.now) }
{
    match proposition {
        Proposition::Constant(_) => {}
        Proposition::Holds(_, value) => value_is_word(value),
        Proposition::Not(negated) => formula_is_of_words(negated),
        Proposition::Joined(_, left, right) => {
            formula_is_of_words(left);
            formula_is_of_words(right);
        }
    }
}

/// The numbers that a test writes have 32 bits.
pub fn test_is_of_words(test: &Test)
    ensures { IsTestOfWords (content_of test.now) }
{
    entries_are_words(&test.init);
    threads_are_of_words(&test.threads);
    formula_is_of_words(&test.condition.proposition);
}
