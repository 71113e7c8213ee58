//! One evaluation, as a line for programs.

ghost use Rattle.std.specs.Prelude.{◌≡◌, IfOk};
ghost use Rattle.cat_grammar.specs.declared.form.Form.{Form};
ghost use Rattle.cat_grammar.specs.Reads.{ReadsClauses};
ghost use Rattle.text_values.specs.ModelValues.{clauses_of};
ghost use Rattle.outcome_lines.specs.Json as json;
ghost use Rattle.line_answers.specs.Results as results;
ghost use Rattle.line_answers.specs.Evaluations.{IsOutcomeText, IsEvalLine, IsEvalReport};

use crate::refusal::{refusal_of, rule_text};
use cat_syntax::{CatFault, ModelText, read_model};
use command_answers::{Report, TextFile, model_stem, refusal_lines};
use litmus_ppc::{LitmusFault, Test, read_test};
use outcome_lines::{Subject, put_eval_json, put_refused_json};
use session_answers::eval_cell;
use std::alloc::{AllocError, Global};

fn refused_line(
    alloc: Global,
    file: &TextFile<'_>,
    letter: u8,
    number: u8,
    offset: usize,
) -> Result<Vec<u8>, AllocError>
    ensures { IfOk result (λ v. v.items
        ≡ json.refused_line (results.refused_file file.now (results.rule_text letter number)
        offset)) }
{
    let mut text = Vec::new(alloc);
    let rule = rule_text(alloc, letter, number)?;
    put_refused_json(&mut text, &refusal_of(file, &rule, offset))?;
    Ok(text)
}

fn outcome_line(
    alloc: Global,
    model: &TextFile<'_>,
    test: &TextFile<'_>,
    items: &ModelText,
    known: &Test,
) -> Result<Vec<u8>, AllocError>
    ensures { IfOk result (λ v. IsOutcomeText model.now test.now known.now items.now v.items) }
{
    let outcome = eval_cell(alloc, known, items)?;
    let subject = Subject {
        path: test.path.as_bytes(),
        test: known.name.as_bytes(),
        model: model_stem(model.path.as_bytes()),
    };
    let mut text = Vec::new(alloc);
    put_eval_json(alloc, &mut text, &subject, &outcome)?;
    Ok(text)
}

fn line_under(
    alloc: Global,
    model: &TextFile<'_>,
    test: &TextFile<'_>,
    items: &ModelText,
) -> Result<Vec<u8>, AllocError>
    requires { ReadsClauses Form.Model model.now.text.items (clauses_of items.now.items.items) }
    ensures { IfOk result (λ v. IsEvalLine model.now test.now v.items) }
{
    match read_test(alloc, &test.text) {
        Ok(known) => outcome_line(alloc, model, test, items, &known),
        Err(LitmusFault::OutOfMemory(e)) => Err(e),
        Err(LitmusFault::Refused { rule, offset }) => {
            refused_line(alloc, test, b'L', rule.number(), offset)
        }
    }
}

fn eval_line(
    alloc: Global,
    model: &TextFile<'_>,
    test: &TextFile<'_>,
) -> Result<Vec<u8>, AllocError>
    ensures { IfOk result (λ v. IsEvalLine model.now test.now v.items) }
{
    match read_model(alloc, &model.text) {
        Ok(items) => line_under(alloc, model, test, &items),
        Err(CatFault::OutOfMemory(e)) => Err(e),
        Err(CatFault::Refused { rule, offset }) => {
            refused_line(alloc, model, b'C', rule.number(), offset)
        }
    }
}

/// The outcome of the test of a file under the model of another, as one object of JSON on a line,
/// or that of the first of them that is refused; and what is told of it. Errors: want of memory.
pub fn eval_report(
    alloc: Global,
    model: &TextFile<'_>,
    test: &TextFile<'_>,
) -> Result<Report, AllocError>
    ensures { IfOk result (λ r. IsEvalReport model.now test.now r.text.items r.faults.items) }
{
    let text = eval_line(alloc, model, test)?;
    let faults = refusal_lines(alloc, model, test)?;
    Ok(Report { text, faults })
}
