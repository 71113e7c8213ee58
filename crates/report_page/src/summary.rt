//! The head of a page.

ghost use Rattle.std.specs.Prelude.{◌≡◌, ◌++◌, ◌-◌, IfOk, OnOk, decimal, length};
ghost use Rattle.outcome_texts.specs.Cells.{cell_of};
ghost use Rattle.report_page.specs.Summary.{cell_under, has_class, class_count, differs, difference_count, apart_count, refused_count, card, agreeing_card, cards_text, cards, model_anchor, model_anchors, model_link, number_cell, class_cell, class_cells, model_line, model_lines, difference_cell, difference_cells, difference_row, difference_rows};

use escaped_texts::{put_close, put_element, put_escaped, put_open};
use outcome_texts::{Shown, cells_differ};
use report_details::{
    ReportedModel, ReportedTest, has_refusal, is_told_apart, numbered, open_class, open_with,
    result_class,
};
use std::alloc::{AllocError, Global};
use text_values::{put_bytes, put_decimal};

fn cell_at<'a>(test: &ReportedTest<'a>, model: usize) -> Shown<'a>
    ensures { cell_of result ≡ cell_under test.now model }
{
    match test.outcomes.get(model) {
        Some(outcome) => Shown::Settled(outcome),
        None => Shown::NoCell,
    }
}

fn has_class(model: usize, class: &[u8], test: &ReportedTest<'_>) -> bool
    ensures { result ≡ has_class model class.now test.now }
{
    match test.outcomes.get(model) {
        Some(outcome) => result_class(&outcome.result) == class,
        None => false,
    }
}

fn class_count(tests: &[ReportedTest<'_>], model: usize, class: &[u8]) -> usize
    ensures { result ≡ class_count tests.now model class.now }
{
    tests
        .iter()
        .filter(|test| has_class(model, class, *test))
        .count()
}

fn differs(
    alloc: Global,
    first: usize,
    second: usize,
    test: &ReportedTest<'_>,
) -> Result<bool, AllocError>
    ensures { IfOk result (λ b. b ≡ differs first second test.now) }
{
    cells_differ(alloc, cell_at(test, first), cell_at(test, second))
}

fn difference_count(
    alloc: Global,
    tests: &[ReportedTest<'_>],
    first: usize,
    second: usize,
) -> Result<usize, AllocError>
    ensures { IfOk result (λ n. n ≡ difference_count tests.now first second) }
{
    let mut count = 0usize;
    for test in tests {
        if differs(alloc, first, second, test)? {
            count += 1;
        }
    }
    Ok(count)
}

/// How many tests tell two of the models apart. Errors: want of memory.
pub fn apart_count(alloc: Global, tests: &[ReportedTest<'_>]) -> Result<usize, AllocError>
    ensures { IfOk result (λ n. n ≡ apart_count tests.now) }
{
    let mut count = 0usize;
    for test in tests {
        if is_told_apart(alloc, test.outcomes)? {
            count += 1;
        }
    }
    Ok(count)
}

/// How many tests have a refusal.
pub fn refused_count(tests: &[ReportedTest<'_>]) -> usize
    ensures { result ≡ refused_count tests.now }
{
    tests
        .iter()
        .filter(|test| has_refusal(test.outcomes))
        .count()
}

fn digits(alloc: Global, number: usize) -> Result<Vec<u8>, AllocError>
    ensures { IfOk result (λ v. v.items ≡ decimal number) }
{
    let mut digits = Vec::new(alloc);
    put_decimal(&mut digits, number as u64)?;
    Ok(digits)
}

#[tactic(auto, unfolding(crate::specs::Summary::card, escaped_texts::specs::Elements::element))]
fn put_card(
    alloc: Global,
    text: &mut Vec<u8>,
    number: usize,
    words: &[u8],
) -> Result<(), AllocError>
    ensures { OnOk result (text.new.items ≡ text.old.items ++ card number words.now) }
{
    let digits = digits(alloc, number)?;
    open_class(text, b"div", b"card")?;
    put_element(text, b"b", &[], &digits)?;
    put_escaped(text, words)?;
    put_close(text, b"div")
}

/// How many are left of all without a part.
pub fn rest_of(all: usize, part: usize) -> usize
    ensures { result ≡ all - part }
{
    all.saturating_sub(part)
}

#[tactic(auto, unfolding(crate::specs::Summary::agreeing_card))]
fn put_agreeing(
    alloc: Global,
    text: &mut Vec<u8>,
    all: usize,
    apart: usize,
) -> Result<(), AllocError>
    ensures { OnOk result (text.new.items ≡ text.old.items ++ agreeing_card all apart) }
{
    put_card(alloc, text, rest_of(all, apart), b"agree everywhere")
}

#[tactic(auto, unfolding(crate::specs::Summary::cards_text))]
fn put_numbers(
    alloc: Global,
    text: &mut Vec<u8>,
    all: usize,
    apart: usize,
    refused: usize,
) -> Result<(), AllocError>
    ensures { OnOk result (text.new.items ≡ text.old.items ++ cards_text all apart refused) }
{
    put_card(alloc, text, all, b"tests")?;
    put_card(alloc, text, apart, b"tell models apart")?;
    put_agreeing(alloc, text, all, apart)?;
    put_card(alloc, text, refused, b"with a refusal")
}

/// Appends the numbers of all tests. Errors: want of memory.
pub fn put_cards(
    alloc: Global,
    text: &mut Vec<u8>,
    tests: &[ReportedTest<'_>],
) -> Result<(), AllocError>
    ensures { OnOk result (text.new.items ≡ text.old.items ++ cards tests.now) }
{
    let apart = apart_count(alloc, tests)?;
    put_numbers(alloc, text, tests.len(), apart, refused_count(tests))
}

#[tactic(auto, unfolding(crate::specs::Summary::model_anchor, escaped_texts::specs::Elements::element))]
fn put_model_anchor(
    alloc: Global,
    text: &mut Vec<u8>,
    number: usize,
    model: &ReportedModel<'_>,
) -> Result<(), AllocError>
    ensures { OnOk result (text.new.items ≡ text.old.items ++ model_anchor number model.now) }
{
    let link = numbered(alloc, b"#m", number)?;
    open_with(text, b"a", b"href", &link)?;
    put_escaped(text, model.name)?;
    put_close(text, b"a")
}

/// Appends links to the texts of the models. Errors: want of memory.
pub fn put_model_anchors(
    alloc: Global,
    text: &mut Vec<u8>,
    models: &[ReportedModel<'_>],
) -> Result<(), AllocError>
    ensures { OnOk result (text.new.items ≡ text.old.items ++ model_anchors 0 models.now) }
{
    for (number, model) in models.iter().enumerate() {
        put_bytes(text, b" ")?;
        put_model_anchor(alloc, text, number, model)?;
    }
    Ok(())
}

#[tactic(auto, unfolding(crate::specs::Summary::model_link, escaped_texts::specs::Elements::element))]
fn put_model_link(
    alloc: Global,
    text: &mut Vec<u8>,
    number: usize,
    model: &ReportedModel<'_>,
) -> Result<(), AllocError>
    ensures { OnOk result (text.new.items ≡ text.old.items ++ model_link number model.now) }
{
    open_with(text, b"th", b"scope", b"row")?;
    put_model_anchor(alloc, text, number, model)?;
    put_close(text, b"th")
}

#[tactic(auto, unfolding(crate::specs::Summary::number_cell, escaped_texts::specs::Elements::element))]
fn put_number_cell(
    alloc: Global,
    text: &mut Vec<u8>,
    class: &[u8],
    number: usize,
) -> Result<(), AllocError>
    ensures { OnOk result (text.new.items ≡ text.old.items ++ number_cell class.now number) }
{
    let digits = digits(alloc, number)?;
    open_class(text, b"td", class)?;
    put_escaped(text, &digits)?;
    put_close(text, b"td")
}

fn put_class_cell(
    alloc: Global,
    text: &mut Vec<u8>,
    tests: &[ReportedTest<'_>],
    model: usize,
    class: &[u8],
) -> Result<(), AllocError>
    ensures { OnOk result (text.new.items
        ≡ text.old.items ++ class_cell tests.now model class.now) }
{
    put_number_cell(alloc, text, class, class_count(tests, model, class))
}

#[tactic(auto, unfolding(crate::specs::Summary::class_cells))]
fn put_class_cells(
    alloc: Global,
    text: &mut Vec<u8>,
    tests: &[ReportedTest<'_>],
    model: usize,
) -> Result<(), AllocError>
    ensures { OnOk result (text.new.items ≡ text.old.items ++ class_cells tests.now model) }
{
    put_class_cell(alloc, text, tests, model, b"N")?;
    put_class_cell(alloc, text, tests, model, b"S")?;
    put_class_cell(alloc, text, tests, model, b"A")?;
    put_class_cell(alloc, text, tests, model, b"X")
}

#[tactic(auto, unfolding(crate::specs::Summary::model_line, escaped_texts::specs::Elements::element))]
fn put_model_line(
    alloc: Global,
    text: &mut Vec<u8>,
    tests: &[ReportedTest<'_>],
    number: usize,
    model: &ReportedModel<'_>,
) -> Result<(), AllocError>
    ensures { OnOk result (text.new.items
        ≡ text.old.items ++ model_line tests.now number model.now) }
{
    put_open(text, b"tr", &[])?;
    put_model_link(alloc, text, number, model)?;
    put_class_cells(alloc, text, tests, number)?;
    put_close(text, b"tr")
}

/// Appends what each model says, as numbers. Errors: want of memory.
pub fn put_model_lines(
    alloc: Global,
    text: &mut Vec<u8>,
    tests: &[ReportedTest<'_>],
    models: &[ReportedModel<'_>],
) -> Result<(), AllocError>
    ensures { OnOk result (text.new.items
        ≡ text.old.items ++ model_lines tests.now 0 models.now) }
{
    for (number, model) in models.iter().enumerate() {
        put_model_line(alloc, text, tests, number, model)?;
    }
    Ok(())
}

// How many tests tell two models apart; a dash for a model and itself.
#[tactic(auto, unfolding(crate::specs::Summary::difference_cell))]
fn put_difference_cell(
    alloc: Global,
    text: &mut Vec<u8>,
    tests: &[ReportedTest<'_>],
    first: usize,
    second: usize,
) -> Result<(), AllocError>
    ensures { OnOk result (text.new.items
        ≡ text.old.items ++ difference_cell tests.now first second) }
{
    if first == second {
        return put_bytes(text, b"<td>&#8211;</td>");
    }
    let number = difference_count(alloc, tests, first, second)?;
    put_number_cell(alloc, text, b"", number)
}

fn put_difference_cells(
    alloc: Global,
    text: &mut Vec<u8>,
    tests: &[ReportedTest<'_>],
    first: usize,
    models: &[ReportedModel<'_>],
) -> Result<(), AllocError>
    ensures { OnOk result (text.new.items
        ≡ text.old.items ++ difference_cells tests.now first 0 models.now) }
{
    for (second, _model) in models.iter().enumerate() {
        put_difference_cell(alloc, text, tests, first, second)?;
    }
    Ok(())
}

#[tactic(auto, unfolding(crate::specs::Summary::difference_row, escaped_texts::specs::Elements::element))]
fn put_difference_row(
    alloc: Global,
    text: &mut Vec<u8>,
    tests: &[ReportedTest<'_>],
    models: &[ReportedModel<'_>],
    number: usize,
    model: &ReportedModel<'_>,
) -> Result<(), AllocError>
    ensures { OnOk result (text.new.items
        ≡ text.old.items ++ difference_row tests.now models.now number model.now) }
{
    put_open(text, b"tr", &[])?;
    put_model_link(alloc, text, number, model)?;
    put_difference_cells(alloc, text, tests, number, models)?;
    put_close(text, b"tr")
}

/// Appends on how many tests each two models differ. Errors: want of memory.
pub fn put_difference_rows(
    alloc: Global,
    text: &mut Vec<u8>,
    tests: &[ReportedTest<'_>],
    models: &[ReportedModel<'_>],
) -> Result<(), AllocError>
    ensures { OnOk result (text.new.items
        ≡ text.old.items ++ difference_rows tests.now models.now 0 models.now) }
{
    for (number, model) in models.iter().enumerate() {
        put_difference_row(alloc, text, tests, models, number, model)?;
    }
    Ok(())
}
