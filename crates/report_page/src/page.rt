//! The page.

ghost use Rattle.std.specs.Prelude.{◌≡◌, ◌++◌, [], IfOk, OnOk, codes, length};
ghost use Rattle.escaped_texts.specs.Elements.{open_tag, element};
ghost use Rattle.report_details.specs.Marks.{class_of, heading};
ghost use Rattle.report_page.specs.Summary.{cards, model_lines, difference_rows};
ghost use Rattle.report_page.specs.Table.{test_rows};
ghost use Rattle.report_page.specs.Page as page;

use crate::constants::{BAR, BAR_END, BODY, FOOT, FRONT, LEGEND, MORE_STYLE, STYLE};
use crate::summary::{
    apart_count, put_cards, put_difference_rows, put_model_anchors, put_model_lines, refused_count,
    rest_of,
};
use crate::table::{put_column_heads, put_rows};
use escaped_texts::{Attribute, put_close, put_element, put_escaped, put_open};
use report_details::{
    Extras, ReportedModel, ReportedTest, numbered, open_class, open_with, put_tests,
};
use std::alloc::{AllocError, Global};
use text_values::{put_bytes, put_decimal};

// ---- the head

#[tactic(auto, unfolding(crate::specs::Page::extent))]
fn extent(alloc: Global, tests: usize, models: usize) -> Result<Vec<u8>, AllocError>
    ensures { IfOk result (λ v. v.items ≡ page.extent tests models) }
{
    let mut words = Vec::new(alloc);
    put_decimal(&mut words, tests as u64)?;
    put_bytes(&mut words, b" tests under ")?;
    put_decimal(&mut words, models as u64)?;
    put_bytes(&mut words, b" models:")?;
    Ok(words)
}

#[tactic(auto, unfolding(crate::specs::Page::extent_line, escaped_texts::specs::Elements::element))]
fn put_extent(
    alloc: Global,
    text: &mut Vec<u8>,
    models: &[ReportedModel<'_>],
    tests: usize,
) -> Result<(), AllocError>
    ensures { OnOk result (text.new.items
        ≡ text.old.items ++ page.extent_line models.now tests) }
{
    let extent = extent(alloc, tests, models.len())?;
    open_class(text, b"p", b"soft")?;
    put_escaped(text, &extent)?;
    put_model_anchors(alloc, text, models)?;
    put_close(text, b"p")
}

#[tactic(auto, unfolding(crate::specs::Page::title_part, escaped_texts::specs::Elements::element))]
fn put_title(
    alloc: Global,
    text: &mut Vec<u8>,
    models: &[ReportedModel<'_>],
    tests: usize,
) -> Result<(), AllocError>
    ensures { OnOk result (text.new.items ≡ text.old.items ++ page.title_part models.now tests) }
{
    put_open(text, b"header", &[])?;
    put_element(text, b"h1", &[], b"Tests under models")?;
    put_extent(alloc, text, models, tests)?;
    put_close(text, b"header")
}

// ---- numbers

#[tactic(auto, unfolding(escaped_texts::specs::Elements::element))]
fn put_cards_part(
    alloc: Global,
    text: &mut Vec<u8>,
    tests: &[ReportedTest<'_>],
) -> Result<(), AllocError>
    ensures { OnOk result (text.new.items ≡ text.old.items ++ page.cards_part tests.now) }
{
    open_class(text, b"section", b"cards")?;
    put_cards(alloc, text, tests)?;
    put_close(text, b"section")
}

#[tactic(auto, unfolding(crate::specs::Page::observation_heads))]
fn put_observation_heads(text: &mut Vec<u8>) -> Result<(), AllocError>
    ensures { OnOk result (text.new.items ≡ text.old.items ++ page.observation_heads) }
{
    put_element(text, b"th", &[], b"Model")?;
    put_element(text, b"th", &[], b"Never")?;
    put_element(text, b"th", &[], b"Sometimes")?;
    put_element(text, b"th", &[], b"Always")?;
    put_element(text, b"th", &[], b"refused")
}

#[tactic(auto, unfolding(escaped_texts::specs::Elements::element))]
fn put_observation_row(text: &mut Vec<u8>) -> Result<(), AllocError>
    ensures { OnOk result (text.new.items
        ≡ text.old.items ++ element (codes "tr") [] page.observation_heads) }
{
    put_open(text, b"tr", &[])?;
    put_observation_heads(text)?;
    put_close(text, b"tr")
}

#[tactic(auto, unfolding(escaped_texts::specs::Elements::element))]
fn put_observation_head(text: &mut Vec<u8>) -> Result<(), AllocError>
    ensures { OnOk result (text.new.items
        ≡ text.old.items ++ page.table_head page.observation_heads) }
{
    put_open(text, b"thead", &[])?;
    put_observation_row(text)?;
    put_close(text, b"thead")
}

// Opens a table that may be wider than the page.
fn open_wrapped(text: &mut Vec<u8>, class: &[u8]) -> Result<(), AllocError>
    ensures { OnOk result (text.new.items
        ≡ text.old.items
        ++ (open_tag (codes "div") (class_of (codes "wrap"))
        ++ open_tag (codes "table") (class_of class.now))) }
{
    open_class(text, b"div", b"wrap")?;
    open_class(text, b"table", class)
}

#[tactic(auto, unfolding(escaped_texts::specs::Elements::element))]
fn put_model_rows(
    alloc: Global,
    text: &mut Vec<u8>,
    models: &[ReportedModel<'_>],
    tests: &[ReportedTest<'_>],
) -> Result<(), AllocError>
    ensures { OnOk result (text.new.items
        ≡ text.old.items ++ element (codes "tbody") [] (model_lines tests.now 0 models.now)) }
{
    put_open(text, b"tbody", &[])?;
    put_model_lines(alloc, text, tests, models)?;
    put_close(text, b"tbody")
}

#[tactic(auto, unfolding(crate::specs::Page::wrapped_table, escaped_texts::specs::Elements::element))]
fn put_observation_table(
    alloc: Global,
    text: &mut Vec<u8>,
    models: &[ReportedModel<'_>],
    tests: &[ReportedTest<'_>],
) -> Result<(), AllocError>
    ensures { OnOk result (text.new.items
        ≡ text.old.items
        ++ page.wrapped_table (codes "num") (page.table_head page.observation_heads)
        (model_lines tests.now 0 models.now)) }
{
    open_wrapped(text, b"num")?;
    put_observation_head(text)?;
    put_model_rows(alloc, text, models, tests)?;
    put_close(text, b"table")?;
    put_close(text, b"div")
}

#[tactic(auto, unfolding(crate::specs::Page::observations, escaped_texts::specs::Elements::element))]
fn put_observations(
    alloc: Global,
    text: &mut Vec<u8>,
    models: &[ReportedModel<'_>],
    tests: &[ReportedTest<'_>],
) -> Result<(), AllocError>
    ensures { OnOk result (text.new.items
        ≡ text.old.items ++ page.observations models.now tests.now) }
{
    put_open(text, b"div", &[])?;
    put_element(text, b"h2", &[], b"Observations of each model")?;
    put_observation_table(alloc, text, models, tests)?;
    put_close(text, b"div")
}

// The class of tables over so many models.
#[tactic(auto, unfolding(crate::specs::Page::table_class))]
fn table_class(models: usize) -> &'static [u8]
    ensures { result.now ≡ page.table_class models }
{
    if models > 6 { b"num many" } else { b"num" }
}

#[tactic(auto, unfolding(escaped_texts::specs::Elements::element))]
fn put_head_row(
    text: &mut Vec<u8>,
    first: &[u8],
    models: &[ReportedModel<'_>],
) -> Result<(), AllocError>
    ensures { OnOk result (text.new.items
        ≡ text.old.items
        ++ element (codes "tr") [] (page.head_cells first.now models.now)) }
{
    put_open(text, b"tr", &[])?;
    put_element(text, b"th", &[], first)?;
    put_column_heads(text, models)?;
    put_close(text, b"tr")
}

#[tactic(auto, unfolding(crate::specs::Page::heads, escaped_texts::specs::Elements::element))]
fn put_heads(
    text: &mut Vec<u8>,
    first: &[u8],
    models: &[ReportedModel<'_>],
) -> Result<(), AllocError>
    ensures { OnOk result (text.new.items ≡ text.old.items ++ page.heads first.now models.now) }
{
    put_open(text, b"thead", &[])?;
    put_head_row(text, first, models)?;
    put_close(text, b"thead")
}

#[tactic(auto, unfolding(escaped_texts::specs::Elements::element))]
fn put_pair_rows(
    alloc: Global,
    text: &mut Vec<u8>,
    models: &[ReportedModel<'_>],
    tests: &[ReportedTest<'_>],
) -> Result<(), AllocError>
    ensures { OnOk result (text.new.items
        ≡ text.old.items
        ++ element (codes "tbody") [] (difference_rows tests.now models.now 0 models.now)) }
{
    put_open(text, b"tbody", &[])?;
    put_difference_rows(alloc, text, tests, models)?;
    put_close(text, b"tbody")
}

#[tactic(auto, unfolding(crate::specs::Page::wrapped_table, escaped_texts::specs::Elements::element))]
fn put_pair_table(
    alloc: Global,
    text: &mut Vec<u8>,
    models: &[ReportedModel<'_>],
    tests: &[ReportedTest<'_>],
) -> Result<(), AllocError>
    ensures { OnOk result (text.new.items
        ≡ text.old.items
        ++ page.wrapped_table (page.table_class (length models.now)) (page.heads [] models.now)
        (difference_rows tests.now models.now 0 models.now)) }
{
    open_wrapped(text, table_class(models.len()))?;
    put_heads(text, b"", models)?;
    put_pair_rows(alloc, text, models, tests)?;
    put_close(text, b"table")?;
    put_close(text, b"div")
}

#[tactic(auto, unfolding(crate::specs::Page::differences, escaped_texts::specs::Elements::element))]
fn put_differences(
    alloc: Global,
    text: &mut Vec<u8>,
    models: &[ReportedModel<'_>],
    tests: &[ReportedTest<'_>],
) -> Result<(), AllocError>
    ensures { OnOk result (text.new.items
        ≡ text.old.items ++ page.differences models.now tests.now) }
{
    put_open(text, b"div", &[])?;
    put_element(text, b"h2", &[], b"Tests on which two models differ")?;
    put_pair_table(alloc, text, models, tests)?;
    put_close(text, b"div")
}

#[tactic(auto, unfolding(crate::specs::Page::summary_part, escaped_texts::specs::Elements::element))]
fn put_summary(
    alloc: Global,
    text: &mut Vec<u8>,
    models: &[ReportedModel<'_>],
    tests: &[ReportedTest<'_>],
) -> Result<(), AllocError>
    ensures { OnOk result (text.new.items
        ≡ text.old.items ++ page.summary_part models.now tests.now) }
{
    put_cards_part(alloc, text, tests)?;
    open_class(text, b"div", b"two")?;
    put_observations(alloc, text, models, tests)?;
    put_differences(alloc, text, models, tests)?;
    put_close(text, b"div")
}

// ---- the table

#[tactic(auto, unfolding(crate::specs::Page::filter_words))]
fn filter_words(alloc: Global, words: &[u8], number: usize) -> Result<Vec<u8>, AllocError>
    ensures { IfOk result (λ v. v.items ≡ page.filter_words words.now number) }
{
    let mut shown = Vec::from_slice(alloc, words)?;
    put_bytes(&mut shown, b" ")?;
    put_decimal(&mut shown, number as u64)?;
    Ok(shown)
}

#[tactic(auto, unfolding(crate::specs::Page::filter_label, escaped_texts::specs::Elements::element))]
fn put_filter_label(
    alloc: Global,
    text: &mut Vec<u8>,
    id: &[u8],
    words: &[u8],
    number: usize,
) -> Result<(), AllocError>
    ensures { OnOk result (text.new.items
        ≡ text.old.items ++ page.filter_label id.now words.now number) }
{
    let shown = filter_words(alloc, words, number)?;
    open_with(text, b"label", b"for", id)?;
    put_escaped(text, &shown)?;
    put_close(text, b"label")
}

#[tactic(auto, unfolding(crate::specs::Page::agreeing_label))]
fn put_agreeing_label(
    alloc: Global,
    text: &mut Vec<u8>,
    all: usize,
    apart: usize,
) -> Result<(), AllocError>
    ensures { OnOk result (text.new.items
        ≡ text.old.items ++ page.agreeing_label all apart) }
{
    put_filter_label(alloc, text, b"w-same", b"agree", rest_of(all, apart))
}

#[tactic(auto, unfolding(crate::specs::Page::filters_text))]
fn put_filter_labels(
    alloc: Global,
    text: &mut Vec<u8>,
    all: usize,
    apart: usize,
    refused: usize,
) -> Result<(), AllocError>
    ensures { OnOk result (text.new.items
        ≡ text.old.items ++ page.filters_text all apart refused) }
{
    put_filter_label(alloc, text, b"w-all", b"all", all)?;
    put_filter_label(alloc, text, b"w-differ", b"tell models apart", apart)?;
    put_agreeing_label(alloc, text, all, apart)?;
    put_filter_label(alloc, text, b"w-refused", b"with a refusal", refused)
}

fn put_filters(
    alloc: Global,
    text: &mut Vec<u8>,
    tests: &[ReportedTest<'_>],
) -> Result<(), AllocError>
    ensures { OnOk result (text.new.items ≡ text.old.items ++ page.filters tests.now) }
{
    let apart = apart_count(alloc, tests)?;
    put_filter_labels(alloc, text, tests.len(), apart, refused_count(tests))
}

#[tactic(auto, unfolding(crate::specs::Page::grid_class))]
fn grid_class(models: usize) -> &'static [u8]
    ensures { result.now ≡ page.grid_class models }
{
    if models > 6 { b"many" } else { b"" }
}

fn open_grid(text: &mut Vec<u8>, class: &[u8]) -> Result<(), AllocError>
    ensures { OnOk result (text.new.items
        ≡ text.old.items ++ open_tag (codes "table") (page.grid_attributes class.now)) }
{
    let id = Attribute {
        name: b"id",
        value: b"grid",
    };
    let class = Attribute {
        name: b"class",
        value: class,
    };
    put_open(text, b"table", &[id, class])
}

#[tactic(auto, unfolding(escaped_texts::specs::Elements::element))]
fn put_grid_rows(
    alloc: Global,
    text: &mut Vec<u8>,
    tests: &[ReportedTest<'_>],
) -> Result<(), AllocError>
    ensures { OnOk result (text.new.items
        ≡ text.old.items ++ element (codes "tbody") [] (test_rows 0 tests.now)) }
{
    put_open(text, b"tbody", &[])?;
    put_rows(alloc, text, tests)?;
    put_close(text, b"tbody")
}

#[tactic(auto, unfolding(crate::specs::Page::grid, escaped_texts::specs::Elements::element))]
fn put_grid(
    alloc: Global,
    text: &mut Vec<u8>,
    models: &[ReportedModel<'_>],
    tests: &[ReportedTest<'_>],
) -> Result<(), AllocError>
    ensures { OnOk result (text.new.items ≡ text.old.items ++ page.grid models.now tests.now) }
{
    open_grid(text, grid_class(models.len()))?;
    put_heads(text, b"Test", models)?;
    put_grid_rows(alloc, text, tests)?;
    put_close(text, b"table")
}

#[tactic(auto, unfolding(escaped_texts::specs::Elements::element))]
fn put_wrapped_grid(
    alloc: Global,
    text: &mut Vec<u8>,
    models: &[ReportedModel<'_>],
    tests: &[ReportedTest<'_>],
) -> Result<(), AllocError>
    ensures { OnOk result (text.new.items
        ≡ text.old.items
        ++ element (codes "div") (class_of (codes "wrap big")) (page.grid models.now tests.now)) }
{
    open_class(text, b"div", b"wrap big")?;
    put_grid(alloc, text, models, tests)?;
    put_close(text, b"div")
}

#[tactic(auto, unfolding(crate::specs::Page::table_part))]
fn put_table(
    alloc: Global,
    text: &mut Vec<u8>,
    models: &[ReportedModel<'_>],
    tests: &[ReportedTest<'_>],
) -> Result<(), AllocError>
    ensures { OnOk result (text.new.items
        ≡ text.old.items ++ page.table_part models.now tests.now) }
{
    put_bytes(text, BAR)?;
    put_filters(alloc, text, tests)?;
    put_bytes(text, BAR_END)?;
    put_wrapped_grid(alloc, text, models, tests)
}

// ---- tests

#[tactic(auto, unfolding(crate::specs::Page::left_words))]
fn left_words(alloc: Global, left_out: u64) -> Result<Vec<u8>, AllocError>
    ensures { IfOk result (λ v. v.items ≡ page.left_words left_out) }
{
    let mut words = Vec::new(alloc);
    put_bytes(&mut words, b"The drawings of ")?;
    put_decimal(&mut words, left_out)?;
    put_bytes(&mut words, b" cells are left out: --most asks for more.")?;
    Ok(words)
}

#[tactic(auto, unfolding(crate::specs::Page::left_part))]
fn put_left(alloc: Global, text: &mut Vec<u8>, left_out: u64) -> Result<(), AllocError>
    ensures { OnOk result (text.new.items ≡ text.old.items ++ page.left_part left_out) }
{
    if left_out == 0 {
        return Ok(());
    }
    let words = left_words(alloc, left_out)?;
    put_element(text, b"p", &[], &words)
}

#[tactic(auto, unfolding(crate::specs::Page::refusals_part))]
fn put_refusals(text: &mut Vec<u8>, refusals: &[u8]) -> Result<(), AllocError>
    ensures { OnOk result (text.new.items ≡ text.old.items ++ page.refusals_part refusals.now) }
{
    if refusals.is_empty() {
        return Ok(());
    }
    put_element(text, b"h2", &[], b"Refused texts")?;
    put_element(text, b"pre", &[], refusals)
}

fn put_legend(text: &mut Vec<u8>) -> Result<(), AllocError>
    ensures { OnOk result (text.new.items ≡ text.old.items ++ LEGEND.now) }
{
    put_bytes(text, LEGEND)
}

#[tactic(auto, unfolding(crate::specs::Page::tests_part))]
fn put_told_tests(
    alloc: Global,
    text: &mut Vec<u8>,
    models: &[ReportedModel<'_>],
    tests: &[ReportedTest<'_>],
    left_out: u64,
    refusals: &[u8],
) -> Result<(), AllocError>
    ensures { OnOk result (text.new.items
        ≡ text.old.items ++ page.tests_part models.now tests.now left_out refusals.now) }
{
    put_legend(text)?;
    put_left(alloc, text, left_out)?;
    put_tests(alloc, text, models, tests)?;
    put_refusals(text, refusals)
}

fn put_tests_part(
    alloc: Global,
    text: &mut Vec<u8>,
    models: &[ReportedModel<'_>],
    tests: &[ReportedTest<'_>],
    extras: &Extras<'_>,
) -> Result<(), AllocError>
    ensures { OnOk result (text.new.items
        ≡ text.old.items
        ++ page.tests_part models.now tests.now extras.now.left_out extras.now.refusals) }
{
    put_told_tests(alloc, text, models, tests, extras.left_out, extras.refusals)
}

// ---- models

#[tactic(auto, unfolding(crate::specs::Page::model_attributes))]
fn open_model(alloc: Global, text: &mut Vec<u8>, number: usize) -> Result<(), AllocError>
    ensures { OnOk result (text.new.items
        ≡ text.old.items ++ open_tag (codes "details") (page.model_attributes number)) }
{
    let id = numbered(alloc, b"m", number)?;
    let attributes = [
        Attribute {
            name: b"class",
            value: b"t",
        },
        Attribute {
            name: b"id",
            value: &id,
        },
    ];
    put_open(text, b"details", &attributes)
}

#[tactic(auto, unfolding(escaped_texts::specs::Elements::element))]
fn put_model_name(text: &mut Vec<u8>, name: &[u8]) -> Result<(), AllocError>
    ensures { OnOk result (text.new.items
        ≡ text.old.items ++ element (codes "summary") [] (heading (codes "b") name.now)) }
{
    put_open(text, b"summary", &[])?;
    put_element(text, b"b", &[], name)?;
    put_close(text, b"summary")
}

#[tactic(auto, unfolding(crate::specs::Page::model_text, escaped_texts::specs::Elements::element))]
fn put_model_text(text: &mut Vec<u8>, shown: &[u8]) -> Result<(), AllocError>
    ensures { OnOk result (text.new.items ≡ text.old.items ++ page.model_text shown.now) }
{
    open_class(text, b"div", b"body")?;
    put_element(text, b"pre", &[], shown)?;
    put_close(text, b"div")
}

#[tactic(auto, unfolding(crate::specs::Page::model_details, escaped_texts::specs::Elements::element))]
fn put_model(
    alloc: Global,
    text: &mut Vec<u8>,
    number: usize,
    model: &ReportedModel<'_>,
) -> Result<(), AllocError>
    ensures { OnOk result (text.new.items
        ≡ text.old.items ++ page.model_details number model.now) }
{
    open_model(alloc, text, number)?;
    put_model_name(text, model.name)?;
    put_model_text(text, model.text)?;
    put_close(text, b"details")
}

fn put_models(
    alloc: Global,
    text: &mut Vec<u8>,
    models: &[ReportedModel<'_>],
) -> Result<(), AllocError>
    ensures { OnOk result (text.new.items ≡ text.old.items ++ page.models_details 0 models.now) }
{
    for (number, model) in models.iter().enumerate() {
        put_model(alloc, text, number, model)?;
    }
    Ok(())
}

#[tactic(auto, unfolding(crate::specs::Page::models_part))]
fn put_models_part(
    alloc: Global,
    text: &mut Vec<u8>,
    models: &[ReportedModel<'_>],
) -> Result<(), AllocError>
    ensures { OnOk result (text.new.items ≡ text.old.items ++ page.models_part models.now) }
{
    put_element(text, b"h2", &[], b"Models")?;
    put_models(alloc, text, models)
}

// ---- the whole

#[tactic(auto, unfolding(crate::specs::Page::content))]
fn put_content(
    alloc: Global,
    text: &mut Vec<u8>,
    models: &[ReportedModel<'_>],
    tests: &[ReportedTest<'_>],
    extras: &Extras<'_>,
) -> Result<(), AllocError>
    ensures { OnOk result (text.new.items
        ≡ text.old.items ++ page.content models.now tests.now extras.now) }
{
    put_summary(alloc, text, models, tests)?;
    put_table(alloc, text, models, tests)?;
    put_tests_part(alloc, text, models, tests, extras)?;
    put_models_part(alloc, text, models)
}

#[tactic(auto, unfolding(escaped_texts::specs::Elements::element))]
fn put_main(
    alloc: Global,
    text: &mut Vec<u8>,
    models: &[ReportedModel<'_>],
    tests: &[ReportedTest<'_>],
    extras: &Extras<'_>,
) -> Result<(), AllocError>
    ensures { OnOk result (text.new.items
        ≡ text.old.items
        ++ element (codes "main") [] (page.content models.now tests.now extras.now)) }
{
    put_open(text, b"main", &[])?;
    put_content(alloc, text, models, tests, extras)?;
    put_close(text, b"main")
}

#[tactic(auto, unfolding(crate::specs::Page::front_part))]
fn put_front(text: &mut Vec<u8>) -> Result<(), AllocError>
    ensures { OnOk result (text.new.items ≡ text.old.items ++ page.front_part) }
{
    open_with(text, b"html", b"lang", b"en")?;
    put_bytes(text, FRONT)?;
    put_bytes(text, STYLE)?;
    put_bytes(text, MORE_STYLE)?;
    put_bytes(text, BODY)
}

#[tactic(auto, unfolding(crate::specs::Page::type_line))]
fn put_type(text: &mut Vec<u8>) -> Result<(), AllocError>
    ensures { OnOk result (text.new.items ≡ text.old.items ++ page.type_line) }
{
    put_bytes(text, b"<!DOCTYPE html>\n")
}

/// Appends the page of these tests under these models. Errors: want of memory.
#[tactic(auto, unfolding(crate::specs::Page::report_page))]
pub fn put_page(
    alloc: Global,
    text: &mut Vec<u8>,
    models: &[ReportedModel<'_>],
    tests: &[ReportedTest<'_>],
    extras: &Extras<'_>,
) -> Result<(), AllocError>
    ensures { OnOk result (text.new.items
        ≡ text.old.items ++ page.report_page models.now tests.now extras.now) }
{
    put_type(text)?;
    put_front(text)?;
    put_title(alloc, text, models, tests.len())?;
    put_main(alloc, text, models, tests, extras)?;
    put_bytes(text, FOOT)
}
