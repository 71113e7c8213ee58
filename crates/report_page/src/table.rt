//! The table.

ghost use Rattle.std.specs.Prelude.{◌≡◌, ◌++◌, IfOk, OnOk, codes};
ghost use Rattle.escaped_texts.specs.Elements.{open_tag};
ghost use Rattle.report_page.specs.Table.{column_head, column_heads, cell_class, group_mark, cell_text, cells_text, test_link, row_attributes, test_row_attributes, grouped_row, test_row, test_rows};

use escaped_texts::{Attribute, put_close, put_element, put_escaped, put_open};
use report_details::{
    ReportedModel, ReportedTest, groups_of, has_other, is_other, keys_text, numbered, open_class,
    open_with, put_if, put_letter, put_result, result_class, test_class,
};
use std::alloc::{AllocError, Global};
use text_values::put_bytes;
use verdict::{Outcome, OutcomeResult};

#[tactic(auto, unfolding(crate::specs::Table::column_head, escaped_texts::specs::Elements::element))]
fn put_column_head(text: &mut Vec<u8>, model: &ReportedModel<'_>) -> Result<(), AllocError>
    ensures { OnOk result (text.new.items ≡ text.old.items ++ column_head model.now) }
{
    open_with(text, b"th", b"scope", b"col")?;
    put_element(text, b"span", &[], model.name)?;
    put_close(text, b"th")
}

/// Appends the names of the models over their columns. Errors: want of memory.
pub fn put_column_heads(text: &mut Vec<u8>, models: &[ReportedModel<'_>]) -> Result<(), AllocError>
    ensures { OnOk result (text.new.items ≡ text.old.items ++ column_heads models.now) }
{
    for model in models {
        put_column_head(text, model)?;
    }
    Ok(())
}

#[tactic(auto, unfolding(crate::specs::Table::cell_class))]
fn cell_class(alloc: Global, found: &OutcomeResult, group: usize) -> Result<Vec<u8>, AllocError>
    ensures { IfOk result (λ v. v.items ≡ cell_class found.now group) }
{
    let mut class = Vec::from_slice(alloc, result_class(found))?;
    put_if(&mut class, is_other(group), b" g")?;
    Ok(class)
}

#[tactic(auto, unfolding(crate::specs::Table::group_mark, escaped_texts::specs::Elements::element))]
fn put_group_mark(text: &mut Vec<u8>, is_apart: bool, group: usize) -> Result<(), AllocError>
    ensures { OnOk result (text.new.items ≡ text.old.items ++ group_mark is_apart group) }
{
    if !is_apart {
        return Ok(());
    }
    put_open(text, b"sup", &[])?;
    put_letter(text, group)?;
    put_close(text, b"sup")
}

#[tactic(auto, unfolding(crate::specs::Table::cell_text, escaped_texts::specs::Elements::element))]
fn put_cell_text(
    alloc: Global,
    text: &mut Vec<u8>,
    is_apart: bool,
    found: &OutcomeResult,
    group: usize,
) -> Result<(), AllocError>
    ensures { OnOk result (text.new.items ≡ text.old.items ++ cell_text is_apart found.now group) }
{
    let class = cell_class(alloc, found, group)?;
    open_class(text, b"td", &class)?;
    put_result(alloc, text, found)?;
    put_group_mark(text, is_apart, group)?;
    put_close(text, b"td")
}

fn put_cells(
    alloc: Global,
    text: &mut Vec<u8>,
    is_apart: bool,
    outcomes: &[Outcome],
    groups: &[usize],
) -> Result<(), AllocError>
    ensures { OnOk result (text.new.items
        ≡ text.old.items ++ cells_text is_apart outcomes.now groups.now) }
{
    for (model, outcome) in outcomes.iter().enumerate() {
        match groups.get(model).copied() {
            None => return Ok(()),
            Some(group) => put_cell_text(alloc, text, is_apart, &outcome.result, group)?,
        }
    }
    Ok(())
}

#[tactic(auto, unfolding(crate::specs::Table::test_link, escaped_texts::specs::Elements::element))]
fn put_test_link(
    alloc: Global,
    text: &mut Vec<u8>,
    number: usize,
    name: &[u8],
) -> Result<(), AllocError>
    ensures { OnOk result (text.new.items ≡ text.old.items ++ test_link number name.now) }
{
    let link = numbered(alloc, b"#t", number)?;
    open_with(text, b"th", b"scope", b"row")?;
    open_with(text, b"a", b"href", &link)?;
    put_escaped(text, name)?;
    put_close(text, b"a")?;
    put_close(text, b"th")
}

fn put_row_open<'a>(
    text: &mut Vec<u8>,
    class: &'a [u8],
    name: &'a [u8],
    keys: &'a [u8],
) -> Result<(), AllocError>
    ensures { OnOk result (text.new.items
        ≡ text.old.items
        ++ open_tag (codes "tr") (row_attributes class.now name.now keys.now)) }
{
    let attributes = [
        Attribute {
            name: b"class",
            value: class,
        },
        Attribute {
            name: b"data-n",
            value: name,
        },
        Attribute {
            name: b"data-k",
            value: keys,
        },
    ];
    put_open(text, b"tr", &attributes)
}

// Opens the row of a test, which the filters show or hide.
fn put_test_open(
    alloc: Global,
    text: &mut Vec<u8>,
    test: &ReportedTest<'_>,
    groups: &[usize],
) -> Result<(), AllocError>
    ensures { OnOk result (text.new.items
        ≡ text.old.items
        ++ open_tag (codes "tr") (test_row_attributes test.now groups.now)) }
{
    let class = test_class(alloc, test.outcomes, has_other(groups))?;
    let keys = keys_text(alloc, groups)?;
    put_row_open(text, &class, test.name, &keys)
}

#[tactic(auto, unfolding(crate::specs::Table::grouped_row, escaped_texts::specs::Elements::element))]
fn put_grouped(
    alloc: Global,
    text: &mut Vec<u8>,
    number: usize,
    test: &ReportedTest<'_>,
    groups: &[usize],
) -> Result<(), AllocError>
    ensures { OnOk result (text.new.items
        ≡ text.old.items ++ grouped_row number test.now groups.now) }
{
    put_test_open(alloc, text, test, groups)?;
    put_test_link(alloc, text, number, test.name)?;
    put_cells(alloc, text, has_other(groups), test.outcomes, groups)?;
    put_close(text, b"tr")
}

fn put_row(
    alloc: Global,
    text: &mut Vec<u8>,
    number: usize,
    test: &ReportedTest<'_>,
) -> Result<(), AllocError>
    ensures { OnOk result (text.new.items ≡ text.old.items ++ test_row number test.now) }
{
    let groups = groups_of(alloc, test.outcomes)?;
    put_grouped(alloc, text, number, test, &groups)
}

/// Appends the rows of the tests, each on a line. Errors: want of memory.
pub fn put_rows(
    alloc: Global,
    text: &mut Vec<u8>,
    tests: &[ReportedTest<'_>],
) -> Result<(), AllocError>
    ensures { OnOk result (text.new.items ≡ text.old.items ++ test_rows 0 tests.now) }
{
    for (number, test) in tests.iter().enumerate() {
        put_row(alloc, text, number, test)?;
        put_bytes(text, b"\n")?;
    }
    Ok(())
}
