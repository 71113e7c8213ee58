//! What is said of each test.

ghost use Rattle.std.specs.Prelude.{◌≡◌, ◌++◌, IfOk, OnOk, codes, map};
ghost use Rattle.std.specs.List.{flat_map};
ghost use Rattle.escaped_texts.specs.Elements.{open_tag, element};
ghost use Rattle.report_details.specs.Marks.{class_of};
ghost use Rattle.report_details.specs.Details.{chip_class, chip, chip_of, chips, flag_words, flag_text, result_flags, flags_text, condition_part, first_condition, text_part, two_parts, body_text, details_class, details_attributes, test_attributes, summary_text, test_in_groups, grouped_test, test_details, tests_details};

use crate::around::{numbered, open_class};
use crate::figures::put_figures;
use crate::groups::{groups_of, has_other, keys_text};
use crate::marks::{put_result, result_class, test_class};
use crate::names::{firsts_of, group_text};
use crate::reported::{ReportedModel, ReportedTest};
use crate::state_table::put_states;
use escaped_texts::{Attribute, put_close, put_element, put_escaped, put_open};
use std::alloc::{AllocError, Global};
use text_values::{Name, put_bytes};
use verdict::{Outcome, OutcomeResult};

#[tactic(auto, unfolding(crate::specs::Details::chip_class))]
fn chip_class(alloc: Global, found: &OutcomeResult) -> Result<Vec<u8>, AllocError>
    ensures { IfOk result (λ v. v.items ≡ chip_class found.now) }
{
    let mut class = Vec::from_slice(alloc, b"chip ")?;
    put_bytes(&mut class, result_class(found))?;
    Ok(class)
}

#[tactic(auto, unfolding(crate::specs::Details::chip, escaped_texts::specs::Elements::element))]
fn put_chip(
    alloc: Global,
    text: &mut Vec<u8>,
    group: &[u8],
    found: &OutcomeResult,
) -> Result<(), AllocError>
    ensures { OnOk result (text.new.items ≡ text.old.items ++ chip group.now found.now) }
{
    let class = chip_class(alloc, found)?;
    open_class(text, b"span", &class)?;
    put_escaped(text, group)?;
    put_escaped(text, b": ")?;
    put_result(alloc, text, found)?;
    put_close(text, b"span")
}

// What a group says.
fn put_group_chip(
    alloc: Global,
    text: &mut Vec<u8>,
    models: &[ReportedModel<'_>],
    groups: &[usize],
    outcomes: &[Outcome],
    first: usize,
) -> Result<(), AllocError>
    ensures { OnOk result (text.new.items
        ≡ text.old.items ++ chip_of models.now groups.now outcomes.now first) }
{
    match outcomes.get(first) {
        None => Ok(()),
        Some(outcome) => {
            let group = group_text(alloc, models, groups, first)?;
            put_chip(alloc, text, &group, &outcome.result)
        }
    }
}

// What each group says.
fn put_chips(
    alloc: Global,
    text: &mut Vec<u8>,
    models: &[ReportedModel<'_>],
    groups: &[usize],
    firsts: &[usize],
    outcomes: &[Outcome],
) -> Result<(), AllocError>
    ensures { OnOk result (text.new.items
        ≡ text.old.items ++ chips models.now groups.now firsts.now outcomes.now) }
{
    for first in firsts {
        put_group_chip(alloc, text, models, groups, outcomes, *first)?;
    }
    Ok(())
}

#[tactic(auto, unfolding(crate::specs::Details::flag_words))]
fn flag_words(alloc: Global, model: &[u8], flag: &[u8]) -> Result<Vec<u8>, AllocError>
    ensures { IfOk result (λ v. v.items ≡ flag_words model.now flag.now) }
{
    let mut words = Vec::from_slice(alloc, model)?;
    put_bytes(&mut words, b" raises the flag ")?;
    put_bytes(&mut words, flag)?;
    Ok(words)
}

#[tactic(auto, unfolding(crate::specs::Details::flag_text))]
fn put_flag(alloc: Global, text: &mut Vec<u8>, model: &[u8], flag: &Name) -> Result<(), AllocError>
    ensures { OnOk result (text.new.items ≡ text.old.items ++ flag_text model.now flag.now) }
{
    let words = flag_words(alloc, model, flag.as_bytes())?;
    put_element(text, b"p", &[], &words)
}

fn put_flag_lines(
    alloc: Global,
    text: &mut Vec<u8>,
    model: &[u8],
    flags: &[Name],
) -> Result<(), AllocError>
    ensures { OnOk result (text.new.items
        ≡ text.old.items ++ flat_map (flag_text model.now) flags.now) }
{
    for flag in flags {
        put_flag(alloc, text, model, flag)?;
    }
    Ok(())
}

fn put_flags(
    alloc: Global,
    text: &mut Vec<u8>,
    model: &[u8],
    found: &OutcomeResult,
) -> Result<(), AllocError>
    ensures { OnOk result (text.new.items ≡ text.old.items ++ result_flags model.now found.now) }
{
    match found {
        OutcomeResult::Refused(_) => Ok(()),
        OutcomeResult::Evaluated(found) => put_flag_lines(alloc, text, model, &found.flags),
    }
}

fn put_all_flags(
    alloc: Global,
    text: &mut Vec<u8>,
    models: &[ReportedModel<'_>],
    outcomes: &[Outcome],
) -> Result<(), AllocError>
    ensures { OnOk result (text.new.items
        ≡ text.old.items ++ flags_text models.now outcomes.now) }
{
    for (number, model) in models.iter().enumerate() {
        match outcomes.get(number) {
            None => return Ok(()),
            Some(outcome) => put_flags(alloc, text, model.name, &outcome.result)?,
        }
    }
    Ok(())
}

#[tactic(auto, unfolding(crate::specs::Details::condition_part, escaped_texts::specs::Elements::element))]
fn put_condition(text: &mut Vec<u8>, condition: &[u8]) -> Result<(), AllocError>
    ensures { OnOk result (text.new.items ≡ text.old.items ++ condition_part condition.now) }
{
    put_open(text, b"p", &[])?;
    put_escaped(text, b"Condition ")?;
    put_element(text, b"code", &[], condition)?;
    put_close(text, b"p")
}

fn put_first_condition(text: &mut Vec<u8>, outcomes: &[Outcome]) -> Result<(), AllocError>
    ensures { OnOk result (text.new.items ≡ text.old.items ++ first_condition outcomes.now) }
{
    match outcomes.get(0) {
        None => Ok(()),
        Some(outcome) => put_condition(text, &outcome.condition),
    }
}

#[tactic(auto, unfolding(crate::specs::Details::text_part, escaped_texts::specs::Elements::element))]
fn put_text_part(text: &mut Vec<u8>, shown: &[u8]) -> Result<(), AllocError>
    ensures { OnOk result (text.new.items ≡ text.old.items ++ text_part shown.now) }
{
    put_open(text, b"div", &[])?;
    put_element(text, b"h3", &[], b"Text")?;
    put_element(text, b"pre", &[], shown)?;
    put_close(text, b"div")
}

#[tactic(auto, unfolding(crate::specs::Details::two_parts, escaped_texts::specs::Elements::element))]
fn put_two_parts(
    alloc: Global,
    text: &mut Vec<u8>,
    models: &[ReportedModel<'_>],
    test: &ReportedTest<'_>,
    groups: &[usize],
    firsts: &[usize],
) -> Result<(), AllocError>
    ensures { OnOk result (text.new.items
        ≡ text.old.items ++ two_parts models.now test.now groups.now firsts.now) }
{
    open_class(text, b"div", b"two")?;
    put_text_part(text, test.text)?;
    put_states(alloc, text, models, groups, firsts, test.outcomes)?;
    put_close(text, b"div")
}

#[tactic(auto, unfolding(crate::specs::Details::body_text))]
fn put_body(
    alloc: Global,
    text: &mut Vec<u8>,
    models: &[ReportedModel<'_>],
    test: &ReportedTest<'_>,
    groups: &[usize],
    firsts: &[usize],
) -> Result<(), AllocError>
    ensures { OnOk result (text.new.items
        ≡ text.old.items ++ body_text models.now test.now groups.now firsts.now) }
{
    put_first_condition(text, test.outcomes)?;
    put_two_parts(alloc, text, models, test, groups, firsts)?;
    put_all_flags(alloc, text, models, test.outcomes)?;
    put_figures(alloc, text, models, test.drawings)
}

// The class of the element of a test.
#[tactic(auto, unfolding(crate::specs::Details::details_class))]
fn details_class(
    alloc: Global,
    outcomes: &[Outcome],
    groups: &[usize],
) -> Result<Vec<u8>, AllocError>
    ensures { IfOk result (λ v. v.items ≡ details_class outcomes.now groups.now) }
{
    let kind = test_class(alloc, outcomes, has_other(groups))?;
    let mut class = Vec::from_slice(alloc, b"t ")?;
    put_bytes(&mut class, &kind)?;
    Ok(class)
}

fn put_details_open<'a>(
    text: &mut Vec<u8>,
    class: &'a [u8],
    id: &'a [u8],
    name: &'a [u8],
    keys: &'a [u8],
) -> Result<(), AllocError>
    ensures { OnOk result (text.new.items
        ≡ text.old.items
        ++ open_tag (codes "details") (details_attributes class.now id.now name.now keys.now)) }
{
    let attributes = [
        Attribute {
            name: b"class",
            value: class,
        },
        Attribute {
            name: b"id",
            value: id,
        },
        Attribute {
            name: b"data-n",
            value: name,
        },
        Attribute {
            name: b"data-k",
            value: keys,
        },
    ];
    put_open(text, b"details", &attributes)
}

// Opens the element of a test, which the filters show or hide.
fn put_test_open(
    alloc: Global,
    text: &mut Vec<u8>,
    number: usize,
    test: &ReportedTest<'_>,
    groups: &[usize],
) -> Result<(), AllocError>
    ensures { OnOk result (text.new.items
        ≡ text.old.items
        ++ open_tag (codes "details") (test_attributes number test.now groups.now)) }
{
    let class = details_class(alloc, test.outcomes, groups)?;
    let keys = keys_text(alloc, groups)?;
    let id = numbered(alloc, b"t", number)?;
    put_details_open(text, &class, &id, test.name, &keys)
}

#[tactic(auto, unfolding(crate::specs::Details::summary_text, escaped_texts::specs::Elements::element))]
fn put_summary(
    alloc: Global,
    text: &mut Vec<u8>,
    models: &[ReportedModel<'_>],
    test: &ReportedTest<'_>,
    groups: &[usize],
    firsts: &[usize],
) -> Result<(), AllocError>
    ensures { OnOk result (text.new.items
        ≡ text.old.items ++ summary_text models.now test.now groups.now firsts.now) }
{
    put_open(text, b"summary", &[])?;
    put_element(text, b"b", &[], test.name)?;
    put_chips(alloc, text, models, groups, firsts, test.outcomes)?;
    put_close(text, b"summary")
}

#[tactic(auto, unfolding(escaped_texts::specs::Elements::element))]
fn put_opened(
    alloc: Global,
    text: &mut Vec<u8>,
    models: &[ReportedModel<'_>],
    test: &ReportedTest<'_>,
    groups: &[usize],
    firsts: &[usize],
) -> Result<(), AllocError>
    ensures { OnOk result (text.new.items
        ≡ text.old.items
        ++ element (codes "div") (class_of (codes "body"))
        (body_text models.now test.now groups.now firsts.now)) }
{
    open_class(text, b"div", b"body")?;
    put_body(alloc, text, models, test, groups, firsts)?;
    put_close(text, b"div")
}

#[tactic(auto, unfolding(crate::specs::Details::test_in_groups, escaped_texts::specs::Elements::element))]
fn put_in_groups(
    alloc: Global,
    text: &mut Vec<u8>,
    models: &[ReportedModel<'_>],
    number: usize,
    test: &ReportedTest<'_>,
    groups: &[usize],
    firsts: &[usize],
) -> Result<(), AllocError>
    ensures { OnOk result (text.new.items
        ≡ text.old.items ++ test_in_groups models.now number test.now groups.now firsts.now) }
{
    put_test_open(alloc, text, number, test, groups)?;
    put_summary(alloc, text, models, test, groups, firsts)?;
    put_opened(alloc, text, models, test, groups, firsts)?;
    put_close(text, b"details")
}

fn put_grouped(
    alloc: Global,
    text: &mut Vec<u8>,
    models: &[ReportedModel<'_>],
    number: usize,
    test: &ReportedTest<'_>,
    groups: &[usize],
) -> Result<(), AllocError>
    ensures { OnOk result (text.new.items
        ≡ text.old.items ++ grouped_test models.now number test.now groups.now) }
{
    let firsts = firsts_of(alloc, groups)?;
    put_in_groups(alloc, text, models, number, test, groups, &firsts)
}

fn put_test(
    alloc: Global,
    text: &mut Vec<u8>,
    models: &[ReportedModel<'_>],
    number: usize,
    test: &ReportedTest<'_>,
) -> Result<(), AllocError>
    ensures { OnOk result (text.new.items
        ≡ text.old.items ++ test_details models.now number test.now) }
{
    let groups = groups_of(alloc, test.outcomes)?;
    put_grouped(alloc, text, models, number, test, &groups)
}

/// Appends what is said of each test, on a line of its own. Errors: want of memory.
pub fn put_tests(
    alloc: Global,
    text: &mut Vec<u8>,
    models: &[ReportedModel<'_>],
    tests: &[ReportedTest<'_>],
) -> Result<(), AllocError>
    ensures { OnOk result (text.new.items
        ≡ text.old.items ++ tests_details models.now 0 tests.now) }
{
    for (number, test) in tests.iter().enumerate() {
        put_test(alloc, text, models, number, test)?;
        put_bytes(text, b"\n")?;
    }
    Ok(())
}
