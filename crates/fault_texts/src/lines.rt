//! The lines of a model's fault.

ghost use Rattle.std.specs.Prelude.{◌≡◌, ◌++◌, ◌<◌, ◌^◌, ◌-◌, map, IfOk, OnOk};
ghost use Rattle.binding_kinds.specs.Value.{bare_item as kind_clause};
ghost use Rattle.fault_texts.specs.Found.{IsItemFault};
ghost use Rattle.text_values.specs.ModelValues.{clause_of};
ghost use Rattle.fault_texts.specs.Told.{item_number, fault_told, IsModelFaultText};

use crate::items::first_fault;
use crate::line::put_rule;
use crate::place::ItemFault;
use crate::words::rule_words;
use cat_printing::print_item;
use std::alloc::{AllocError, Global};
use text_values::{Item, put_bytes, put_decimal};

const LETTER: u8 = b'M';

#[tactic(auto, unfolding(crate::specs::Told::fault_told))]
fn put_fault(
    lines: &mut Vec<u8>,
    alloc: Global,
    name: &[u8],
    number: u64,
    place: &ItemFault<'_>,
    item: &Item,
) -> Result<(), AllocError>
    ensures { OnOk result (lines.new.items
        ≡ lines.old.items
        ++ fault_told name.now number place.now.fault place.now.sign.now
        (clause_of item.now)) }
{
    let number_of_fault = place.fault.number();
    put_bytes(lines, name)?;
    put_bytes(lines, b": item ")?;
    put_decimal(lines, number)?;
    put_bytes(lines, b": ")?;
    put_rule(
        lines,
        LETTER,
        number_of_fault,
        rule_words(LETTER, number_of_fault).as_bytes(),
    )?;
    put_bytes(lines, b", found `")?;
    put_bytes(lines, place.sign)?;
    put_bytes(lines, b"`\n")?;
    put_bytes(lines, &print_item(alloc, item)?)?;
    put_bytes(lines, b"\n")
}

// The number of the item at an index.
fn item_number(numbers: &[u64], index: usize) -> u64
    requires { index < 2 ^ 64 - 1 }
    ensures { result ≡ item_number numbers.now index }
{
    match numbers.get(index) {
        Some(number) => *number,
        None => index as u64 + 1,
    }
}

// What is told of a fault that stands there.
fn lines_of(
    alloc: Global,
    name: &[u8],
    numbers: &[u64],
    items: &[Item],
    place: &ItemFault<'_>,
) -> Result<Vec<u8>, AllocError>
    requires { IsItemFault (map kind_clause items.now) place.now }
    ensures { IfOk result (λ v. IsModelFaultText name.now numbers.now items.now v.items) }
{
    let item = &items[place.item];
    let number = item_number(numbers, place.item);
    let mut lines = Vec::new(alloc);
    put_fault(&mut lines, alloc, name, number, place, item)?;
    Ok(lines)
}

/// What is told of the first fault of a model of that name, whose items have these numbers or,
/// where none is given, those of their places from 1 on: nothing where the model has no fault.
/// Errors: out of memory.
pub fn model_fault_lines(
    alloc: Global,
    name: &[u8],
    numbers: &[u64],
    items: &[Item],
) -> Result<Vec<u8>, AllocError>
    ensures { IfOk result (λ v. IsModelFaultText name.now numbers.now items.now v.items) }
{
    match first_fault(alloc, items)? {
        None => Ok(Vec::new(alloc)),
        Some(place) => lines_of(alloc, name, numbers, items, &place),
    }
}
