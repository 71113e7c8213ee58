//! An element of a class, and texts that are only sometimes there.

ghost use Rattle.std.specs.Prelude.{◌≡◌, ◌++◌, IfOk, OnOk};
ghost use Rattle.escaped_texts.specs.Elements.{open_tag};
ghost use Rattle.report_details.specs.Marks.{one, class_of, text_if, numbered};

use escaped_texts::{Attribute, put_open};
use std::alloc::{AllocError, Global};
use text_values::{put_bytes, put_decimal};

/// Appends the tag that opens an element of one attribute. Errors: want of memory.
pub fn open_with<'a>(
    text: &mut Vec<u8>,
    name: &[u8],
    attribute: &'a [u8],
    value: &'a [u8],
) -> Result<(), AllocError>
    ensures { OnOk result (text.new.items
        ≡ text.old.items ++ open_tag name.now (one attribute.now value.now)) }
{
    let attribute = Attribute {
        name: attribute,
        value,
    };
    put_open(text, name, &[attribute])
}

/// Appends the tag that opens an element of this class. Errors: want of memory.
pub fn open_class(text: &mut Vec<u8>, name: &[u8], class: &[u8]) -> Result<(), AllocError>
    ensures { OnOk result (text.new.items
        ≡ text.old.items ++ open_tag name.now (class_of class.now)) }
{
    open_with(text, name, b"class", class)
}

/// Appends a text where this holds. Errors: want of memory.
pub fn put_if(text: &mut Vec<u8>, holds: bool, words: &[u8]) -> Result<(), AllocError>
    ensures { OnOk result (text.new.items ≡ text.old.items ++ text_if holds words.now) }
{
    if holds {
        put_bytes(text, words)
    } else {
        Ok(())
    }
}

/// A number behind a text. Errors: want of memory.
#[tactic(auto, unfolding(crate::specs::Marks::numbered))]
pub fn numbered(alloc: Global, front: &[u8], number: usize) -> Result<Vec<u8>, AllocError>
    ensures { IfOk result (λ v. v.items ≡ numbered front.now number) }
{
    let mut text = Vec::from_slice(alloc, front)?;
    put_decimal(&mut text, number as u64)?;
    Ok(text)
}
