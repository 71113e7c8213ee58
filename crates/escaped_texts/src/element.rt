//! Elements, as bytes.

ghost use Rattle.std.specs.Prelude.{◌≡◌, ◌++◌, OnOk};
ghost use Rattle.std.specs.List.{flat_map};
ghost use Rattle.escaped_texts.specs.Escaped.{escaped};
ghost use Rattle.escaped_texts.specs.Elements.{attribute_text, open_tag, close_tag, element};

use crate::escape::put_escaped;
use std::alloc::AllocError;
use std::marker::Model;

/// An attribute, which contracts see as its name and its value.
#[derive(Drop)]
pub struct Attribute<'a> {
    /// The name.
    pub name: &'a [u8],
    /// The value, of any bytes.
    pub value: &'a [u8],
}

impl<'a> Model for Attribute<'a> {
    ghost use Rattle.std.specs.Prelude.{List, ℕ};

    ghost Value = { List ℕ × List ℕ };

    ghost view = { λ a. (a.name.now, a.value.now) };
}

/// Appends an attribute, its value escaped. Errors: want of memory.
#[tactic(auto, unfolding(crate::specs::Elements::attribute_text))]
pub fn put_attribute(text: &mut Vec<u8>, name: &[u8], value: &[u8]) -> Result<(), AllocError>
    ensures { OnOk result (text.new.items
        ≡ text.old.items ++ attribute_text (name.now, value.now)) }
{
    text.extend_from_slice(b" ")?;
    text.extend_from_slice(name)?;
    text.extend_from_slice(b"=\"")?;
    put_escaped(text, value)?;
    text.extend_from_slice(b"\"")
}

fn put_given(text: &mut Vec<u8>, attribute: &Attribute<'_>) -> Result<(), AllocError>
    ensures { OnOk result (text.new.items ≡ text.old.items ++ attribute_text attribute.now) }
{
    put_attribute(text, attribute.name, attribute.value)
}

fn put_attributes(text: &mut Vec<u8>, attributes: &[Attribute<'_>]) -> Result<(), AllocError>
    ensures { OnOk result (text.new.items
        ≡ text.old.items ++ flat_map attribute_text attributes.now) }
{
    for attribute in attributes {
        put_given(text, attribute)?;
    }
    Ok(())
}

/// Appends the tag that opens an element. Errors: want of memory.
#[tactic(auto, unfolding(crate::specs::Elements::open_tag))]
pub fn put_open(
    text: &mut Vec<u8>,
    name: &[u8],
    attributes: &[Attribute<'_>],
) -> Result<(), AllocError>
    ensures { OnOk result (text.new.items ≡ text.old.items ++ open_tag name.now attributes.now) }
{
    text.extend_from_slice(b"<")?;
    text.extend_from_slice(name)?;
    put_attributes(text, attributes)?;
    text.extend_from_slice(b">")
}

/// Appends the tag that closes an element. Errors: want of memory.
#[tactic(auto, unfolding(crate::specs::Elements::close_tag))]
pub fn put_close(text: &mut Vec<u8>, name: &[u8]) -> Result<(), AllocError>
    ensures { OnOk result (text.new.items ≡ text.old.items ++ close_tag name.now) }
{
    text.extend_from_slice(b"</")?;
    text.extend_from_slice(name)?;
    text.extend_from_slice(b">")
}

/// Appends an element that holds a text, escaped. Errors: want of memory.
#[tactic(auto, unfolding(crate::specs::Elements::element))]
pub fn put_element(
    text: &mut Vec<u8>,
    name: &[u8],
    attributes: &[Attribute<'_>],
    inside: &[u8],
) -> Result<(), AllocError>
    ensures { OnOk result (text.new.items
        ≡ text.old.items ++ element name.now attributes.now (escaped inside.now)) }
{
    put_open(text, name, attributes)?;
    put_escaped(text, inside)?;
    put_close(text, name)
}
