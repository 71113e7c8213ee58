//! Prints the items of a model with their numbers.

ghost use Rattle.std.specs.Prelude.{◌≡◌, ◌++◌, ◌∷◌, [], OnOk, IfOk, option_map};
ghost use Rattle.text_values.specs.ModelValues.{clause_of};
ghost use Rattle.bench_texts.specs.Printed.{numbered_line, printed_items};
ghost use Rattle.bench_texts.specs.Replacements.{printed_by};

use crate::model::NamedModel;
use crate::replacement::Replacement;
use cat_syntax::print_item;
use std::alloc::{AllocError, Global};
use text_values::{Item, put_bytes, put_decimal};

// Appends the line of an item.
fn put_line(alloc: Global, text: &mut Vec<u8>, number: u64, item: &Item) -> Result<(), AllocError>
    ensures { OnOk result (text.new.items
        ≡ text.old.items ++ (numbered_line
        (record { number = number; clause = clause_of item.now }) ++ 10 ∷ [])) }
{
    put_decimal(text, number)?;
    put_bytes(text, b" ")?;
    put_bytes(text, &print_item(alloc, item)?)?;
    put_bytes(text, b"\n")
}

impl NamedModel {
    ghost use Rattle.bench_texts.specs.Held.{plain_model};

    /// The printed items in their order, each on a line of its own: its number, a space, the item.
    /// Errors: want of memory.
    pub fn print_items(&self, alloc: Global) -> Result<Vec<u8>, AllocError>
        ensures { IfOk result (λ v. v.items ≡ printed_items (plain_model self.now).items) }
    {
        let mut text = Vec::new(alloc);
        for (number, item) in self.numbers().iter().zip(self.text().items.iter()) {
            put_line(alloc, &mut text, *number, item)?;
        }
        Ok(text)
    }
}

// The printed items of a model that is put. Errors: want of memory.
pub(crate) fn print_put(
    alloc: Global,
    replacement: &Replacement,
) -> Result<Option<Vec<u8>>, AllocError>
    ensures { IfOk result (λ o. option_map (λ v. v.items) o ≡ printed_by replacement.now) }
{
    match replacement {
        Replacement::PutModel { model, .. } => Ok(Some(model.print_items(alloc)?)),
        Replacement::PutTest { .. } => Ok(None),
        Replacement::DropTest { .. } => Ok(None),
        Replacement::DropModel { .. } => Ok(None),
    }
}
