//! The first fault of a model, by item and then by index.

ghost use Rattle.std.specs.Prelude.{◌≡◌, List, reverse, map, IfOk, option_map};
ghost use Rattle.binding_kinds.specs.Value.{entry_of, bare_item};
ghost use Rattle.binding_kinds.specs.Senses.{Sense, HaveSenses};
ghost use Rattle.fault_texts.specs.Search.{indexed_fault_of, first_fault_in_items};
ghost use Rattle.fault_texts.specs.Found.{IsFirstItemFault};

use crate::declare::declare_item;
use crate::place::ItemFault;
use binding_kinds::Scope;
use std::alloc::{AllocError, Global};
use text_values::Item;

/// The first fault of items over a scope.
fn find_fault<'t>(
    alloc: Global,
    scope: &mut Scope,
    items: &'t [Item],
) -> Result<Option<ItemFault<'t>>, AllocError>
    ensures { (senses : List Sense) → HaveSenses scope.old.functions.items senses
        → IfOk result (λ f. option_map indexed_fault_of f
        ≡ first_fault_in_items senses (reverse (map entry_of scope.old.entries.items)) 0
        (map bare_item items.now)) }
{
    for (index, item) in items.iter().enumerate() {
        let fault = declare_item(alloc, scope, index, item)?;
        match fault {
            None => {}
            Some(found) => {
                return Ok(Some(ItemFault {
                    item: index,
                    fault: found.fault,
                    sign: found.sign,
                }));
            }
        }
    }
    Ok(None)
}

/// The first fault of the items of a model, if there is one: its item, its number, and the sign at
/// fault. It is the fault for which the model is refused. Errors: out of memory.
pub fn first_fault<'t>(
    alloc: Global,
    items: &'t [Item],
) -> Result<Option<ItemFault<'t>>, AllocError>
    ensures { IfOk result (IsFirstItemFault (map bare_item items.now)) }
{
    let mut scope = Scope::new(alloc)?;
    find_fault(alloc, &mut scope, items)
}
