//! What is kept of a function.

ghost use Rattle.std.specs.Prelude.{◌≡◌, ◌≤◌, ◌^◌, ℕ, List, length, false, IfOk};
ghost use Rattle.text_values.specs.ModelValue.{Term};
ghost use Rattle.binding_kinds.specs.Value.{Naming};
ghost use Rattle.binding_kinds.specs.Senses.{Sense, HasSense};
ghost use Rattle.binding_kinds.specs.Functions.{sense_of_function};
ghost use Rattle.binding_functions.specs.Templates.{pieces_in, IsTemplate};
ghost use Rattle.binding_functions.specs.Parts.{IsBodyPart};

use crate::part::BodyPart;
use crate::template::Template;
use binding_kinds::{Function, Used, count_parts, signatures};
use std::alloc::{AllocError, Global};

/// What was read of the body of a function.
#[derive(Drop)]
pub struct ReadBody {
    /// The body with the functions that it applies put in.
    pub template: Template,
    /// What is found of the body, which stands under no complement.
    pub part: BodyPart,
    /// The names of other items that it uses.
    pub values: Vec<Used>,
    /// The items of the functions that it applies.
    pub functions: Vec<usize>,
}

/// What is kept of the function of that item, which has so many parameters, and whose body was
/// read. Errors: want of memory.
pub fn function_of(
    alloc: Global,
    item: usize,
    arity: usize,
    read: ReadBody,
) -> Result<Function, AllocError>
    ensures given { IfOk result (λ f. (f.item ≡ item) × (f.arity ≡ arity) × (f.values ≡ read.values)
        × (f.functions ≡ read.functions)) }
    ensures kept { (ss : List Sense) (names : List Naming) (ps : List (List ℕ)) (t : Term)
        → arity ≡ length ps → arity ≤ 8 → IsTemplate read.template (pieces_in ss names ps t)
        → IsBodyPart ss names ps (3 ^ arity) false t read.part
        → IfOk result (λ f. HasSense f (sense_of_function ss names ps t)) }
{
    let ReadBody {
        template,
        part,
        values,
        functions,
    } = read;
    let Template {
        pieces,
        is_oversized,
    } = template.bounded();
    let (constant, factors) = count_parts(&pieces);
    Ok(Function {
        item,
        arity,
        under: part.under,
        template: pieces,
        is_oversized,
        constant,
        factors,
        signatures: signatures(alloc, arity, &part.column)?,
        values,
        functions,
    })
}
