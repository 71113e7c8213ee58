//! What is kept of a function whose body is read.

ghost use Rattle.std.specs.Prelude.{◌≡◌, ◌≤◌, List, IfOk, length, map, reverse};
ghost use Rattle.text_values.specs.ModelValues.{term_of};
ghost use Rattle.binding_kinds.specs.Value.{entry_of};
ghost use Rattle.binding_kinds.specs.First.{first_of_body};
ghost use Rattle.binding_kinds.specs.Senses.{Sense, HasSense, HaveSenses};
ghost use Rattle.binding_kinds.specs.Functions.{sense_of_function};
ghost use Rattle.binding_graph.specs.Usages.{usage_of, usage_of_function};

use crate::inside::read_inside;
use crate::uses::Uses;
use binding_functions::{Columns, ReadBody, Template, function_of};
use binding_kinds::{Function, ModelFault, Sight, weight};
use std::alloc::{AllocError, Global};
use text_values::Expression;

/// A function whose body was read.
#[derive(Drop)]
pub struct ReadFunction {
    /// What is kept of it.
    pub function: Function,
    /// The first fault of its body.
    pub fault: Option<ModelFault>,
}

/// Reads the function of that item, whose parameters the body sees: the first fault of the body,
/// its complements, the kinds that it makes, the body with the functions that it applies put in,
/// and what it uses and applies, are read in one walk. Errors: want of memory.
pub fn read_whole(
    alloc: Global,
    sight: &Sight,
    item: usize,
    body: &Expression,
) -> Result<ReadFunction, AllocError>
    ensures fault { let names = reverse (map entry_of sight.now.entries.now) in
        (senses : List Sense) → HaveSenses sight.now.functions.now senses
        → IfOk result (λ r. r.fault
        ≡ first_of_body senses names sight.now.parameters.now (term_of body.now)) }
    ensures usage { let us = map usage_of sight.now.functions.now in
        let names = reverse (map entry_of sight.now.entries.now) in
        sight.now.from ≡ length names
        → IfOk result (λ r. usage_of r.function
        ≡ usage_of_function us names item sight.now.parameters.now (term_of body.now)) }
    ensures kept { let names = reverse (map entry_of sight.now.entries.now) in
        (senses : List Sense) → HaveSenses sight.now.functions.now senses
        → length sight.now.parameters.now ≤ 8
        → IfOk result (λ r. HasSense r.function (sense_of_function senses names
        sight.now.parameters.now (term_of body.now))) }
{
    let mut template = Template::new(alloc);
    let mut uses = Uses::new(alloc);
    let arity = sight.parameters.len();
    let rows = weight(arity);
    let columns = Columns { alloc, rows };
    let part = read_inside(columns, sight, false, body, &mut template, &mut uses)?;
    let fault = part.fault;
    let (values, functions) = uses.into_lists();
    let read = ReadBody {
        template,
        part,
        values,
        functions,
    };
    Ok(ReadFunction {
        function: function_of(alloc, item, arity, read)?,
        fault,
    })
}

/// What is kept of the function of that item, whose parameters the body sees. Errors: want of
/// memory.
pub fn read_function(
    alloc: Global,
    sight: &Sight,
    item: usize,
    body: &Expression,
) -> Result<Function, AllocError>
    ensures usage { let us = map usage_of sight.now.functions.now in
        let names = reverse (map entry_of sight.now.entries.now) in
        sight.now.from ≡ length names
        → IfOk result (λ f. usage_of f
        ≡ usage_of_function us names item sight.now.parameters.now (term_of body.now)) }
    ensures kept { let names = reverse (map entry_of sight.now.entries.now) in
        (senses : List Sense) → HaveSenses sight.now.functions.now senses
        → length sight.now.parameters.now ≤ 8
        → IfOk result (λ f. HasSense f (sense_of_function senses names sight.now.parameters.now
        (term_of body.now))) }
{
    Ok(read_whole(alloc, sight, item, body)?.function)
}
