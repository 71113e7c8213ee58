//! One walk over the body of a function, in which each name is looked up once: its first fault, its
//! complements and the kinds that it makes, its pieces, and what it uses.

ghost use Rattle.std.specs.Prelude.{◌≡◌, ◌∷◌, [], Bool, List, ℕ, None, Some, length, map, reverse, IfOk, OnOk};
ghost use Rattle.std.specs.List.{AllZip};
ghost use Rattle.text_values.specs.ModelValue.{Atom, Apply, gathered};
ghost use Rattle.text_values.specs.ModelValues.{term_of};
ghost use Rattle.binding_kinds.specs.Value.{Naming, entry_of};
ghost use Rattle.binding_kinds.specs.Kinds.{found};
ghost use Rattle.binding_kinds.specs.Meanings.{parameter_of};
ghost use Rattle.binding_kinds.specs.Formula.{postfix};
ghost use Rattle.binding_kinds.specs.Senses.{Sense, HasSense, HaveSenses, sense_of};
ghost use Rattle.binding_kinds.specs.First.{apply_fault};
ghost use Rattle.binding_kinds.specs.Functions.{sense_seen, named_formula};
ghost use Rattle.binding_functions.specs.Templates.{pieces_in, HasLarge, IsTemplate, IsGrown};
ghost use Rattle.binding_functions.specs.Parts.{IsNameless, IsBodyPart, AreBodyParts};
ghost use Rattle.binding_graph.specs.Usages.{usage_of, with_meaning, with_values, with_values_among, with_functions, with_functions_among};
ghost use Rattle.binding_graph.specs.Readings.{AreGrown};

use crate::reading::{applied, note_name, read_unapplied};
use crate::uses::Uses;
use binding_functions::{BodyArguments, BodyPart, Columns, Template};
use binding_kinds::{Function, Kind, Named, Piece, Sight, either, is_turned};
use std::alloc::{AllocError, Global};
use text_values::{Expression, Name};

/// What is read of the arguments of a function in a body.
#[derive(Drop)]
struct Given {
    /// What is found of them.
    body: BodyArguments,
    /// Each in postfix order.
    templates: Vec<Template>,
}

impl Given {
    /// Applies the function to them: appends what it makes of them to the template.
    fn applied(
        self,
        alloc: Global,
        function: &Function,
        template: &mut Template,
    ) -> Result<BodyPart, AllocError>
        ensures part { (ss : List Sense) (names : List Naming) (ps : List (List ℕ)) (rows : ℕ)
            (under : Bool) (x : List ℕ) (xs : List Expression) (s : Sense)
            → HasSense function.now s → length xs ≡ s.arity
            → sense_seen ss names ps (length xs) x ≡ Some s
            → apply_fault (parameter_of (reverse ps) x) (sense_of ss (length xs) (found names x))
            ≡ None → AreBodyParts ss names ps rows under s.is_under xs self.body
            → IfOk result (IsBodyPart ss names ps rows under
            (Apply x (gathered (map term_of xs)))) }
        ensures template { (ss : List Sense) (names : List Naming) (ps : List (List ℕ)) (x : List ℕ)
            (xs : List Expression) (s : Sense) → HasSense function.now s
            → sense_seen ss names ps (length xs) x ≡ Some s
            → AllZip IsTemplate self.templates.items
            (map (λ e. pieces_in ss names ps (term_of e)) xs)
            → OnOk result (IsGrown template.old template.new
            (pieces_in ss names ps (Apply x (gathered (map term_of xs))))
            (HasLarge ss names ps (Apply x (gathered (map term_of xs))))) }
    {
        let Given { body, templates } = self;
        template.put_function(function, &templates)?;
        body.applied(alloc, function)
    }
}

/// Reads `_`, `0` or `{}`.
fn inside_sign(
    columns: Columns,
    kind: Kind,
    piece: Piece,
    template: &mut Template,
) -> Result<BodyPart, AllocError>
    ensures part { (arity : ℕ) → IfOk result (IsNameless arity columns.rows kind) }
    ensures template { OnOk result (IsGrown template.old template.new (piece ∷ []) ⊥) }
{
    template.put(piece)?;
    BodyPart::nameless(columns, kind)
}

/// Reads a name without arguments.
fn inside_name(
    columns: Columns,
    sight: &Sight,
    under: bool,
    name: &Name,
    template: &mut Template,
    uses: &mut Uses,
) -> Result<BodyPart, AllocError>
    ensures part { let names = reverse (map entry_of sight.now.entries.now) in
        (senses : List Sense)
        → IfOk result (IsBodyPart senses names sight.now.parameters.now columns.rows under
        (Atom name.now)) }
    ensures template { OnOk result (IsGrown template.old template.new
        (postfix (named_formula (parameter_of (reverse sight.now.parameters.now) name.now)
        (found (reverse (map entry_of sight.now.entries.now)) name.now))) ⊥) }
    ensures uses { OnOk result (AreGrown
        (λ vs. with_meaning vs sight.now.from
        (parameter_of (reverse sight.now.parameters.now) name.now)
        (found (reverse (map entry_of sight.now.entries.now)) name.now))
        (λ fs. fs) uses.old uses.new) }
{
    match note_name(sight, name, template, uses)? {
        Named::Parameter(index) => BodyPart::parameter(columns, under, index),
        Named::Other(found) => BodyPart::other(columns, found),
    }
}

/// Reads the arguments of a function.
#[cycle(inside)]
fn inside_arguments(
    columns: Columns,
    sight: &Sight,
    under: bool,
    function: &Function,
    arguments: &[Expression],
    uses: &mut Uses,
) -> Result<Given, AllocError>
    ensures body { let names = reverse (map entry_of sight.now.entries.now) in
        (senses : List Sense) (s : Sense) → HaveSenses sight.now.functions.now senses
        → HasSense function.now s → length arguments.now ≡ s.arity
        → IfOk result (λ g. AreBodyParts senses names sight.now.parameters.now columns.rows under
        s.is_under arguments.now g.body) }
    ensures templates { let names = reverse (map entry_of sight.now.entries.now) in
        (senses : List Sense) → HaveSenses sight.now.functions.now senses
        → IfOk result (λ g. AllZip IsTemplate g.templates.items (map
        (λ e. pieces_in senses names sight.now.parameters.now (term_of e))
        arguments.now)) }
    ensures uses { let us = map usage_of sight.now.functions.now in
        let names = reverse (map entry_of sight.now.entries.now) in
        let ps = sight.now.parameters.now in
        OnOk result (AreGrown
        (with_values_among us names ps sight.now.from (gathered (map term_of arguments.now)))
        (with_functions_among us names ps (gathered (map term_of arguments.now))) uses.old
        uses.new) }
{
    let mut body = BodyArguments::none(columns)?;
    let mut templates = Vec::new(columns.alloc);
    for (index, argument) in arguments.iter().enumerate() {
        let inner = either(under, function.is_under(index));
        let mut template = Template::new(columns.alloc);
        let part = read_inside(columns, sight, inner, argument, &mut template, uses)?;
        body = body.with(columns.alloc, index, part)?;
        templates.push(template)?;
    }
    Ok(Given { body, templates })
}

/// Reads an application. One of a name that is no function of so many stands as the empty relation.
#[cycle(inside)]
fn inside_applied(
    columns: Columns,
    sight: &Sight,
    under: bool,
    name: &Name,
    arguments: &[Expression],
    template: &mut Template,
    uses: &mut Uses,
) -> Result<BodyPart, AllocError>
    ensures part { let names = reverse (map entry_of sight.now.entries.now) in
        (senses : List Sense) → HaveSenses sight.now.functions.now senses
        → IfOk result (IsBodyPart senses names sight.now.parameters.now columns.rows under
        (Apply name.now (gathered (map term_of arguments.now)))) }
    ensures template { let names = reverse (map entry_of sight.now.entries.now) in
        (senses : List Sense) → HaveSenses sight.now.functions.now senses
        → OnOk result (IsGrown template.old template.new
        (pieces_in senses names sight.now.parameters.now
        (Apply name.now (gathered (map term_of arguments.now))))
        (HasLarge senses names sight.now.parameters.now
        (Apply name.now (gathered (map term_of arguments.now))))) }
    ensures uses { let us = map usage_of sight.now.functions.now in
        let names = reverse (map entry_of sight.now.entries.now) in
        let ps = sight.now.parameters.now in
        OnOk result (AreGrown
        (with_values us names ps sight.now.from
        (Apply name.now (gathered (map term_of arguments.now))))
        (with_functions us names ps (Apply name.now (gathered (map term_of arguments.now))))
        uses.old uses.new) }
{
    match applied(sight, name, arguments.len()) {
        Err(fault) => {
            read_unapplied(columns.alloc, sight, arguments, uses)?;
            template.put(Piece::NoPairs)?;
            BodyPart::refused(columns, fault)
        }
        Ok(function) => {
            uses.add_function(function)?;
            let given = inside_arguments(columns, sight, under, function, arguments, uses)?;
            given.applied(columns.alloc, function, template)
        }
    }
}

/// Reads an expression in the body of a function, seen under a complement or not, in the order of
/// the text: finds its part, appends its pieces to the template, and notes what it uses and applies
/// at each first use. Each name is looked up once. What has a fault stands as the empty relation.
/// Errors: want of memory.
#[cycle(inside)]
pub fn read_inside(
    columns: Columns,
    sight: &Sight,
    under: bool,
    term: &Expression,
    template: &mut Template,
    uses: &mut Uses,
) -> Result<BodyPart, AllocError>
    ensures part { let names = reverse (map entry_of sight.now.entries.now) in
        (senses : List Sense) → HaveSenses sight.now.functions.now senses
        → IfOk result (IsBodyPart senses names sight.now.parameters.now columns.rows under
        (term_of term.now)) }
    ensures template { let names = reverse (map entry_of sight.now.entries.now) in
        (senses : List Sense) → HaveSenses sight.now.functions.now senses
        → OnOk result (IsGrown template.old template.new
        (pieces_in senses names sight.now.parameters.now (term_of term.now))
        (HasLarge senses names sight.now.parameters.now (term_of term.now))) }
    ensures uses { let us = map usage_of sight.now.functions.now in
        let names = reverse (map entry_of sight.now.entries.now) in
        let ps = sight.now.parameters.now in
        OnOk result (AreGrown (with_values us names ps sight.now.from (term_of term.now))
        (with_functions us names ps (term_of term.now)) uses.old uses.new) }
{
    match term {
        Expression::Named(name) => inside_name(columns, sight, under, name, template, uses),
        Expression::Everything => inside_sign(columns, Kind::OfSet, Piece::Everything, template),
        Expression::NoPairs => inside_sign(columns, Kind::OfRelation, Piece::NoPairs, template),
        Expression::NoEvents => inside_sign(columns, Kind::OfSet, Piece::NoEvents, template),
        Expression::Joined(op, left, right) => {
            let first = read_inside(columns, sight, under, left, template, uses)?;
            let turned = is_turned(*op, under);
            let second = read_inside(columns, sight, turned, right, template, uses)?;
            template.put(Piece::Joined(*op))?;
            BodyPart::infix(columns.alloc, *op, first, second)
        }
        Expression::Marked(op, operand) => {
            let inner = read_inside(columns, sight, under, operand, template, uses)?;
            template.put(Piece::Marked(*op))?;
            inner.postfix(columns.alloc)
        }
        Expression::Complement(operand) => {
            let inner = read_inside(columns, sight, true, operand, template, uses)?;
            template.put(Piece::Complement)?;
            Ok(inner)
        }
        Expression::Identity(operand) => {
            let inner = read_inside(columns, sight, under, operand, template, uses)?;
            template.put(Piece::Identity)?;
            inner.identity(columns.alloc)
        }
        Expression::Applied(name, arguments) => {
            inside_applied(columns, sight, under, name, arguments, template, uses)
        }
    }
}
