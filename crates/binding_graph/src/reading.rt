//! One walk over an expression of a group or a check, in which each name is looked up once: the
//! kind and the first fault of the expression, its pieces, and what it uses.

ghost use Rattle.std.specs.Prelude.{◌≡◌, ◌<◌, ℕ, [], ◌∷◌, List, None, Some, Ok, Err, length, map, reverse, IfOk, OnOk, MatchResult};
ghost use Rattle.std.specs.List.{AllZip};
ghost use Rattle.text_values.specs.ModelValue.{Apply, gathered};
ghost use Rattle.text_values.specs.ModelValues.{term_of};
ghost use Rattle.binding_kinds.specs.Value.{Naming, entry_of};
ghost use Rattle.binding_kinds.specs.Kinds.{found, kind_found};
ghost use Rattle.binding_kinds.specs.Meanings.{parameter_of, named_of};
ghost use Rattle.binding_kinds.specs.Formula.{postfix};
ghost use Rattle.binding_kinds.specs.Senses.{Sense, HasSense, HaveSenses, sense_of};
ghost use Rattle.binding_kinds.specs.Functions.{sense_seen, named_formula};
ghost use Rattle.binding_kinds.specs.Verdict.{of_name};
ghost use Rattle.binding_kinds.specs.First.{apply_fault};
ghost use Rattle.binding_functions.specs.Templates.{pieces_in, HasLarge, IsTemplate, IsGrown};
ghost use Rattle.binding_graph.specs.Usages.{usage_of, usage_seen, with_meaning, with_values, with_values_among, with_functions, with_functions_among};
ghost use Rattle.binding_graph.specs.Readings.{IsFinding, AreJudged, AreGrown};

use crate::uses::Uses;
use binding_functions::Template;
use binding_kinds::{
    Arguments, Function, Judged, Kind, ModelFault, Named, Piece, Sight, either, is_turned,
    judged_complement, judged_faulty, judged_identity, judged_infix, judged_name, judged_postfix,
    judged_sign,
};
use std::alloc::{AllocError, Global};
use text_values::{Expression, Name};

/// What is read of the arguments of a function.
#[derive(Drop)]
struct Given {
    /// What is known of them.
    known: Arguments,
    /// Each in postfix order.
    templates: Vec<Template>,
}

/// Appends the piece of an expression that is judged so.
fn put_judged(piece: Piece, judged: Judged, template: &mut Template) -> Result<Judged, AllocError>
    ensures judged { IfOk result (λ j. j ≡ judged) }
    ensures template { OnOk result (IsGrown template.old template.new (piece ∷ []) ⊥) }
{
    template.put(piece)?;
    Ok(judged)
}

/// Appends what the function makes of its arguments, in an application that is judged so.
fn put_application(
    function: &Function,
    arguments: Vec<Template>,
    judged: Judged,
    template: &mut Template,
) -> Result<Judged, AllocError>
    ensures judged { IfOk result (λ j. j ≡ judged) }
    ensures template { (ss : List Sense) (names : List Naming) (ps : List (List ℕ)) (x : List ℕ)
        (xs : List Expression) (s : Sense) → HasSense function.now s
        → sense_seen ss names ps (length xs) x ≡ Some s
        → AllZip IsTemplate arguments.items (map (λ e. pieces_in ss names ps (term_of e)) xs)
        → OnOk result (IsGrown template.old template.new
        (pieces_in ss names ps (Apply x (gathered (map term_of xs))))
        (HasLarge ss names ps (Apply x (gathered (map term_of xs))))) }
{
    template.put_function(function, &arguments)?;
    Ok(judged)
}

/// Reads `_`, `0` or `{}`.
fn read_sign(kind: Kind, piece: Piece, template: &mut Template) -> Result<Judged, AllocError>
    ensures judged { IfOk result (λ j. (j.kind ≡ kind) × (j.size ≡ 1) × (j.fault ≡ None)) }
    ensures template { OnOk result (IsGrown template.old template.new (piece ∷ []) ⊥) }
{
    template.put(piece)?;
    Ok(judged_sign(kind))
}

/// Looks a name without arguments up, appends its piece and notes what it uses. Errors: want of
/// memory.
pub fn note_name(
    sight: &Sight,
    name: &Name,
    template: &mut Template,
    uses: &mut Uses,
) -> Result<Named, AllocError>
    ensures named { IfOk result (λ n. n
        ≡ named_of (parameter_of (reverse sight.now.parameters.now) name.now)
        (found (reverse (map entry_of sight.now.entries.now)) name.now)) }
    ensures template { OnOk result (IsGrown template.old template.new
        (postfix (named_formula (parameter_of (reverse sight.now.parameters.now) name.now)
        (found (reverse (map entry_of sight.now.entries.now)) name.now))) ⊥) }
    ensures uses { OnOk result (AreGrown
        (λ vs. with_meaning vs sight.now.from
        (parameter_of (reverse sight.now.parameters.now) name.now)
        (found (reverse (map entry_of sight.now.entries.now)) name.now))
        (λ fs. fs) uses.old uses.new) }
{
    match sight.named(name) {
        Named::Parameter(index) => {
            template.put(Piece::Parameter(index))?;
            Ok(Named::Parameter(index))
        }
        Named::Other(found) => {
            template.put_name(found)?;
            uses.add_name(sight.from, found)?;
            Ok(Named::Other(found))
        }
    }
}

/// Reads a name without arguments.
fn read_name(
    sight: &Sight,
    under: bool,
    name: &Name,
    template: &mut Template,
    uses: &mut Uses,
) -> Result<Judged, AllocError>
    ensures judged { let o = found (reverse (map entry_of sight.now.entries.now)) name.now in
        sight.now.parameters.now ≡ []
        → IfOk result (λ j. (j.kind ≡ kind_found o) × (j.size ≡ 1)
        × (j.fault ≡ of_name sight.now.from under o)) }
    ensures template { OnOk result (IsGrown template.old template.new
        (postfix (named_formula (parameter_of (reverse sight.now.parameters.now) name.now)
        (found (reverse (map entry_of sight.now.entries.now)) name.now))) ⊥) }
    ensures uses { OnOk result (AreGrown
        (λ vs. with_meaning vs sight.now.from
        (parameter_of (reverse sight.now.parameters.now) name.now)
        (found (reverse (map entry_of sight.now.entries.now)) name.now))
        (λ fs. fs) uses.old uses.new) }
{
    match note_name(sight, name, template, uses)? {
        Named::Parameter(_) => Ok(judged_sign(Kind::OfAny)),
        Named::Other(found) => Ok(judged_name(sight.from, under, found)),
    }
}

/// The function that a name with so many arguments stands for. Errors: `Unbound` where nothing
/// binds the name, `Arity` where it is no function of so many.
pub fn applied<'a>(sight: &Sight<'a>, name: &Name, count: usize) -> Result<&'a Function, ModelFault>
    ensures usage { let us = map usage_of sight.now.functions.now in
        let names = reverse (map entry_of sight.now.entries.now) in
        MatchResult result
        (λ f. usage_seen us names sight.now.parameters.now count name.now ≡ Some (usage_of f.now))
        (λ k. usage_seen us names sight.now.parameters.now count name.now ≡ None) }
    ensures sense { let names = reverse (map entry_of sight.now.entries.now) in
        (senses : List Sense) → HaveSenses sight.now.functions.now senses
        → MatchResult result
        (λ f. (s : Sense)
        × (sense_seen senses names sight.now.parameters.now count name.now ≡ Some s)
        × (s.arity ≡ count) × HasSense f.now s)
        (λ k. (sense_seen senses names sight.now.parameters.now count name.now ≡ None)
        × (sight.now.parameters.now ≡ []
        → sense_of senses count (found names name.now) ≡ Err k)) }
    ensures fault { let names = reverse (map entry_of sight.now.entries.now) in
        let p = parameter_of (reverse sight.now.parameters.now) name.now in
        (senses : List Sense) → HaveSenses sight.now.functions.now senses
        → MatchResult result
        (λ f. apply_fault p (sense_of senses count (found names name.now)) ≡ None)
        (λ k. apply_fault p (sense_of senses count (found names name.now)) ≡ Some k) }
{
    match sight.function(name, count) {
        Err(fault) => Err(fault),
        Ok(index) => match sight.functions.get(index) {
            None => Err(ModelFault::Arity),
            Some(function) => Ok(function),
        },
    }
}

/// Reads the arguments of a name that is no function of so many: what they use counts. Errors: want
/// of memory.
#[cycle(reading)]
pub fn read_unapplied(
    alloc: Global,
    sight: &Sight,
    arguments: &[Expression],
    uses: &mut Uses,
) -> Result<(), AllocError>
    ensures { let us = map usage_of sight.now.functions.now in
        let names = reverse (map entry_of sight.now.entries.now) in
        let ps = sight.now.parameters.now in
        OnOk result (AreGrown
        (with_values_among us names ps sight.now.from (gathered (map term_of arguments.now)))
        (with_functions_among us names ps (gathered (map term_of arguments.now))) uses.old
        uses.new) }
{
    for argument in arguments {
        let mut unused = Template::new(alloc);
        read_term(alloc, sight, false, argument, &mut unused, uses)?;
    }
    Ok(())
}

/// Reads the arguments of a function.
#[cycle(reading)]
fn read_arguments(
    alloc: Global,
    sight: &Sight,
    under: bool,
    function: &Function,
    arguments: &[Expression],
    uses: &mut Uses,
) -> Result<Given, AllocError>
    ensures judged { let names = reverse (map entry_of sight.now.entries.now) in
        (senses : List Sense) (s : Sense) → HaveSenses sight.now.functions.now senses
        → sight.now.parameters.now ≡ [] → HasSense function.now s → length arguments.now ≡ s.arity
        → IfOk result (λ g. AreJudged senses names sight.now.from under function.now s
        (gathered (map term_of arguments.now)) g.known) }
    ensures templates { let names = reverse (map entry_of sight.now.entries.now) in
        (senses : List Sense) → HaveSenses sight.now.functions.now senses
        → IfOk result (λ g. AllZip IsTemplate g.templates.items (map
        (λ e. pieces_in senses names sight.now.parameters.now (term_of e))
        arguments.now)) }
    ensures uses { let us = map usage_of sight.now.functions.now in
        let names = reverse (map entry_of sight.now.entries.now) in
        let ps = sight.now.parameters.now in
        OnOk result (AreGrown
        (with_values_among us names ps sight.now.from (gathered (map term_of arguments.now)))
        (with_functions_among us names ps (gathered (map term_of arguments.now))) uses.old
        uses.new) }
{
    let mut known = Arguments::of(function);
    let mut templates = Vec::new(alloc);
    for (index, argument) in arguments.iter().enumerate() {
        let inner = either(under, function.is_under(index));
        let mut template = Template::new(alloc);
        let judged = read_term(alloc, sight, inner, argument, &mut template, uses)?;
        known = known.with(function, index, judged);
        templates.push(template)?;
    }
    Ok(Given { known, templates })
}

/// Reads an application. One of a name that is no function of so many stands as the empty relation.
#[cycle(reading)]
fn read_applied(
    alloc: Global,
    sight: &Sight,
    under: bool,
    name: &Name,
    arguments: &[Expression],
    template: &mut Template,
    uses: &mut Uses,
) -> Result<Judged, AllocError>
    ensures judged { let names = reverse (map entry_of sight.now.entries.now) in
        (senses : List Sense) → HaveSenses sight.now.functions.now senses
        → sight.now.parameters.now ≡ []
        → IfOk result (IsFinding senses names sight.now.from under
        (Apply name.now (gathered (map term_of arguments.now)))) }
    ensures template { let names = reverse (map entry_of sight.now.entries.now) in
        (senses : List Sense) → HaveSenses sight.now.functions.now senses
        → OnOk result (IsGrown template.old template.new
        (pieces_in senses names sight.now.parameters.now
        (Apply name.now (gathered (map term_of arguments.now))))
        (HasLarge senses names sight.now.parameters.now
        (Apply name.now (gathered (map term_of arguments.now))))) }
    ensures uses { let us = map usage_of sight.now.functions.now in
        let names = reverse (map entry_of sight.now.entries.now) in
        let ps = sight.now.parameters.now in
        OnOk result (AreGrown
        (with_values us names ps sight.now.from
        (Apply name.now (gathered (map term_of arguments.now))))
        (with_functions us names ps (Apply name.now (gathered (map term_of arguments.now))))
        uses.old uses.new) }
{
    match applied(sight, name, arguments.len()) {
        Err(fault) => {
            read_unapplied(alloc, sight, arguments, uses)?;
            put_judged(Piece::NoPairs, judged_faulty(fault), template)
        }
        Ok(function) => {
            uses.add_function(function)?;
            let Given { known, templates } = read_arguments(
                alloc, sight, under, function, arguments, uses,
            )?;
            put_application(function, templates, known.applied(function), template)
        }
    }
}

/// Reads an expression, seen under a complement or not, in the order of the text: judges it,
/// appends its pieces to the template, and notes what it uses and applies at each first use. Each
/// name is looked up once. What has a fault stands as the empty relation. In the body of a
/// function, where arguments of a name that is no function are read so, nothing is said of what is
/// judged. Errors: want of memory.
#[cycle(reading)]
pub fn read_term(
    alloc: Global,
    sight: &Sight,
    under: bool,
    term: &Expression,
    template: &mut Template,
    uses: &mut Uses,
) -> Result<Judged, AllocError>
    ensures judged { let names = reverse (map entry_of sight.now.entries.now) in
        (senses : List Sense) → HaveSenses sight.now.functions.now senses
        → sight.now.parameters.now ≡ []
        → IfOk result (IsFinding senses names sight.now.from under (term_of term.now)) }
    ensures template { let names = reverse (map entry_of sight.now.entries.now) in
        (senses : List Sense) → HaveSenses sight.now.functions.now senses
        → OnOk result (IsGrown template.old template.new
        (pieces_in senses names sight.now.parameters.now (term_of term.now))
        (HasLarge senses names sight.now.parameters.now (term_of term.now))) }
    ensures uses { let us = map usage_of sight.now.functions.now in
        let names = reverse (map entry_of sight.now.entries.now) in
        let ps = sight.now.parameters.now in
        OnOk result (AreGrown (with_values us names ps sight.now.from (term_of term.now))
        (with_functions us names ps (term_of term.now)) uses.old uses.new) }
{
    match term {
        Expression::Named(name) => read_name(sight, under, name, template, uses),
        Expression::Everything => read_sign(Kind::OfSet, Piece::Everything, template),
        Expression::NoPairs => read_sign(Kind::OfRelation, Piece::NoPairs, template),
        Expression::NoEvents => read_sign(Kind::OfSet, Piece::NoEvents, template),
        Expression::Joined(op, left, right) => {
            let first = read_term(alloc, sight, under, left, template, uses)?;
            let turned = is_turned(*op, under);
            let second = read_term(alloc, sight, turned, right, template, uses)?;
            put_judged(
                Piece::Joined(*op),
                judged_infix(*op, first, second),
                template,
            )
        }
        Expression::Marked(op, operand) => {
            let inner = read_term(alloc, sight, under, operand, template, uses)?;
            put_judged(Piece::Marked(*op), judged_postfix(inner), template)
        }
        Expression::Complement(operand) => {
            let inner = read_term(alloc, sight, true, operand, template, uses)?;
            put_judged(Piece::Complement, judged_complement(inner), template)
        }
        Expression::Identity(operand) => {
            let inner = read_term(alloc, sight, under, operand, template, uses)?;
            put_judged(Piece::Identity, judged_identity(inner), template)
        }
        Expression::Applied(name, arguments) => {
            read_applied(alloc, sight, under, name, arguments, template, uses)
        }
    }
}
