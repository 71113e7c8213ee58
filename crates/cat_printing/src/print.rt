//! Prints items.

ghost use Rattle.std.specs.Prelude.{◌≡◌, ◌++◌, map, OnOk, IfOk, codes};
ghost use Rattle.text_values.specs.ModelValues.{term_of, binding_of, shown_term, check_of, clause_of, clauses_of};
ghost use Rattle.cat_printing.specs.Printing.{infix_text, postfix_text, is_binary, is_compound, printed_term, label_text, optional_label, word_text, check_text, recursion_text, binding_text, show_text, shown_text, printed_item, printed_model};
ghost use Rattle.text_values.specs.Joined.{joined, bracketed};

use std::alloc::{AllocError, Global};
use text_values::{
    Binding, Check, CheckWord, Expression, Infix, Item, ModelText, Name, Postfix, ShownExpression,
    put_between, put_bytes,
};

fn infix_text(op: Infix) -> &'static [u8]
    ensures { result.now ≡ infix_text op }
{
    match op {
        Infix::Union => b" | ",
        Infix::Sequence => b" ; ",
        Infix::Difference => b" \\ ",
        Infix::Intersection => b" & ",
        Infix::Product => b" * ",
    }
}

fn postfix_text(op: Postfix) -> &'static [u8]
    ensures { result.now ≡ postfix_text op }
{
    match op {
        Postfix::Transitive => b"+",
        Postfix::Reflexive => b"?",
        Postfix::Inverse => b"^-1",
        Postfix::Closure => b"*",
    }
}

fn word_text(word: CheckWord) -> &'static [u8]
    ensures { result.now ≡ word_text word }
{
    match word {
        CheckWord::Acyclic => b"acyclic ",
        CheckWord::Irreflexive => b"irreflexive ",
        CheckWord::Empty => b"empty ",
    }
}

fn is_binary(expression: &Expression) -> bool
    ensures { result ≡ is_binary (term_of expression.now) }
{
    match expression {
        Expression::Joined(_, _, _) => true,
        Expression::Named(_) => false,
        Expression::Everything => false,
        Expression::NoPairs => false,
        Expression::NoEvents => false,
        Expression::Marked(_, _) => false,
        Expression::Complement(_) => false,
        Expression::Identity(_) => false,
        Expression::Applied(_, _) => false,
    }
}

// Whether it is no atom.
fn is_compound(expression: &Expression) -> bool
    ensures { result ≡ is_compound (term_of expression.now) }
{
    match expression {
        Expression::Joined(_, _, _) => true,
        Expression::Marked(_, _) => true,
        Expression::Complement(_) => true,
        Expression::Named(_) => false,
        Expression::Everything => false,
        Expression::NoPairs => false,
        Expression::NoEvents => false,
        Expression::Identity(_) => false,
        Expression::Applied(_, _) => false,
    }
}

// Appends an expression, in parentheses where they are wanted.
#[cycle(print)]
fn put_operand(
    text: &mut Vec<u8>,
    operand: &Expression,
    in_parentheses: bool,
) -> Result<(), AllocError>
    ensures { OnOk result (text.new.items
        ≡ text.old.items ++ bracketed in_parentheses (printed_term (term_of operand.now))) }
{
    if in_parentheses {
        put_bytes(text, b"(")?;
        put_expression(text, operand)?;
        put_bytes(text, b")")
    } else {
        put_expression(text, operand)
    }
}

// Appends the arguments of a function, with commas between them.
#[cycle(print)]
fn put_arguments(text: &mut Vec<u8>, arguments: &[Expression]) -> Result<(), AllocError>
    ensures { OnOk result (text.new.items
        ≡ text.old.items
        ++ joined (codes ", ") (map printed_term (map term_of arguments.now))) }
{
    for (i, argument) in arguments.iter().enumerate() {
        put_between(text, b", ", i)?;
        put_expression(text, argument)?;
    }
    Ok(())
}

// Appends an expression.
#[cycle(print)]
fn put_expression(text: &mut Vec<u8>, expression: &Expression) -> Result<(), AllocError>
    ensures { OnOk result (text.new.items
        ≡ text.old.items ++ printed_term (term_of expression.now)) }
{
    match expression {
        Expression::Named(name) => put_bytes(text, name.as_bytes()),
        Expression::Everything => put_bytes(text, b"_"),
        Expression::NoPairs => put_bytes(text, b"0"),
        Expression::NoEvents => put_bytes(text, b"{}"),
        Expression::Joined(op, left, right) => {
            put_operand(text, left, is_binary(left))?;
            put_bytes(text, infix_text(*op))?;
            put_operand(text, right, is_binary(right))
        }
        Expression::Marked(op, operand) => {
            put_operand(text, operand, is_compound(operand))?;
            put_bytes(text, postfix_text(*op))
        }
        Expression::Complement(operand) => {
            put_bytes(text, b"~")?;
            put_operand(text, operand, is_binary(operand))
        }
        Expression::Identity(operand) => {
            put_bytes(text, b"[")?;
            put_expression(text, operand)?;
            put_bytes(text, b"]")
        }
        Expression::Applied(name, arguments) => {
            put_bytes(text, name.as_bytes())?;
            put_bytes(text, b"(")?;
            put_arguments(text, arguments)?;
            put_bytes(text, b")")
        }
    }
}

fn put_label(text: &mut Vec<u8>, label: &Name) -> Result<(), AllocError>
    ensures { OnOk result (text.new.items ≡ text.old.items ++ label_text label.now) }
{
    put_bytes(text, b" as ")?;
    put_bytes(text, label.as_bytes())
}

fn put_optional_label(text: &mut Vec<u8>, label: &Option<Name>) -> Result<(), AllocError>
    ensures { OnOk result (text.new.items ≡ text.old.items ++ optional_label label.now) }
{
    match label {
        Some(label) => put_label(text, label),
        None => Ok(()),
    }
}

fn put_check(text: &mut Vec<u8>, check: &Check) -> Result<(), AllocError>
    ensures { OnOk result (text.new.items ≡ text.old.items ++ check_text (check_of check.now)) }
{
    if check.negated {
        put_bytes(text, b"~")?;
    }
    put_bytes(text, word_text(check.word))?;
    put_expression(text, &check.body)
}

fn put_binding(text: &mut Vec<u8>, binding: &Binding) -> Result<(), AllocError>
    ensures { OnOk result (text.new.items
        ≡ text.old.items ++ binding_text (binding_of binding.now)) }
{
    put_bytes(text, binding.name.as_bytes())?;
    put_bytes(text, b" = ")?;
    put_expression(text, &binding.body)
}

// Appends the bindings of a group, with `and` between them.
fn put_bindings(text: &mut Vec<u8>, group: &[Binding]) -> Result<(), AllocError>
    ensures { OnOk result (text.new.items
        ≡ text.old.items
        ++ joined (codes " and ") (map binding_text (map binding_of group.now))) }
{
    for (i, binding) in group.iter().enumerate() {
        put_between(text, b" and ", i)?;
        put_binding(text, binding)?;
    }
    Ok(())
}

fn put_group(text: &mut Vec<u8>, recursive: bool, group: &[Binding]) -> Result<(), AllocError>
    ensures { OnOk result (text.new.items
        ≡ text.old.items ++ (codes "let " ++ (recursion_text recursive
        ++ joined (codes " and ") (map binding_text (map binding_of group.now))))) }
{
    put_bytes(
        text,
        if recursive {
            b"let rec ".as_slice()
        } else {
            b"let ".as_slice()
        },
    )?;
    put_bindings(text, group)
}

// Appends names with commas between them.
fn put_names(text: &mut Vec<u8>, names: &[Name]) -> Result<(), AllocError>
    ensures { OnOk result (text.new.items ≡ text.old.items ++ joined (codes ", ") names.now) }
{
    for (i, name) in names.iter().enumerate() {
        put_between(text, b", ", i)?;
        put_bytes(text, name.as_bytes())?;
    }
    Ok(())
}

fn put_function(
    text: &mut Vec<u8>,
    name: &Name,
    parameters: &[Name],
    body: &Expression,
) -> Result<(), AllocError>
    ensures { OnOk result (text.new.items
        ≡ text.old.items ++ (codes "let " ++ (name.now ++ (codes "(" ++ (joined (codes ", ")
        parameters.now ++ (codes ") = " ++ printed_term (term_of body.now))))))) }
{
    put_bytes(text, b"let ")?;
    put_bytes(text, name.as_bytes())?;
    put_bytes(text, b"(")?;
    put_names(text, parameters)?;
    put_bytes(text, b") = ")?;
    put_expression(text, body)
}

fn put_shown_expression(text: &mut Vec<u8>, shown: &ShownExpression) -> Result<(), AllocError>
    ensures { OnOk result (text.new.items ≡ text.old.items ++ shown_text (shown_term shown.now)) }
{
    put_expression(text, &shown.body)?;
    put_optional_label(text, &shown.label)
}

// Appends what is shown, with commas between.
fn put_shown(text: &mut Vec<u8>, shown: &[ShownExpression]) -> Result<(), AllocError>
    ensures { OnOk result (text.new.items
        ≡ text.old.items ++ joined (codes ", ") (map shown_text (map shown_term shown.now))) }
{
    for (i, one) in shown.iter().enumerate() {
        put_between(text, b", ", i)?;
        put_shown_expression(text, one)?;
    }
    Ok(())
}

fn put_show(text: &mut Vec<u8>, hidden: bool, shown: &[ShownExpression]) -> Result<(), AllocError>
    ensures { OnOk result (text.new.items
        ≡ text.old.items ++ (show_text hidden
        ++ joined (codes ", ") (map shown_text (map shown_term shown.now)))) }
{
    put_bytes(
        text,
        if hidden {
            b"unshow ".as_slice()
        } else {
            b"show ".as_slice()
        },
    )?;
    put_shown(text, shown)
}

fn put_flag(text: &mut Vec<u8>, check: &Check, label: &Name) -> Result<(), AllocError>
    ensures { OnOk result (text.new.items
        ≡ text.old.items
        ++ (codes "flag " ++ (check_text (check_of check.now) ++ label_text label.now))) }
{
    put_bytes(text, b"flag ")?;
    put_check(text, check)?;
    put_label(text, label)
}

fn put_item(text: &mut Vec<u8>, item: &Item) -> Result<(), AllocError>
    ensures { OnOk result (text.new.items ≡ text.old.items ++ printed_item (clause_of item.now)) }
{
    match item {
        Item::Let { recursive, group } => put_group(text, *recursive, group),
        Item::Function {
            name,
            parameters,
            body,
        } => put_function(text, name, parameters, body),
        Item::Check { check, label } => {
            put_check(text, check)?;
            put_optional_label(text, label)
        }
        Item::Flag { check, label } => put_flag(text, check, label),
        Item::Show { hidden, shown } => put_show(text, *hidden, shown),
        Item::Include(path) => {
            put_bytes(text, b"include \"")?;
            put_bytes(text, path.as_bytes())?;
            put_bytes(text, b"\"")
        }
    }
}

/// The printed item. One space stands around infix operators and `=`, after words and after commas.
/// Parentheses stand around an infix operand of an infix operator or of `~`, and around each
/// operand of a postfix operator but an atom. Errors: out of memory.
pub fn print_item(alloc: Global, item: &Item) -> Result<Vec<u8>, AllocError>
    ensures { IfOk result (λ v. v.items ≡ printed_item (clause_of item.now)) }
{
    let mut text = Vec::new(alloc);
    put_item(&mut text, item)?;
    Ok(text)
}

/// The printed model: its items, one on each line, each with a line feed at its end. Errors: out of
/// memory.
pub fn print_model(alloc: Global, model: &ModelText) -> Result<Vec<u8>, AllocError>
    ensures { IfOk result (λ v. v.items ≡ printed_model (clauses_of model.now.items.items)) }
{
    let mut text = Vec::new(alloc);
    for item in &model.items {
        put_item(&mut text, item)?;
        put_bytes(&mut text, b"\n")?;
    }
    Ok(text)
}
