//! The first fault of an expression, and the sign that it stands at.

ghost use Rattle.std.specs.Prelude.{◌≡◌, List, reverse, map, option_map};
ghost use Rattle.text_values.specs.ModelValues.{term_of};
ghost use Rattle.binding_kinds.specs.Value.{entry_of};
ghost use Rattle.binding_kinds.specs.Senses.{Sense, HaveSenses, kind_in};
ghost use Rattle.fault_texts.specs.Search.{signed_fault_of, signed_fault, first_fault_in};

use crate::application::{application_fault, is_under};
use crate::place::{SignFault, or_later, signed_fault};
use crate::signs::{infix_sign, postfix_sign};
use binding_kinds::{Entry, Function, Kind, ModelFault, either, is_turned, judge, takes, unless};
use text_values::Expression;

fn kind_of(entries: &[Entry], functions: &[Function], term: &Expression) -> Kind
    ensures { (senses : List Sense) → HaveSenses functions.now senses
        → result ≡ kind_in senses (reverse (map entry_of entries.now)) (term_of term.now) }
{
    judge(entries, functions, 0, false, term).kind
}

/// The first fault of an expression, seen under a complement or not. The names of the item itself
/// have the slot `from` and those behind it.
pub fn expression_fault<'t>(
    entries: &[Entry],
    functions: &[Function],
    from: usize,
    under: bool,
    term: &'t Expression,
) -> Option<SignFault<'t>>
    ensures { (senses : List Sense) → HaveSenses functions.now senses
        → option_map signed_fault_of result
        ≡ first_fault_in senses (reverse (map entry_of entries.now)) from under
        (term_of term.now) }
{
    match term {
        Expression::Named(name) => {
            let judged = judge(entries, functions, from, under, term);
            signed_fault(judged.fault, name.as_bytes())
        }
        Expression::Everything => None,
        Expression::NoPairs => None,
        Expression::NoEvents => None,
        Expression::Joined(op, left, right) => {
            let first = expression_fault(entries, functions, from, under, left);
            let fits = takes(
                *op,
                kind_of(entries, functions, left),
                kind_of(entries, functions, right),
            );
            let here = signed_fault(unless(fits, ModelFault::Kind), infix_sign(*op));
            let second = expression_fault(entries, functions, from, is_turned(*op, under), right);
            or_later(first, or_later(here, second))
        }
        Expression::Marked(op, operand) => {
            let first = expression_fault(entries, functions, from, under, operand);
            let fits = kind_of(entries, functions, operand).is_relation();
            or_later(
                first,
                signed_fault(unless(fits, ModelFault::Kind), postfix_sign(*op)),
            )
        }
        Expression::Complement(operand) => {
            expression_fault(entries, functions, from, true, operand)
        }
        Expression::Identity(operand) => {
            let fits = kind_of(entries, functions, operand).is_set();
            let here = signed_fault(unless(fits, ModelFault::Kind), b"[");
            or_later(
                here,
                expression_fault(entries, functions, from, under, operand),
            )
        }
        Expression::Applied(name, arguments) => {
            let count = arguments.len();
            let judged = judge(entries, functions, from, under, term);
            let own = application_fault(entries, functions, name, arguments, judged.size);
            let mut all = signed_fault(own, name.as_bytes());
            for (index, argument) in arguments.iter().enumerate() {
                let is_complemented = is_under(entries, functions, name, count, index);
                let inner = either(under, is_complemented);
                let one = expression_fault(entries, functions, from, inner, argument);
                all = or_later(all, one);
            }
            all
        }
    }
}
