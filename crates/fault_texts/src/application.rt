//! The fault of an application itself, whatever its arguments' faults are.

ghost use Rattle.std.specs.Prelude.{◌≡◌, ◌<◌, ◌≤◌, List, length, reverse, map, None};
ghost use Rattle.text_values.specs.ModelValue.{gathered};
ghost use Rattle.text_values.specs.ModelValues.{term_of};
ghost use Rattle.binding_kinds.specs.Value.{entry_of};
ghost use Rattle.binding_kinds.specs.Kinds.{found};
ghost use Rattle.binding_kinds.specs.Combinations.{digit, kinds_number};
ghost use Rattle.binding_kinds.specs.Senses.{Sense, HaveSenses, IsSameSize, sense_of, sizes_in, kinds_in, size_applied, under_of, fault_applied};

use binding_kinds::{Entry, Function, Kind, MAX_SIZE, ModelFault, function_of, judge, unless};
use text_values::{Expression, Name};

fn digit(kind: Kind) -> usize
    ensures value { result ≡ digit kind }
    ensures small { result ≤ 2 }
{
    match kind {
        Kind::OfSet => 0,
        Kind::OfRelation => 1,
        Kind::OfAny => 2,
    }
}

/// The kinds of the arguments as one number.
fn combination_of(entries: &[Entry], functions: &[Function], arguments: &[Expression]) -> usize
    ensures { (senses : List Sense) → HaveSenses functions.now senses → length arguments.now ≤ 8
        → result
        ≡ kinds_number (kinds_in senses (reverse (map entry_of entries.now))
        (gathered (map term_of arguments.now))) }
{
    let mut combination = 0usize;
    let mut end = arguments.len();
    'arguments: while 0 < end {
        end -= 1;
        let judged = judge(entries, functions, 0, false, &arguments[end]);
        let digit = digit(judged.kind);
        combination = combination.saturating_mul(3).saturating_add(digit);
    }
    combination
}

/// The fault of an application itself, given its size.
pub fn application_fault(
    entries: &[Entry],
    functions: &[Function],
    name: &Name,
    arguments: &[Expression],
    size: usize,
) -> Option<ModelFault>
    ensures { let names = reverse (map entry_of entries.now) in
        let ts = gathered (map term_of arguments.now) in
        (senses : List Sense) → HaveSenses functions.now senses
        → (let f = sense_of senses (length arguments.now) (found names name.now) in
        IsSameSize size (size_applied f (sizes_in senses names ts))
        → result
        ≡ fault_applied f (sizes_in senses names ts) (kinds_in senses names ts) None) }
{
    match function_of(entries, functions, name, arguments.len()) {
        Err(fault) => Some(fault),
        Ok(function) => {
            if MAX_SIZE < size {
                return Some(ModelFault::TooLarge);
            }
            let combination = combination_of(entries, functions, arguments);
            unless(!function.signature(combination).clashes, ModelFault::Kind)
        }
    }
}

/// Whether the argument at that index stands under a complement in the body of the function.
pub fn is_under(
    entries: &[Entry],
    functions: &[Function],
    name: &Name,
    count: usize,
    index: usize,
) -> bool
    ensures { (senses : List Sense) → HaveSenses functions.now senses → index < count
        → result
        ≡ under_of (sense_of senses count (found (reverse (map entry_of entries.now)) name.now))
        index }
{
    match function_of(entries, functions, name, count) {
        Err(_) => false,
        Ok(function) => function.is_under(index),
    }
}
