//! A refused text as a record.

ghost use Rattle.std.specs.Prelude.{◌≡◌, IfOk};
ghost use Rattle.line_answers.specs.Results as results;

use command_answers::TextFile;
use fault_texts::position_of;
use outcome_lines::TextRefusal;
use std::alloc::{AllocError, Global};
use text_values::put_decimal;

/// The letter and the number of a rule. Errors: want of memory.
pub fn rule_text(alloc: Global, letter: u8, number: u8) -> Result<Vec<u8>, AllocError>
    ensures { IfOk result (λ v. v.items ≡ results.rule_text letter number) }
{
    let mut rule = Vec::new(alloc);
    rule.push(letter)?;
    put_decimal(&mut rule, u64::from(number))?;
    Ok(rule)
}

/// A file that is refused by this rule at this offset.
pub fn refusal_of<'a>(file: &'a TextFile<'a>, rule: &'a [u8], offset: usize) -> TextRefusal<'a>
    ensures { result ≡ results.refused_file file.now rule.now offset }
{
    let position = position_of(&file.text, offset);
    TextRefusal {
        path: file.path.as_bytes(),
        rule,
        offset: offset as u64,
        line: position.line,
        column: position.column,
    }
}
