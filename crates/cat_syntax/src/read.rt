//! Reads a text.

ghost use Rattle.std.specs.Prelude.{◌≡◌, ℕ, ◌<◌, ◌≤◌, List, [], ◌∷◌, length, IfOk, IfErr, MatchResult};
ghost use Rattle.cat_syntax.specs.Faults.{HasCatOffset, IsCatTooLong, IsCatMemory, IsCatFaultOf};
ghost use Rattle.cat_tokens.specs.Lexer.{model_lexing};
ghost use Rattle.cat_grammar.specs.Grammar.{model_limits};
ghost use Rattle.cat_grammar.specs.ItemMachine.{clause_step};
ghost use Rattle.cat_syntax.specs.ParserState.{state_of};
ghost use Rattle.text_values.specs.ModelValues.{clause_of, clauses_of};
ghost use Rattle.cat_syntax.specs.ReadingTexts.{reading, StepsAt, ReadsTo};
ghost use Rattle.cat_grammar.specs.Reads.{ReadsClauses};
ghost use Rattle.cat_grammar.specs.Running.{run_items, with_offset};
ghost use Rattle.text_values.specs.ModelValue.{Clause};

use crate::fault::CatFault;
use crate::items::Parser;
use cat_expressions::StepError;
use cat_grammar::Form;
use cat_tokens::{CatRule, NextLexeme, Token, first_lexeme};
use std::alloc::{AllocError, Global};
use text_values::{Item, MAX_BYTES, ModelText};

// A token at an offset; the token before it began at `before`.
fn step_at(parser: &mut Parser, token: Token, before: usize, offset: usize) -> Result<(), CatFault>
    ensures steps { StepsAt result parser.new (with_offset before offset
        (clause_step model_limits parser.old.form (state_of parser.old) token)) }
    ensures form { parser.new.form ≡ parser.old.form }
    ensures within { IfErr result (λ e. (n : ℕ) → before ≤ n → offset ≤ n → HasCatOffset n e) }
{
    match parser.step(token) {
        Ok(()) => Ok(()),
        Err(StepError::OutOfMemory) => Err(CatFault::OutOfMemory(AllocError)),
        Err(StepError::Refused(rule)) => Err(CatFault::Refused { rule, offset }),
        Err(StepError::RefusedBefore(rule)) => Err(CatFault::Refused {
            rule,
            offset: before,
        }),
    }
}

// Gives the parser the tokens of a text and its end.
fn read_tokens(alloc: Global, bytes: &[u8], parser: &mut Parser) -> Result<(), CatFault>
    ensures steps { StepsAt result parser.new (run_items model_limits parser.old.form 0
        (state_of parser.old)
        (model_lexing bytes.now)) }
    ensures within { IfErr result (λ e. HasCatOffset (length bytes.now) e) }
{
    let mut before = 0;
    let mut offset = 0;
    while offset < bytes.len() {
        let left = bytes.len() - offset;
        match first_lexeme(alloc, &bytes[offset..]) {
            Ok(NextLexeme::Layout(n)) => offset += n.max(1).min(left),
            Ok(NextLexeme::Lexeme(token, n)) => match step_at(parser, token, before, offset) {
                Ok(()) => {
                    before = offset;
                    offset += n.max(1).min(left);
                }
                Err(fault) => return Err(fault),
            },
            Err(error) => return Err(CatFault::OutOfMemory(error)),
        }
    }
    step_at(parser, Token::End, before, offset)
}

// The items of a text.
fn read_all(alloc: Global, bytes: &[u8], form: Form) -> Result<Vec<Item>, CatFault>
    ensures reads { ReadsTo result (reading form bytes.now) }
    ensures within { IfErr result (λ e. HasCatOffset (length bytes.now) e) }
    ensures too_long { 65536 < length bytes.now → MatchResult result (λ _. ⊥) IsCatTooLong }
{
    if bytes.len() > MAX_BYTES {
        return Err(CatFault::Refused {
            rule: CatRule::TooLong,
            offset: MAX_BYTES,
        });
    }
    let mut parser = Parser::new(alloc, form);
    match read_tokens(alloc, bytes, &mut parser) {
        Ok(()) => Ok(parser.into_items()),
        Err(fault) => Err(fault),
    }
}

// The items of a text, as the grammar has them.
fn read_text(alloc: Global, bytes: &[u8], form: Form) -> Result<Vec<Item>, CatFault>
    ensures found { IfOk result (λ v. ReadsClauses form bytes.now (clauses_of v.items)) }
    ensures only { (v : List Clause) → ReadsClauses form bytes.now v
        → MatchResult result (λ w. clauses_of w.items ≡ v) IsCatMemory }
    ensures fault { IfErr result (IsCatFaultOf form bytes.now) }
    ensures within { IfErr result (λ e. HasCatOffset (length bytes.now) e) }
    ensures too_long { 65536 < length bytes.now → MatchResult result (λ _. ⊥) IsCatTooLong }
{
    read_all(alloc, bytes, form)
}

/// The model of a text: an optional title, and items. A rejected text is blamed at the first token
/// that no valid text could have there, which is the end of the text if it ends too early. Two
/// cases differ by one token: a name or parameter too many is blamed itself, and not the `and` or
/// comma before it; and where the item too many begins with `~` behind a `*`, that `~` is blamed,
/// and not the word behind it that shows this. Errors: the broken rule with its byte offset, or out
/// of memory.
pub fn read_model(alloc: Global, bytes: &[u8]) -> Result<ModelText, CatFault>
    // What is read is what the text means.
    ensures found { IfOk result (λ m. ReadsClauses Form.Model bytes.now
        (clauses_of m.items.items)) }
    // What means some items is read so, unless memory runs out.
    ensures only { (v : List Clause) → ReadsClauses Form.Model bytes.now v
        → MatchResult result (λ m. clauses_of m.items.items ≡ v) IsCatMemory }
    // A refusal has the offset of the first token that cannot stand, and the rule that is broken
    // there.
    ensures fault { IfErr result (IsCatFaultOf Form.Model bytes.now) }
    // It stands within the text, or at its end.
    ensures within { IfErr result (λ e. HasCatOffset (length bytes.now) e) }
    // The length is looked at first.
    ensures too_long { 65536 < length bytes.now → MatchResult result (λ _. ⊥) IsCatTooLong }
{
    match read_text(alloc, bytes, Form::Model) {
        Ok(items) => Ok(ModelText { items }),
        Err(fault) => Err(fault),
    }
}

/// The item of a text that is one item, without a title. A rejected text is blamed as a model's is;
/// a second item is refused at the token that shows it. Errors: the broken rule with its byte
/// offset, or out of memory.
pub fn read_item(alloc: Global, bytes: &[u8]) -> Result<Item, CatFault>
    // What is read is the item that the text means.
    ensures found { IfOk result (λ item. ReadsClauses Form.Item bytes.now (clause_of item ∷ [])) }
    // What means an item is read so, unless memory runs out.
    ensures only { (v : Clause) → ReadsClauses Form.Item bytes.now (v ∷ [])
        → MatchResult result (λ item. clause_of item ≡ v) IsCatMemory }
    // A refusal has the offset of the first token that cannot stand, and the rule that is broken
    // there.
    ensures fault { IfErr result (IsCatFaultOf Form.Item bytes.now) }
    // It stands within the text, or at its end.
    ensures within { IfErr result (λ e. HasCatOffset (length bytes.now) e) }
    // The length is looked at first.
    ensures too_long { 65536 < length bytes.now → MatchResult result (λ _. ⊥) IsCatTooLong }
{
    let mut items = match read_text(alloc, bytes, Form::Item) {
        Ok(items) => items,
        Err(fault) => return Err(fault),
    };
    match items.pop() {
        Some(item) => Ok(item),
        None => Err(CatFault::Refused {
            rule: CatRule::Syntax,
            offset: bytes.len(),
        }),
    }
}
