//! Reads texts.

ghost use Rattle.std.specs.Prelude.{◌≡◌, ◌<◌, ◌≤◌, List, length, IfOk, IfErr, MatchResult};
ghost use Rattle.litmus_tokens.specs.Texts.{fresh_after, test_lexing};
ghost use Rattle.text_values.specs.TestValue.{Content, Formula, content_of, formula_of};
ghost use Rattle.text_values.specs.declared.test.Quantifier.{Quantifier};
ghost use Rattle.text_values.specs.declared.test.Step.{Step};
ghost use Rattle.litmus_ppc.specs.Faults.{HasLitmusOffset, IsLitmusTooLong, IsLitmusMemory, IsLitmusFaultOf};
ghost use Rattle.litmus_grammar.specs.TextMachine.{text_start, first_stage, run_parts};
ghost use Rattle.litmus_ppc.specs.TextReading.{state_of, Runs, StepsAt};
ghost use Rattle.litmus_grammar.specs.Texts.{ReadsTest, IsTestFault, ReadsInit, IsInitFault, ReadsThread, IsThreadFault, ReadsCondition, IsConditionFault, ReadsLocations, IsLocationsFault};

use crate::fault::LitmusFault;
use crate::parts::is_line_end;
use crate::reader::Reader;
use litmus_grammar::TextKind;
use litmus_tokens::{LitmusRule, NextLexeme, Token, first_lexeme};
use std::alloc::Global;
use text_values::{Condition, InitEntry, MAX_BYTES, Place, Test, Thread, is_blank};

// Whether the line holds nothing but blanks, this byte too.
fn is_fresh_behind(is_fresh: bool, byte: u8) -> bool
    ensures { result ≡ fresh_after is_fresh byte }
{
    byte == b'\n' || (is_fresh && is_blank(byte))
}

// Hands the tokens of a text on, up to its end.
fn read_tokens(alloc: Global, bytes: &[u8], reader: &mut Reader) -> Result<(), LitmusFault>
    ensures { StepsAt result reader.new (run_parts (state_of reader.old)
        (test_lexing (state_of reader.old).stage bytes.now)) }
{
    let mut offset = 0;
    // Whether the line holds nothing but blanks so far.
    let mut is_fresh = false;
    while offset < bytes.len() {
        let left = bytes.len() - offset;
        let first = bytes[offset];
        match first_lexeme(alloc, reader.stage(), is_fresh, &bytes[offset..]) {
            Ok(NextLexeme::Layout(n)) => {
                is_fresh = is_fresh_behind(is_fresh, first);
                offset += n.max(1).min(left);
            }
            Ok(NextLexeme::Lexeme(token, n)) => {
                is_fresh = is_line_end(&token);
                match reader.step(token, offset) {
                    Ok(()) => offset += n.max(1).min(left),
                    Err(fault) => return Err(fault),
                }
            }
            Err(error) => return Err(LitmusFault::OutOfMemory(error)),
        }
    }
    reader.step(Token::End, offset)
}

// The reader behind the tokens of a text.
fn read_all(
    alloc: Global,
    bytes: &[u8],
    kind: TextKind,
    threads: usize,
) -> Result<Reader, LitmusFault>
    ensures { Runs result (run_parts (text_start kind threads) (test_lexing
        (first_stage kind) bytes.now)) }
{
    let mut reader = match Reader::new(alloc, kind, threads) {
        Ok(reader) => reader,
        Err(error) => return Err(LitmusFault::OutOfMemory(error)),
    };
    match read_tokens(alloc, bytes, &mut reader) {
        Ok(()) => Ok(reader),
        Err(fault) => Err(fault),
    }
}

// The reader behind a whole text of this kind, whose length is looked at first.
fn read_whole(
    alloc: Global,
    bytes: &[u8],
    kind: TextKind,
    threads: usize,
) -> Result<Reader, LitmusFault>
    ensures runs { length bytes.now ≤ 65536
        → Runs result (run_parts (text_start kind threads) (test_lexing
        (first_stage kind) bytes.now)) }
    ensures too_long { 65536 < length bytes.now → MatchResult result (λ _. ⊥) IsLitmusTooLong }
    ensures within { IfErr result (λ e. HasLitmusOffset (length bytes.now) e) }
{
    if bytes.len() > MAX_BYTES {
        return Err(LitmusFault::Refused {
            rule: LitmusRule::TooLong,
            offset: MAX_BYTES,
        });
    }
    read_all(alloc, bytes, kind, threads)
}

/// Reads a test.
///
/// A text of over 65,536 bytes is refused first. Any other rejected text is blamed at the first
/// token that no valid text could have there, which is the end of the text if it ends too early. A
/// text that the grammar allows can still be refused for an initial value of a thread that it does
/// not have, at the entry, and then for a label, thread by thread. Errors: the broken rule with its
/// byte offset, or out of memory.
pub fn read_test(alloc: Global, bytes: &[u8]) -> Result<Test, LitmusFault>
    // What is read is what the text means.
    ensures found { IfOk result (λ t. ReadsTest bytes.now (content_of t)) }
    // What means a test is read so, unless memory runs out.
    ensures only { (v : Content) → ReadsTest bytes.now v
        → MatchResult result (λ t. content_of t ≡ v) IsLitmusMemory }
    // A rejected text is blamed at the first token that no test could have there, by the rule that
    // is broken there. A test is then refused at its first entry of a thread that does not exist,
    // otherwise at the first label or branch that the checks of labels find.
    ensures fault { IfErr result (IsLitmusFaultOf (IsTestFault bytes.now)) }
    // It stands within the text, or at its end.
    ensures within { IfErr result (λ e. HasLitmusOffset (length bytes.now) e) }
    // The length is looked at first.
    ensures too_long { 65536 < length bytes.now → MatchResult result (λ _. ⊥) IsLitmusTooLong }
{
    let whole = match read_whole(alloc, bytes, TextKind::Test, 0) {
        Ok(reader) => reader,
        Err(fault) => return Err(fault),
    };
    match whole.check_init() {
        Ok(()) => {}
        Err(fault) => return Err(fault),
    }
    match whole.check_labels() {
        Ok(()) => {}
        Err(fault) => return Err(fault),
    }
    let draft = whole.into_draft();
    match draft.into_test() {
        Ok(test) => Ok(test),
        Err(error) => Err(LitmusFault::OutOfMemory(error)),
    }
}

/// Reads a thread: cells with semicolons between. Errors: the broken rule with its byte offset, or
/// out of memory.
pub fn read_thread(alloc: Global, bytes: &[u8]) -> Result<Thread, LitmusFault>
    // What is read is what the text means.
    ensures found { IfOk result (λ t. ReadsThread bytes.now t.steps.items) }
    // What means a thread is read so, unless memory runs out.
    ensures only { (v : List Step) → ReadsThread bytes.now v
        → MatchResult result (λ t. t.steps.items ≡ v) IsLitmusMemory }
    // A rejected text is blamed at the first token that no thread could have there, by the rule
    // that is broken there. A thread is then refused at the first label or branch that the checks
    // of labels find.
    ensures fault { IfErr result (IsLitmusFaultOf (IsThreadFault bytes.now)) }
    // It stands within the text, or at its end.
    ensures within { IfErr result (λ e. HasLitmusOffset (length bytes.now) e) }
    // The length is looked at first.
    ensures too_long { 65536 < length bytes.now → MatchResult result (λ _. ⊥) IsLitmusTooLong }
{
    let reader = match read_whole(alloc, bytes, TextKind::Thread, 1) {
        Ok(reader) => reader,
        Err(fault) => return Err(fault),
    };
    match reader.check_labels() {
        Ok(()) => {
            let draft = reader.into_draft();
            Ok(draft.into_thread())
        }
        Err(fault) => Err(fault),
    }
}

/// Reads the block of initial values, in braces, of a test of `threads` threads. Errors: the broken
/// rule with its byte offset, or out of memory.
pub fn read_init(alloc: Global, bytes: &[u8], threads: usize) -> Result<Vec<InitEntry>, LitmusFault>
    // What is read is what the text means.
    ensures found { IfOk result (λ v. ReadsInit threads bytes.now v.items) }
    // What means initial values is read so, unless memory runs out.
    ensures only { (v : List InitEntry) → ReadsInit threads bytes.now v
        → MatchResult result (λ r. r.items ≡ v) IsLitmusMemory }
    // A rejected text is blamed at the first token that no block could have there, by the rule that
    // is broken there. A block is then refused at its first entry of a thread that does not exist.
    ensures fault { IfErr result (IsLitmusFaultOf (IsInitFault threads bytes.now)) }
    // It stands within the text, or at its end.
    ensures within { IfErr result (λ e. HasLitmusOffset (length bytes.now) e) }
    // The length is looked at first.
    ensures too_long { 65536 < length bytes.now → MatchResult result (λ _. ⊥) IsLitmusTooLong }
{
    let reader = match read_whole(alloc, bytes, TextKind::Init, threads) {
        Ok(reader) => reader,
        Err(fault) => return Err(fault),
    };
    match reader.check_init() {
        Ok(()) => {
            let draft = reader.into_draft();
            Ok(draft.into_init())
        }
        Err(fault) => Err(fault),
    }
}

/// Reads a quantifier and its proposition, of a test of `threads` threads. Errors: the broken rule
/// with its byte offset, or out of memory.
pub fn read_cond(alloc: Global, bytes: &[u8], threads: usize) -> Result<Condition, LitmusFault>
    // What is read is what the text means.
    ensures found { IfOk result (λ c.
        ReadsCondition threads bytes.now (c.quantifier, formula_of c.proposition)) }
    // What means a condition is read so, unless memory runs out.
    ensures only { (v : Quantifier × Formula) → ReadsCondition threads bytes.now v
        → MatchResult result (λ c. (c.quantifier, formula_of c.proposition) ≡ v) IsLitmusMemory }
    // A rejected text is blamed at the first token that no condition could have there, by the rule
    // it breaks.
    ensures fault { IfErr result (IsLitmusFaultOf (IsConditionFault threads bytes.now)) }
    // It stands within the text, or at its end.
    ensures within { IfErr result (λ e. HasLitmusOffset (length bytes.now) e) }
    // The length is looked at first.
    ensures too_long { 65536 < length bytes.now → MatchResult result (λ _. ⊥) IsLitmusTooLong }
{
    match read_whole(alloc, bytes, TextKind::Condition, threads) {
        Ok(reader) => {
            let draft = reader.into_draft();
            Ok(draft.condition)
        }
        Err(fault) => Err(fault),
    }
}

/// Reads the word `locations` and its list, of a test of `threads` threads. A text without tokens
/// is an empty list. Errors: the broken rule with its byte offset, or out of memory.
pub fn read_locations(
    alloc: Global,
    bytes: &[u8],
    threads: usize,
) -> Result<Vec<Place>, LitmusFault>
    // What is read is what the text means.
    ensures found { IfOk result (λ v. ReadsLocations threads bytes.now v.items) }
    // What means a list of places is read so, unless memory runs out.
    ensures only { (v : List Place) → ReadsLocations threads bytes.now v
        → MatchResult result (λ r. r.items ≡ v) IsLitmusMemory }
    // A rejected text is blamed at the first token that no such list could have there, by the rule
    // it breaks.
    ensures fault { IfErr result (IsLitmusFaultOf (IsLocationsFault threads bytes.now)) }
    // It stands within the text, or at its end.
    ensures within { IfErr result (λ e. HasLitmusOffset (length bytes.now) e) }
    // The length is looked at first.
    ensures too_long { 65536 < length bytes.now → MatchResult result (λ _. ⊥) IsLitmusTooLong }
{
    match read_whole(alloc, bytes, TextKind::Locations, threads) {
        Ok(reader) => {
            let draft = reader.into_draft();
            Ok(draft.observed)
        }
        Err(fault) => Err(fault),
    }
}
