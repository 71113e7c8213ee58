//! The parts of a text, and the steps from part to part.

ghost use Rattle.std.specs.Prelude.{◌≡◌};
ghost use Rattle.litmus_tokens.specs.Texts.{ends_line, is_end, begins_tail};
ghost use Rattle.litmus_grammar.specs.TextMachine.{is_thread, first_stage, is_word_token, is_filter_word, is_list_word, magic_read, title_ended, head_read, column_ended, word_quantifier, quantifier_read, exists_read, proposition_part, list_opened, item_ended, tail_start, end_read, list_start, after_init, after_list, first_part};
ghost use Rattle.litmus_ppc.specs.PartReading.{part_of, IsNextPart};

use litmus_grammar::{InitExpectation, ItemExpectation, TextKind};
use litmus_tokens::{Expectation, Frame, Mark, Stage, StepError, Token, ends_table, is_filter};
use std::alloc::Global;
use text_values::{Name, Quantifier};

/// Where in a text the reader stands.
#[derive(Drop)]
pub enum Part {
    /// The first word, `PPC`, is wanted.
    Magic,
    /// The name of the test is wanted.
    Title,
    /// The line end behind the name is wanted.
    TitleEnd,
    /// Before the init block, and whether a text in quotes may still stand.
    Head(bool),
    /// In the init block.
    Init(InitExpectation),
    /// The name of a column of the header is wanted.
    WantsColumn,
    /// After a column of the header.
    HasColumn,
    /// In the table.
    Rows,
    /// The cells of a thread that is a text of its own.
    Cells,
    /// Behind the word `locations`.
    WantsList,
    /// In a list of locations.
    Item(ItemExpectation),
    /// The condition's quantifier is wanted.
    WantsQuantifier,
    /// Behind the tilde of `~exists`.
    AfterTilde,
    /// In the proposition: the quantifier, the open frames, the number of operators so far, and
    /// what is expected.
    Proposition(Quantifier, Vec<Frame>, usize, Expectation),
    /// The list of `locations` as a text of its own, or the end of an empty text.
    ListOrEnd,
    /// The end of the text is wanted.
    WantsEnd,
    /// After the end, or after a refusal.
    Done,
}

impl Part {
    /// The first part of a text of this kind.
    pub fn first(kind: TextKind) -> Part
        ensures { part_of result ≡ first_part kind }
    {
        match kind {
            TextKind::Test => Part::Magic,
            TextKind::Thread => Part::Cells,
            TextKind::Init => Part::Init(InitExpectation::WantsOpen),
            TextKind::Condition => Part::WantsQuantifier,
            TextKind::Locations => Part::ListOrEnd,
        }
    }

    /// Goes on to the next part.
    pub fn go_to(&mut self, next: Part)
        ensures { self.new ≡ next }
    {
        *self = next;
    }

    /// The part behind the init block, in a text of this kind.
    pub fn after_init(kind: TextKind) -> Part
        ensures { part_of result ≡ after_init kind }
    {
        match kind {
            TextKind::Init => Part::WantsEnd,
            _ => Part::WantsColumn,
        }
    }

    /// The part behind the list of `locations`, in a text of this kind.
    pub fn after_list(kind: TextKind) -> Part
        ensures { part_of result ≡ after_list kind }
    {
        match kind {
            TextKind::Locations => Part::WantsEnd,
            _ => Part::WantsQuantifier,
        }
    }
}

/// Whether a text of this kind is a thread alone.
pub fn is_thread(kind: TextKind) -> bool
    ensures { result ≡ is_thread kind }
{
    match kind {
        TextKind::Thread => true,
        _ => false,
    }
}

/// The stage of the lexer at the first byte of a text of this kind.
pub fn first_stage(kind: TextKind) -> Stage
    ensures { result ≡ first_stage kind }
{
    match kind {
        TextKind::Test => Stage::Magic,
        TextKind::Thread => Stage::CellBegins,
        TextKind::Init => Stage::Init(true, false),
        TextKind::Condition => Stage::Tail,
        TextKind::Locations => Stage::Tail,
    }
}

/// Whether the token is a word.
pub fn is_word(token: &Token) -> bool
    ensures { result ≡ is_word_token token.now }
{
    match token {
        Token::Word(_) => true,
        _ => false,
    }
}

/// Whether the token is `filter` or `final`.
pub fn is_filter_word(token: &Token) -> bool
    ensures { result ≡ is_filter_word token.now }
{
    match token {
        Token::Word(word) => is_filter(word.as_bytes()),
        _ => false,
    }
}

/// Whether the token is the end of the text.
pub fn is_end(token: &Token) -> bool
    ensures { result ≡ is_end token.now }
{
    match token {
        Token::End => true,
        _ => false,
    }
}

/// Whether the token is the end of the line that the test's name stands in.
pub fn is_line_end(token: &Token) -> bool
    ensures { result ≡ ends_line token.now }
{
    match token {
        Token::LineEnd => true,
        _ => false,
    }
}

fn is_list_word(token: &Token) -> bool
    ensures { result ≡ is_list_word token.now }
{
    match token {
        Token::Word(word) => word.as_bytes() == b"locations".as_slice(),
        _ => false,
    }
}

/// Whether the token begins the part behind the table.
pub fn begins_tail(token: &Token) -> bool
    ensures { result ≡ begins_tail token.now }
{
    match token {
        Token::Word(word) => ends_table(word.as_bytes()),
        Token::Mark(Mark::Tilde) => true,
        _ => false,
    }
}

/// The step over the first word of a test. Errors: the token is refused.
#[inline(never)]
pub fn magic_read(part: &mut Part, token: &Token) -> Result<(), StepError>
    ensures { IsNextPart result part.new (magic_read token.now) }
{
    match token {
        Token::Word(word) => {
            if word.as_bytes() == b"PPC".as_slice() {
                part.go_to(Part::Title);
                Ok(())
            } else {
                Err(StepError::Refused)
            }
        }
        _ => Err(StepError::Refused),
    }
}

/// The step over the end of the line of the test's name. Errors: the token is refused.
#[inline(never)]
pub fn title_ended(part: &mut Part, token: &Token) -> Result<(), StepError>
    ensures { IsNextPart result part.new (title_ended token.now) }
{
    match token {
        Token::LineEnd => {
            part.go_to(Part::Head(true));
            Ok(())
        }
        _ => Err(StepError::Refused),
    }
}

/// The step over a token before the init block. Errors: the token is refused.
#[inline(never)]
pub fn head_read(part: &mut Part, may_have_text: bool, token: &Token) -> Result<(), StepError>
    ensures { IsNextPart result part.new (head_read may_have_text token.now) }
{
    match token {
        Token::Text => {
            if may_have_text {
                part.go_to(Part::Head(false));
                Ok(())
            } else {
                Err(StepError::Refused)
            }
        }
        Token::Keyline => {
            part.go_to(Part::Head(false));
            Ok(())
        }
        Token::Mark(Mark::OpenBrace) => {
            part.go_to(Part::Init(InitExpectation::WantsEntry));
            Ok(())
        }
        _ => Err(StepError::Refused),
    }
}

/// The step over the token behind the name of a column. Errors: the token is refused.
#[inline(never)]
pub fn column_ended(part: &mut Part, token: &Token) -> Result<(), StepError>
    ensures { IsNextPart result part.new (column_ended token.now) }
{
    match token {
        Token::Mark(Mark::Bar) => {
            part.go_to(Part::WantsColumn);
            Ok(())
        }
        Token::Mark(Mark::Semicolon) => {
            part.go_to(Part::Rows);
            Ok(())
        }
        _ => Err(StepError::Refused),
    }
}

/// The step over the token behind the word `locations`. Errors: the token is refused.
#[inline(never)]
pub fn list_opened(part: &mut Part, token: &Token) -> Result<(), StepError>
    ensures { IsNextPart result part.new (list_opened token.now) }
{
    match token {
        Token::Mark(Mark::OpenBracket) => {
            part.go_to(Part::Item(ItemExpectation::WantsFirst));
            Ok(())
        }
        _ => Err(StepError::Refused),
    }
}

/// The step over the token behind an observable of the list. Errors: the token is refused.
#[inline(never)]
pub fn item_ended(part: &mut Part, kind: TextKind, token: &Token) -> Result<(), StepError>
    ensures { IsNextPart result part.new (item_ended kind token.now) }
{
    match token {
        Token::Mark(Mark::Semicolon) => {
            part.go_to(Part::Item(ItemExpectation::WantsNext));
            Ok(())
        }
        Token::Mark(Mark::CloseBracket) => {
            part.go_to(Part::after_list(kind));
            Ok(())
        }
        _ => Err(StepError::Refused),
    }
}

/// The step over the first token behind the table. Errors: the token is refused.
#[inline(never)]
pub fn tail_start(part: &mut Part, alloc: Global, token: &Token) -> Result<(), StepError>
    ensures { IsNextPart result part.new (tail_start token.now) }
{
    if is_list_word(token) {
        part.go_to(Part::WantsList);
        return Ok(());
    }
    quantifier_read(part, alloc, token)
}

/// The step over the first token of a list of `locations` that is a text of its own. Errors: the
/// token is refused.
#[inline(never)]
pub fn list_start(part: &mut Part, token: &Token) -> Result<(), StepError>
    ensures { IsNextPart result part.new (list_start token.now) }
{
    if is_list_word(token) {
        part.go_to(Part::WantsList);
        return Ok(());
    }
    end_read(part, token)
}

/// The step over the first token of the condition. Errors: the token is refused.
#[inline(never)]
pub fn quantifier_read(part: &mut Part, alloc: Global, token: &Token) -> Result<(), StepError>
    ensures { IsNextPart result part.new (quantifier_read token.now) }
{
    match token {
        Token::Mark(Mark::Tilde) => {
            part.go_to(Part::AfterTilde);
            Ok(())
        }
        Token::Word(word) => word_quantifier(part, alloc, word),
        _ => Err(StepError::Refused),
    }
}

fn word_quantifier(part: &mut Part, alloc: Global, word: &Name) -> Result<(), StepError>
    ensures { IsNextPart result part.new (word_quantifier word.now) }
{
    if word.as_bytes() == b"exists".as_slice() {
        part.go_to(proposition(alloc, Quantifier::Exists));
        return Ok(());
    }
    if word.as_bytes() == b"forall".as_slice() {
        part.go_to(proposition(alloc, Quantifier::Forall));
        return Ok(());
    }
    Err(StepError::Refused)
}

/// The step over the token behind the tilde of `~exists`. Errors: the token is refused.
#[inline(never)]
pub fn exists_read(part: &mut Part, alloc: Global, token: &Token) -> Result<(), StepError>
    ensures { IsNextPart result part.new (exists_read token.now) }
{
    match token {
        Token::Word(word) => {
            if word.as_bytes() == b"exists".as_slice() {
                part.go_to(proposition(alloc, Quantifier::NotExists));
                return Ok(());
            }
            Err(StepError::Refused)
        }
        _ => Err(StepError::Refused),
    }
}

fn proposition(alloc: Global, quantifier: Quantifier) -> Part
    ensures { part_of result ≡ proposition_part quantifier }
{
    Part::Proposition(quantifier, Vec::new(alloc), 0, Expectation::Wants)
}

/// The step over the end of the text. Errors: the token is refused.
#[inline(never)]
pub fn end_read(part: &mut Part, token: &Token) -> Result<(), StepError>
    ensures { IsNextPart result part.new (end_read token.now) }
{
    match token {
        Token::End => {
            part.go_to(Part::Done);
            Ok(())
        }
        _ => Err(StepError::Refused),
    }
}
