//! The stages of a text: the parts that its tokens stand in.

ghost use Rattle.std.specs.Prelude.{◌≡◌, Bool};
ghost use Rattle.litmus_tokens.specs.Stage.{part_rule, next_stage};
ghost use Rattle.litmus_tokens.specs.declared.stage.Stage.TheVariants.{Init, Header, CellBegins};

use crate::rule::LitmusRule;
use crate::token::{Mark, Token};
use crate::word::ends_table;

// The most threads that a test has.
const MAX_THREADS: usize = 8;

/// The part of a text that the next token stands in. It decides how bytes are cut into tokens, and
/// which rule a misplaced token breaks.
#[derive(Clone, Copy, PartialEq, Eq)]
pub enum Stage {
    /// The first word, `PPC`.
    Magic,
    /// The name of the test.
    Title,
    /// The line end behind the name.
    TitleEnd,
    /// The string and the keylines, up to `{`.
    Head,
    /// The init block: whether it is a text of its own, and whether a word was read last.
    Init(bool, bool),
    /// The header: how many threads can still follow.
    Header(usize),
    /// The table, where a cell begins.
    CellBegins,
    /// The table, within a cell.
    InCell,
    /// `locations` and the condition.
    Tail,
}

impl Stage {
    /// The rule that a misplaced token breaks here, unless another rule names it.
    pub fn rule(self) -> LitmusRule
        ensures { result ≡ part_rule self }
    {
        match self {
            Stage::Magic => LitmusRule::NotPpc,
            Stage::Title => LitmusRule::Name,
            Stage::TitleEnd => LitmusRule::Name,
            Stage::Head => LitmusRule::Init,
            Stage::Init(_, _) => LitmusRule::Init,
            Stage::Header(_) => LitmusRule::Header,
            Stage::CellBegins => LitmusRule::Instruction,
            Stage::InCell => LitmusRule::Instruction,
            Stage::Tail => LitmusRule::Condition,
        }
    }

    /// The stage behind this token. Each stage ends at a token of its own.
    pub fn after(self, token: &Token) -> Stage
        ensures { result ≡ next_stage self token.now }
    {
        match self {
            Stage::Magic => Stage::Title,
            Stage::Title => Stage::TitleEnd,
            Stage::TitleEnd => Stage::Head,
            Stage::Head => match token {
                Token::Mark(Mark::OpenBrace) => Stage::Init(false, false),
                _ => Stage::Head,
            },
            Stage::Init(alone, _) => init_after(alone, token),
            Stage::Header(left) => header_after(left, token),
            Stage::CellBegins => cell_after(token),
            Stage::InCell => match token {
                Token::Mark(Mark::Bar) => Stage::CellBegins,
                Token::Mark(Mark::Semicolon) => Stage::CellBegins,
                _ => Stage::InCell,
            },
            Stage::Tail => Stage::Tail,
        }
    }
}

fn init_after(alone: bool, token: &Token) -> Stage
    ensures { (word : Bool) → result ≡ next_stage (Init alone word) token.now }
{
    match token {
        Token::Mark(Mark::CloseBrace) => {
            if alone {
                Stage::Init(true, false)
            } else {
                Stage::Header(MAX_THREADS)
            }
        }
        Token::Word(_) => Stage::Init(alone, true),
        _ => Stage::Init(alone, false),
    }
}

fn header_after(left: usize, token: &Token) -> Stage
    ensures { result ≡ next_stage (Header left) token.now }
{
    match token {
        Token::Mark(Mark::Bar) => Stage::Header(left.saturating_sub(1)),
        Token::Mark(Mark::Semicolon) => Stage::CellBegins,
        _ => Stage::Header(left),
    }
}

fn cell_after(token: &Token) -> Stage
    ensures { result ≡ next_stage CellBegins token.now }
{
    match token {
        Token::Word(word) => {
            if ends_table(word.as_bytes()) {
                Stage::Tail
            } else {
                Stage::InCell
            }
        }
        Token::Mark(Mark::Tilde) => Stage::Tail,
        Token::Mark(Mark::Bar) => Stage::CellBegins,
        Token::Mark(Mark::Semicolon) => Stage::CellBegins,
        _ => Stage::InCell,
    }
}
