//! The position of the reader in an item.

ghost use Rattle.std.specs.Prelude.{◌≡◌, IfOk};
ghost use Rattle.text_values.specs.ModelValues.{term_of, clause_of};
ghost use Rattle.cat_grammar.specs.ItemMachine.{shown_also, shown_clause, begin_body, begin_check, begin_show};
ghost use Rattle.cat_syntax.specs.ReadingItems.{show_of, head_of, part_of};

use crate::lets::{Group, LetPart};
use cat_grammar::CheckHead;
use std::alloc::{AllocError, Global};
use text_values::{CheckWord, Expression, Item, Name, ShownExpression};

/// The expressions of a `show` or an `unshow` so far.
#[derive(Drop)]
pub struct ShowHead {
    /// Whether it is an `unshow`.
    pub hidden: bool,
    /// In the order of the text.
    pub shown: Vec<ShownExpression>,
}

/// The item whose expression is read.
#[derive(Drop)]
pub enum Head {
    /// A name of a group, after the bindings before it.
    Bound(Group, Name),
    /// A function, by its name and its parameters.
    Function(Name, Vec<Name>),
    /// A check or a flag.
    Check(CheckHead),
    /// A `show` or an `unshow`.
    Show(ShowHead),
}

/// The position of the reader.
#[derive(Drop)]
pub enum Part {
    /// Where a title may stand.
    Title,
    /// Where an item may begin.
    Start,
    /// In the head of a `let`.
    Let(LetPart),
    /// After `flag`.
    AfterFlag,
    /// After `~`, with whether the check is a flag's.
    AfterTilde(bool),
    /// In an item's expression, which the reader keeps beside its position.
    Body(Head),
    /// After a check's `as`.
    Label(CheckHead, Expression),
    /// After the `as` of a shown expression.
    ShowLabel(ShowHead, Expression),
    /// After that label.
    AfterShowLabel(ShowHead),
    /// After `include`.
    AfterInclude,
    /// After the end, or after a refusal.
    Done,
}

impl Part {
    ghost use Rattle.cat_syntax.specs.ReadingItems.{is_body};

    /// Whether it is in an item's expression.
    pub fn is_body(&self) -> bool
        ensures { result ≡ is_body self.now }
    {
        match self {
            Part::Body(_) => true,
            _ => false,
        }
    }
}

/// Where an item's expression begins.
pub fn body_start(head: Head) -> Part
    ensures { part_of result ≡ begin_body (head_of head) }
{
    Part::Body(head)
}

/// Where the expression of a check begins.
pub fn check_body(flagged: bool, negated: bool, word: CheckWord) -> Part
    ensures { part_of result ≡ begin_check flagged negated word }
{
    let head = CheckHead {
        flagged,
        negated,
        word,
    };
    body_start(Head::Check(head))
}

/// Where the first expression of a `show` begins.
pub fn show_body(alloc: Global, hidden: bool) -> Part
    ensures { part_of result ≡ begin_show hidden }
{
    let head = ShowHead {
        hidden,
        shown: Vec::new(alloc),
    };
    body_start(Head::Show(head))
}

impl ShowHead {
    /// The list with one more expression. Errors: out of memory.
    pub fn with(self, body: Expression, label: Option<Name>) -> Result<ShowHead, AllocError>
        ensures { IfOk result (λ s. show_of s ≡ shown_also (show_of self) (term_of body) label) }
    {
        let ShowHead { hidden, mut shown } = self;
        shown.push(ShownExpression { body, label })?;
        Ok(ShowHead { hidden, shown })
    }

    /// The item of the show.
    pub fn into_item(self) -> Item
        ensures { clause_of result ≡ shown_clause (show_of self) }
    {
        let ShowHead { hidden, shown } = self;
        Item::Show { hidden, shown }
    }
}
