//! Reads items, token by token.

ghost use Rattle.std.specs.Prelude.{◌≡◌, false};
ghost use Rattle.cat_grammar.specs.Grammar.{model_limits, has_no_effect};
ghost use Rattle.text_values.specs.ModelValues.{term_of, clause_of, clauses_of};
ghost use Rattle.cat_grammar.specs.ItemMachine.{begin_item, excess, unless, item_or_end, after_title, after_tilde, after_flag, after_include, finished, clause_ended, item_ended_by_tilde, after_body, and_read, label_start, shown_on, after_as, after_show_as, after_show_label, step_part, clause_start, clause_step};
ghost use Rattle.cat_syntax.specs.ReadingItems.{show_of, head_of, part_of, is_body, GivesRead, ItemSteps};

use crate::lets::{LetPart, after_let};
use crate::parts::{Head, Part, ShowHead, body_start, check_body, show_body};
use cat_expressions::{ExpressionStep, OpenExpression, StepError};
use cat_grammar::{CheckHead, Form};
use cat_tokens::{CatRule, Token};
use std::alloc::Global;
use std::mem;
use text_values::{CheckWord, Expression, Item};

/// The greatest number of items of a model.
pub const MAX_ITEMS: usize = 256;

// The first token of an item.
fn item_start(alloc: Global, token: Token) -> Result<Part, StepError>
    ensures { GivesRead part_of result (begin_item token) }
{
    match token {
        Token::Let => Ok(Part::Let(LetPart::Keyword)),
        Token::Flag => Ok(Part::AfterFlag),
        Token::Tilde => Ok(Part::AfterTilde(false)),
        Token::Check(word) => Ok(check_body(false, false, word)),
        Token::Show => Ok(show_body(alloc, false)),
        Token::Unshow => Ok(show_body(alloc, true)),
        Token::Include => Ok(Part::AfterInclude),
        other => Err(StepError::Refused(other.rule())),
    }
}

// The rule that one more item breaks, if it breaks one.
fn excess(form: Form, count: usize) -> Option<CatRule>
    ensures { result ≡ excess model_limits form count }
{
    match form {
        Form::Model => {
            if count >= MAX_ITEMS {
                Some(CatRule::TooMany)
            } else {
                None
            }
        }
        Form::Item => {
            if count >= 1 {
                Some(CatRule::Syntax)
            } else {
                None
            }
        }
    }
}

// The item that begins so, unless it is one too many.
fn unless_excess(form: Form, count: usize, part: Part) -> Result<Part, StepError>
    ensures { GivesRead part_of result (unless (excess model_limits form count) (Ok
        (part_of part))) }
{
    match excess(form, count) {
        Some(rule) => Err(StepError::Refused(rule)),
        None => Ok(part),
    }
}

// A token where an item may begin or the text may end.
fn item_or_end(alloc: Global, form: Form, count: usize, token: Token) -> Result<Part, StepError>
    ensures { GivesRead part_of result (item_or_end model_limits form count token) }
{
    match token {
        Token::End => {
            if form == Form::Item && count == 0 {
                return Err(StepError::Refused(CatRule::Syntax));
            }
            Ok(Part::Done)
        }
        other => {
            let part = item_start(alloc, other)?;
            unless_excess(form, count, part)
        }
    }
}

// The first token of a text, which may be a title.
fn title_read(alloc: Global, form: Form, count: usize, token: Token) -> Result<Part, StepError>
    ensures { GivesRead part_of result (after_title model_limits form count token) }
{
    match token {
        Token::Name(_) => Ok(Part::Start),
        Token::Quoted(_) => Ok(Part::Start),
        other => item_or_end(alloc, form, count, other),
    }
}

// The check word after `~`.
fn tilde_read(flagged: bool, token: Token) -> Result<Part, StepError>
    ensures { GivesRead part_of result (after_tilde flagged token) }
{
    match token {
        Token::Check(word) => Ok(check_body(flagged, true, word)),
        other => Err(StepError::Refused(other.rule())),
    }
}

fn flag_read(token: Token) -> Result<Part, StepError>
    ensures { GivesRead part_of result (after_flag token) }
{
    match token {
        Token::Tilde => Ok(Part::AfterTilde(true)),
        Token::Check(word) => Ok(check_body(true, false, word)),
        other => Err(StepError::Refused(other.rule())),
    }
}

// Whether a file is one of those whose names need no definition here.
fn has_no_effect(path: &[u8]) -> bool
    ensures { result ≡ has_no_effect path.now }
{
    if path == b"cos.cat".as_slice() {
        return true;
    }
    path == b"stdlib.cat".as_slice()
}

fn include_read(items: &mut Vec<Item>, token: Token) -> Result<Part, StepError>
    ensures { ItemSteps result items.new.items (after_include (clauses_of items.old.items) token) }
{
    match token {
        Token::Quoted(path) => {
            if !has_no_effect(path.as_bytes()) {
                return Err(StepError::Refused(CatRule::Include));
            }
            items.push(Item::Include(path))?;
            Ok(Part::Start)
        }
        other => Err(StepError::Refused(other.rule())),
    }
}

// The item that ends with this expression. A flag does not end without its label.
fn finished(head: Head, body: Expression, rule: CatRule) -> Result<Item, StepError>
    ensures { GivesRead clause_of result (finished (head_of head) (term_of body) rule) }
{
    match head {
        Head::Bound(group, name) => Ok(group.with(name, body)?.into_item()),
        Head::Function(name, parameters) => Ok(Item::Function {
            name,
            parameters,
            body,
        }),
        Head::Check(head) => {
            if head.flagged {
                return Err(StepError::Refused(rule));
            }
            Ok(Item::Check {
                check: head.with(body),
                label: None,
            })
        }
        Head::Show(head) => Ok(head.with(body, None)?.into_item()),
    }
}

// A token that ends an item, after its last expression.
fn item_ended(
    alloc: Global,
    form: Form,
    items: &mut Vec<Item>,
    head: Head,
    body: Expression,
    token: Token,
) -> Result<Part, StepError>
    ensures { ItemSteps result items.new.items (clause_ended model_limits form
        (clauses_of items.old.items)
        (head_of head) (term_of body) token) }
{
    let item = finished(head, body, token.rule())?;
    items.push(item)?;
    item_or_end(alloc, form, items.len(), token)
}

// The `~` of the next item and its check word, after an item's last expression.
fn item_ended_by_tilde(
    form: Form,
    items: &mut Vec<Item>,
    head: Head,
    body: Expression,
    word: CheckWord,
) -> Result<Part, StepError>
    ensures { ItemSteps result items.new.items (item_ended_by_tilde model_limits form
        (clauses_of items.old.items) (head_of head) (term_of body) word) }
{
    let item = finished(head, body, CatRule::Syntax)?;
    items.push(item)?;
    match excess(form, items.len()) {
        None => Ok(check_body(false, true, word)),
        Some(CatRule::TooMany) => Err(StepError::RefusedBefore(CatRule::TooMany)),
        Some(rule) => Err(StepError::Refused(rule)),
    }
}

// A token after an item's expression.
fn body_read(
    alloc: Global,
    form: Form,
    items: &mut Vec<Item>,
    head: Head,
    body: Expression,
    token: Token,
) -> Result<Part, StepError>
    ensures { ItemSteps result items.new.items (after_body model_limits form
        (clauses_of items.old.items)
        (head_of head) (term_of body) token) }
{
    match token {
        Token::And => and_read(head, body),
        Token::As => label_start(head, body),
        Token::Comma => comma_read(head, body),
        other => item_ended(alloc, form, items, head, body, other),
    }
}

fn and_read(head: Head, body: Expression) -> Result<Part, StepError>
    ensures { GivesRead part_of result (and_read (head_of head) (term_of body)) }
{
    match head {
        Head::Bound(group, name) => Ok(Part::Let(LetPart::And(group.with(name, body)?))),
        Head::Function(_, _) => Err(StepError::Refused(CatRule::Syntax)),
        Head::Check(_) => Err(StepError::Refused(CatRule::Syntax)),
        Head::Show(_) => Err(StepError::Refused(CatRule::Syntax)),
    }
}

fn label_start(head: Head, body: Expression) -> Result<Part, StepError>
    ensures { GivesRead part_of result (label_start (head_of head) (term_of body)) }
{
    match head {
        Head::Check(head) => Ok(Part::Label(head, body)),
        Head::Show(head) => Ok(Part::ShowLabel(head, body)),
        Head::Bound(_, _) => Err(StepError::Refused(CatRule::Syntax)),
        Head::Function(_, _) => Err(StepError::Refused(CatRule::Syntax)),
    }
}

fn comma_read(head: Head, body: Expression) -> Result<Part, StepError>
    ensures { GivesRead part_of result (shown_on (head_of head) (term_of body)) }
{
    match head {
        Head::Show(head) => {
            let head = head.with(body, None)?;
            Ok(body_start(Head::Show(head)))
        }
        Head::Bound(_, _) => Err(StepError::Refused(CatRule::Syntax)),
        Head::Function(_, _) => Err(StepError::Refused(CatRule::Syntax)),
        Head::Check(_) => Err(StepError::Refused(CatRule::Syntax)),
    }
}

// The label of a check.
fn label_read(
    items: &mut Vec<Item>,
    head: CheckHead,
    body: Expression,
    token: Token,
) -> Result<Part, StepError>
    ensures { ItemSteps result items.new.items (after_as (clauses_of items.old.items) head
        (term_of body) token) }
{
    match token {
        Token::Name(label) => {
            let check = head.with(body);
            let item = if head.flagged {
                Item::Flag { check, label }
            } else {
                Item::Check {
                    check,
                    label: Some(label),
                }
            };
            items.push(item)?;
            Ok(Part::Start)
        }
        other => Err(StepError::Refused(other.rule())),
    }
}

// The label of a shown expression.
fn show_label_read(head: ShowHead, body: Expression, token: Token) -> Result<Part, StepError>
    ensures { GivesRead part_of result (after_show_as (show_of head) (term_of body) token) }
{
    match token {
        Token::Name(label) => Ok(Part::AfterShowLabel(head.with(body, Some(label))?)),
        other => Err(StepError::Refused(other.rule())),
    }
}

// A token after that label.
fn after_show_label(
    alloc: Global,
    form: Form,
    items: &mut Vec<Item>,
    head: ShowHead,
    token: Token,
) -> Result<Part, StepError>
    ensures { ItemSteps result items.new.items (after_show_label model_limits form
        (clauses_of items.old.items) (show_of head) token) }
{
    match token {
        Token::Comma => Ok(body_start(Head::Show(head))),
        other => {
            items.push(head.into_item())?;
            item_or_end(alloc, form, items.len(), other)
        }
    }
}

// A token where the reader stands at this part, which is not in an item's expression.
fn part_after(
    alloc: Global,
    form: Form,
    items: &mut Vec<Item>,
    part: Part,
    token: Token,
) -> Result<Part, StepError>
    ensures { is_body part ≡ false → ItemSteps result items.new.items
        (step_part model_limits form (clauses_of items.old.items) (part_of part) token) }
{
    match part {
        Part::Title => title_read(alloc, form, items.len(), token),
        Part::Start => item_or_end(alloc, form, items.len(), token),
        Part::Let(part) => after_let(alloc, part, token),
        Part::AfterFlag => flag_read(token),
        Part::AfterTilde(flagged) => tilde_read(flagged, token),
        Part::Body(_) => Err(StepError::Refused(token.rule())),
        Part::Label(head, body) => label_read(items, head, body, token),
        Part::ShowLabel(head, body) => show_label_read(head, body, token),
        Part::AfterShowLabel(head) => after_show_label(alloc, form, items, head, token),
        Part::AfterInclude => include_read(items, token),
        Part::Done => Err(StepError::Refused(token.rule())),
    }
}

/// The state of the reader.
#[derive(Drop)]
pub struct Parser {
    alloc: Global,
    form: Form,
    items: Vec<Item>,
    part: Part,
    // The expression of the item, where the reader stands in one.
    expression: OpenExpression,
}

impl Parser {
    ghost use Rattle.cat_syntax.specs.declared.parts.Head.{Head};
    ghost use Rattle.cat_expressions.specs.OpenReading.{whole_of};
    ghost use Rattle.cat_syntax.specs.ParserState.{state_of, IsItemStep, IsBody};

    /// The reader before a text of this form.
    pub fn new(alloc: Global, form: Form) -> Parser
        ensures start { state_of result ≡ clause_start form }
        ensures form { result.form ≡ form }
    {
        let part = match form {
            Form::Model => Part::Title,
            Form::Item => Part::Start,
        };
        Parser {
            alloc,
            form,
            items: Vec::new(alloc),
            part,
            expression: OpenExpression::new(alloc),
        }
    }

    /// The step over a token. Errors: out of memory, or the rule that this token or the one before
    /// it breaks; the parser is then to be dropped.
    pub fn step(&mut self, token: Token) -> Result<(), StepError>
        ensures steps { IsItemStep result self.new
            (clause_step model_limits self.old.form (state_of self.old) token) }
        ensures form { self.new.form ≡ self.old.form }
    {
        if !self.part.is_body() {
            return self.part_step(token);
        }
        match self.expression.step(self.alloc, &token)? {
            ExpressionStep::Goes => Ok(()),
            ExpressionStep::Ends => self.body_ended(token),
            ExpressionStep::EndsTilde(word) => self.body_ended_by_tilde(word),
        }
    }

    // Goes on to the next part. An expression begins anew.
    fn go_to(&mut self, next: Part)
        ensures state { state_of self.new
            ≡ record { items = clauses_of self.old.items.items; part = part_of next } }
        ensures form { self.new.form ≡ self.old.form }
    {
        self.part = next;
        self.expression.restart();
    }

    // A token that stands in no expression.
    fn part_step(&mut self, token: Token) -> Result<(), StepError>
        ensures steps { is_body self.old.part ≡ false
            → IsItemStep result self.new (clause_step model_limits self.old.form
            (state_of self.old) token) }
        ensures form { self.new.form ≡ self.old.form }
    {
        let part = mem::replace(&mut self.part, Part::Done);
        let next = part_after(self.alloc, self.form, &mut self.items, part, token)?;
        self.go_to(next);
        Ok(())
    }

    // A token after an item's expression.
    fn body_ended(&mut self, token: Token) -> Result<(), StepError>
        ensures steps { (h : Head) → IsBody h self.old.part
            → IsItemStep result self.new (after_body model_limits self.old.form
            (clauses_of self.old.items.items) (head_of h)
            (whole_of self.old.expression.expected) token) }
        ensures form { self.new.form ≡ self.old.form }
    {
        let part = mem::replace(&mut self.part, Part::Done);
        match part {
            Part::Body(head) => {
                let body = self.expression.take_whole();
                let next = body_read(self.alloc, self.form, &mut self.items, head, body, token)?;
                self.go_to(next);
                Ok(())
            }
            _ => Err(StepError::Refused(token.rule())),
        }
    }

    // The `~` of the next item and its check word, after an item's expression.
    fn body_ended_by_tilde(&mut self, word: CheckWord) -> Result<(), StepError>
        ensures steps { (h : Head) → IsBody h self.old.part
            → IsItemStep result self.new (item_ended_by_tilde model_limits self.old.form
            (clauses_of self.old.items.items) (head_of h)
            (whole_of self.old.expression.expected) word) }
        ensures form { self.new.form ≡ self.old.form }
    {
        let part = mem::replace(&mut self.part, Part::Done);
        match part {
            Part::Body(head) => {
                let body = self.expression.take_whole();
                let next = item_ended_by_tilde(self.form, &mut self.items, head, body, word)?;
                self.go_to(next);
                Ok(())
            }
            _ => Err(StepError::Refused(CatRule::Syntax)),
        }
    }

    /// The items that were read.
    pub fn into_items(self) -> Vec<Item>
        ensures { clauses_of result.items ≡ (state_of self).items }
    {
        self.items
    }
}
