//! The draft of a test.

ghost use Rattle.std.specs.Prelude.{◌≡◌, IfOk};
ghost use Rattle.litmus_tokens.specs.ConditionMachine.{proposition_step};
ghost use Rattle.litmus_tokens.specs.Conditions.{condition_limits};
ghost use Rattle.litmus_tokens.specs.PlaceMachine.{place_step};
ghost use Rattle.litmus_tokens.specs.ConditionReading.{condition_stack_of, condition_expectation_of};
ghost use Rattle.text_values.specs.TestValue.{content_of};
ghost use Rattle.litmus_words.specs.Machine.{name_thread};
ghost use Rattle.litmus_table.specs.Reading.{table_state_of, first_steps};
ghost use Rattle.litmus_grammar.specs.TextMachine.{HasColumn, part_step, nothing, first_table, after_init, Done, title_read, table_result, item_start, item_result, next_item, item_read, proposition_result, threads_in};
ghost use Rattle.litmus_ppc.specs.PartReading.{part_of};
ghost use Rattle.litmus_ppc.specs.TextReading.{draft_of, test_of, StepsText, ReadsProposition};

use crate::init::InitBlock;
use crate::parts::{
    Part, begins_tail, column_ended, end_read, exists_read, head_read, is_end, is_thread,
    item_ended, list_opened, list_start, magic_read, quantifier_read, tail_start, title_ended,
};
use litmus_grammar::{ItemExpectation, TextKind};
use litmus_table::Table;
use litmus_tokens::{
    Expectation, Frame, Mark, PlaceExpectation, PlaceStep, PropositionStep, StepError, Token,
    has_thread, is_test_name, place_step, proposition_step,
};
use std::alloc::{AllocError, Global};
use std::mem;
use text_values::{Condition, InitEntry, Name, Place, Proposition, Quantifier, Test, Thread};

/// The draft of a test: what was read of a text so far.
#[derive(Drop)]
pub struct Draft {
    /// The name of the test.
    pub name: Name,
    /// The init block.
    pub init: InitBlock,
    /// The threads.
    pub table: Table,
    /// The observables of `locations`.
    pub observed: Vec<Place>,
    /// The condition, once it is read.
    pub condition: Condition,
}

// The table before a text of this kind: a thread alone has one.
fn first_table(alloc: Global, kind: TextKind) -> Result<Table, AllocError>
    ensures { IfOk result (λ t. table_state_of t ≡ first_table kind) }
{
    let mut table = Table::new(alloc);
    if is_thread(kind) {
        table.add_thread()?;
    }
    Ok(table)
}

// Goes on behind the init block, in a text of this kind.
#[inline(never)]
fn leave_init(part: &mut Part, kind: TextKind)
    ensures { part_of part.new ≡ after_init kind }
{
    part.go_to(Part::after_init(kind));
}

// The text has ended.
#[inline(never)]
fn finish(part: &mut Part)
    ensures { part_of part.new ≡ Done }
{
    part.go_to(Part::Done);
}

impl Draft {
    /// The draft before a text of this kind.
    pub fn new(alloc: Global, kind: TextKind) -> Result<Draft, AllocError>
        ensures { IfOk result (λ h. draft_of h ≡ nothing kind) }
    {
        let name = Name::new(alloc, b"")?;
        let table = first_table(alloc, kind)?;
        Ok(Draft {
            name,
            init: InitBlock::new(alloc),
            table,
            observed: Vec::new(alloc),
            condition: Condition {
                quantifier: Quantifier::Exists,
                proposition: Proposition::Constant(true),
            },
        })
    }

    /// The number of threads: in a test those of its table, in another text the given number.
    pub fn threads(&self, kind: TextKind, given: usize) -> usize
        ensures { result ≡ threads_in kind given (draft_of self.now) }
    {
        match kind {
            TextKind::Test => self.table.width(),
            _ => given,
        }
    }

    /// The step over a token at this byte offset, in this part of a text of this kind, with the
    /// given number of threads. Errors: out of memory, or the token is refused; the draft and the
    /// part are then to be dropped.
    pub fn step(
        &mut self,
        alloc: Global,
        kind: TextKind,
        given: usize,
        part: &mut Part,
        token: Token,
        offset: usize,
    ) -> Result<(), StepError>
        // It does what the machine does.
        ensures { StepsText result part.new self.new (part_step kind given (draft_of self.old)
            (part_of part.old) token offset) }
    {
        match part {
            Part::Magic => magic_read(part, &token),
            Part::Title => self.title_read(part, token),
            Part::TitleEnd => title_ended(part, &token),
            Part::Head(may_have_text) => {
                let may_have_text = *may_have_text;
                head_read(part, may_have_text, &token)
            }
            Part::Init(expected) => {
                if self.init.step(expected, token, offset)? {
                    leave_init(part, kind);
                }
                Ok(())
            }
            Part::WantsColumn => self.column_read(part, token),
            Part::HasColumn => column_ended(part, &token),
            Part::Rows => {
                if self.table.is_row_start() && begins_tail(&token) {
                    return tail_start(part, alloc, &token);
                }
                self.table.step(token, offset)?;
                Ok(())
            }
            Part::Cells => {
                if self.table.is_cell_whole() && is_end(&token) {
                    finish(part);
                    return Ok(());
                }
                self.table.step(token, offset)?;
                Ok(())
            }
            Part::WantsList => list_opened(part, &token),
            Part::Item(expected) => {
                let threads = self.threads(kind, given);
                let expected = mem::replace(expected, ItemExpectation::HasItem);
                self.item_read(part, kind, threads, expected, token)
            }
            Part::WantsQuantifier => quantifier_read(part, alloc, &token),
            Part::AfterTilde => exists_read(part, alloc, &token),
            Part::Proposition(quantifier, frames, operators, expected) => {
                let threads = self.threads(kind, given);
                let quantifier = *quantifier;
                if self.proposition_read(
                    alloc, threads, quantifier, frames, operators, expected, token,
                )? {
                    finish(part);
                }
                Ok(())
            }
            Part::ListOrEnd => list_start(part, &token),
            Part::WantsEnd => end_read(part, &token),
            Part::Done => Err(StepError::Refused),
        }
    }

    // The name of the test.
    #[inline(never)]
    fn title_read(&mut self, part: &mut Part, token: Token) -> Result<(), StepError>
        ensures { StepsText result part.new self.new (title_read (draft_of self.old) token) }
    {
        match token {
            Token::Word(name) => {
                if !is_test_name(name.as_bytes()) {
                    return Err(StepError::Refused);
                }
                self.name = name;
                part.go_to(Part::TitleEnd);
                Ok(())
            }
            _ => Err(StepError::Refused),
        }
    }

    // The name of a column.
    #[inline(never)]
    fn column_read(&mut self, part: &mut Part, token: Token) -> Result<(), StepError>
        ensures { StepsText result part.new self.new (table_result (draft_of self.old) HasColumn
            (name_thread (table_state_of self.old.table) token)) }
    {
        self.table.name_read(token)?;
        part.go_to(Part::HasColumn);
        Ok(())
    }

    // A token of the list of places.
    #[inline(never)]
    fn item_read(
        &mut self,
        part: &mut Part,
        kind: TextKind,
        threads: usize,
        expected: ItemExpectation,
        token: Token,
    ) -> Result<(), StepError>
        ensures { StepsText result part.new self.new
            (item_read kind threads (draft_of self.old) expected token) }
    {
        match expected {
            ItemExpectation::WantsFirst => self.item_start(part, threads, token),
            ItemExpectation::WantsNext => self.next_item(part, kind, threads, token),
            ItemExpectation::InItem(within) => self.item_place(part, within, token),
            ItemExpectation::HasItem => item_ended(part, kind, &token),
        }
    }

    // A place of the list, or its end.
    fn next_item(
        &mut self,
        part: &mut Part,
        kind: TextKind,
        threads: usize,
        token: Token,
    ) -> Result<(), StepError>
        ensures { StepsText result part.new self.new
            (next_item kind threads (draft_of self.old) token) }
    {
        match token {
            Token::Mark(Mark::CloseBracket) => {
                part.go_to(Part::after_list(kind));
                Ok(())
            }
            other => self.item_start(part, threads, other),
        }
    }

    // The first token of a place of the list.
    fn item_start(&mut self, part: &mut Part, threads: usize, token: Token) -> Result<(), StepError>
        ensures { StepsText result part.new self.new (item_start threads
            (draft_of self.old) token) }
    {
        if !has_thread(threads, &token) {
            return Err(StepError::Refused);
        }
        self.item_place(part, PlaceExpectation::Begins, token)
    }

    // A token of a place of the list.
    fn item_place(
        &mut self,
        part: &mut Part,
        within: PlaceExpectation,
        token: Token,
    ) -> Result<(), StepError>
        ensures { StepsText result part.new self.new
            (item_result (draft_of self.old) (place_step within token)) }
    {
        match place_step(within, token)? {
            PlaceStep::Goes(expected) => {
                part.go_to(Part::Item(ItemExpectation::InItem(expected)));
                Ok(())
            }
            PlaceStep::Ends(written) => {
                self.observed.push(written.into_place())?;
                part.go_to(Part::Item(ItemExpectation::HasItem));
                Ok(())
            }
        }
    }

    // A token of the proposition, and whether that ends with it.
    #[inline(never)]
    fn proposition_read(
        &mut self,
        alloc: Global,
        threads: usize,
        quantifier: Quantifier,
        frames: &mut Vec<Frame>,
        operators: &mut usize,
        expected: &mut Expectation,
        token: Token,
    ) -> Result<bool, StepError>
        ensures { ReadsProposition result quantifier frames.new.items operators.new expected.new
            self.new (proposition_result (draft_of self.old) quantifier
            (proposition_step condition_limits
            threads (condition_stack_of frames.old.items) operators.old
            (condition_expectation_of expected.old)
            token)) }
    {
        let open = mem::replace(frames, Vec::new(alloc));
        let wanted = mem::replace(expected, Expectation::Wants);
        match proposition_step(alloc, threads, open, *operators, wanted, token)? {
            PropositionStep::Goes(open, used, wanted) => {
                *frames = open;
                *operators = used;
                *expected = wanted;
                Ok(false)
            }
            PropositionStep::Ends(proposition) => {
                self.condition = Condition {
                    quantifier,
                    proposition,
                };
                Ok(true)
            }
        }
    }

    /// The test that was read.
    pub fn into_test(self) -> Result<Test, AllocError>
        ensures { IfOk result (λ t. content_of t ≡ test_of (draft_of self)) }
    {
        Ok(Test {
            name: self.name,
            init: self.init.into_entries(),
            threads: self.table.into_threads()?,
            observed: self.observed,
            condition: self.condition,
        })
    }

    /// The thread that was read.
    pub fn into_thread(self) -> Thread
        ensures { result.steps.items ≡ first_steps (draft_of self).table.threads }
    {
        self.table.into_thread()
    }

    /// The initial values that were read.
    pub fn into_init(self) -> Vec<InitEntry>
        ensures { result.items ≡ (draft_of self).init.entries }
    {
        self.init.into_entries()
    }
}
