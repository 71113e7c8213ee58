//! Reads the table of threads.

ghost use Rattle.std.specs.Prelude.{◌≡◌, ◌≤◌, ℕ, List, map, length, IfOk, OnOk};
ghost use Rattle.litmus_words.specs.Machine.{table_start, put_at, is_last, table_ended, operation, begin_instruction, cell, target_read, finished, table_step, widened, name_thread, is_begin, is_row_start, can_end, wanted, rule_of_word, separator_rule, table_rule_at};
ghost use Rattle.litmus_tokens.specs.Texts.{TokenAt};
ghost use Rattle.litmus_table.specs.Checks.{IsFoundAt};
ghost use Rattle.litmus_table.specs.Late.{Note, first_late};
ghost use Rattle.litmus_table.specs.Laws.{AreNoted, steps_of};
ghost use Rattle.litmus_table.specs.Bounds.{AreThreadsUpTo, IsFoundWithin};
ghost use Rattle.litmus_table.specs.Reading.{threads_of, cell_expectation_of, table_state_of, first_steps, TableSteps};

use crate::late::{LateFault, PlacedThread};
use litmus_tokens::{LitmusRule, Mark, StepError, Token, is_column, is_filter};
use litmus_words::{Opcode, Pending, Want, is_int, is_register, opcode_of};
use std::alloc::{AllocError, Global};
use text_values::{BranchCondition, Instruction, Step, Thread};

/// What the reader of a cell expects next.
#[derive(Drop)]
enum Cell {
    /// At its beginning.
    Begins,
    /// After a label.
    Labelled,
    /// Within an instruction.
    InInstruction(Pending),
    /// After the word of a branch, with its condition if it has one.
    WantsLabel(Option<BranchCondition>),
    /// After a whole instruction.
    Whole,
}

impl Cell {
    /// Goes on to what is expected next.
    fn go_to(&mut self, next: Cell)
        ensures { self.new ≡ next }
    {
        *self = next;
    }
}

/// The threads read so far.
#[derive(Drop)]
pub struct Table {
    alloc: Global,
    threads: Vec<PlacedThread>,
    // The number of the thread whose cell is read.
    column: usize,
    cell: Cell,
}

impl Cell {
    fn is_begin(&self) -> bool
        ensures { result ≡ is_begin (cell_expectation_of self.now) }
    {
        match self {
            Cell::Begins => true,
            _ => false,
        }
    }

    fn can_end(&self) -> bool
        ensures { result ≡ can_end (cell_expectation_of self.now) }
    {
        match self {
            Cell::Begins => true,
            Cell::Labelled => true,
            Cell::InInstruction(_) => false,
            Cell::WantsLabel(_) => false,
            Cell::Whole => true,
        }
    }

    // What is wanted within an instruction.
    fn want(&self) -> Option<Want>
        ensures { result ≡ wanted (cell_expectation_of self.now) }
    {
        match self {
            Cell::InInstruction(pending) => pending.want(),
            _ => None,
        }
    }
}

impl Table {
    /// A table without threads.
    pub fn new(alloc: Global) -> Table
        ensures { table_state_of result ≡ table_start }
    {
        Table {
            alloc,
            threads: Vec::new(alloc),
            column: 0,
            cell: Cell::Begins,
        }
    }

    /// The number of threads.
    pub fn width(&self) -> usize
        ensures { result ≡ length (table_state_of self.now).threads }
    {
        self.threads.len()
    }

    /// Adds a thread. Errors: out of memory.
    pub fn add_thread(&mut self) -> Result<(), AllocError>
        ensures { IfOk result (λ _. table_state_of self.new ≡ widened (table_state_of self.old)) }
    {
        self.threads.push(PlacedThread::new(self.alloc))?;
        Ok(())
    }

    /// The step over the name of the next thread. Errors: out of memory, or the token is not
    /// that name.
    pub fn name_read(&mut self, token: Token) -> Result<(), StepError>
        ensures steps { TableSteps result self.new (name_thread (table_state_of self.old) token) }
        ensures within { (n : ℕ) → AreThreadsUpTo n (table_state_of self.old).threads
            → OnOk result (AreThreadsUpTo n (table_state_of self.new).threads) }
    {
        match token {
            Token::Word(word) => {
                if is_column(word.as_bytes(), self.threads.len()) {
                    self.add_thread()?;
                    return Ok(());
                }
                Err(StepError::Refused)
            }
            _ => Err(StepError::Refused),
        }
    }

    /// Whether a row begins here.
    pub fn is_row_start(&self) -> bool
        ensures { result ≡ is_row_start (table_state_of self.now) }
    {
        self.column == 0 && self.cell.is_begin()
    }

    /// Whether the cell can end here.
    pub fn is_cell_whole(&self) -> bool
        ensures { result ≡ can_end (table_state_of self.now).expected }
    {
        self.cell.can_end()
    }

    // The rule that a word breaks which cannot stand here.
    fn word_rule(&self, is_alone: bool, word: &[u8]) -> LitmusRule
        ensures { result ≡ rule_of_word is_alone (table_state_of self.now) word.now }
    {
        if self.is_row_start() && !is_alone && is_filter(word) {
            return LitmusRule::Filter;
        }
        if self.cell.want() == Some(Want::Base) && is_register(word) {
            return LitmusRule::ZeroBase;
        }
        LitmusRule::Instruction
    }

    // The rule that a separator breaks which cannot stand here.
    fn separator_rule(&self) -> LitmusRule
        ensures { result ≡ separator_rule (table_state_of self.now).expected }
    {
        if self.cell.can_end() {
            return LitmusRule::Columns;
        }
        LitmusRule::Instruction
    }

    /// The rule that a misplaced token breaks, in a table or in the text of a thread alone.
    pub fn rule(&self, is_alone: bool, token: &Token) -> LitmusRule
        ensures { result ≡ table_rule_at is_alone (table_state_of self.now) token.now }
    {
        match token {
            Token::Mark(Mark::Semicolon) => self.separator_rule(),
            Token::Mark(Mark::Bar) => self.separator_rule(),
            Token::Word(word) => self.word_rule(is_alone, word.as_bytes()),
            Token::Number(is_negative, digits) => {
                if self.cell.want() == Some(Want::Zero) && is_int(*is_negative, digits.as_bytes()) {
                    return LitmusRule::Offset;
                }
                LitmusRule::Instruction
            }
            _ => LitmusRule::Instruction,
        }
    }

    /// The step over a token at this byte offset. Errors: out of memory, or the token is refused;
    /// the table is then to be dropped.
    pub fn step(&mut self, token: Token, offset: usize) -> Result<(), StepError>
        // It does what the machine does.
        ensures steps { TableSteps result self.new (table_step
            (table_state_of self.old) token offset) }
        // What it keeps of this token stands at this byte.
        ensures within { (n : ℕ) → offset ≤ n → AreThreadsUpTo n (table_state_of self.old).threads
            → OnOk result (AreThreadsUpTo n (table_state_of self.new).threads) }
    {
        self.go(token, offset)?;
        Ok(())
    }

    // Goes over a token, in the cell as it is.
    fn go(&mut self, token: Token, offset: usize) -> Result<(), StepError>
        ensures { TableSteps result self.new (table_step (table_state_of self.old) token offset) }
    {
        match &mut self.cell {
            Cell::Begins => self.cell_start(token, offset),
            Cell::Labelled => self.instruction_start(token, offset),
            Cell::InInstruction(pending) => {
                pending.take(&token)?;
                match pending.want() {
                    Some(_) => Ok(()),
                    None => {
                        let instruction = pending.instruction();
                        self.finish(instruction, offset)
                    }
                }
            }
            Cell::WantsLabel(condition) => {
                let condition = *condition;
                self.target_read(condition, token, offset)
            }
            Cell::Whole => self.cell_ended(&token),
        }
    }

    // A token where a cell begins.
    fn cell_start(&mut self, token: Token, offset: usize) -> Result<(), StepError>
        ensures { TableSteps result self.new (cell (threads_of self.old.threads.items)
            self.old.column
            token offset) }
    {
        match token {
            Token::Label(name) => {
                self.put(Step::Label(name), offset)?;
                self.cell.go_to(Cell::Labelled);
                Ok(())
            }
            other => self.instruction_start(other, offset),
        }
    }

    // A token where an instruction may begin, or the cell may end.
    fn instruction_start(&mut self, token: Token, offset: usize) -> Result<(), StepError>
        ensures { TableSteps result self.new (begin_instruction
            (threads_of self.old.threads.items) self.old.column
            token offset) }
    {
        match token {
            Token::Word(word) => self.word_read(opcode_of(word.as_bytes()), offset),
            other => self.cell_ended(&other),
        }
    }

    // The word of an instruction.
    fn word_read(&mut self, opcode: Option<Opcode>, offset: usize) -> Result<(), StepError>
        ensures { TableSteps result self.new (operation (threads_of self.old.threads.items)
            self.old.column offset opcode) }
    {
        match opcode {
            Some(Opcode::Data(opcode)) => {
                self.cell
                    .go_to(Cell::InInstruction(Pending::new(self.alloc, opcode)));
                Ok(())
            }
            Some(Opcode::Branch(condition)) => {
                self.cell.go_to(Cell::WantsLabel(condition));
                Ok(())
            }
            Some(Opcode::Fence(fence)) => self.finish(Instruction::Fence(fence), offset),
            None => Err(StepError::Refused),
        }
    }

    // The label that a branch names.
    fn target_read(
        &mut self,
        condition: Option<BranchCondition>,
        token: Token,
        offset: usize,
    ) -> Result<(), StepError>
        ensures { TableSteps result self.new (target_read (threads_of self.old.threads.items)
            self.old.column condition token offset) }
    {
        match token {
            Token::Word(label) => {
                let branch = match condition {
                    Some(condition) => Instruction::BranchIf { condition, label },
                    None => Instruction::Branch { label },
                };
                self.finish(branch, offset)
            }
            _ => Err(StepError::Refused),
        }
    }

    fn finish(&mut self, instruction: Instruction, offset: usize) -> Result<(), StepError>
        ensures { TableSteps result self.new (finished (threads_of self.old.threads.items)
            self.old.column instruction offset) }
    {
        self.put(Step::Instruction(instruction), offset)?;
        self.cell.go_to(Cell::Whole);
        Ok(())
    }

    // Adds a step to the thread whose cell is read.
    fn put(&mut self, step: Step, offset: usize) -> Result<(), AllocError>
        ensures threads { IfOk result (λ _. threads_of self.new.threads.items
            ≡ put_at self.old.column step offset (threads_of self.old.threads.items)) }
        ensures column { self.new.column ≡ self.old.column }
    {
        if self.column < self.threads.len() {
            self.threads[self.column].push(step, offset)?;
        }
        Ok(())
    }

    // Whether no cell of the row follows.
    fn is_last(&self) -> bool
        ensures { result ≡ is_last (threads_of self.now.threads.items) self.now.column }
    {
        self.threads.len() <= self.column.saturating_add(1)
    }

    // A token behind a cell that is whole.
    fn cell_ended(&mut self, token: &Token) -> Result<(), StepError>
        ensures { TableSteps result self.new (table_ended
            (threads_of self.old.threads.items) self.old.column
            token.now) }
    {
        match token {
            Token::Mark(Mark::Semicolon) => {
                if !self.is_last() {
                    return Err(StepError::Refused);
                }
                self.column = 0;
                self.cell.go_to(Cell::Begins);
                Ok(())
            }
            Token::Mark(Mark::Bar) => {
                if self.is_last() {
                    return Err(StepError::Refused);
                }
                self.column = self.column.saturating_add(1);
                self.cell.go_to(Cell::Begins);
                Ok(())
            }
            _ => Err(StepError::Refused),
        }
    }

    /// The first fault of a label, thread by thread, or `None`. Errors: out of memory.
    pub fn check_labels(&self) -> Result<Option<LateFault>, AllocError>
        // The byte is one of those that were kept.
        ensures within { (n : ℕ) → AreThreadsUpTo n (table_state_of self.now).threads
            → IfOk result (IsFoundWithin n) }
        // What it finds is what the definitions find, at the byte where that stands.
        ensures found { (text : List TokenAt) (notes : List (List Note))
            → AreNoted text notes (table_state_of self.now).threads
            → IfOk result (λ f. IsFoundAt text f (first_late notes)) }
    {
        for thread in &self.threads {
            if let Some(fault) = thread.check_labels(self.alloc)? {
                return Ok(Some(fault));
            }
        }
        Ok(None)
    }

    /// The threads, without their offsets. Errors: out of memory.
    pub fn into_threads(self) -> Result<Vec<Thread>, AllocError>
        ensures { IfOk result (λ ts. map (λ t. t.steps.items) ts.items
            ≡ steps_of (table_state_of self).threads) }
    {
        let mut threads = Vec::new(self.alloc);
        for thread in self.threads {
            threads.push(thread.into_thread())?;
        }
        Ok(threads)
    }

    /// The first thread, without its offsets. A text of a thread alone has no other.
    pub fn into_thread(self) -> Thread
        ensures { result.steps.items ≡ first_steps (table_state_of self).threads }
    {
        for thread in self.threads {
            return thread.into_thread();
        }
        Thread {
            steps: Vec::new(self.alloc),
        }
    }
}
