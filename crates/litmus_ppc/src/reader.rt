//! Reads the tokens of a text one after another.

ghost use Rattle.std.specs.Prelude.{◌≡◌, ℕ, List, IfOk, IfErr};
ghost use Rattle.litmus_tokens.specs.Texts.{TokenAt};
ghost use Rattle.litmus_table.specs.Late.{Note, first_late};
ghost use Rattle.litmus_table.specs.Laws.{AreNoted};
ghost use Rattle.litmus_table.specs.Reading.{table_state_of};
ghost use Rattle.litmus_grammar.specs.Kept.{AreDraftUpTo};
ghost use Rattle.litmus_ppc.specs.Faults.{HasLitmusOffset, IsMissingFound, IsLateFound};
ghost use Rattle.litmus_grammar.specs.InitMachine.{missing};
ghost use Rattle.litmus_grammar.specs.TextMachine.{text_start, with_offset, text_step, text_rule_at, stage_rule, threads_in};
ghost use Rattle.litmus_ppc.specs.TextReading.{draft_of, state_of, StepsAt};

use crate::draft::Draft;
use crate::fault::LitmusFault;
use crate::parts::{Part, first_stage, is_filter_word, is_thread, is_word};
use litmus_grammar::TextKind;
use litmus_table::LateFault;
use litmus_tokens::{LitmusRule, Stage, StepError, Token};
use std::alloc::{AllocError, Global};

/// The state of the reader.
#[derive(Drop)]
pub struct Reader {
    alloc: Global,
    kind: TextKind,
    threads: usize,
    stage: Stage,
    part: Part,
    draft: Draft,
}

impl Reader {
    /// A reader at the start of a text of this kind, for a test of so many threads.
    pub fn new(alloc: Global, kind: TextKind, threads: usize) -> Result<Reader, AllocError>
        ensures { IfOk result (λ r. state_of r ≡ text_start kind threads) }
    {
        let draft = Draft::new(alloc, kind)?;
        Ok(Reader {
            alloc,
            kind,
            threads,
            stage: first_stage(kind),
            part: Part::first(kind),
            draft,
        })
    }

    /// The part of the text that the next token stands in.
    pub fn stage(&self) -> Stage
        ensures { result ≡ (state_of self.now).stage }
    {
        self.stage
    }

    /// The step over a token at this byte offset. Errors: out of memory, or the token is refused;
    /// the reader is then to be dropped.
    pub fn step(&mut self, token: Token, offset: usize) -> Result<(), LitmusFault>
        // It does what the machine does.
        ensures { StepsAt result self.new
            (with_offset offset (text_step (state_of self.old) token offset)) }
    {
        let rule = self.rule(&token);
        let next = self.stage.after(&token);
        match self.draft.step(
            self.alloc,
            self.kind,
            self.threads,
            &mut self.part,
            token,
            offset,
        ) {
            Ok(()) => {
                self.stage = next;
                Ok(())
            }
            Err(StepError::Refused) => Err(LitmusFault::Refused { rule, offset }),
            Err(StepError::OutOfMemory) => Err(LitmusFault::OutOfMemory(AllocError)),
        }
    }

    // The rule that the token breaks if it cannot stand here.
    fn rule(&self, token: &Token) -> LitmusRule
        ensures { result
            ≡ text_rule_at self.now.kind (table_state_of self.now.draft.table) self.now.stage
            token.now }
    {
        match token {
            Token::Broken(rule) => *rule,
            _ => self.stage_rule(token),
        }
    }

    // The rule that the token breaks in the part that it stands in.
    fn stage_rule(&self, token: &Token) -> LitmusRule
        ensures { result
            ≡ stage_rule self.now.kind (table_state_of self.now.draft.table) self.now.stage
            token.now }
    {
        match self.stage {
            Stage::CellBegins => self.draft.table.rule(is_thread(self.kind), token),
            Stage::InCell => self.draft.table.rule(is_thread(self.kind), token),
            Stage::Init(_, true) if is_word(token) => LitmusRule::TypedDeclaration,
            Stage::Tail if is_filter_word(token) => LitmusRule::Filter,
            stage => stage.rule(),
        }
    }

    /// Refuses an initial value of a thread that the test does not have. Called once the whole text
    /// is read.
    pub fn check_init(&self) -> Result<(), LitmusFault>
        // It answers the byte of the first such entry.
        ensures found { IsMissingFound result (missing
            (threads_in (state_of self.now).kind (state_of self.now).threads
            (state_of self.now).draft)
            (state_of self.now).draft.init.entries
            (state_of self.now).draft.init.starts) }
        // A fault stands no further on than what is blamed.
        ensures within { (n : ℕ) → AreDraftUpTo n (state_of self.now).draft
            → IfErr result (HasLitmusOffset n) }
    {
        let threads = self.draft.threads(self.kind, self.threads);
        match self.draft.init.missing(threads) {
            Some(offset) => Err(LitmusFault::Refused {
                rule: LitmusRule::Init,
                offset,
            }),
            None => Ok(()),
        }
    }

    /// Refuses a label that is defined twice, and a branch to a label that stands before it or
    /// nowhere. Called once the whole text is read.
    pub fn check_labels(&self) -> Result<(), LitmusFault>
        // It answers what the definitions find, thread by thread.
        ensures found { (text : List TokenAt) (notes : List (List Note))
            → AreNoted text notes (state_of self.now).draft.table.threads
            → IsLateFound text result (first_late notes) }
        // A fault stands no further on than what is blamed.
        ensures within { (n : ℕ) → AreDraftUpTo n (state_of self.now).draft
            → IfErr result (HasLitmusOffset n) }
    {
        match self.draft.table.check_labels() {
            Ok(Some(LateFault { rule, offset })) => Err(LitmusFault::Refused { rule, offset }),
            Ok(None) => Ok(()),
            Err(error) => Err(LitmusFault::OutOfMemory(error)),
        }
    }

    /// The draft of the whole text.
    pub fn into_draft(self) -> Draft
        ensures { draft_of result ≡ (state_of self).draft }
    {
        self.draft
    }
}
