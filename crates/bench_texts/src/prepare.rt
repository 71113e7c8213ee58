//! What each edit of a test changes, or why it is refused.

ghost use Rattle.std.specs.Prelude.{◌≡◌};
ghost use Rattle.bench_texts.specs.Answers.{test_fault_of};

use crate::change::Change;
use crate::fault::EditFault;
use crate::texts::Texts;
use litmus_ppc::{LitmusFault, read_cond, read_init, read_locations, read_test, read_thread};
use std::alloc::Global;
use std::mem::drop;
use text_values::Test;

// A refusal of a reader, with want of memory apart.
fn test_fault(fault: LitmusFault) -> EditFault
    ensures { result ≡ test_fault_of fault }
{
    match fault {
        LitmusFault::Refused { rule, offset } => {
            EditFault::Test(LitmusFault::Refused { rule, offset })
        }
        LitmusFault::OutOfMemory(error) => EditFault::OutOfMemory(error),
    }
}

impl Texts {
    ghost use Rattle.std.specs.Prelude.{ℕ, List, ◌<◌, ◌≤◌, length, IfOk, MatchResult, true, false, vec_len};
    ghost use Rattle.bench_texts.specs.declared.fault.EditFault.TheVariants.{NoTest};
    ghost use Rattle.bench_texts.specs.declared.change.Change.TheVariants as changes;
    ghost use Rattle.bench_texts.specs.BenchTexts.{test_index};
    ghost use Rattle.text_values.specs.TestValue.{content_of};
    ghost use Rattle.litmus_grammar.specs.Texts.{ReadsTest};
    ghost use Rattle.bench_texts.specs.Held.{texts_of, AreModelsRead};
    ghost use Rattle.bench_texts.specs.Changes.{IsChangeReady};
    ghost use Rattle.bench_texts.specs.Edits.{PutTest, DropTest, SetInit, SetThread, SetCond, SetLocations, has_test, thread_count};
    ghost use Rattle.bench_texts.specs.Answers.{Answers};

    // The index of a test that is there.
    fn find_test(&self, name: &[u8]) -> Result<usize, EditFault>
        ensures { MatchResult result
            (λ i. (i ≡ test_index name.now (texts_of self.now).tests)
            × (has_test (texts_of self.now) name.now ≡ true) × (i < vec_len self.now.tests))
            (λ f. (f ≡ NoTest) × (has_test (texts_of self.now) name.now ≡ false)) }
    {
        let at = self.test_index(name);
        if at < self.tests.len() {
            Ok(at)
        } else {
            Err(EditFault::NoTest)
        }
    }

    // How many threads a test has.
    fn threads_at(&self, name: &[u8], at: usize) -> usize
        requires found { at ≡ test_index name.now (texts_of self.now).tests }
        requires there { at < vec_len self.now.tests }
        ensures { result ≡ thread_count (texts_of self.now) name.now }
    {
        self.tests[at].threads.len()
    }

    pub(crate) fn prepare_drop_test(&self, test: &[u8], spent: bool) -> Result<Change, EditFault>
        ensures answer { Answers (texts_of self.now) spent (DropTest test.now) result }
        ensures ready { IfOk result (IsChangeReady self.now) }
    {
        let at = self.find_test(test)?;
        let tests = self.tests.len() - 1;
        self.limited(
            Change::DropTest { at },
            tests,
            self.models.len(),
            self.outputs(),
            spent,
        )
    }

    pub(crate) fn prepare_init(
        &self,
        alloc: Global,
        test: &[u8],
        text: &[u8],
        spent: bool,
    ) -> Result<Change, EditFault>
        ensures answer { Answers (texts_of self.now) spent (SetInit test.now text.now) result }
        ensures ready { IfOk result (IsChangeReady self.now) }
    {
        let at = self.find_test(test)?;
        match read_init(alloc, text, self.threads_at(test, at)) {
            Ok(init) => self.limited_alike(Change::SetInit { at, init }, spent),
            Err(fault) => Err(test_fault(fault)),
        }
    }

    pub(crate) fn prepare_thread(
        &self,
        alloc: Global,
        test: &[u8],
        thread: usize,
        text: &[u8],
        spent: bool,
    ) -> Result<Change, EditFault>
        ensures answer { Answers (texts_of self.now) spent (SetThread test.now thread text.now)
            result }
        ensures ready { IfOk result (IsChangeReady self.now) }
    {
        let at = self.find_test(test)?;
        if thread >= self.threads_at(test, at) {
            return Err(EditFault::NoThread);
        }
        match read_thread(alloc, text) {
            Ok(other) => self.limited_alike(Change::SetThread { at, thread, other }, spent),
            Err(fault) => Err(test_fault(fault)),
        }
    }

    pub(crate) fn prepare_condition(
        &self,
        alloc: Global,
        test: &[u8],
        text: &[u8],
        spent: bool,
    ) -> Result<Change, EditFault>
        ensures answer { Answers (texts_of self.now) spent (SetCond test.now text.now) result }
        ensures ready { IfOk result (IsChangeReady self.now) }
    {
        let at = self.find_test(test)?;
        match read_cond(alloc, text, self.threads_at(test, at)) {
            Ok(condition) => self.limited_alike(Change::SetCond { at, condition }, spent),
            Err(fault) => Err(test_fault(fault)),
        }
    }

    pub(crate) fn prepare_locations(
        &self,
        alloc: Global,
        test: &[u8],
        text: &[u8],
        spent: bool,
    ) -> Result<Change, EditFault>
        ensures answer { Answers (texts_of self.now) spent (SetLocations test.now text.now) result }
        ensures ready { IfOk result (IsChangeReady self.now) }
    {
        let at = self.find_test(test)?;
        match read_locations(alloc, text, self.threads_at(test, at)) {
            Ok(observed) => self.limited_alike(Change::SetObserved { at, observed }, spent),
            Err(fault) => Err(test_fault(fault)),
        }
    }

    pub(crate) fn prepare_put_test(
        &mut self,
        alloc: Global,
        text: &[u8],
        spent: bool,
    ) -> Result<Change, EditFault>
        ensures answer { Answers (texts_of self.old) spent (PutTest text.now) result }
        ensures ready { IfOk result (IsChangeReady self.new) }
        ensures kept { texts_of self.new ≡ texts_of self.old }
        ensures tests { self.new.tests.items ≡ self.old.tests.items }
        ensures models { self.new.models.items ≡ self.old.models.items }
        ensures read { AreModelsRead self.old → AreModelsRead self.new }
    {
        let test = match read_test(alloc, text) {
            Ok(test) => test,
            Err(fault) => return Err(test_fault(fault)),
        };
        match self.place_test(test, spent) {
            Err(fault) => Err(fault),
            Ok(change) => match self.tests.reserve(1) {
                Ok(()) => Ok(change),
                Err(error) => {
                    drop(change);
                    Err(EditFault::OutOfMemory(error))
                }
            },
        }
    }

    // The place of a test that was read.
    fn place_test(&self, test: Test, spent: bool) -> Result<Change, EditFault>
        ensures answer { (text : List ℕ) → ReadsTest text (content_of test)
            → Answers (texts_of self.now) spent (PutTest text) result }
        ensures change { IfOk result (λ c. c
            ≡ changes.PutTest (test_index test.name (texts_of self.now).tests) test) }
        ensures within { test_index test.name (texts_of self.now).tests ≤ vec_len self.now.tests }
    {
        let at = self.test_index(test.name.as_bytes());
        let tests = self.tests.len().max(at + 1);
        self.limited(
            Change::PutTest { at, test },
            tests,
            self.models.len(),
            self.outputs(),
            spent,
        )
    }
}
