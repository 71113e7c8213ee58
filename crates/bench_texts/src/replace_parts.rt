//! Whole tests with one part changed, made before the texts change.

ghost use Rattle.std.specs.Prelude.{◌≡◌, IfOk};
ghost use Rattle.bench_texts.specs.declared.change.Change.TheVariants as changes;
ghost use Rattle.bench_texts.specs.Held.{texts_of};
ghost use Rattle.bench_texts.specs.Changes.{changed_texts, IsChangeReady};
ghost use Rattle.bench_texts.specs.Replacements.{texts_with, IsReplaceable, IsTestPut};

use crate::changed_tests::{
    test_with_condition, test_with_init, test_with_observed, test_with_thread,
};
use crate::replacement::Replacement;
use crate::texts::Texts;
use std::alloc::{AllocError, Global};
use text_values::{Condition, InitEntry, Place, Thread};

impl Texts {
    pub(crate) fn replace_init(
        &self,
        alloc: Global,
        at: usize,
        init: Vec<InitEntry>,
    ) -> Result<Replacement, AllocError>
        requires { IsChangeReady self.now (changes.SetInit at init) }
        ensures texts { IfOk result (λ r. texts_with r (texts_of self.now)
            ≡ changed_texts (changes.SetInit at init) (texts_of self.now)) }
        ensures ready { IfOk result (IsReplaceable self.now) }
        ensures target { IfOk result (IsTestPut at) }
    {
        let test = test_with_init(alloc, &self.tests[at], init)?;
        Ok(Replacement::PutTest { at, test })
    }

    pub(crate) fn replace_thread(
        &self,
        alloc: Global,
        at: usize,
        thread: usize,
        other: Thread,
    ) -> Result<Replacement, AllocError>
        requires { IsChangeReady self.now (changes.SetThread at thread other) }
        ensures texts { IfOk result (λ r. texts_with r (texts_of self.now)
            ≡ changed_texts (changes.SetThread at thread other) (texts_of self.now)) }
        ensures ready { IfOk result (IsReplaceable self.now) }
        ensures target { IfOk result (IsTestPut at) }
    {
        let test = test_with_thread(alloc, &self.tests[at], thread, other)?;
        Ok(Replacement::PutTest { at, test })
    }

    pub(crate) fn replace_condition(
        &self,
        alloc: Global,
        at: usize,
        condition: Condition,
    ) -> Result<Replacement, AllocError>
        requires { IsChangeReady self.now (changes.SetCond at condition) }
        ensures texts { IfOk result (λ r. texts_with r (texts_of self.now)
            ≡ changed_texts (changes.SetCond at condition) (texts_of self.now)) }
        ensures ready { IfOk result (IsReplaceable self.now) }
        ensures target { IfOk result (IsTestPut at) }
    {
        let test = test_with_condition(alloc, &self.tests[at], condition)?;
        Ok(Replacement::PutTest { at, test })
    }

    pub(crate) fn replace_observed(
        &self,
        alloc: Global,
        at: usize,
        observed: Vec<Place>,
    ) -> Result<Replacement, AllocError>
        requires { IsChangeReady self.now (changes.SetObserved at observed) }
        ensures texts { IfOk result (λ r. texts_with r (texts_of self.now)
            ≡ changed_texts (changes.SetObserved at observed) (texts_of self.now)) }
        ensures ready { IfOk result (IsReplaceable self.now) }
        ensures target { IfOk result (IsTestPut at) }
    {
        let test = test_with_observed(alloc, &self.tests[at], observed)?;
        Ok(Replacement::PutTest { at, test })
    }
}
