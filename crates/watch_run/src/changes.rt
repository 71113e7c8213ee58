//! A later version of a file: the edits that make it of what the bench holds.

ghost use Rattle.std.specs.Prelude.{◌≡◌, ◌<◌, ◌↔◌, Some, None, false, not, length, remove, slice_get, option_map, is_none, IfOk, OnOk, OnErr, IfSome, IfNone, IsSome, IsTrue};
ghost use Rattle.std.specs.List.{list_any};
ghost use Rattle.text_values.specs.ModelValues.{clauses_of};
ghost use Rattle.text_values.specs.TestValue.{Content, content_of};
ghost use Rattle.litmus_grammar.specs.Texts.{ReadsTest};
ghost use Rattle.bench_texts.specs.BenchTexts.{test_index, put_at, changed_at};
ghost use Rattle.bench_texts.specs.Edits.{edit_of, RefusesEdit};
ghost use Rattle.bench_texts.specs.Held.{plain_model, texts_of};
ghost use Rattle.session_answers.specs.Cells.{test_named, model_named};
ghost use Rattle.session_edits.specs.Faults.{HasFaultLine};
ghost use Rattle.watch_run.specs.Holding.{bench_model_name, holds_name, without_unheld, held_name, is_leaving, HoldsItems, IsSameButModel, IsTestTaken, IsFileHeld, ModelFile, TestFile};
ghost use Rattle.watch_run.specs.Counts.{HasEditsFor, IsEditCounted};
ghost use Rattle.watch_run.specs.Edits.{IsEditTried, AcceptsEdit, is_full_fault, IsFullBeside, IsVersionTaken, IsModelEdit, AreChanges, IsChangeEdit, IsChangeTried, AreTestParts, HasNoParts, IsPartTried, IsStillHeld, AreSameBut};
ghost use Rattle.watch_run.specs.Edited.{AreItemsChanged, IsModelPut, IsModelEdited, ArePartsChanged, IsTestPut, IsTestDropped, IsTestEdited};
ghost use Rattle.watch_run.specs.Boards.{KnowsItsTexts, IsUnedited, holding};

use crate::author::Author;
use crate::model_names::bench_model_name;
use crate::watched::Watched;
use bench_texts::{Edit, EditFault, NamedModel, Texts};
use cat_syntax::{CatFault, ModelText, read_model};
use litmus_ppc::{LitmusFault, Name, Test, read_test};
use session_views::laws::own_edits_are_counted;
use std::alloc::{AllocError, Global};
use std::mem::replace;
use std::sync::Wait;
use watch_edits::{ItemChange, TestPart, changed_parts, item_changes, item_edit, part_edit};

// A fault that is told. Errors: out of memory, where that is the fault.
fn told_fault(fault: EditFault) -> Result<EditFault, AllocError>
    ensures same { IfOk result (λ f. f ≡ fault) }
    ensures answer { IfOk result HasFaultLine }
{
    match fault {
        EditFault::OutOfMemory(error) => Err(error),
        EditFault::Test(LitmusFault::OutOfMemory(error)) => Err(error),
        EditFault::Model(CatFault::OutOfMemory(error)) => Err(error),
        fault => Ok(fault),
    }
}

// Why a text is refused that cannot be read. Errors: out of memory, where that is why.
fn unread(refusal: Option<EditFault>) -> Result<Option<EditFault>, AllocError>
    ensures same { IfOk result (λ o. o ≡ refusal) }
    ensures some { IfOk result IsSome }
{
    match refusal {
        Some(fault) => Ok(Some(fault)),
        None => Err(AllocError),
    }
}

// Whether the bench is full.
fn is_full(fault: &EditFault) -> bool
    ensures { result ≡ is_full_fault fault.now }
{
    match fault {
        EditFault::Full => true,
        _ => false,
    }
}

// The model of this name, if it is there.
fn held_model<'t>(texts: &'t Texts, name: &[u8]) -> Option<&'t NamedModel>
    ensures { option_map (λ m. plain_model m.now) result
        ≡ model_named (texts_of texts.now) name.now }
{
    texts.models().get(texts.model_index(name))
}

// The test of this name, if it is there.
fn held_test<'t>(texts: &'t Texts, name: &[u8]) -> Option<&'t Test>
    ensures { option_map (λ t. content_of t.now) result ≡ test_named (texts_of texts.now) name.now }
{
    texts.tests().get(texts.test_index(name))
}

// The changes that make this of the model of this name, or none where there is no such model.
#[tactic(auto, using(crate::proofs::Changing::changes_of))]
fn changes_to(
    alloc: Global,
    texts: &Texts,
    name: &[u8],
    new: &ModelText,
) -> Result<Option<Vec<ItemChange>>, AllocError>
    ensures changes { IfOk result (λ o. IfSome o (λ cs.
        AreChanges name.now (texts_of texts.now) (clauses_of new.now.items.items) cs.items)) }
    ensures none { IfOk result (λ o.
        IfNone o (model_named (texts_of texts.now) name.now ≡ None)) }
{
    match held_model(texts, name) {
        Some(model) => Ok(Some(item_changes(alloc, &model.text().items, &new.items)?)),
        None => Ok(None),
    }
}

// Whether the model of this name has just the items of this one.
fn holds_items(
    alloc: Global,
    texts: &Texts,
    name: &[u8],
    new: &ModelText,
) -> Result<bool, AllocError>
    ensures { IfOk result (λ is. (IsTrue is)
        ↔ (HoldsItems name.now (clauses_of new.now.items.items) (texts_of texts.now))) }
{
    match changes_to(alloc, texts, name, new)? {
        Some(changes) => Ok(changes.is_empty()),
        None => Ok(false),
    }
}

// The edit that makes a change of the model of this name, where there is such a model.
fn edit_to(
    alloc: Global,
    texts: &Texts,
    name: &[u8],
    new: &ModelText,
    change: ItemChange,
) -> Result<Option<Edit>, AllocError>
    ensures edit { IfOk result (λ o. IfSome o (λ e. IsChangeEdit name.now (texts_of texts.now)
        (clauses_of new.now.items.items) change (edit_of e))) }
    ensures none { IfOk result (λ o.
        IfNone o (model_named (texts_of texts.now) name.now ≡ None)) }
{
    match held_model(texts, name) {
        Some(model) => Ok(Some(item_edit(alloc, model, &new.items, change)?)),
        None => Ok(None),
    }
}

// The parts that differ from the test of this name, or none where there is no such test or it has
// another shape.
#[tactic(auto, using(crate::proofs::Changing::parts_of, crate::proofs::Changing::no_parts_of, crate::proofs::Changing::no_test))]
fn parts_to(alloc: Global, texts: &Texts, new: &Test) -> Result<Option<Vec<TestPart>>, AllocError>
    ensures parts { IfOk result (λ o.
        IfSome o (λ ps. AreTestParts (texts_of texts.now) (content_of new.now) ps.items)) }
    ensures none { IfOk result (λ o.
        IfNone o (HasNoParts (texts_of texts.now) (content_of new.now))) }
{
    let old = match held_test(texts, new.name.as_bytes()) {
        Some(old) => old,
        None => return Ok(None),
    };
    match changed_parts(alloc, old, new)? {
        Some(parts) => Ok(Some(parts)),
        None => Ok(None),
    }
}

// Whether the first test of this name is this one.
fn holds_test(alloc: Global, texts: &Texts, new: &Test) -> Result<bool, AllocError>
    ensures { IfOk result (λ is. (IsTrue is)
        ↔ (test_named (texts_of texts.now) new.now.name ≡ Some (content_of new.now))) }
{
    match parts_to(alloc, texts, new)? {
        Some(parts) => Ok(parts.is_empty()),
        None => Ok(false),
    }
}

// Whether this is the name of the test that a file holds.
fn is_of(held: &Option<Name>, name: &Name) -> bool
    ensures { result ≡ holds_name name.now held.now }
{
    match held {
        Some(held) => held.as_bytes() == name.as_bytes(),
        None => false,
    }
}

// Whether some file holds the test of this name.
fn is_held(names: &[Option<Name>], name: &Name) -> bool
    ensures { result ≡ list_any (holds_name name.now) names.now }
{
    for held in names {
        if is_of(held, name) {
            return true;
        }
    }
    false
}

// Whether no file but that of this index holds the test of this name.
#[tactic(auto, using(crate::proofs::Lists::held_beside))]
fn is_alone(names: &[Option<Name>], index: usize, name: &Name) -> bool
    requires { index < length names.now }
    ensures { result ≡ not (list_any (holds_name name.now) (remove names.now index)) }
{
    !is_held(&names[..index], name) && !is_held(&names[index + 1..], name)
}

// Whether the test that the file of that index holds goes where it holds the one of this name from
// now on.
fn is_leaving(names: &[Option<Name>], index: usize, new: &Name) -> bool
    ensures { result ≡ is_leaving (slice_get names.now index) index new.now names.now }
{
    match names.get(index) {
        Some(Some(old)) => { old.as_bytes() != new.as_bytes() && is_alone(names, index, old) }
        Some(None) => false,
        None => false,
    }
}

// The file of that index holds the test of this name from now on. What it held before.
#[tactic(auto, using(crate::proofs::Lists::changed_set, crate::proofs::Lists::got_set, crate::proofs::Lists::got_past))]
fn put_name(names: &mut Vec<Option<Name>>, index: usize, name: Name) -> Option<Name>
    ensures names { names.new.items ≡ changed_at index (λ old. Some name) names.old.items }
    ensures old { result ≡ held_name index names.old.items }
{
    if index < names.len() {
        replace(&mut names[index], Some(name))
    } else {
        None
    }
}

impl<A: Author> Watched<A> {
    // Makes an edit of the texts, and has the author make it. Why it is refused, if it is. Errors:
    // out of memory, also where a worker gave up.
    fn make<W: Wait>(
        &mut self,
        rt: &W,
        alloc: Global,
        edit: Edit,
    ) -> Result<Option<EditFault>, AllocError>
        requires ready { KnowsItsTexts A.seen A.counts self.old }
        ensures ready { OnOk result (KnowsItsTexts A.seen A.counts self.new) }
        ensures made { IfOk result (λ o.
            IsEditTried (texts_of self.old.texts) (edit_of edit) o (texts_of self.new.texts)) }
        ensures counted { IfOk result (λ o. IsEditCounted (is_none o)
            (A.counts self.old.author) (A.counts self.new.author)) }
        ensures same { OnErr result (A.counts self.new.author ≡ A.counts self.old.author) }
        ensures jobs { (A.counts self.new.author).jobs ≡ (A.counts self.old.author).jobs }
        ensures names { self.new.names ≡ self.old.names }
    {
        own_edits_are_counted(&self.texts);
        let prepared = match self.texts.prepare_unless_spent(alloc, &edit, false) {
            Ok(prepared) => prepared,
            Err(fault) => return Ok(Some(told_fault(fault)?)),
        };
        self.author.give(rt, edit)?;
        self.texts.commit(prepared);
        Ok(None)
    }

    // Why an edit would be refused, if it would. Nothing is changed.
    fn refusal(&mut self, alloc: Global, edit: &Edit) -> Result<Option<EditFault>, AllocError>
        requires ready { KnowsItsTexts A.seen A.counts self.old }
        ensures ready { KnowsItsTexts A.seen A.counts self.new }
        ensures fault { IfOk result (λ o. IfSome o (λ fault. HasFaultLine fault
            × RefusesEdit (texts_of self.old.texts) false (edit_of edit.now) fault)) }
        ensures accepts { IfOk result (λ o.
            IfNone o (AcceptsEdit (texts_of self.old.texts) (edit_of edit.now))) }
        ensures author { self.new.author ≡ self.old.author }
        ensures texts { texts_of self.new.texts ≡ texts_of self.old.texts }
        ensures names { self.new.names ≡ self.old.names }
    {
        match self.texts.prepare_unless_spent(alloc, edit, false) {
            Ok(_prepared) => Ok(None),
            Err(fault) => Ok(Some(told_fault(fault)?)),
        }
    }

    // Makes a change of the model of this name. Whether it is accepted.
    #[tactic(auto, using(crate::proofs::Changing::change_alone, crate::proofs::Changing::change_tried, crate::proofs::Counting::counted_if))]
    fn change_item<W: Wait>(
        &mut self,
        rt: &W,
        alloc: Global,
        name: &[u8],
        new: &ModelText,
        change: ItemChange,
    ) -> Result<bool, AllocError>
        requires ready { KnowsItsTexts A.seen A.counts self.old }
        ensures ready { OnOk result (KnowsItsTexts A.seen A.counts self.new) }
        ensures tried { IfOk result (λ is. IsChangeTried name.now
            (clauses_of new.now.items.items) change is (texts_of self.old.texts)
            (texts_of self.new.texts)) }
        ensures others { OnOk result (IsSameButModel name.now (texts_of self.old.texts)
            (texts_of self.new.texts)) }
        ensures counted { IfOk result (λ is. IsEditCounted is (A.counts self.old.author)
            (A.counts self.new.author)) }
        ensures same { OnErr result (A.counts self.new.author ≡ A.counts self.old.author) }
        ensures jobs { (A.counts self.new.author).jobs ≡ (A.counts self.old.author).jobs }
        ensures names { self.new.names ≡ self.old.names }
    {
        match edit_to(alloc, &self.texts, name, new, change)? {
            Some(edit) => {
                let fault = self.make(rt, alloc, edit)?;
                Ok(fault.is_none())
            }
            None => Ok(false),
        }
    }

    // Makes the changes that lead from the model of this name to this one, item by item, as far as
    // they are accepted.
    fn change_items<W: Wait>(
        &mut self,
        rt: &W,
        alloc: Global,
        name: &[u8],
        new: &ModelText,
    ) -> Result<(), AllocError>
        requires ready { KnowsItsTexts A.seen A.counts self.old }
        ensures ready { OnOk result (KnowsItsTexts A.seen A.counts self.new) }
        ensures edits { OnOk result (HasEditsFor (AreItemsChanged name.now
            (clauses_of new.now.items.items) (texts_of self.old.texts) (texts_of self.new.texts))
            (A.counts self.old.author) (A.counts self.new.author)) }
        ensures others { OnOk result (IsSameButModel name.now (texts_of self.old.texts)
            (texts_of self.new.texts)) }
        ensures kept { OnOk result (HoldsItems name.now (clauses_of new.now.items.items)
            (texts_of self.old.texts) → IsUnedited A.counts self.old self.new) }
        ensures jobs { (A.counts self.new.author).jobs ≡ (A.counts self.old.author).jobs }
        ensures names { self.new.names ≡ self.old.names }
    {
        let changes = match changes_to(alloc, &self.texts, name, new)? {
            Some(changes) => changes,
            None => return Ok(()),
        };
        for change in &changes {
            let accepted = self.change_item(rt, alloc, name, new, *change)?;
            if !accepted {
                return Ok(());
            }
        }
        Ok(())
    }

    // Makes the model of this name this one, item by item or as a whole, where the bench accepts
    // the whole. Errors: out of memory, also where the edits end otherwise, which they do not.
    fn put_items<W: Wait>(
        &mut self,
        rt: &W,
        alloc: Global,
        name: &[u8],
        new: &ModelText,
        whole: Edit,
    ) -> Result<(), AllocError>
        requires ready { KnowsItsTexts A.seen A.counts self.old }
        requires whole { IsModelEdit name.now (edit_of whole) }
        ensures ready { OnOk result (KnowsItsTexts A.seen A.counts self.new) }
        ensures items { OnOk result (HoldsItems name.now (clauses_of new.now.items.items)
            (texts_of self.new.texts)) }
        ensures edits { OnOk result (HasEditsFor (IsModelPut name.now
            (clauses_of new.now.items.items) (edit_of whole) (texts_of self.old.texts)
            (texts_of self.new.texts)) (A.counts self.old.author) (A.counts self.new.author)) }
        ensures others { OnOk result (IsSameButModel name.now (texts_of self.old.texts)
            (texts_of self.new.texts)) }
        ensures kept { OnOk result (HoldsItems name.now (clauses_of new.now.items.items)
            (texts_of self.old.texts) → IsUnedited A.counts self.old self.new) }
        ensures jobs { (A.counts self.new.author).jobs ≡ (A.counts self.old.author).jobs }
        ensures names { self.new.names ≡ self.old.names }
    {
        self.change_items(rt, alloc, name, new)?;
        if holds_items(alloc, &self.texts, name, new)? {
            return Ok(());
        }
        drop(self.make(rt, alloc, whole)?);
        if holds_items(alloc, &self.texts, name, new)? {
            Ok(())
        } else {
            Err(AllocError)
        }
    }

    /// Takes a version of the file of the model of that index. Why it is refused, if it is. Errors:
    /// out of memory.
    pub fn take_model<W: Wait>(
        &mut self,
        rt: &W,
        alloc: Global,
        index: usize,
        text: Vec<u8>,
    ) -> Result<Option<EditFault>, AllocError>
        requires ready { KnowsItsTexts A.seen A.counts self.old }
        ensures ready { OnOk result (KnowsItsTexts A.seen A.counts self.new) }
        ensures taken { IfOk result (λ o.
            IsVersionTaken (ModelFile index) text.items (holding self.old) o (holding self.new)) }
        // The edits are of items that differ, or one of the whole text, and none where the version
        // means what its file holds already.
        ensures edits { IfOk result (λ o. HasEditsFor (IsModelEdited index text.items o
            (texts_of self.old.texts) (texts_of self.new.texts)) (A.counts self.old.author)
            (A.counts self.new.author)) }
        ensures kept { OnOk result (IsFileHeld (ModelFile index) text.items (holding self.old)
            → IsUnedited A.counts self.old self.new) }
        ensures jobs { (A.counts self.new.author).jobs ≡ (A.counts self.old.author).jobs }
    {
        let name = bench_model_name(alloc, index)?;
        let whole = Edit::PutModel {
            model: Vec::from_slice(alloc, &name)?,
            text: Vec::from_slice(alloc, &text)?,
        };
        if let Some(fault) = self.refusal(alloc, &whole)? {
            return Ok(Some(fault));
        }
        let new = match read_model(alloc, &text) {
            Ok(new) => new,
            Err(_) => return Err(AllocError),
        };
        self.put_items(rt, alloc, &name, &new, whole)?;
        Ok(None)
    }

    // Puts a part of a test. Whether it is accepted.
    #[tactic(auto, using(crate::proofs::Taking::part_tests, crate::proofs::Taking::part_models, crate::proofs::Changing::part_tried, crate::proofs::Counting::counted_if))]
    fn put_part<W: Wait>(
        &mut self,
        rt: &W,
        alloc: Global,
        new: &Test,
        part: TestPart,
    ) -> Result<bool, AllocError>
        requires ready { KnowsItsTexts A.seen A.counts self.old }
        ensures ready { OnOk result (KnowsItsTexts A.seen A.counts self.new) }
        ensures tried { IfOk result (λ is. IsPartTried new.now.name is
            (texts_of self.old.texts) (texts_of self.new.texts)) }
        ensures counted { IfOk result (λ is. IsEditCounted is (A.counts self.old.author)
            (A.counts self.new.author)) }
        ensures same { OnErr result (A.counts self.new.author ≡ A.counts self.old.author) }
        ensures jobs { (A.counts self.new.author).jobs ≡ (A.counts self.old.author).jobs }
        ensures tests { OnOk result (AreSameBut new.now.name (texts_of self.old.texts).tests
            (texts_of self.new.texts).tests) }
        ensures models { OnOk result ((texts_of self.new.texts).models
            ≡ (texts_of self.old.texts).models) }
        ensures names { self.new.names ≡ self.old.names }
    {
        let edit = part_edit(alloc, new, part)?;
        let fault = self.make(rt, alloc, edit)?;
        Ok(fault.is_none())
    }

    // Makes the test of this name this one, part by part, as far as the parts are accepted.
    fn change_parts<W: Wait>(&mut self, rt: &W, alloc: Global, new: &Test) -> Result<(), AllocError>
        requires ready { KnowsItsTexts A.seen A.counts self.old }
        ensures ready { OnOk result (KnowsItsTexts A.seen A.counts self.new) }
        ensures edits { OnOk result (HasEditsFor (ArePartsChanged (content_of new.now)
            (texts_of self.old.texts) (texts_of self.new.texts)) (A.counts self.old.author)
            (A.counts self.new.author)) }
        ensures kept { OnOk result (test_named (texts_of self.old.texts) new.now.name
            ≡ Some (content_of new.now) → IsUnedited A.counts self.old self.new) }
        ensures jobs { (A.counts self.new.author).jobs ≡ (A.counts self.old.author).jobs }
        ensures tests { OnOk result (AreSameBut new.now.name (texts_of self.old.texts).tests
            (texts_of self.new.texts).tests) }
        ensures models { OnOk result ((texts_of self.new.texts).models
            ≡ (texts_of self.old.texts).models) }
        ensures names { self.new.names ≡ self.old.names }
    {
        let parts = match parts_to(alloc, &self.texts, new)? {
            Some(parts) => parts,
            None => return Ok(()),
        };
        for part in &parts {
            let accepted = self.put_part(rt, alloc, new, *part)?;
            if !accepted {
                return Ok(());
            }
        }
        Ok(())
    }

    // Makes the test of this name this one, part by part or as a whole, where the bench accepts the
    // whole. Errors: out of memory, also where it does not accept it.
    fn put_test<W: Wait>(
        &mut self,
        rt: &W,
        alloc: Global,
        new: &Test,
        text: Vec<u8>,
    ) -> Result<(), AllocError>
        requires ready { KnowsItsTexts A.seen A.counts self.old }
        requires only { (c : Content) → ReadsTest text.items c → content_of new.now ≡ c }
        ensures ready { OnOk result (KnowsItsTexts A.seen A.counts self.new) }
        ensures edits { OnOk result (HasEditsFor (IsTestPut (content_of new.now) text.items
            (texts_of self.old.texts) (texts_of self.new.texts)) (A.counts self.old.author)
            (A.counts self.new.author)) }
        ensures kept { OnOk result (test_named (texts_of self.old.texts) new.now.name
            ≡ Some (content_of new.now) → IsUnedited A.counts self.old self.new) }
        ensures jobs { (A.counts self.new.author).jobs ≡ (A.counts self.old.author).jobs }
        ensures tests { OnOk result ((texts_of self.new.texts).tests
            ≡ put_at (test_index new.now.name (texts_of self.old.texts).tests)
            (content_of new.now) (texts_of self.old.texts).tests) }
        ensures models { OnOk result ((texts_of self.new.texts).models
            ≡ (texts_of self.old.texts).models) }
        ensures names { self.new.names ≡ self.old.names }
    {
        self.change_parts(rt, alloc, new)?;
        if holds_test(alloc, &self.texts, new)? {
            return Ok(());
        }
        match self.make(rt, alloc, Edit::PutTest { text })? {
            None => Ok(()),
            Some(_) => Err(AllocError),
        }
    }

    // Drops the test of this name, unless a file holds one of it.
    fn drop_unheld<W: Wait>(
        &mut self,
        rt: &W,
        alloc: Global,
        name: Option<Name>,
    ) -> Result<(), AllocError>
        requires ready { KnowsItsTexts A.seen A.counts self.old }
        ensures ready { OnOk result (KnowsItsTexts A.seen A.counts self.new) }
        ensures tests { OnOk result ((texts_of self.new.texts).tests
            ≡ without_unheld name self.old.names.items (texts_of self.old.texts).tests) }
        ensures edits { OnOk result (HasEditsFor (IsTestDropped name self.old.names.items
            (texts_of self.old.texts) (texts_of self.new.texts)) (A.counts self.old.author)
            (A.counts self.new.author)) }
        ensures kept { OnOk result (IsStillHeld name self.old.names.items
            → IsUnedited A.counts self.old self.new) }
        ensures jobs { (A.counts self.new.author).jobs ≡ (A.counts self.old.author).jobs }
        ensures models { OnOk result ((texts_of self.new.texts).models
            ≡ (texts_of self.old.texts).models) }
        ensures names { self.new.names ≡ self.old.names }
    {
        let name = match name {
            Some(name) => name,
            None => return Ok(()),
        };
        if is_held(&self.names, &name) {
            return Ok(());
        }
        let test = Vec::from_slice(alloc, name.as_bytes())?;
        match self.make(rt, alloc, Edit::DropTest { test })? {
            None => Ok(()),
            Some(EditFault::NoTest) => Ok(()),
            Some(_) => Err(AllocError),
        }
    }

    // The file of that index holds this test from now on, which the bench accepts once the test
    // that leaves is dropped.
    fn hold_test<W: Wait>(
        &mut self,
        rt: &W,
        alloc: Global,
        index: usize,
        new: &Test,
        text: Vec<u8>,
    ) -> Result<(), AllocError>
        requires ready { KnowsItsTexts A.seen A.counts self.old }
        requires reads { ReadsTest text.items (content_of new.now) }
        requires only { (c : Content) → ReadsTest text.items c → content_of new.now ≡ c }
        ensures ready { OnOk result (KnowsItsTexts A.seen A.counts self.new) }
        ensures taken { OnOk result (IsTestTaken index text.items (holding self.old)
            (holding self.new)) }
        ensures edits { OnOk result (HasEditsFor (IsTestEdited index text.items None
            (holding self.old) (holding self.new)) (A.counts self.old.author)
            (A.counts self.new.author)) }
        ensures kept { OnOk result (IsFileHeld (TestFile index) text.items (holding self.old)
            → IsUnedited A.counts self.old self.new) }
        ensures jobs { (A.counts self.new.author).jobs ≡ (A.counts self.old.author).jobs }
    {
        let name = new.name.copied(alloc)?;
        let old = put_name(&mut self.names, index, name);
        self.drop_unheld(rt, alloc, old)?;
        self.put_test(rt, alloc, new, text)?;
        Ok(())
    }

    /// Takes a version of the file of the test of that index. Why it is refused, if it is. Errors:
    /// out of memory.
    pub fn take_test<W: Wait>(
        &mut self,
        rt: &W,
        alloc: Global,
        index: usize,
        text: Vec<u8>,
    ) -> Result<Option<EditFault>, AllocError>
        requires ready { KnowsItsTexts A.seen A.counts self.old }
        ensures ready { OnOk result (KnowsItsTexts A.seen A.counts self.new) }
        ensures taken { IfOk result (λ o. IsVersionTaken (TestFile index) text.items
            (holding self.old) o (holding self.new)) }
        // It is refused for a full bench only where the test that the file holds stays.
        ensures full { IfOk result (λ o.
            IfSome o (IsFullBeside index text.items self.old.names.items)) }
        // The edits drop the former test, and put no more parts than differ, or the whole text;
        // none where the version means what its file holds already.
        ensures edits { IfOk result (λ o. HasEditsFor (IsTestEdited index text.items o
            (holding self.old) (holding self.new)) (A.counts self.old.author)
            (A.counts self.new.author)) }
        ensures kept { OnOk result (IsFileHeld (TestFile index) text.items (holding self.old)
            → IsUnedited A.counts self.old self.new) }
        ensures jobs { (A.counts self.new.author).jobs ≡ (A.counts self.old.author).jobs }
    {
        let whole = Edit::PutTest {
            text: Vec::from_slice(alloc, &text)?,
        };
        let refusal = self.refusal(alloc, &whole)?;
        let new = match read_test(alloc, &text) {
            Ok(new) => new,
            Err(LitmusFault::OutOfMemory(error)) => return Err(error),
            Err(LitmusFault::Refused { .. }) => return unread(refusal),
        };
        if let Some(fault) = refusal {
            if !is_full(&fault) || !is_leaving(&self.names, index, &new.name) {
                return Ok(Some(fault));
            }
        }
        self.hold_test(rt, alloc, index, &new, text)?;
        Ok(None)
    }
}
