//! Tests and models with the stamps of their parts.

ghost use Rattle.std.specs.Prelude.{◌≡◌, ◌==◌, ℕ, ◌≤◌, false, [], IfOk, IfErr, OnOk, slice_get};
ghost use Rattle.std.specs.List.{position_or_len};
ghost use Rattle.bench_texts.specs.Edits.{edit_of, RefusesEdit};
ghost use Rattle.bench_texts.specs.Held.{texts_of};
ghost use Rattle.bench_instance.specs.StampedTexts.{AreSoundTexts, stamped_net, verdict_by};
ghost use Rattle.bench_instance.specs.Edited.{most_used, AreSameTexts, IsPrepared, HasRoomForEdit};

use bench_edits::{EditedParts, commit_parts, may_drop, prepare_parts, touched_nodes};
use bench_parts::{Parts, is_same, run};
use bench_texts::{Edit, EditFault, Prepared, Texts as BenchTexts};
use bench_values::{Given, NodeValue};
use memo_core::keys::{Key, Kind, Node, Output};
use memo_core::texts::Texts;
use std::alloc::{AllocError, Global};

/// Tests and models, with the stamps of their parts, and the nodes that the last edit touched.
pub struct StampedTexts {
    pub(crate) texts: BenchTexts,
    pub(crate) parts: Parts,
    pub(crate) touched: Vec<Node>,
}

impl Drop for StampedTexts {
    fn drop(self) {
        let StampedTexts {
            texts: _,
            parts: _,
            touched: _,
        } = self;
    }
}

/// An edit that was prepared: the text that it puts, the parts, the nodes that it touches, and
/// whether some memo may have to go. No more than `used` nodes are used after it.
pub struct PreparedEdit {
    texts: Prepared,
    parts: EditedParts,
    touched: Vec<Node>,
    may_drop: bool,
    used: usize,
}

impl Drop for PreparedEdit {
    fn drop(self) {
        let PreparedEdit {
            texts: _,
            parts: _,
            touched: _,
            may_drop: _,
            used: _,
        } = self;
    }
}

impl PreparedEdit {
    /// What it puts in the place of what.
    pub fn texts(&self) -> &Prepared
        ensures { result.now ≡ self.now.texts }
    {
        &self.texts
    }

    // The text that it puts, the parts, and the nodes that it touches.
    fn into_parts(self) -> (Prepared, EditedParts, Vec<Node>)
        ensures text { result.0 ≡ self.texts }
        ensures parts { result.1 ≡ self.parts }
        ensures touched { result.2 ≡ self.touched }
    {
        let PreparedEdit {
            texts,
            parts,
            touched,
            may_drop: _,
            used: _,
        } = self;
        (texts, parts, touched)
    }
}

impl StampedTexts {
    /// No tests and no models, before the first edit.
    pub fn new(alloc: Global) -> StampedTexts
        ensures sound { AreSoundTexts result }
        ensures parts { (part of : ℕ) → (stamped_net result).part part of ≡ 0 }
        ensures last { result.parts.last ≡ 0 }
        ensures texts { texts_of result.texts ≡ record { tests = []; models = []; next = 1 } }
    {
        StampedTexts {
            texts: BenchTexts::new(alloc),
            parts: Parts::new(alloc),
            touched: Vec::new(alloc),
        }
    }

    /// The tests and the models.
    pub fn texts(&self) -> &BenchTexts
        ensures { result.now ≡ self.now.texts }
    {
        &self.texts
    }

    /// The number of the last edit.
    pub fn last(&self) -> u64
        ensures { result ≡ self.now.parts.last }
    {
        self.parts.last
    }

    /// The index of the first test of that number, or how many tests there are.
    pub fn test_row(&self, id: u64) -> usize
        ensures { result ≡ position_or_len (λ r. r.id == id) self.now.parts.table.tests.items }
    {
        self.parts.test_index(id)
    }

    /// The verdict of the test and the model at these indexes, if both are there.
    pub fn verdict_at(&self, test: usize, model: usize) -> Option<Node>
        ensures { result ≡ verdict_by (slice_get self.now.parts.table.tests.items test)
            (slice_get self.now.parts.table.models.items model) }
    {
        let test = self.parts.table.tests.get(test)?;
        let model = self.parts.table.models.get(model)?;
        Some(Node {
            kind: Kind::Verdict,
            test: test.id,
            of: model.id,
        })
    }

    // What an edit needs, made beside the texts and their parts, which stay the same. Errors: the
    // first reason to refuse the edit, or want of memory.
    #[tactic(auto, using(crate::proofs::Preparing::same_state, crate::proofs::Preparing::is_unspent, crate::proofs::Preparing::applies_unspent, crate::proofs::Preparing::is_all_there, crate::proofs::Preparing::is_wanted, bench_edits::proofs::Touching::same_touched, bench_edits::proofs::KeepAll::same_drop))]
    fn prepare_edit(
        &mut self,
        alloc: Global,
        edit: &Edit,
        spent: bool,
    ) -> Result<PreparedEdit, EditFault>
        ensures prepares { IfOk result (λ p. IsPrepared self.old edit.now p self.new) }
        ensures ready { IfOk result (λ p. HasRoomForEdit self.new p) }
        ensures unspent { OnOk result (spent ≡ false) }
        ensures refuses { IfErr result (λ fault.
            RefusesEdit (texts_of self.old.texts) spent (edit_of edit.now) fault) }
        ensures same { AreSameTexts self.old self.new }
    {
        let texts = self.texts.prepare_unless_spent(alloc, edit, spent)?;
        match prepare_parts(
            alloc,
            &mut self.parts,
            self.texts.tests(),
            self.texts.models(),
            texts.replacement(),
        ) {
            Ok(parts) => {
                let used = most_used(&self.parts, &parts);
                let may_drop = may_drop(&self.parts, &parts);
                match touched_nodes(alloc, &self.parts, &parts) {
                    Ok(touched) => Ok(PreparedEdit {
                        texts,
                        parts,
                        touched,
                        may_drop,
                        used,
                    }),
                    Err(error) => Err(EditFault::OutOfMemory(error)),
                }
            }
            Err(error) => Err(EditFault::OutOfMemory(error)),
        }
    }
}

// No more nodes than these are used with those parts.
fn most_used(parts: &Parts, edited: &EditedParts) -> usize
    ensures { most_used parts.now edited.now ≤ result }
{
    let tests = parts.table.tests.len().saturating_add(1);
    match edited {
        EditedParts::PutTest { .. } => tests.saturating_mul(parts.table.slots.len()),
        EditedParts::DropTest { .. } => tests.saturating_mul(parts.table.slots.len()),
        EditedParts::Models(models) => tests.saturating_mul(models.slots.len()),
    }
}

impl Texts for StampedTexts {
    type Value = NodeValue;

    type Given = Given;

    type Edit = Edit;

    type Prepared = PreparedEdit;

    type Fault = EditFault;

    ghost use Rattle.std.specs.Prelude.{◌≡◌};
    ghost use Rattle.bench_nodes.specs.Nodes.{users, rank};
    ghost use Rattle.bench_texts.specs.Edits.{edit_of, RefusesEdit};
    ghost use Rattle.bench_texts.specs.Held.{texts_of};
    ghost use Rattle.bench_parts.specs.Equal.{same_content};
    ghost use Rattle.bench_parts.specs.States.{makes, keeps};
    ghost use Rattle.bench_parts.proofs.Equality.{value_exact};
    ghost use Rattle.bench_instance.specs.StampedTexts.{AreSoundTexts, AreTextsSince, IsNodeThere, stamped_net};
    ghost use Rattle.bench_instance.specs.Edited.{IsEdited, IsPrepared, HasRoomForEdit, IsCommitted};
    ghost use Rattle.bench_instance.specs.Lemmas.Commits.{commits_edit};
    ghost use Rattle.bench_instance.specs.Lemmas.Touched.{used_kept, users_read, edits_touch, edits_keep};
    ghost use Rattle.bench_instance.specs.Lemmas.StampedLaws.{texts_are_sound, since_itself, since_edited, given_stays, valid_edited, used_there, used_closed, users_listed, ranks_fall, goes_on};

    ghost is_valid = { AreSoundTexts };

    ghost net = { stamped_net };

    ghost since = { AreTextsSince };

    ghost last = { λ t. t.parts.last };

    ghost makes = { makes };

    ghost same = { same_content };

    ghost is_there = { IsNodeThere };

    ghost users = { λ t n. users t.parts.table n };

    ghost touched = { λ t. t.touched.items };

    ghost rank = { λ t n. rank t.parts.table n };

    ghost keeps = { λ t n. keeps t.parts n };

    ghost edited = { IsEdited };

    ghost refuses = { λ t e spent fault. RefusesEdit (texts_of t.texts) spent (edit_of e) fault };

    ghost prepares = { IsPrepared };

    ghost is_ready = { HasRoomForEdit };

    ghost commits = { IsCommitted };

    ghost used_after = { λ p. p.used };

    ghost may_drop = { λ p. p.may_drop };

    fn part_stamp(&self, part: u64, of: u64) -> u64 {
        self.parts.table.part_stamp(part, of)
    }

    fn input_count(&self, node: Node) -> usize {
        self.parts.table.input_count(node)
    }

    fn input_at(&self, node: Node, i: usize) -> Key {
        self.parts.table.input_at(node, i)
    }

    fn used_count(&self) -> usize {
        self.parts.table.used_count()
    }

    fn used_at(&self, i: usize) -> Node {
        self.parts.table.used_at(i)
    }

    fn is_used(&self, node: Node) -> bool {
        self.parts.table.is_used(node)
    }

    fn user_count(&self, node: Node) -> usize {
        self.parts.table.user_count(node)
    }

    fn user_at(&self, node: Node, i: usize) -> Node {
        self.parts.table.user_at(node, i)
    }

    fn touched_count(&self) -> usize {
        self.touched.len()
    }

    fn touched_at(&self, i: usize) -> Node {
        self.touched[i]
    }

    fn give(&self, alloc: Global, node: Node) -> Result<Given, AllocError> {
        self.parts.give(alloc, self.texts.tests(), node)
    }

    fn is_given(&self, node: Node, given: &Given) -> bool {
        self.parts.is_given(self.texts.tests(), node, given)
    }

    fn give_again(_alloc: Global, given: &Given) -> Result<Given, AllocError> {
        given.again()
    }

    fn is_same(a: &NodeValue, b: &NodeValue) -> bool {
        is_same(a, b)
    }

    fn run(
        alloc: Global,
        _node: Node,
        given: &Given,
        _keys: &[Key],
        values: &[&NodeValue],
    ) -> Result<Vec<Output<NodeValue>>, AllocError> {
        run(alloc, given, values)
    }

    fn keeps(&self, node: Node) -> bool {
        self.parts.keeps(node)
    }

    fn prepare(
        &mut self,
        alloc: Global,
        edit: Edit,
        spent: bool,
    ) -> Result<PreparedEdit, EditFault> {
        self.prepare_edit(alloc, &edit, spent)
    }

    fn used_after(prepared: &PreparedEdit) -> usize {
        prepared.used
    }

    fn may_drop(prepared: &PreparedEdit) -> bool {
        prepared.may_drop
    }

    fn refused_memory(_prepared: &PreparedEdit, error: AllocError) -> EditFault {
        EditFault::OutOfMemory(error)
    }

    fn commit(&mut self, prepared: PreparedEdit, number: u64) {
        let (texts, parts, touched) = prepared.into_parts();
        self.texts.commit(texts);
        commit_parts(&mut self.parts, parts, number);
        self.touched = touched;
    }

    ghost same_exact = { value_exact };

    ghost sound = { texts_are_sound };

    ghost since_same = { since_itself };

    ghost since_edited = { since_edited };

    ghost given_stays = { given_stays };

    ghost valid_edited = { valid_edited };

    ghost commits_edit = { commits_edit };

    ghost used_there = { used_there };

    ghost used_closed = { used_closed };

    ghost used_kept = { used_kept };

    ghost keeps_all = { edits_keep };

    ghost users_are = { λ t _. users_listed t };

    ghost users_read = { users_read };

    ghost falls = { ranks_fall };

    ghost touches_only = { edits_touch };

    ghost goes_on = { goes_on };
}
