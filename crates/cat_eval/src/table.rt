//! The predefined names over the candidates of a space.

ghost use Rattle.std.specs.Prelude.{◌≡◌, ℕ, ◌<◌, ◌++◌, ◌∷◌, ◌⊎◌, [], List, length, slice_index_or, IfOk, OnOk, IsTrue, MatchOption, Contains, false};
ghost use Rattle.base_names.specs.Known.{Known};
ghost use Rattle.candidate_spaces.specs.declared.candidate.Space.{Space};
ghost use Rattle.candidate_spaces.specs.Space.{candidates_in, Candidate};
ghost use Rattle.predefined_names.specs.PredefinedNames.{is_set};
ghost use Rattle.cat_eval.specs.Needs.{AreSuited, is_changing_name};
ghost use Rattle.cat_eval.specs.Needed.{changes_with_orders};
ghost use Rattle.cat_eval.specs.Reordered.{EndsReordered, HoldsSame};
ghost use Rattle.cat_machine.specs.Steady.{HasAsLast};
ghost use Rattle.cat_eval.specs.Tables.{IsColumnOf, IsBlock, AreBlocks, HasName, AreColumnsFor, AreFilled, IsEntryFilled, entry_names, column_names, kind_for};
ghost use Rattle.cat_machine.specs.Values.{IsFor, column_len};

use crate::needs::{Needs, changes_with_orders};
use crate::walk::{Enter, enter_space};
use base_names::Base;
use bit_relations::Rel;
use candidates::Space;
use cat_machine::{Column, Few, NamedColumn};
use std::alloc::{AllocError, Global};
use std::mem;
use text_values::Predefined;

/// A name and its column.
#[derive(Drop)]
pub(crate) struct Entry {
    name: Predefined,
    column: Column,
}

/// The predefined names over the candidates of one space, each made once, when it is first needed.
#[derive(Drop)]
pub(crate) struct Table {
    /// Names that were made together.
    blocks: Vec<Vec<Entry>>,
}

/// Names on their way through the candidates.
#[derive(Drop)]
struct NameRun {
    entries: Vec<Entry>,
    /// Where a relation is made.
    made: Rel,
}

/// Adds the value of a name in the present candidate.
fn push_value(entry: &mut Entry, base: &Base, made: &mut Rel) -> Result<(), AllocError>
    ensures name { entry.new.name ≡ entry.old.name }
    ensures filled { OnOk result ((bases : List Known) → IsEntryFilled entry.old bases
        → IsEntryFilled entry.new (bases ++ base.now ∷ [])) }
{
    let set = base.set(entry.name);
    base.write_relation(entry.name, made);
    entry.column.push(&set, made)?;
    Ok(())
}

/// Gives a name its last value once more.
fn push_again(entry: &mut Entry) -> Result<(), AllocError>
    ensures name { entry.new.name ≡ entry.old.name }
    ensures filled { OnOk result ((bases : List Known) (last base : Known) → HasAsLast bases last
        → HoldsSame entry.old.name last base → IsEntryFilled entry.old bases
        → IsEntryFilled entry.new (bases ++ base ∷ [])) }
{
    entry.column.push_last()?;
    Ok(())
}

/// Whether a name has the value of the candidate before: all names have it again, or those that do
/// not change with the order of the stores.
fn is_kept(name: Predefined, again: bool, reordered: bool) -> bool
    ensures { IsTrue result
        → IsTrue again ⊎ (IsTrue reordered × (changes_with_orders name ≡ false)) }
{
    if again {
        return true;
    }
    reordered && !changes_with_orders(name)
}

/// Adds the value of a name: where it is that of the candidate before, the same again.
fn fill(
    entry: &mut Entry,
    base: &Base,
    again: bool,
    reordered: bool,
    made: &mut Rel,
) -> Result<(), AllocError>
    ensures name { entry.new.name ≡ entry.old.name }
    ensures filled { OnOk result ((bases : List Known) → (IsTrue again → HasAsLast bases base.now)
        → (IsTrue reordered → EndsReordered bases base.now) → IsEntryFilled entry.old bases
        → IsEntryFilled entry.new (bases ++ base.now ∷ [])) }
{
    if is_kept(entry.name, again, reordered) {
        push_again(entry)
    } else {
        push_value(entry, base, made)
    }
}

/// Adds the value of the name at an index.
fn fill_at(
    entries: &mut Vec<Entry>,
    index: usize,
    base: &Base,
    again: bool,
    reordered: bool,
    made: &mut Rel,
) -> Result<(), AllocError>
    requires { index < length entries.old.items }
    ensures long { length entries.new.items ≡ length entries.old.items }
    ensures others { (j : ℕ) → (j ≡ index → ⊥) → (d : Entry)
        → slice_index_or entries.new.items j d ≡ slice_index_or entries.old.items j d }
    ensures name { (d : Entry)
        → (slice_index_or entries.new.items index d).name
        ≡ (slice_index_or entries.old.items index d).name }
    ensures filled { OnOk result ((bases : List Known) → (IsTrue again → HasAsLast bases base.now)
        → (IsTrue reordered → EndsReordered bases base.now) → (d : Entry)
        → IsEntryFilled (slice_index_or entries.old.items index d) bases
        → IsEntryFilled (slice_index_or entries.new.items index d) (bases ++ base.now ∷ [])) }
{
    fill(&mut entries[index], base, again, reordered, made)
}

impl Enter for NameRun {
    ghost has_taken = { λ first bases run. (entry_names run.entries.items
        ≡ entry_names first.entries.items) × AreFilled run.entries.items bases };

    fn enter(&mut self, base: &Base, again: bool, reordered: bool) -> Result<(), AllocError> {
        for index in 0..self.entries.len() {
            fill_at(
                &mut self.entries,
                index,
                base,
                again,
                reordered,
                &mut self.made,
            )?;
        }
        Ok(())
    }
}

/// A column without a value for a name.
fn column_for(alloc: Global, name: Predefined) -> Column
    ensures kind { IsFor (kind_for (is_set name)) result }
    ensures empty { column_len result ≡ 0 }
{
    if name.is_set() {
        Column::of_sets(alloc)
    } else {
        Column::of_relations(alloc)
    }
}

/// A column without a value for each name.
fn entries_of(alloc: Global, names: &[Predefined]) -> Result<Vec<Entry>, AllocError>
    ensures names { IfOk result (λ v. entry_names v.items ≡ names.now) }
    ensures empty { IfOk result (λ v. AreFilled v.items []) }
{
    let mut entries = Vec::with_capacity(alloc, names.len())?;
    for name in names {
        entries.push(Entry {
            name: *name,
            column: column_for(alloc, *name),
        })?;
    }
    Ok(entries)
}

/// The column of a name among some.
fn column_in(entries: &[Entry], name: Predefined) -> Option<&Column>
    ensures { MatchOption result (Contains (entry_names entries.now) name → ⊥) (λ c. Contains
        (entry_names entries.now) name
        × ((candidates : List Candidate) → IsBlock entries.now candidates
        → IsColumnOf c.now name candidates)) }
{
    for entry in entries {
        if entry.name == name {
            return Some(&entry.column);
        }
    }
    None
}

/// The columns of names over the candidates of a space, which the base enters.
fn made_columns(
    alloc: Global,
    base: &mut Base,
    space: &Space,
    needs: &Needs,
    run: &mut NameRun,
) -> Result<Vec<Entry>, AllocError>
    requires { AreSuited needs.now.names.items needs.now.reads needs.now.orders }
    ensures names { IfOk result (λ v. entry_names v.items ≡ needs.now.names.items) }
    ensures columns { IfOk result (λ v.
        IsBlock v.items (candidates_in space.now.combinations.items)) }
{
    base.hold(alloc, &needs.names)?;
    run.entries = entries_of(alloc, &needs.names)?;
    enter_space(space, needs, base, run)?;
    Ok(mem::replace(&mut run.entries, Vec::new(alloc)))
}

impl Table {
    /// A table without a name.
    pub(crate) fn new(alloc: Global) -> Table
        ensures { (candidates : List Candidate) → AreBlocks result.blocks.items candidates }
    {
        Table {
            blocks: Vec::new(alloc),
        }
    }

    /// The column of a name.
    fn column(&self, name: Predefined) -> Option<&Column>
        ensures { MatchOption result (HasName self.now.blocks.items name → ⊥) (λ c. HasName
            self.now.blocks.items name
            × ((candidates : List Candidate) → AreBlocks self.now.blocks.items candidates
            → IsColumnOf c.now name candidates)) }
    {
        for block in &self.blocks {
            if let Some(column) = column_in(block, name) {
                return Some(column);
            }
        }
        None
    }

    /// Whether a name is there.
    fn has(&self, name: Predefined) -> bool
        ensures { IsTrue result → HasName self.now.blocks.items name }
    {
        self.column(name).is_some()
    }

    /// Whether all these names are there.
    fn has_all(&self, names: &[Predefined]) -> bool
        ensures { IsTrue result → (name : _) → Contains names.now name
            → HasName self.now.blocks.items name }
    {
        for name in names {
            if !self.has(*name) {
                return false;
            }
        }
        true
    }

    /// Whether a name is not there, of those that change with reads-from or coherence or of the
    /// others.
    fn lacks(&self, name: Predefined, is_changing: bool) -> bool
        ensures { result ≡ false → is_changing_name name ≡ is_changing
            → HasName self.now.blocks.items name }
    {
        Needs::is_changing(name) == is_changing && !self.has(name)
    }

    /// What is needed to make those of the names that are not there, of those that change with
    /// reads-from or coherence or of the others.
    fn missing(
        &self,
        alloc: Global,
        names: &[Predefined],
        is_changing: bool,
    ) -> Result<Needs, AllocError>
        ensures suited { IfOk result (λ needs.
            AreSuited needs.names.items needs.reads needs.orders) }
        ensures all { IfOk result (λ needs. (name : _) → Contains names.now name
            → is_changing_name name ≡ is_changing
            → HasName self.now.blocks.items name ⊎ Contains needs.names.items name) }
    {
        let mut missing = Needs::none(alloc);
        for name in names {
            if self.lacks(*name, is_changing) {
                missing.add(*name)?;
            }
        }
        Ok(missing)
    }

    /// Adds names that were made together.
    fn add_block(&mut self, block: Vec<Entry>) -> Result<(), AllocError>
        ensures right { (candidates : List Candidate) → IsBlock block.items candidates
            → AreBlocks self.old.blocks.items candidates
            → AreBlocks self.new.blocks.items candidates }
        ensures kept { (name : _) → HasName self.old.blocks.items name
            → HasName self.new.blocks.items name }
        ensures there { OnOk result ((name : _) → Contains (entry_names block.items) name
            → HasName self.new.blocks.items name) }
    {
        self.blocks.push(block)?;
        Ok(())
    }

    /// Makes those of the names that are not there, of those that change with reads-from or
    /// coherence or of the others.
    fn need_some(
        &mut self,
        alloc: Global,
        base: &mut Base,
        space: &Space,
        names: &[Predefined],
        is_changing: bool,
        run: &mut NameRun,
    ) -> Result<(), AllocError>
        ensures right { AreBlocks self.old.blocks.items (candidates_in space.now.combinations.items)
            → AreBlocks self.new.blocks.items (candidates_in space.now.combinations.items) }
        ensures kept { (name : _) → HasName self.old.blocks.items name
            → HasName self.new.blocks.items name }
        ensures there { OnOk result ((name : _) → Contains names.now name
            → is_changing_name name ≡ is_changing → HasName self.new.blocks.items name) }
    {
        let missing = self.missing(alloc, names, is_changing)?;
        if missing.names.is_empty() {
            return Ok(());
        }
        let block = made_columns(alloc, base, space, &missing, run)?;
        self.add_block(block)?;
        Ok(())
    }

    /// Makes those of the names that are not there, of both sorts.
    #[inline(never)]
    fn need_both(
        &mut self,
        alloc: Global,
        base: &mut Base,
        space: &Space,
        names: &[Predefined],
    ) -> Result<(), AllocError>
        ensures right { AreBlocks self.old.blocks.items (candidates_in space.now.combinations.items)
            → AreBlocks self.new.blocks.items (candidates_in space.now.combinations.items) }
        ensures there { OnOk result ((name : _) → Contains names.now name
            → HasName self.new.blocks.items name) }
    {
        let mut run = NameRun {
            entries: Vec::new(alloc),
            made: Rel::empty(0),
        };
        self.need_some(alloc, base, space, names, false, &mut run)?;
        self.need_some(alloc, base, space, names, true, &mut run)?;
        Ok(())
    }

    /// Makes those of the names that are not there.
    pub(crate) fn need(
        &mut self,
        alloc: Global,
        base: &mut Base,
        space: &Space,
        names: &[Predefined],
    ) -> Result<(), AllocError>
        ensures right { AreBlocks self.old.blocks.items (candidates_in space.now.combinations.items)
            → AreBlocks self.new.blocks.items (candidates_in space.now.combinations.items) }
        ensures there { OnOk result ((name : _) → Contains names.now name
            → HasName self.new.blocks.items name) }
    {
        if self.has_all(names) {
            return Ok(());
        }
        self.need_both(alloc, base, space, names)
    }

    /// Lists these names with their columns, of those that are there.
    pub(crate) fn list<'a>(
        &'a self,
        names: &[Predefined],
        named: &mut Few<NamedColumn<'a>>,
    ) -> Result<(), AllocError>
        requires { named.old ≡ [] }
        ensures columns { OnOk result ((candidates : List Candidate)
            → AreBlocks self.now.blocks.items candidates → AreColumnsFor named.new candidates) }
        ensures all { OnOk result ((name : _) → Contains names.now name
            → HasName self.now.blocks.items name → Contains (column_names named.new) name) }
    {
        for name in names {
            if let Some(column) = self.column(*name) {
                named.push(NamedColumn {
                    name: *name,
                    column,
                })?;
            }
        }
        Ok(())
    }
}
