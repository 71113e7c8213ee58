//! The values of the names of a group.

ghost use Rattle.std.specs.Prelude.{◌≡◌, ℕ, ◌<◌, ◌≤◌, List, [], length, slice_index_or, false, IsTrue, IfOk, OnOk};
ghost use Rattle.bit_rows.specs.Relation.{Relation, Events, no_slot};
ghost use Rattle.binding_graph.specs.Trees.{RelTree};
ghost use Rattle.cat_eval.specs.Candidates.{name_count};
ghost use Rattle.cat_machine.specs.Columns.{ColumnsOf, HasOwn};
ghost use Rattle.cat_eval.specs.OverNames.{IsMeaningOver};
ghost use Rattle.cat_machine.specs.Least.{IsLeast, AreMonotone};
ghost use Rattle.cat_machine.specs.Named.{EventsIn, PairsOutside};
ghost use Rattle.cat_machine.specs.Rising.{AreCodes};
ghost use Rattle.cat_eval.specs.Runs.{IsBodyColumn};
ghost use Rattle.cat_machine.specs.Seen.{seen_in};
ghost use Rattle.cat_eval.specs.Tables.{IsOver};
ghost use Rattle.candidate_spaces.specs.Space.{candidates_in};
ghost use Rattle.cat_machine.specs.Steady.{IsSteady};
ghost use Rattle.cat_machine.specs.Values.{IsFor, column_len};
ghost use Rattle.cat_eval.specs.Wanted.{is_wanted, AreWantedOver, IsWantedColumn, WantedColumnsOf, AddsIf, RepeatsIf};

use crate::body_run::BodyRun;
use crate::evaluator::Evaluator;
use crate::keeper::Keeper;
use crate::runs::{has_many, visit_runs};
use crate::steady::{is_as_before, steady_after};
use crate::visit::{Visit, visit_all};
use binding_graph::{Body, Kind, ResolvedItem, Role};
use bit_relations::{EventSet, Rel};
use candidates::Space;
use cat_machine::{Column, Machine, NamedColumn, Seen, Solver};
use std::alloc::{AllocError, Global};
use std::mem;

/// A group on its way through the candidates.
#[derive(Drop)]
struct GroupRun<'a> {
    bodies: &'a [Body],
    inputs: &'a [&'a Column],
    recursive: bool,
    /// Which names are wanted.
    wanted: &'a [bool],
    solver: Solver,
    columns: Vec<Column>,
    /// Up to where the candidates have the inputs of the last one.
    steady: usize,
}

/// Whether the name at a position is wanted: a name without an entry is.
fn is_wanted(wanted: &[bool], position: usize) -> bool
    ensures { result ≡ is_wanted wanted.now position }
{
    wanted.get(position).copied().unwrap_or(true)
}

/// Adds a value to the column of a name that is wanted: what is of its kind.
fn put(
    columns: &mut Vec<Column>,
    wanted: &[bool],
    position: usize,
    set: &EventSet,
    relation: &Rel,
) -> Result<(), AllocError>
    ensures long { length columns.new.items ≡ length columns.old.items }
    ensures others { (j : ℕ) → (j ≡ position → ⊥) → (c : Column)
        → slice_index_or columns.new.items j c ≡ slice_index_or columns.old.items j c }
    ensures added { OnOk result (position < length columns.old.items → (c : Column)
        → AddsIf (is_wanted wanted.now position) (slice_index_or columns.old.items position c)
        (slice_index_or columns.new.items position c) set.now relation.now) }
{
    if position < columns.len() && is_wanted(wanted, position) {
        columns[position].push(set, relation)?;
    }
    Ok(())
}

/// Adds to each column of a name that is wanted its relation.
fn put_all(
    columns: &mut Vec<Column>,
    wanted: &[bool],
    values: &[Rel],
    count: usize,
) -> Result<(), AllocError>
    requires { count ≤ 128 }
    ensures long { length columns.new.items ≡ length columns.old.items }
    ensures added { OnOk result ((j : ℕ) → j < length values.now → j < length columns.old.items
        → (c : Column)
        → (s : Events)
        × AddsIf (is_wanted wanted.now j) (slice_index_or columns.old.items j c)
        (slice_index_or columns.new.items j c) s
        (slice_index_or values.now j no_slot)) }
{
    let none = EventSet::empty(count);
    for position in 0..values.len() {
        put(columns, wanted, position, &none, &values[position])?;
    }
    Ok(())
}

/// Gives the next candidate the last value of the column of a name that is wanted.
fn repeat(columns: &mut Vec<Column>, wanted: &[bool], position: usize) -> Result<(), AllocError>
    ensures long { length columns.new.items ≡ length columns.old.items }
    ensures others { (j : ℕ) → (j ≡ position → ⊥) → (c : Column)
        → slice_index_or columns.new.items j c ≡ slice_index_or columns.old.items j c }
    ensures repeated { OnOk result (position < length columns.old.items → (c : Column)
        → RepeatsIf (is_wanted wanted.now position)
        (slice_index_or columns.old.items position c)
        (slice_index_or columns.new.items position c)) }
{
    if position < columns.len() && is_wanted(wanted, position) {
        columns[position].push_last()?;
    }
    Ok(())
}

/// Gives the next candidate the last value of each column of a name that is wanted.
fn repeat_all(columns: &mut Vec<Column>, wanted: &[bool]) -> Result<(), AllocError>
    ensures long { length columns.new.items ≡ length columns.old.items }
    ensures repeated { OnOk result ((j : ℕ) → j < length columns.old.items → (c : Column)
        → RepeatsIf (is_wanted wanted.now j) (slice_index_or columns.old.items j c)
        (slice_index_or columns.new.items j c)) }
{
    for position in 0..columns.len() {
        repeat(columns, wanted, position)?;
    }
    Ok(())
}

impl GroupRun<'_> {
    /// Evaluates one body.
    fn evaluate_one(
        &mut self,
        machine: &mut Machine,
        base: &Seen,
        candidate: usize,
        position: usize,
    ) -> Result<(), AllocError>
        requires { position < length self.old.bodies.now }
        ensures fixed { (self.new.bodies ≡ self.old.bodies) × (self.new.inputs ≡ self.old.inputs)
            × (self.new.recursive ≡ self.old.recursive)
            × (self.new.solver.own ≡ self.old.solver.own) × (self.new.steady ≡ self.old.steady)
            × (self.new.wanted ≡ self.old.wanted) }
        ensures long { length self.new.columns.items ≡ length self.old.columns.items }
        ensures others { (j : ℕ) → (j ≡ position → ⊥) → (c : Column)
            → slice_index_or self.new.columns.items j c
            ≡ slice_index_or self.old.columns.items j c }
        ensures added { OnOk result (self.old.solver.own.items ≡ []
            → position < length self.old.columns.items → (c : Column)
            → (s : Events) × (r : Relation)
            × AddsIf (is_wanted self.old.wanted.now position)
            (slice_index_or self.old.columns.items position c)
            (slice_index_or self.new.columns.items position c) s r
            × ((b : Body)
            → IsMeaningOver
            (slice_index_or self.old.bodies.now position b).code.kind
            (slice_index_or self.old.bodies.now position b).code.steps.items
            self.old.inputs.now base.now candidate s r)) }
    {
        let bodies = self.bodies;
        let inputs = self.inputs;
        let wanted = self.wanted;
        self.solver
            .evaluate(machine, &bodies[position], base, inputs, candidate)?;
        let set = machine.set(base.count());
        put(
            &mut self.columns,
            wanted,
            position,
            &set,
            machine.relation(),
        )?;
        Ok(())
    }

    /// Evaluates each body once.
    fn evaluate_each(
        &mut self,
        machine: &mut Machine,
        base: &Seen,
        candidate: usize,
    ) -> Result<(), AllocError>
        ensures fixed { (self.new.bodies ≡ self.old.bodies) × (self.new.inputs ≡ self.old.inputs)
            × (self.new.recursive ≡ self.old.recursive)
            × (self.new.solver.own ≡ self.old.solver.own) × (self.new.steady ≡ self.old.steady)
            × (self.new.wanted ≡ self.old.wanted) }
        ensures long { length self.new.columns.items ≡ length self.old.columns.items }
        ensures added { OnOk result (self.old.solver.own.items ≡ [] → (j : ℕ)
            → j < length self.old.bodies.now → j < length self.old.columns.items → (c : Column)
            → (s : Events) × (r : Relation)
            × AddsIf (is_wanted self.old.wanted.now j)
            (slice_index_or self.old.columns.items j c)
            (slice_index_or self.new.columns.items j c) s r
            × ((b : Body)
            → IsMeaningOver (slice_index_or self.old.bodies.now j b).code.kind
            (slice_index_or self.old.bodies.now j b).code.steps.items
            self.old.inputs.now base.now candidate s r)) }
    {
        for position in 0..self.bodies.len() {
            self.evaluate_one(machine, base, candidate, position)?;
        }
        Ok(())
    }

    /// Makes the names the least values that satisfy the equations.
    fn solve(
        &mut self,
        machine: &mut Machine,
        base: &Seen,
        candidate: usize,
    ) -> Result<(), AllocError>
        ensures fixed { (self.new.bodies ≡ self.old.bodies) × (self.new.inputs ≡ self.old.inputs)
            × (self.new.recursive ≡ self.old.recursive)
            × (length self.new.solver.own.items ≡ length self.old.solver.own.items)
            × (self.new.steady ≡ self.old.steady) × (self.new.wanted ≡ self.old.wanted) }
        ensures long { length self.new.columns.items ≡ length self.old.columns.items }
        ensures added { OnOk result ((j : ℕ) → j < length self.old.solver.own.items
            → j < length self.old.columns.items → (c : Column)
            → (s : Events)
            × AddsIf (is_wanted self.old.wanted.now j)
            (slice_index_or self.old.columns.items j c)
            (slice_index_or self.new.columns.items j c) s
            (slice_index_or self.new.solver.own.items j no_slot)) }
        ensures least { OnOk result (length self.old.solver.own.items ≡ length self.old.bodies.now
            → (trees : List RelTree) → AreCodes trees self.old.bodies.now → AreMonotone trees
            → IsLeast base.now.count (EventsIn base.now self.old.inputs.now candidate)
            (PairsOutside base.now self.old.inputs.now candidate) trees
            self.new.solver.own.items) }
    {
        self.solver
            .solve(machine, self.bodies, base, self.inputs, candidate)?;
        let wanted = self.wanted;
        put_all(
            &mut self.columns,
            wanted,
            self.solver.values(),
            base.count(),
        )?;
        Ok(())
    }
}

impl Visit for GroupRun<'_> {
    ghost has_taken = { λ first bases run. (run.bodies ≡ first.bodies) × (run.inputs ≡ first.inputs)
        × (run.recursive ≡ first.recursive) × (run.wanted ≡ first.wanted)
        × HasOwn first.recursive first.bodies.now run.solver.own.items
        × AreWantedOver first.wanted.now first.recursive first.bodies.now first.inputs.now bases
        run.columns.items × IsSteady first.inputs.now (length bases) run.steady };

    fn visit(
        &mut self,
        machine: &mut Machine,
        base: &Seen,
        candidate: usize,
        again: bool,
    ) -> Result<(), AllocError> {
        let same = is_as_before(again, candidate, self.steady);
        self.steady = steady_after(self.inputs, self.steady, candidate);
        if same {
            let wanted = self.wanted;
            repeat_all(&mut self.columns, wanted)?;
            return Ok(());
        }
        if self.recursive {
            self.solve(machine, base, candidate)?;
        } else {
            self.evaluate_each(machine, base, candidate)?;
        }
        Ok(())
    }
}

/// A column without a value for each body.
fn columns_of(alloc: Global, bodies: &[Body]) -> Result<Vec<Column>, AllocError>
    ensures { IfOk result (λ v. (length v.items ≡ length bodies.now)
        × ((j : ℕ) → j < length bodies.now → (b : Body) (c : Column)
        → IsFor (slice_index_or bodies.now j b).code.kind (slice_index_or v.items j c)
        × (column_len (slice_index_or v.items j c) ≡ 0))) }
{
    let mut columns = Vec::with_capacity(alloc, bodies.len())?;
    for body in bodies {
        columns.push(column_for(alloc, body.code.kind))?;
    }
    Ok(columns)
}

/// A column without a value, for values of a kind.
fn column_for(alloc: Global, kind: Kind) -> Column
    ensures kind { IsFor kind result }
    ensures empty { column_len result ≡ 0 }
{
    match kind {
        Kind::OfSet => Column::of_sets(alloc),
        Kind::OfRelation => Column::of_relations(alloc),
        Kind::OfAny => Column::of_relations(alloc),
    }
}

/// Where the bodies of a group are evaluated.
fn solver_of(alloc: Global, recursive: bool, bodies: &[Body]) -> Result<Solver, AllocError>
    ensures { IfOk result (λ s. HasOwn recursive bodies.now s.own.items) }
{
    if recursive {
        Solver::of_group(alloc, bodies)
    } else {
        Ok(Solver::new(alloc))
    }
}

/// Whether the steps of a group's bodies keep their values: in a space of many candidates, where
/// the group is not recursive.
fn keeps_steps(recursive: bool, space: &Space) -> bool
    ensures { IsTrue result → recursive ≡ false }
{
    !recursive && has_many(space)
}

/// The values of a body, which uses no name of its own group.
fn body_column<'a>(
    alloc: Global,
    body: &'a Body,
    inputs: &'a [&'a Column],
    named: &[NamedColumn],
    space: &Space,
    slots: &mut Vec<Rel>,
) -> Result<Column, AllocError>
    ensures { IfOk result (λ c. IsBodyColumn body.now inputs.now
        (seen_in named.now 0 (candidates_in space.now.combinations.items)) c) }
{
    let relations = mem::replace(slots, Vec::new(alloc));
    let keeper = Keeper::of(alloc, &body.code.steps, relations)?;
    let mut run = BodyRun {
        body,
        inputs,
        keeper,
        column: column_for(alloc, body.code.kind),
        until: 0,
    };
    visit_runs(named, space, &mut run)?;
    let column = run.column;
    let keeper = run.keeper;
    *slots = keeper.relations;
    Ok(column)
}

/// The values of a body where they are wanted.
fn wanted_column(
    alloc: Global,
    body: &Body,
    is_wanted: bool,
    inputs: &[&Column],
    named: &[NamedColumn],
    space: &Space,
    slots: &mut Vec<Rel>,
) -> Result<Column, AllocError>
    ensures { IfOk result (λ c. IsWantedColumn is_wanted body.now inputs.now
        (seen_in named.now 0 (candidates_in space.now.combinations.items)) c) }
{
    let column = body_column(alloc, body, inputs, named, space, slots)?;
    if is_wanted {
        Ok(column)
    } else {
        Ok(column_for(alloc, body.code.kind))
    }
}

/// The values of bodies that are wanted, which use no name of their own group.
#[inline(never)]
fn plain_columns(
    alloc: Global,
    bodies: &[Body],
    wanted: &[bool],
    inputs: &[&Column],
    named: &[NamedColumn],
    space: &Space,
    slots: &mut Vec<Rel>,
) -> Result<Vec<Column>, AllocError>
    ensures { IfOk result (λ v. AreWantedOver wanted.now false bodies.now inputs.now
        (seen_in named.now 0 (candidates_in space.now.combinations.items)) v.items) }
{
    let mut columns = Vec::with_capacity(alloc, bodies.len())?;
    for body in bodies {
        let here = is_wanted(wanted, columns.len());
        let column = wanted_column(alloc, body, here, inputs, named, space, slots)?;
        columns.push(column)?;
    }
    Ok(columns)
}

/// The values of bodies that are wanted, evaluated in each candidate by itself.
#[inline(never)]
fn visited_columns(
    alloc: Global,
    is_recursive: bool,
    bodies: &[Body],
    wanted: &[bool],
    inputs: &[&Column],
    named: &[NamedColumn],
    space: &Space,
    machine: &mut Machine,
) -> Result<Vec<Column>, AllocError>
    ensures { IfOk result (λ v. AreWantedOver wanted.now is_recursive bodies.now inputs.now
        (seen_in named.now 0 (candidates_in space.now.combinations.items)) v.items) }
{
    let mut run = GroupRun {
        bodies,
        inputs,
        recursive: is_recursive,
        wanted,
        solver: solver_of(alloc, is_recursive, bodies)?,
        columns: columns_of(alloc, bodies)?,
        steady: 0,
    };
    visit_all(named, space, machine, &mut run)?;
    Ok(run.columns)
}

/// The value of each name of a group, for each candidate of a space. `inputs` are the values of
/// the item's inputs, in their order. The names of a `let rec` have the least values that satisfy
/// its equations: said of bodies that are expressions and grow with their names, as those of a
/// model without fault are by `evaluation_laws::items_are_coded`. An item of another kind has no
/// names. Errors: want of memory.
#[inline(never)]
pub fn eval_group(
    alloc: Global,
    item: &ResolvedItem,
    space: &Space,
    inputs: &[&Column],
) -> Result<Vec<Column>, AllocError>
    ensures values { IfOk result (λ v. ColumnsOf item.now.role inputs.now space.now v.items) }
    ensures long { IfOk result (λ v. length v.items ≡ name_count item.now.role) }
{
    let mut evaluator = Evaluator::new(alloc);
    evaluator.group(alloc, item, space, inputs)
}

impl Evaluator {
    /// As `eval_group`, over the space of the evaluator.
    pub fn group(
        &mut self,
        alloc: Global,
        item: &ResolvedItem,
        space: &Space,
        inputs: &[&Column],
    ) -> Result<Vec<Column>, AllocError>
        requires { IsOver self.old space.now }
        ensures over { IsOver self.new space.now }
        ensures values { IfOk result (λ v. ColumnsOf item.now.role inputs.now space.now v.items) }
        ensures long { IfOk result (λ v. length v.items ≡ name_count item.now.role) }
    {
        self.group_wanted(alloc, item, &[], space, inputs)
    }

    /// As `group`, with the values of those names alone that are wanted: of each other name the
    /// column has no value, and takes no memory. A name without an entry is wanted.
    pub fn group_wanted(
        &mut self,
        alloc: Global,
        item: &ResolvedItem,
        wanted: &[bool],
        space: &Space,
        inputs: &[&Column],
    ) -> Result<Vec<Column>, AllocError>
        requires { IsOver self.old space.now }
        ensures over { IsOver self.new space.now }
        ensures values { IfOk result (λ v.
            WantedColumnsOf wanted.now item.now.role inputs.now space.now v.items) }
    {
        match &item.role {
            Role::Group { recursive, bodies } => {
                self.need_names(alloc, item, space)?;
                let none = Column::of_sets(alloc);
                let mut named = NamedColumn::none(alloc, &none);
                self.table.list(&self.needs.names, &mut named)?;
                let named = named.as_slice();
                if keeps_steps(*recursive, space) {
                    let slots = &mut self.slots;
                    return plain_columns(alloc, bodies, wanted, inputs, named, space, slots);
                }
                let machine = &mut self.machine;
                let recursive = *recursive;
                visited_columns(
                    alloc, recursive, bodies, wanted, inputs, named, space, machine,
                )
            }
            Role::Check(_) | Role::Silent => Ok(Vec::new(alloc)),
        }
    }
}
