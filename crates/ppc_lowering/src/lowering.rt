//! From a test to its program.
ghost use Rattle.std.specs.Prelude.{◌≡◌, ◌++◌, ◌∷◌, [], IfOk, OnOk, length, replicate};
ghost use Rattle.std.specs.List.{AllPairs, flat_map};
ghost use Rattle.std.specs.List.Sorted.{IsBinarySearchResult, IsSearchInRange};
ghost use Rattle.text_values.specs.TestValue.{formula_of};
ghost use Rattle.ppc_lowering.specs.Domain.{AreProper};
ghost use Rattle.ppc_lowering.specs.Lowering as low;

use std::alloc::{AllocError, Global};
use std::cmp::Ordering;
use text_values::{
    InitEntry, Instruction as Written, Name, Place, Proposition, Step, Test, Thread,
};
use thread_runs::{Instruction, Line, Program, Value};

/// The order of two names by their bytes.
fn compare(left: &Name, right: &Name) -> Ordering
    ensures { result ≡ low.name_cmp left.now right.now }
{
    left.as_bytes().cmp(right.as_bytes())
}

/// `Ok` of the index of the name among names sorted by their bytes, or `Err` of the index where it
/// belongs.
fn index_of_name(names: &[Name], name: &Name) -> Result<usize, usize>
    ensures bound { IsSearchInRange result (length names.now) }
    ensures position { IsBinarySearchResult (λ other. low.name_cmp other name.now) names.now
        result }
{
    names.binary_search_by(
        |other: &Name| -> Ordering
            ensures { result ≡ low.name_cmp other.now name.entry.now }
        { compare(other, name) },
    )
}

/// Adds the name to sorted names, which stay sorted. A name that is there is not added again.
fn note(alloc: Global, names: &mut Vec<Name>, name: &Name) -> Result<(), AllocError>
    requires { AllPairs low.IsNameBefore names.old.items }
    ensures rising { AllPairs low.IsNameBefore names.new.items }
    ensures noted { OnOk result (low.Gains (name.now ∷ []) names.old.items names.new.items) }
{
    match index_of_name(names, name) {
        Ok(_) => Ok(()),
        Err(index) => {
            let copy = name.copied(alloc)?;
            names.insert(index, copy)?;
            Ok(())
        }
    }
}

/// The index of a name among sorted names, or their count if the name is not among them.
fn number_of(names: &[Name], name: &Name) -> usize
    requires { AllPairs low.IsNameBefore names.now }
    ensures { result ≡ low.name_index names.now name.now }
{
    match index_of_name(names, name) {
        Ok(index) => index,
        Err(_) => names.len(),
    }
}

/// Adds the name of a location; a register adds nothing.
fn note_place(alloc: Global, names: &mut Vec<Name>, place: &Place) -> Result<(), AllocError>
    requires { AllPairs low.IsNameBefore names.old.items }
    ensures rising { AllPairs low.IsNameBefore names.new.items }
    ensures noted { OnOk result (low.Gains (low.place_names place.now) names.old.items
        names.new.items) }
{
    match place {
        Place::Location(name) => note(alloc, names, name),
        Place::Register(_, _) => Ok(()),
    }
}

/// Adds the location whose address the value is, if it is one.
fn note_value(
    alloc: Global,
    names: &mut Vec<Name>,
    value: &text_values::Value,
) -> Result<(), AllocError>
    requires { AllPairs low.IsNameBefore names.old.items }
    ensures rising { AllPairs low.IsNameBefore names.new.items }
    ensures noted { OnOk result (low.Gains (low.value_names value.now) names.old.items
        names.new.items) }
{
    match value {
        text_values::Value::Address(name) => note(alloc, names, name),
        text_values::Value::Number(_) => Ok(()),
    }
}

/// Adds the names of the locations that an observable and a value name.
fn note_both(
    alloc: Global,
    names: &mut Vec<Name>,
    place: &Place,
    value: &text_values::Value,
) -> Result<(), AllocError>
    requires { AllPairs low.IsNameBefore names.old.items }
    ensures rising { AllPairs low.IsNameBefore names.new.items }
    ensures noted { OnOk result (low.Gains (low.place_names place.now ++ low.value_names value.now)
        names.old.items names.new.items) }
{
    note_place(alloc, names, place)?;
    note_value(alloc, names, value)?;
    Ok(())
}

/// Adds the locations that the proposition names.
fn note_proposition(
    alloc: Global,
    names: &mut Vec<Name>,
    proposition: &Proposition,
) -> Result<(), AllocError>
    requires { AllPairs low.IsNameBefore names.old.items }
    ensures rising { AllPairs low.IsNameBefore names.new.items }
    ensures noted { OnOk result (low.Gains (low.formula_names (formula_of proposition.now))
        names.old.items names.new.items) }
{
    match proposition {
        Proposition::Constant(_) => Ok(()),
        Proposition::Holds(place, value) => note_both(alloc, names, place, value),
        Proposition::Not(part) => note_proposition(alloc, names, part),
        Proposition::Joined(_, left, right) => {
            note_proposition(alloc, names, left)?;
            note_proposition(alloc, names, right)
        }
    }
}

/// Adds the locations that the entries name.
fn note_init(alloc: Global, names: &mut Vec<Name>, init: &[InitEntry]) -> Result<(), AllocError>
    requires { AllPairs low.IsNameBefore names.old.items }
    ensures rising { AllPairs low.IsNameBefore names.new.items }
    ensures noted { OnOk result (low.Gains (flat_map low.entry_names init.now) names.old.items
        names.new.items) }
{
    for entry in init {
        note_both(alloc, names, &entry.place, &entry.value)?;
    }
    Ok(())
}

/// Adds the names of those observables that are locations.
fn note_places(alloc: Global, names: &mut Vec<Name>, places: &[Place]) -> Result<(), AllocError>
    requires { AllPairs low.IsNameBefore names.old.items }
    ensures rising { AllPairs low.IsNameBefore names.new.items }
    ensures noted { OnOk result (low.Gains (flat_map low.place_names places.now) names.old.items
        names.new.items) }
{
    for place in places {
        note_place(alloc, names, place)?;
    }
    Ok(())
}

/// Returns the names of all locations of the test, each once, in the order of their bytes: those
/// that its init block, its condition and its observed places name, and those that occur as
/// addresses among the values.
///
/// # Errors
///
/// Want of memory.
pub fn locations_of(alloc: Global, test: &Test) -> Result<Vec<Name>, AllocError>
    ensures { IfOk result (λ v. low.AreNamesOf (low.test_names test.now) v.items) }
{
    let mut names = Vec::new(alloc);
    note_init(alloc, &mut names, &test.init)?;
    note_proposition(alloc, &mut names, &test.condition.proposition)?;
    note_places(alloc, &mut names, &test.observed)?;
    Ok(names)
}

/// The value, with an address by the number of its location.
fn value_of(locations: &[Name], value: &text_values::Value) -> Value
    requires { AllPairs low.IsNameBefore locations.now }
    ensures { result ≡ low.lowered_value locations.now value.now }
{
    match value {
        text_values::Value::Number(n) => Value::Number(n.cast_unsigned()),
        text_values::Value::Address(name) => Value::Address(number_of(locations, name)),
    }
}

/// Writes the value of the entry at the number of its location, if it is for one.
fn put_location(locations: &[Name], entry: &InitEntry, initial: &mut Vec<Value>)
    requires { AllPairs low.IsNameBefore locations.now }
    ensures { initial.new.items
        ≡ low.put_location locations.now entry.now.place
        (low.lowered_value locations.now entry.now.value) initial.old.items }
{
    match &entry.place {
        Place::Location(name) => {
            let number = number_of(locations, name);
            if number < initial.len() {
                initial[number] = value_of(locations, &entry.value);
            }
        }
        Place::Register(_, _) => {}
    }
}

/// The initial values of the locations.
fn initial_of(
    alloc: Global,
    init: &[InitEntry],
    locations: &[Name],
) -> Result<Vec<Value>, AllocError>
    requires { AllPairs low.IsNameBefore locations.now }
    ensures { IfOk result (λ v. low.AreInitial init.now locations.now v.items) }
{
    let mut initial = vec![in alloc; Value::Number(0); locations.len()]?;
    for entry in init {
        put_location(locations, entry, &mut initial);
    }
    Ok(initial)
}

/// Writes the value of the entry into its register, if it is for one of a thread that is there.
fn put_register(locations: &[Name], entry: &InitEntry, registers: &mut Vec<[Value; 32]>)
    requires { AllPairs low.IsNameBefore locations.now }
    ensures { registers.new.items
        ≡ low.put_register entry.now.place (low.lowered_value locations.now entry.now.value)
        registers.old.items }
{
    match &entry.place {
        Place::Location(_) => {}
        Place::Register(thread, register) => {
            if *thread < registers.len() {
                let value = value_of(locations, &entry.value);
                registers[*thread][usize::from(register.number())] = value;
            }
        }
    }
}

/// The registers of so many threads, which all hold 0.
fn blank_files(alloc: Global, threads: usize) -> Result<Vec<[Value; 32]>, AllocError>
    ensures { IfOk result (λ v. v.items ≡ replicate threads low.blank) }
{
    let mut registers = Vec::new(alloc);
    for _ in 0..threads {
        registers.push([Value::Number(0); 32])?;
    }
    Ok(registers)
}

/// The initial values of the registers of so many threads.
fn registers_of(
    alloc: Global,
    init: &[InitEntry],
    locations: &[Name],
    threads: usize,
) -> Result<Vec<[Value; 32]>, AllocError>
    requires { AllPairs low.IsNameBefore locations.now }
    ensures { IfOk result (λ v. low.AreFiles init.now locations.now threads v.items) }
{
    let mut registers = blank_files(alloc, threads)?;
    for entry in init {
        put_register(locations, entry, &mut registers);
    }
    Ok(registers)
}

/// The instruction, with its label by number.
fn instruction_of(labels: &[Name], instruction: &Written) -> Instruction
    requires { AllPairs low.IsNameBefore labels.now }
    ensures { result ≡ low.lowered_instruction labels.now instruction.now }
{
    match instruction {
        Written::LoadImmediate { target, value } => {
            Instruction::Immediate(target.number(), value.cast_unsigned())
        }
        Written::Move { target, source } => { Instruction::Move(target.number(), source.number()) }
        Written::AddImmediate {
            target,
            left,
            value,
        } => Instruction::AddImmediate(target.number(), left.number(), value.cast_unsigned()),
        Written::Compute {
            operation,
            target,
            left,
            right,
        } => Instruction::Operate(*operation, target.number(), left.number(), right.number()),
        Written::Load { target, base } => { Instruction::Load(target.number(), base.number()) }
        Written::LoadIndexed {
            target,
            base,
            index,
        } => Instruction::LoadIndexed(target.number(), base.number(), index.number()),
        Written::Store { source, base } => { Instruction::Store(source.number(), base.number()) }
        Written::StoreIndexed {
            source,
            base,
            index,
        } => Instruction::StoreIndexed(source.number(), base.number(), index.number()),
        Written::Compare { left, right } => { Instruction::Compare(left.number(), right.number()) }
        Written::CompareImmediate { left, value } => {
            Instruction::CompareImmediate(left.number(), value.cast_unsigned())
        }
        Written::BranchIf { condition, label } => {
            Instruction::Branch(*condition, number_of(labels, label))
        }
        Written::Branch { label } => Instruction::Jump(number_of(labels, label)),
        Written::Fence(fence) => Instruction::Fence(*fence),
    }
}

/// Adds the label that the step is, if it is one.
fn note_label(alloc: Global, labels: &mut Vec<Name>, step: &Step) -> Result<(), AllocError>
    requires { AllPairs low.IsNameBefore labels.old.items }
    ensures rising { AllPairs low.IsNameBefore labels.new.items }
    ensures noted { OnOk result (low.Gains (low.labels_in step.now) labels.old.items
        labels.new.items) }
{
    match step {
        Step::Label(name) => note(alloc, labels, name),
        Step::Instruction(_) => Ok(()),
    }
}

/// The labels of a thread in the order of their bytes.
fn labels_of(alloc: Global, steps: &[Step]) -> Result<Vec<Name>, AllocError>
    ensures { IfOk result (λ v. low.AreNamesOf (flat_map low.labels_in steps.now) v.items) }
{
    let mut labels = Vec::new(alloc);
    for step in steps {
        note_label(alloc, &mut labels, step)?;
    }
    Ok(labels)
}

/// The line that the step is.
fn line_of(labels: &[Name], step: &Step) -> Line
    requires { AllPairs low.IsNameBefore labels.now }
    ensures { result ≡ low.lowered_line labels.now step.now }
{
    match step {
        Step::Label(name) => Line::Label(number_of(labels, name)),
        Step::Instruction(instruction) => Line::Does(instruction_of(labels, instruction)),
    }
}

/// The lines of a thread, with the numbers of its labels.
fn lines_of(alloc: Global, steps: &[Step]) -> Result<Vec<Line>, AllocError>
    ensures { IfOk result (λ v. low.LowersTo steps.now v.items) }
{
    let labels = labels_of(alloc, steps)?;
    let mut lines = Vec::new(alloc);
    for step in steps {
        lines.push(line_of(&labels, step))?;
    }
    Ok(lines)
}

/// The lines of all threads.
fn threads_of(alloc: Global, threads: &[Thread]) -> Result<Vec<Vec<Line>>, AllocError>
    ensures { IfOk result (λ v. low.AreThreadLines threads.now v.items) }
{
    let mut made = Vec::new(alloc);
    for thread in threads {
        let lines = lines_of(alloc, &thread.steps)?;
        made.push(lines)?;
    }
    Ok(made)
}

/// The program of a test. Locations are numbered in the order of their name bytes, and so are the
/// labels of each thread. Locations and registers without an entry start at 0. Errors: out of
/// memory.
pub fn program(alloc: Global, test: &Test) -> Result<Program, AllocError>
    ensures program { IfOk result (λ p. low.IsProgram test.now p) }
    ensures proper { IfOk result (λ p. AreProper p) }
{
    let locations = locations_of(alloc, test)?;
    let initial = initial_of(alloc, &test.init, &locations)?;
    let threads = threads_of(alloc, &test.threads)?;
    let registers = registers_of(alloc, &test.init, &locations, test.threads.len())?;
    Ok(Program {
        locations,
        initial,
        threads,
        registers,
    })
}
