//! What items do where their inputs have given kinds.

ghost use Rattle.std.specs.Prelude.{◌≡◌, reverse, map, IfOk, OnOk};
ghost use Rattle.binding_kinds.specs.Outermost.{kind_of_predefined};
ghost use Rattle.binding_graph.specs.Contents.{code_content, body_content, role_content};
ghost use Rattle.binding_graph.specs.Lowering.{top, below, with_step, with_either, with_blend, lowering_start};
ghost use Rattle.binding_shapes.specs.Shapes.{source_kind, with_source, with_complement, step_with, steps_with, code_with, body_with, role_with};
ghost use Rattle.binding_shapes.specs.Stacks.{state_of};

use binding_graph::{Blend, Body, CheckCode, Code, Kind, Role, Source, Step};
use std::alloc::{AllocError, Global};
use text_values::{Name, Predefined};

/// The steps so far, and the kinds of what they leave on the stacks, the latest last.
#[derive(Drop)]
struct Kinding {
    kinds: Vec<Kind>,
    steps: Vec<Step>,
}

fn predefined_kind(name: Predefined) -> Kind
    ensures { result ≡ kind_of_predefined name }
{
    if name.is_set() {
        Kind::OfSet
    } else {
        Kind::OfRelation
    }
}

// The kind of what a name stands for, where the inputs have these kinds.
fn source_kind(kinds: &[Kind], source: Source) -> Kind
    ensures { result ≡ source_kind kinds.now source }
{
    match source {
        Source::Predefined(name) => predefined_kind(name),
        Source::Input(index) => {
            if index < kinds.len() {
                kinds[index]
            } else {
                Kind::OfRelation
            }
        }
        Source::Own(_) => Kind::OfRelation,
    }
}

impl Kinding {
    // No step, with room for so many.
    fn new(alloc: Global, room: usize) -> Result<Kinding, AllocError>
        ensures { IfOk result (λ k. state_of k ≡ lowering_start) }
    {
        Ok(Kinding {
            kinds: Vec::new(alloc),
            steps: Vec::with_capacity(alloc, room)?,
        })
    }

    // Takes the latest operand, and answers its kind.
    fn pop_kind(&mut self) -> Kind
        ensures kind { result ≡ top (reverse self.old.kinds.items) }
        ensures kinds { reverse self.new.kinds.items ≡ below (reverse self.old.kinds.items) }
        ensures steps { self.new.steps.items ≡ self.old.steps.items }
    {
        match self.kinds.pop() {
            Some(Kind::OfSet) => Kind::OfSet,
            _ => Kind::OfRelation,
        }
    }

    fn put(&mut self, kind: Kind, step: Step) -> Result<(), AllocError>
        ensures { OnOk result (state_of self.new
            ≡ with_step (reverse self.old.kinds.items) self.old.steps.items kind step) }
    {
        self.kinds.push(kind)?;
        self.steps.push(step)?;
        Ok(())
    }

    // Adds one of two steps, by a kind.
    fn put_either(&mut self, kind: Kind, set: Step, relation: Step) -> Result<(), AllocError>
        ensures { OnOk result (state_of self.new
            ≡ with_either (reverse self.old.kinds.items) self.old.steps.items kind set
            relation) }
    {
        match kind {
            Kind::OfSet => self.put(Kind::OfSet, set),
            Kind::OfRelation => self.put(Kind::OfRelation, relation),
            Kind::OfAny => self.put(Kind::OfRelation, relation),
        }
    }

    fn put_source(&mut self, kinds: &[Kind], source: Source) -> Result<(), AllocError>
        ensures { OnOk result (state_of self.new
            ≡ with_source kinds.now source (state_of self.old)) }
    {
        let kind = source_kind(kinds, source);
        self.put_either(kind, Step::PushSet(source), Step::PushRelation(source))
    }

    fn put_blend(&mut self, how: Blend) -> Result<(), AllocError>
        ensures { OnOk result (state_of self.new ≡ with_blend how (state_of self.old)) }
    {
        self.pop_kind();
        let kind = self.pop_kind();
        self.put_either(kind, Step::BlendSets(how), Step::BlendRelations(how))
    }

    fn put_complement(&mut self) -> Result<(), AllocError>
        ensures { OnOk result (state_of self.new ≡ with_complement (state_of self.old)) }
    {
        let kind = self.pop_kind();
        self.put_either(kind, Step::ComplementSet, Step::ComplementRelation)
    }

    // Adds a step that takes an operand and leaves a relation.
    fn put_relation(&mut self, step: Step) -> Result<(), AllocError>
        ensures { OnOk result (state_of self.new
            ≡ with_step (below (reverse self.old.kinds.items)) self.old.steps.items
            Kind.OfRelation step) }
    {
        self.pop_kind();
        self.put(Kind::OfRelation, step)
    }

    // Adds a step that takes two operands and leaves a relation.
    fn put_pair(&mut self, step: Step) -> Result<(), AllocError>
        ensures { OnOk result (state_of self.new
            ≡ with_step (below (below (reverse self.old.kinds.items))) self.old.steps.items
            Kind.OfRelation step) }
    {
        self.pop_kind();
        self.put_relation(step)
    }

    // Adds a step in the form of the kinds of its operands.
    fn take(&mut self, kinds: &[Kind], step: Step) -> Result<(), AllocError>
        ensures { OnOk result (state_of self.new ≡ step_with kinds.now step (state_of self.old)) }
    {
        match step {
            Step::PushSet(source) => self.put_source(kinds, source),
            Step::PushEverything => self.put(Kind::OfSet, step),
            Step::PushNoEvents => self.put(Kind::OfSet, step),
            Step::BlendSets(how) => self.put_blend(how),
            Step::ComplementSet => self.put_complement(),
            Step::PushRelation(source) => self.put_source(kinds, source),
            Step::PushNoPairs => self.put(Kind::OfRelation, step),
            Step::BlendRelations(how) => self.put_blend(how),
            Step::SequenceRelations => self.put_pair(step),
            Step::ProductOfSets => self.put_pair(step),
            Step::IdentityOn => self.put_relation(step),
            Step::Close(_) => self.put_relation(step),
            Step::ComplementRelation => self.put_complement(),
        }
    }

    fn take_all(&mut self, kinds: &[Kind], steps: &[Step]) -> Result<(), AllocError>
        ensures { OnOk result (state_of self.new
            ≡ steps_with kinds.now steps.now (state_of self.old)) }
    {
        for step in steps {
            self.take(kinds, *step)?;
        }
        Ok(())
    }
}

fn code_with(alloc: Global, kinds: &[Kind], code: &Code) -> Result<Code, AllocError>
    ensures { IfOk result (λ c. code_content c ≡ code_with kinds.now (code_content code.now)) }
{
    let mut kinding = Kinding::new(alloc, code.steps.len())?;
    kinding.take_all(kinds, &code.steps)?;
    let kind = kinding.pop_kind();
    Ok(Code {
        kind,
        steps: kinding.steps,
    })
}

fn body_with(alloc: Global, kinds: &[Kind], body: &Body) -> Result<Body, AllocError>
    ensures { IfOk result (λ b. body_content b ≡ body_with kinds.now (body_content body.now)) }
{
    Ok(Body {
        name: body.name.copied(alloc)?,
        code: code_with(alloc, kinds, &body.code)?,
    })
}

fn bodies_with(alloc: Global, kinds: &[Kind], bodies: &[Body]) -> Result<Vec<Body>, AllocError>
    ensures { IfOk result (λ v. map body_content v.items
        ≡ map (body_with kinds.now) (map body_content bodies.now)) }
{
    let mut made = Vec::with_capacity(alloc, bodies.len())?;
    for body in bodies {
        made.push(body_with(alloc, kinds, body)?)?;
    }
    Ok(made)
}

fn copied_flag(alloc: Global, flag: &Option<Name>) -> Result<Option<Name>, AllocError>
    ensures { IfOk result (λ f. f ≡ flag.now) }
{
    match flag {
        Some(name) => Ok(Some(name.copied(alloc)?)),
        None => Ok(None),
    }
}

fn check_with(alloc: Global, kinds: &[Kind], check: &CheckCode) -> Result<CheckCode, AllocError>
    ensures { IfOk result (λ c. role_content (Role.Check c)
        ≡ role_with kinds.now (role_content (Role.Check check.now))) }
{
    Ok(CheckCode {
        negated: check.negated,
        word: check.word,
        code: code_with(alloc, kinds, &check.code)?,
        flag: copied_flag(alloc, &check.flag)?,
    })
}

/// What an item does where its inputs have these kinds. Errors: out of memory.
pub fn role_with_kinds(alloc: Global, role: &Role, kinds: &[Kind]) -> Result<Role, AllocError>
    ensures { IfOk result (λ r. role_content r ≡ role_with kinds.now (role_content role.now)) }
{
    match role {
        Role::Group { recursive, bodies } => Ok(Role::Group {
            recursive: *recursive,
            bodies: bodies_with(alloc, kinds, bodies)?,
        }),
        Role::Check(check) => Ok(Role::Check(check_with(alloc, kinds, check)?)),
        Role::Silent => Ok(Role::Silent),
    }
}
