//! Whether items have one shape.

ghost use Rattle.std.specs.Prelude.{◌≡◌, ◌↔◌, IsTrue, map};
ghost use Rattle.binding_graph.specs.Contents.{code_content, body_content, role_content};
ghost use Rattle.binding_shapes.specs.Shapes.{shape_of_step, shape_of_code, shape_of_body, role_shape};

use binding_graph::{Body, CheckCode, Code, Role, Source, Step};
use text_values::{Predefined, is_same_label};

fn same_predefined(this: Predefined, that: Predefined) -> bool
    ensures { IsTrue result ↔ (this ≡ that) }
{
    this == that
}

fn same_source(this: Source, that: Source) -> bool
    ensures { IsTrue result ↔ (this ≡ that) }
{
    match this {
        Source::Predefined(name) => match that {
            Source::Predefined(other) => same_predefined(name, other),
            Source::Input(_) => false,
            Source::Own(_) => false,
        },
        Source::Input(index) => match that {
            Source::Predefined(_) => false,
            Source::Input(other) => index == other,
            Source::Own(_) => false,
        },
        Source::Own(position) => match that {
            Source::Predefined(_) => false,
            Source::Input(_) => false,
            Source::Own(other) => position == other,
        },
    }
}

fn same_step(this: Step, that: Step) -> bool
    ensures { IsTrue result ↔ (this ≡ that) }
{
    match this {
        Step::PushSet(part) => match that {
            Step::PushSet(other) => same_source(part, other),
            _ => false,
        },
        Step::PushEverything => match that {
            Step::PushEverything => true,
            _ => false,
        },
        Step::PushNoEvents => match that {
            Step::PushNoEvents => true,
            _ => false,
        },
        Step::BlendSets(part) => match that {
            Step::BlendSets(other) => part == other,
            _ => false,
        },
        Step::ComplementSet => match that {
            Step::ComplementSet => true,
            _ => false,
        },
        Step::PushRelation(part) => match that {
            Step::PushRelation(other) => same_source(part, other),
            _ => false,
        },
        Step::PushNoPairs => match that {
            Step::PushNoPairs => true,
            _ => false,
        },
        Step::BlendRelations(part) => match that {
            Step::BlendRelations(other) => part == other,
            _ => false,
        },
        Step::SequenceRelations => match that {
            Step::SequenceRelations => true,
            _ => false,
        },
        Step::ProductOfSets => match that {
            Step::ProductOfSets => true,
            _ => false,
        },
        Step::IdentityOn => match that {
            Step::IdentityOn => true,
            _ => false,
        },
        Step::Close(part) => match that {
            Step::Close(other) => part == other,
            _ => false,
        },
        Step::ComplementRelation => match that {
            Step::ComplementRelation => true,
            _ => false,
        },
    }
}

// A step that has one form for sets and one for relations in the latter.
fn shape_of_step(step: Step) -> Step
    ensures { result ≡ shape_of_step step }
{
    match step {
        Step::PushSet(source) => Step::PushRelation(source),
        Step::BlendSets(how) => Step::BlendRelations(how),
        Step::ComplementSet => Step::ComplementRelation,
        _ => step,
    }
}

fn same_shaped_step(this: &Step, that: &Step) -> bool
    ensures { IsTrue result ↔ (shape_of_step this.now ≡ shape_of_step that.now) }
{
    same_step(shape_of_step(*this), shape_of_step(*that))
}

fn same_steps(these: &[Step], those: &[Step]) -> bool
    ensures { IsTrue result ↔ (map shape_of_step these.now ≡ map shape_of_step those.now) }
{
    if these.len() != those.len() {
        return false;
    }
    for (this, that) in these.iter().zip(those.iter()) {
        if !same_shaped_step(this, that) {
            return false;
        }
    }
    true
}

fn same_code(this: &Code, that: &Code) -> bool
    ensures { IsTrue result
        ↔ (shape_of_code (code_content this.now) ≡ shape_of_code (code_content that.now)) }
{
    same_steps(&this.steps, &that.steps)
}

fn same_body(this: &Body, that: &Body) -> bool
    ensures { IsTrue result
        ↔ (shape_of_body (body_content this.now) ≡ shape_of_body (body_content that.now)) }
{
    this.name.is_same(&that.name) && same_code(&this.code, &that.code)
}

fn same_bodies(these: &[Body], those: &[Body]) -> bool
    ensures { IsTrue result
        ↔ (map shape_of_body (map body_content these.now)
        ≡ map shape_of_body (map body_content those.now)) }
{
    if these.len() != those.len() {
        return false;
    }
    for index in 0..these.len() {
        if !same_body(&these[index], &those[index]) {
            return false;
        }
    }
    true
}

fn same_check(this: &CheckCode, that: &CheckCode) -> bool
    ensures { IsTrue result
        ↔ (role_shape (role_content (Role.Check this.now))
        ≡ role_shape (role_content (Role.Check that.now))) }
{
    this.negated == that.negated
        && this.word == that.word
        && same_code(&this.code, &that.code)
        && is_same_label(&this.flag, &that.flag)
}

/// Whether items do the same, the kinds of the names that they use left out.
pub fn same_shape(this: &Role, that: &Role) -> bool
    ensures { IsTrue result
        ↔ (role_shape (role_content this.now) ≡ role_shape (role_content that.now)) }
{
    match this {
        Role::Group { recursive, bodies } => match that {
            Role::Group {
                recursive: other,
                bodies: others,
            } => *recursive == *other && same_bodies(bodies, others),
            Role::Check(_) => false,
            Role::Silent => false,
        },
        Role::Check(check) => match that {
            Role::Group { .. } => false,
            Role::Check(other) => same_check(check, other),
            Role::Silent => false,
        },
        Role::Silent => match that {
            Role::Group { .. } => false,
            Role::Check(_) => false,
            Role::Silent => true,
        },
    }
}
