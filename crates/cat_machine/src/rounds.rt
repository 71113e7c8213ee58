//! Which names of a recursive group have to be computed anew.

ghost use Rattle.std.specs.Prelude.{◌≡◌, ℕ, ◌<◌, ◌≤◌, length, min, ◌↔◌, ◌⊎◌, IsTrue};
ghost use Rattle.std.specs.Int.{bit_at};
ghost use Rattle.cat_machine.specs.Uses.{ShareBit, IsAmong, UsesOne, UsesAny, UsesAt, UsesNear, bodies_at};

use binding_graph::{Body, Resolved, Role, Source, Step};

/// The bit of the name at a position: the 64th name of a group and those behind it share the last.
fn bit_of(position: usize) -> usize
    ensures bit { result ≡ min position 63 }
    ensures small { result < 64 }
{
    if position < 63 { position } else { 63 }
}

/// Whether the name at a position, or one that shares its bit, is among the names.
pub(crate) fn has_name(names: u64, position: usize) -> bool
    ensures { IsTrue result ↔ IsAmong names position }
{
    (names >> bit_of(position)) & 1 == 1
}

/// The names with the one at a position, and those that share its bit.
pub(crate) fn with_name(names: u64, position: usize) -> u64
    ensures { (k : ℕ) → IsAmong result k ↔ (IsAmong names k ⊎ ShareBit position k) }
{
    names | (1 << bit_of(position))
}

/// Whether a step uses one of the names of its own group.
fn uses(step: Step, names: u64) -> bool
    ensures { IsTrue result ↔ UsesOne names step }
{
    match step {
        Step::PushSet(source) | Step::PushRelation(source) => match source {
            Source::Own(position) => has_name(names, position),
            Source::Predefined(_) | Source::Input(_) => false,
        },
        Step::PushEverything
        | Step::PushNoEvents
        | Step::BlendSets(_)
        | Step::ComplementSet
        | Step::PushNoPairs
        | Step::BlendRelations(_)
        | Step::SequenceRelations
        | Step::ProductOfSets
        | Step::IdentityOn
        | Step::Close(_)
        | Step::ComplementRelation => false,
    }
}

/// Whether an expression uses one of the names of its own group.
fn uses_any(steps: &[Step], names: u64) -> bool
    ensures { IsTrue result ↔ UsesAny names steps.now }
{
    steps.iter().any(|step| uses(*step, names))
}

/// The names of a group whose bodies use a name that grew, and those that share their bits.
pub(crate) fn next_among(bodies: &[Body], grew: u64) -> u64
    ensures { (k : ℕ) → IsAmong result k ↔ UsesNear grew bodies.now k }
{
    let mut names = 0;
    for position in 0..bodies.len() {
        if uses_any(&bodies[position].code.steps, grew) {
            names = with_name(names, position);
        }
    }
    names
}

/// The bodies of an item's group: none of an item without one, or where no item stands.
fn bodies_at(resolved: &Resolved, item: usize) -> &[Body]
    ensures { result.now ≡ bodies_at resolved.now.items.items item }
{
    match resolved.items.get(item) {
        Some(found) => match &found.role {
            Role::Group {
                recursive: _,
                bodies,
            } => bodies,
            Role::Check(_) => &[],
            Role::Silent => &[],
        },
        None => &[],
    }
}

/// The names of a recursive group that the next round computes anew: those whose bodies use a name
/// that grew in this one. Bit i stands for the group's i-th name, from 0, in `grew` and in the
/// answer. An item without a group has no names.
pub fn next(resolved: &Resolved, item: usize, grew: u64) -> u64
    // Of a group of up to 64 names, as each text has, the answer is exact.
    ensures exact { length (bodies_at resolved.now.items.items item) ≤ 64 → (k : ℕ) → k < 64
        → (bit_at result k ≡ 1) ↔ UsesAt grew (bodies_at resolved.now.items.items item) k }
    // In a longer group the 64th name and those behind it share the last bit.
    ensures shared { (k : ℕ) → IsAmong result k
        ↔ UsesNear grew (bodies_at resolved.now.items.items item) k }
{
    next_among(bodies_at(resolved, item), grew)
}
