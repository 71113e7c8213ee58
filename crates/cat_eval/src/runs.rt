//! All candidates of a space, combination by combination.

ghost use Rattle.std.specs.Prelude.{◌≤◌, ◌++◌, List, [], length, OnOk};
ghost use Rattle.candidate_spaces.specs.Space.{candidates_in};
ghost use Rattle.cat_machine.specs.Seen.{NamedValues, seen_run, seen_in};

use candidates::Space;
use cat_machine::NamedColumn;
use std::alloc::AllocError;

/// From how many candidates on each step of an expression keeps its value: where there are fewer,
/// to keep the values costs more than it saves.
const MANY: usize = 64;

/// Whether a space has so many candidates that each step keeps its value.
pub(crate) fn has_many(space: &Space) -> bool {
    MANY <= space.len()
}

/// What is done with the candidates.
pub(crate) trait RunVisit {
    ghost use Rattle.cat_machine.specs.declared.seen.NamedColumn.{NamedColumn};

    /// From the first state on it has taken candidates of these predefined names, one after
    /// another.
    ghost has_taken: { List NamedColumn → Self → List NamedValues → Self → Type 0 };

    /// Takes the next candidates, so many of so many events, with the columns of the predefined
    /// names.
    fn visit_run(
        &mut self,
        named: &[NamedColumn],
        count: usize,
        many: usize,
    ) -> Result<(), AllocError>
        requires { count ≤ 128 }
        ensures { (first : _) (bases : List NamedValues) → has_taken named.now first bases self.old
            → OnOk result (has_taken named.now first
            (bases ++ seen_run named.now (length bases) count many) self.new) };
}

/// Visits all candidates of a space, in order, with some names.
pub(crate) fn visit_runs<V: RunVisit>(
    named: &[NamedColumn],
    space: &Space,
    visitor: &mut V,
) -> Result<(), AllocError>
    ensures { V.has_taken named.now visitor.old [] visitor.old
        → OnOk result (V.has_taken named.now visitor.old
        (seen_in named.now 0 (candidates_in space.now.combinations.items)) visitor.new) }
{
    for combination in &space.combinations {
        let count = combination.events.len();
        let Some(many) = combination
            .reads_from
            .len()
            .checked_mul(combination.orders.len())
        else {
            return Err(AllocError);
        };
        visitor.visit_run(named, count, many)?;
    }
    Ok(())
}
