//! The predefined names of all candidates of a space, one after another.

ghost use Rattle.std.specs.Prelude.{◌≡◌, ℕ, ◌++◌, List, [], ◌∷◌, IsTrue, IfOk, IfSome, OnOk};
ghost use Rattle.candidate_spaces.specs.Space.{candidates_in};
ghost use Rattle.base_names.specs.Known.{Known, IsConsistent};
ghost use Rattle.base_names.specs.Candidate.{IsEntered, HasReadsFrom, HasCoherence};
ghost use Rattle.cat_eval.specs.Candidates.{reading_so, reading_in};
ghost use Rattle.cat_machine.specs.Steady.{HasAsLast};
ghost use Rattle.cat_eval.specs.Reordered.{IsReordered, EndsReordered};
ghost use Rattle.cat_eval.specs.Worlds.{AreNamesHeld, IsBaseReady, AreWorlds};

use crate::needs::Needs;
use crate::shape::is_same_shape;
use base_names::Base;
use candidates::{Combination, Space};
use std::alloc::AllocError;

/// What is done with each candidate.
pub(crate) trait Enter {
    /// From the first state on it has taken candidates of these predefined names, one after
    /// another.
    ghost has_taken: { Self → List Known → Self → Type 0 };

    /// Takes the next candidate, of which the predefined names are given, and whether they are
    /// those of the one before: `again` all of them, `reordered` those that do not change with the
    /// order of the stores.
    fn enter(&mut self, base: &Base, again: bool, reordered: bool) -> Result<(), AllocError>
        ensures { (first : _) (bases : List Known) → (IsTrue again → HasAsLast bases base.now)
            → (IsTrue reordered → EndsReordered bases base.now) → has_taken first bases self.old
            → OnOk result (has_taken first (bases ++ base.now ∷ []) self.new) };
}

/// Goes over to an order of the stores, from a previous one where it is given.
fn put_order(base: &mut Base, combination: &Combination, previous: Option<&[u8]>, coherence: &[u8])
    ensures count { base.new.count ≡ base.old.count }
    ensures known { IsConsistent base.new }
    ensures sets { base.new.sets ≡ base.old.sets }
    ensures shared { base.new.shared ≡ base.old.shared }
    ensures reads_from { base.new.reads_from ≡ base.old.reads_from }
    ensures ordered { IfSome previous.entry
        (λ earlier. HasCoherence base.old combination.now earlier.now)
        → HasCoherence base.new combination.now coherence.now }
{
    match previous {
        Some(earlier) => base.order_after(combination, earlier, coherence),
        None => base.order(combination, coherence),
    }
}

/// Goes over to an order of the stores, where a name changes with it. Of a base that is that of the
/// last candidate it says whether it still is.
fn go_to_coherence(
    needs: &Needs,
    base: &mut Base,
    combination: &Combination,
    previous: Option<&[u8]>,
    coherence: &[u8],
    again: bool,
) -> bool
    ensures kept { IsTrue result → IsTrue again × (base.new ≡ base.old) }
    ensures reordered { IsReordered base.old base.new }
    ensures ready { IsBaseReady needs.now.names.items base.old combination.now
        → IsBaseReady needs.now.names.items base.new combination.now }
    ensures reading { (reads_from : List ℕ) → HasReadsFrom base.old combination.now reads_from
        → HasReadsFrom base.new combination.now reads_from }
    ensures ordered { IsTrue needs.now.orders
        → IfSome previous.entry (λ earlier. HasCoherence base.old combination.now earlier.now)
        → HasCoherence base.new combination.now coherence.now }
{
    if needs.orders {
        put_order(base, combination, previous, coherence);
        return false;
    }
    again
}

/// Goes over to a read choice, where a name changes with it. It answers as above.
fn go_to_reads_from(
    needs: &Needs,
    base: &mut Base,
    combination: &Combination,
    reads_from: &[u8],
    again: bool,
) -> bool
    ensures kept { IsTrue result → IsTrue again × (base.new ≡ base.old) }
    ensures ready { IsBaseReady needs.now.names.items base.old combination.now
        → IsBaseReady needs.now.names.items base.new combination.now }
    ensures reading { IsTrue needs.now.reads
        → HasReadsFrom base.new combination.now reads_from.now }
{
    if needs.reads {
        base.read_from(combination, reads_from);
        return false;
    }
    again
}

/// Goes over to a combination, after another one where it is given. It answers as above.
fn go_to_combination(
    entered: Option<&Combination>,
    base: &mut Base,
    combination: &Combination,
    again: bool,
) -> bool
    ensures kept { IsTrue result → IsTrue again × (base.new ≡ base.old) }
    ensures known { IsConsistent base.old → IsConsistent base.new }
    ensures held { (names : _) → AreNamesHeld names base.old → AreNamesHeld names base.new }
    ensures entered { IfSome entered.entry (λ earlier. IsEntered base.old earlier.now)
        → IsEntered base.new combination.now }
{
    match entered {
        Some(earlier) if is_same_shape(earlier, combination) => again,
        _ => {
            base.enter(combination);
            false
        }
    }
}

/// Visits the candidates of a combination of the present read choice. `again` says whether the
/// base is that of the last candidate, before and after.
fn enter_orders<V: Enter>(
    combination: &Combination,
    needs: &Needs,
    base: &mut Base,
    again: bool,
    visitor: &mut V,
) -> Result<bool, AllocError>
    requires { IsBaseReady needs.now.names.items base.old combination.now }
    ensures ready { IsBaseReady needs.now.names.items base.new combination.now }
    ensures worlds { (reads_from : List ℕ)
        → (IsTrue needs.now.reads → HasReadsFrom base.old combination.now reads_from)
        → (first : _) (bases : List Known) → (IsTrue again → HasAsLast bases base.old)
        → V.has_taken first bases visitor.old
        → IfOk result (λ ends. (more : List Known)
        × AreWorlds needs.now.names.items needs.now.reads needs.now.orders more
        (reading_so combination.now reads_from combination.now.orders)
        × V.has_taken first (bases ++ more) visitor.new
        × (IsTrue ends → HasAsLast (bases ++ more) base.new)) }
{
    let mut again = again;
    let mut previous: Option<&[u8]> = None;
    for index in 0..combination.orders.len() {
        let coherence = combination.orders.order(index);
        let same = go_to_coherence(needs, base, combination, previous, coherence, again);
        previous = Some(coherence);
        visitor.enter(base, same, again)?;
        again = true;
    }
    Ok(again)
}

/// Visits the candidates of a combination, which the base has entered. `again` as above.
fn enter_combination<V: Enter>(
    combination: &Combination,
    needs: &Needs,
    base: &mut Base,
    again: bool,
    visitor: &mut V,
) -> Result<bool, AllocError>
    requires { IsBaseReady needs.now.names.items base.old combination.now }
    ensures ready { IsBaseReady needs.now.names.items base.new combination.now }
    ensures worlds { (first : _) (bases : List Known) → (IsTrue again → HasAsLast bases base.old)
        → V.has_taken first bases visitor.old
        → IfOk result (λ ends. (more : List Known)
        × AreWorlds needs.now.names.items needs.now.reads needs.now.orders more
        (reading_in combination.now combination.now.reads_from.items)
        × V.has_taken first (bases ++ more) visitor.new
        × (IsTrue ends → HasAsLast (bases ++ more) base.new)) }
{
    let mut again = again;
    for reads_from in &combination.reads_from {
        let same = go_to_reads_from(needs, base, combination, reads_from, again);
        again = enter_orders(combination, needs, base, same, visitor)?;
    }
    Ok(again)
}

/// Visits all candidates of a space, in order, with predefined names that are held.
pub(crate) fn enter_space<V: Enter>(
    space: &Space,
    needs: &Needs,
    base: &mut Base,
    visitor: &mut V,
) -> Result<(), AllocError>
    requires known { IsConsistent base.old }
    requires held { AreNamesHeld needs.now.names.items base.old }
    ensures { V.has_taken visitor.old [] visitor.old
        → OnOk result ((bases : List Known)
        × AreWorlds needs.now.names.items needs.now.reads needs.now.orders bases
        (candidates_in space.now.combinations.items)
        × V.has_taken visitor.old bases visitor.new) }
{
    let mut entered = None;
    let mut again = false;
    for combination in &space.combinations {
        let same = go_to_combination(entered, base, combination, again);
        entered = Some(combination);
        again = enter_combination(combination, needs, base, same, visitor)?;
    }
    Ok(())
}
