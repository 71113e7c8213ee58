//! Laws of states, as the memo core asks for them of texts.

ghost use Rattle.std.specs.Prelude.{◌≡◌, ◌↔◌, ℕ, List, true};
ghost use Rattle.std.specs.List.{AllByRecursion as Each};
ghost use Rattle.memo_core.specs.Laws.{GivenStays, IsUsedClosed, AreUsers, Falls};
ghost use Rattle.memo_core.specs.Right.{IsSoundNet, PartsGoOn};
ghost use Rattle.bench_values.specs.Values.{NodeContent};
ghost use Rattle.bench_nodes.specs.Nodes.{used, users, rank};
ghost use Rattle.bench_slots.specs.Tables.{ModelReading};
ghost use Rattle.bench_parts.specs.Built.{IsBuilt};
ghost use Rattle.bench_parts.specs.Contents.{PartsState};
ghost use Rattle.bench_parts.specs.Equal.{same_content};
ghost use Rattle.bench_parts.specs.States.{net_in, makes, IsValidState, IsUsedNode, IsSamePartsState};
ghost use Rattle.bench_parts.specs.Written.{WrittenState, IsWholeState, IsStateSince, IsStamped, IsSameWritten};

/// Two values of nodes are equal where their codes are.
pub fn equal_values_are_same()
    ensures { (a b : NodeContent) → (same_content a b ≡ true) ↔ (a ≡ b) }
{}

/// Each output among the inputs of a node that is there gets a value, and its input nodes are
/// there.
pub fn states_are_sound()
    ensures { (s : PartsState) → IsValidState s → IsSoundNet makes (net_in s) (IsUsedNode s) }
{}

/// Used nodes are there.
pub fn used_nodes_are_there()
    ensures { (s : PartsState) → IsValidState s → Each (IsUsedNode s) (used s.parts.table) }
{}

/// The input nodes of a used node are used.
pub fn inputs_are_used()
    ensures { (s : PartsState) → IsValidState s → IsUsedClosed (net_in s) }
{}

/// The users of a node hold each used node that has an output of it among its inputs. Those of a
/// used node are used.
pub fn users_are_listed()
    ensures { (s : PartsState) → AreUsers (net_in s) (users s.parts.table) }
{}

/// No node stands on itself.
pub fn ranks_fall()
    ensures { (s : PartsState) → IsValidState s → Falls (net_in s) (rank s.parts.table) }
{}

/// A state is since itself.
pub fn since_is_reflexive()
    ensures { (w : WrittenState) → IsWholeState w → IsStateSince w w }
{}

/// A state after an edit is since all that the state before the edit is since.
pub fn since_goes_on()
    ensures { (w v u : WrittenState) (number : ℕ) → IsStateSince w v → IsStamped v number u
        → IsStateSince w u }
{}

/// A node whose inputs and parts are what they were in an earlier state is given what it was.
pub fn given_stays()
    ensures { GivenStays IsWholeState IsStateSince (λ w. net_in w.state) }
{}

/// An edit leaves each part its stamp, gives it the edit's number, or drops it.
pub fn parts_go_on()
    ensures { (w v : WrittenState) (number : ℕ) → IsStamped w number v
        → PartsGoOn (net_in w.state) number (net_in v.state) }
{}

/// States that are the same, wherever they lie in memory, say the same of nodes.
pub fn same_states_say_the_same()
    ensures { (s t : PartsState) → IsSamePartsState s t → net_in t ≡ net_in s }
{}

/// They are since the same states.
pub fn same_states_are_since()
    ensures { (r w v : WrittenState) → IsSameWritten w v → IsStateSince r w → IsStateSince r v }
{}

/// They are built of the same models.
pub fn same_states_are_built()
    ensures { (s t : PartsState) (models : List ModelReading) → IsSamePartsState s t
        → IsBuilt s models
        → IsBuilt t models }
{}

/// A state that is built of its tests, and of models as they are read, is valid.
pub fn built_states_are_valid()
    ensures { (s : PartsState) (models : List ModelReading) → IsBuilt s models → IsValidState s }
{}
