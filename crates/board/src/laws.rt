//! Laws of legal lists of operations.

ghost use Rattle.std.specs.Prelude.{List, ◌++◌, ◌∷◌, []};
ghost use Rattle.board.specs.declared.operation.BoardOp.{BoardOp};
ghost use Rattle.board.specs.Legal.{texts_after, last_number, MayFollow, IsLegal};
ghost use Rattle.board.specs.Right.{OutcomesAreRight, HasNamesOf, HasItemsOf};

/// After each legal list of operations, each settled cell carries what evaluating its test under
/// its model from nothing gives, for the texts at that moment.
pub fn legal_is_right()
    ensures { (ops : List BoardOp) → IsLegal ops → OutcomesAreRight ops }
{}

/// After each legal list of operations, the names of the board are those of the texts at that
/// moment, in their orders.
pub fn names_are_those()
    ensures { (ops : List BoardOp) → IsLegal ops → HasNamesOf ops }
{}

/// After each legal list of operations, each model of the board has the items of that model of the
/// texts at that moment, with their numbers, one on each line.
pub fn items_are_those()
    ensures { (ops : List BoardOp) → IsLegal ops → HasItemsOf ops }
{}

/// Each beginning of a legal list is legal.
pub fn beginnings_are_legal()
    ensures { (ops others : List BoardOp) → IsLegal (ops ++ others) → IsLegal ops }
{}

/// A legal list is legal with one operation more that may follow it.
pub fn one_more_is_legal()
    ensures { (ops : List BoardOp) (op : BoardOp) → IsLegal ops
        → MayFollow (texts_after ops) (last_number ops) op → IsLegal (ops ++ op ∷ []) }
{}
