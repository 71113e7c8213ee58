//! What is found of a part of the body of a function.

ghost use Rattle.std.specs.Prelude.{◌≡◌, ◌<◌, ℕ, ◌||◌, ◌&&◌, List, [], ◌∷◌, ◌++◌, length, map, reverse, Bool, Some, None, false, nat_eq, get_or, IfOk};
ghost use Rattle.text_values.specs.declared.model.Expression.{Expression};
ghost use Rattle.text_values.specs.declared.model.Infix.{Infix};
ghost use Rattle.text_values.specs.declared.model.Postfix.{Postfix};
ghost use Rattle.text_values.specs.ModelValue.{Term, Atom, Join, Mark, On, Apply, gathered};
ghost use Rattle.text_values.specs.ModelValues.{term_of};
ghost use Rattle.binding_kinds.specs.Value.{Naming};
ghost use Rattle.binding_kinds.specs.Kinds.{found, is_turned};
ghost use Rattle.binding_kinds.specs.Meanings.{parameter_of};
ghost use Rattle.binding_kinds.specs.Senses.{Sense, HasSense, sense_of};
ghost use Rattle.binding_kinds.specs.Functions.{sense_seen};
ghost use Rattle.binding_kinds.specs.First.{apply_fault};
ghost use Rattle.binding_functions.specs.Parts.{IsNameless, IsBodyPart, AreBodyParts};

use binding_kinds::{
    Found, Function, Gathered, Kind, ModelFault, Signature, applied_column, constant_column,
    either, identity_column, infix_column, judged_name, no_arguments, or_else, parameter_column,
    postfix_column, with_argument,
};
use std::alloc::{AllocError, Global};
use text_values::{Infix, MAX_PARAMETERS};

/// The columns that are made of the parts of a body.
#[derive(Clone, Copy)]
pub struct Columns {
    /// Where they are allocated.
    pub alloc: Global,
    /// How many combinations of the kinds of the parameters they have, from the first on.
    pub rows: usize,
}

/// What is found of a part of the body of a function, by the names in it.
#[derive(Drop)]
pub struct BodyPart {
    /// Its first fault, in the order of the text: a name that is unbound, or with another number of
    /// arguments than it takes. Kinds, sizes and complements count where the function is applied.
    pub fault: Option<ModelFault>,
    /// Whether each parameter stands under a complement or right of a difference in it.
    pub under: [bool; MAX_PARAMETERS],
    /// What it makes where the parameters have the kinds of each combination.
    pub column: Vec<Signature>,
}

/// What is found of the arguments of a function.
#[derive(Drop)]
pub struct BodyArguments {
    /// Their first fault.
    pub fault: Option<ModelFault>,
    /// Whether each parameter stands under a complement or right of a difference in them.
    pub under: [bool; MAX_PARAMETERS],
    /// What is known of them where the parameters have the kinds of each combination.
    pub known: Vec<Gathered>,
}

/// For each index, whether one of two tests holds.
fn either_of_each(
    first: [bool; MAX_PARAMETERS],
    later: [bool; MAX_PARAMETERS],
) -> [bool; MAX_PARAMETERS]
    ensures { (index : ℕ) → index < 8
        → get_or result index false ≡ (get_or first index false || get_or later index false) }
{
    let mut both = first;
    for index in 0..MAX_PARAMETERS {
        both[index] = either(first[index], later[index]);
    }
    both
}

/// No parameter is marked.
fn unmarked() -> [bool; MAX_PARAMETERS]
    ensures { (index : ℕ) → index < 8 → get_or result index false ≡ false }
{
    [false; MAX_PARAMETERS]
}

/// The marks of a parameter, by its index, which stands under a complement or not.
fn marked(under: bool, index: usize) -> [bool; MAX_PARAMETERS]
    ensures { (other : ℕ) → other < 8 → get_or result other false ≡ (under && nat_eq index other) }
{
    let mut marks = unmarked();
    if under && index < MAX_PARAMETERS {
        marks[index] = true;
    }
    marks
}

impl BodyPart {
    /// A part without names, of that kind. Errors: want of memory.
    pub fn nameless(columns: Columns, kind: Kind) -> Result<BodyPart, AllocError>
        ensures { (arity : ℕ) → IfOk result (IsNameless arity columns.rows kind) }
    {
        Ok(BodyPart {
            fault: None,
            under: unmarked(),
            column: constant_column(columns.alloc, columns.rows, kind)?,
        })
    }

    /// A parameter, by its index, which stands under a complement or not. Errors: want of memory.
    pub fn parameter(columns: Columns, under: bool, index: usize) -> Result<BodyPart, AllocError>
        ensures { (ss : List Sense) (names : List Naming) (ps : List (List ℕ)) (x : List ℕ)
            → parameter_of (reverse ps) x ≡ Some index
            → IfOk result (IsBodyPart ss names ps columns.rows under (Atom x)) }
    {
        Ok(BodyPart {
            fault: None,
            under: marked(under, index),
            column: parameter_column(columns.alloc, columns.rows, index)?,
        })
    }

    /// A name without arguments that is no parameter, by what was found. Errors: want of memory.
    pub fn other(columns: Columns, one: Option<Found>) -> Result<BodyPart, AllocError>
        ensures { (ss : List Sense) (names : List Naming) (ps : List (List ℕ)) (under : Bool)
            (x : List ℕ) → parameter_of (reverse ps) x ≡ None → found names x ≡ one
            → IfOk result (IsBodyPart ss names ps columns.rows under (Atom x)) }
    {
        let judged = judged_name(0, false, one);
        Ok(BodyPart {
            fault: judged.fault,
            under: unmarked(),
            column: constant_column(columns.alloc, columns.rows, judged.kind)?,
        })
    }

    /// An application of a name that is no function of so many, which is at fault. Errors: want of
    /// memory.
    pub fn refused(columns: Columns, fault: ModelFault) -> Result<BodyPart, AllocError>
        ensures { (ss : List Sense) (names : List Naming) (ps : List (List ℕ)) (under : Bool)
            (x : List ℕ) (xs : List Expression) → sense_seen ss names ps (length xs) x ≡ None
            → apply_fault (parameter_of (reverse ps) x) (sense_of ss (length xs) (found names x))
            ≡ Some fault
            → IfOk result (IsBodyPart ss names ps columns.rows under
            (Apply x (gathered (map term_of xs)))) }
    {
        Ok(BodyPart {
            fault: Some(fault),
            under: unmarked(),
            column: constant_column(columns.alloc, columns.rows, Kind::OfAny)?,
        })
    }

    /// What an infix operator makes of two parts. Errors: want of memory.
    pub fn infix(
        alloc: Global,
        op: Infix,
        left: BodyPart,
        right: BodyPart,
    ) -> Result<BodyPart, AllocError>
        ensures { (ss : List Sense) (names : List Naming) (ps : List (List ℕ)) (rows : ℕ)
            (under : Bool) (a b : Term) → IsBodyPart ss names ps rows under a left
            → IsBodyPart ss names ps rows (is_turned op under) b right
            → IfOk result (IsBodyPart ss names ps rows under (Join op a b)) }
    {
        Ok(BodyPart {
            fault: or_else(left.fault, right.fault),
            under: either_of_each(left.under, right.under),
            column: infix_column(alloc, op, &left.column, &right.column)?,
        })
    }

    /// What a postfix operator makes of a part. Errors: want of memory.
    pub fn postfix(self, alloc: Global) -> Result<BodyPart, AllocError>
        ensures { (ss : List Sense) (names : List Naming) (ps : List (List ℕ)) (rows : ℕ)
            (under : Bool) (op : Postfix) (a : Term) → IsBodyPart ss names ps rows under a self
            → IfOk result (IsBodyPart ss names ps rows under (Mark op a)) }
    {
        Ok(BodyPart {
            fault: self.fault,
            under: self.under,
            column: postfix_column(alloc, &self.column)?,
        })
    }

    /// The identity on a part. Errors: want of memory.
    pub fn identity(self, alloc: Global) -> Result<BodyPart, AllocError>
        ensures { (ss : List Sense) (names : List Naming) (ps : List (List ℕ)) (rows : ℕ)
            (under : Bool) (a : Term) → IsBodyPart ss names ps rows under a self
            → IfOk result (IsBodyPart ss names ps rows under (On a)) }
    {
        Ok(BodyPart {
            fault: self.fault,
            under: self.under,
            column: identity_column(alloc, &self.column)?,
        })
    }
}

impl BodyArguments {
    /// No argument yet. Errors: want of memory.
    pub fn none(columns: Columns) -> Result<BodyArguments, AllocError>
        ensures { (ss : List Sense) (names : List Naming) (ps : List (List ℕ)) (under : Bool)
            (turned : ℕ → Bool)
            → IfOk result (AreBodyParts ss names ps columns.rows under turned []) }
    {
        Ok(BodyArguments {
            fault: None,
            under: unmarked(),
            known: no_arguments(columns.alloc, columns.rows)?,
        })
    }

    /// With one more argument, which stands at that index. Errors: want of memory.
    pub fn with(
        self,
        alloc: Global,
        index: usize,
        one: BodyPart,
    ) -> Result<BodyArguments, AllocError>
        ensures { (ss : List Sense) (names : List Naming) (ps : List (List ℕ)) (rows : ℕ)
            (under : Bool) (turned : ℕ → Bool) (xs : List Expression) (e : Expression)
            → length xs ≡ index → index < 8
            → IsBodyPart ss names ps rows (under || turned index) (term_of e) one
            → AreBodyParts ss names ps rows under turned xs self
            → IfOk result (AreBodyParts ss names ps rows under turned (xs ++ e ∷ [])) }
    {
        Ok(BodyArguments {
            fault: or_else(self.fault, one.fault),
            under: either_of_each(self.under, one.under),
            known: with_argument(alloc, &self.known, index, &one.column)?,
        })
    }

    /// The application of the function to them. Errors: want of memory.
    pub fn applied(self, alloc: Global, function: &Function) -> Result<BodyPart, AllocError>
        ensures { (ss : List Sense) (names : List Naming) (ps : List (List ℕ)) (rows : ℕ)
            (under : Bool) (x : List ℕ) (xs : List Expression) (s : Sense)
            → HasSense function.now s → length xs ≡ s.arity
            → sense_seen ss names ps (length xs) x ≡ Some s
            → apply_fault (parameter_of (reverse ps) x) (sense_of ss (length xs) (found names x))
            ≡ None → AreBodyParts ss names ps rows under s.is_under xs self
            → IfOk result (IsBodyPart ss names ps rows under
            (Apply x (gathered (map term_of xs)))) }
    {
        Ok(BodyPart {
            fault: self.fault,
            under: self.under,
            column: applied_column(alloc, function, &self.known)?,
        })
    }
}
