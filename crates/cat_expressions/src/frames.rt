//! The open brackets and operators of an expression.

ghost use Rattle.std.specs.Prelude.{◌≡◌, [], ◌∷◌, IfOk};
ghost use Rattle.cat_grammar.specs.Machine.{open_count, is_outermost, fold_to, infix_at};
ghost use Rattle.cat_grammar.specs.Grammar.{infix_level, left_level};
ghost use Rattle.text_values.specs.ModelValues.{term_of};
ghost use Rattle.cat_expressions.specs.Reading.{term_stack_of, takes_operand};
ghost use Rattle.cat_expressions.specs.declared.frames.StepError.TheVariants.{OutOfMemory};

use cat_tokens::CatRule;
use std::alloc::{AllocError, AllocFailed, Global};
use std::mem;
use text_values::{CheckWord, Expression, Infix, Name};

/// Why a step over a token failed.
#[derive(Drop)]
pub enum StepError {
    /// Memory ran out.
    OutOfMemory,
    /// The token breaks a rule.
    Refused(CatRule),
    /// The token before this one breaks a rule, which shows only now.
    RefusedBefore(CatRule),
}

impl From<AllocError> for StepError {
    ghost from_gives = { λ _ e. e ≡ OutOfMemory };

    fn from(_e: AllocError) -> StepError {
        StepError::OutOfMemory
    }
}

impl<T: Drop> From<AllocFailed<T>> for StepError {
    ghost from_gives = { λ _ e. e ≡ OutOfMemory };

    fn from(_e: AllocFailed<T>) -> StepError {
        StepError::OutOfMemory
    }
}

/// What is open to the left of a token.
#[derive(Drop)]
pub enum Frame {
    /// `(`
    Group,
    /// `[`
    Square,
    /// `~`
    Prefix,
    /// An infix operator with its left operand.
    Left(Infix, Expression),
    /// A function with `(` and the arguments before this one.
    Applied(Name, Vec<Expression>),
}

/// What the reader expects next, with what it read last.
#[derive(Drop)]
pub enum Expectation {
    /// An operand.
    Wants,
    /// The `}` behind `{`.
    Brace,
    /// The token behind a name, which is a function if that token is `(`.
    Named(Name),
    /// The token behind an operand.
    Has(Expression),
    /// The token behind an operand and `*`.
    HasStar(Expression),
    /// The token behind an operand, `*` and `~`, outside all brackets.
    HasStarTilde(Expression),
}

/// The result of a step over a token.
#[derive(Clone, Copy)]
pub enum ExpressionStep {
    /// The expression goes on.
    Goes,
    /// The expression ended before this token.
    Ends,
    /// The expression ended before the `~` that stands before this check word.
    EndsTilde(CheckWord),
}

/// The greatest number of brackets and prefixes that are open at once.
pub const MAX_NESTING: usize = 64;

/// The greatest number of infix and postfix operators of an expression.
pub const MAX_OPERATORS: usize = 1024;

// How tightly the operator binds.
fn level(op: Infix) -> usize
    ensures { result ≡ infix_level op }
{
    match op {
        Infix::Union => 1,
        Infix::Sequence => 2,
        Infix::Difference => 3,
        Infix::Intersection => 4,
        Infix::Product => 5,
    }
}

// How tight its left operand must be. `\` alone groups to the left.
fn left_level(op: Infix) -> usize
    ensures { result ≡ left_level op }
{
    match op {
        Infix::Union => 2,
        Infix::Sequence => 3,
        Infix::Difference => 3,
        Infix::Intersection => 5,
        Infix::Product => 6,
    }
}

impl Frame {
    ghost use Rattle.cat_expressions.specs.Reading.{frame_of, is_open, is_square, is_no_bracket};

    // Whether it counts as open.
    fn is_open(&self) -> bool
        ensures { result ≡ is_open self.now }
    {
        match self {
            Frame::Group => true,
            Frame::Square => true,
            Frame::Prefix => true,
            Frame::Applied(_, _) => true,
            Frame::Left(_, _) => false,
        }
    }

    // Whether it is `[`.
    pub(crate) fn is_square(&self) -> bool
        ensures { result ≡ is_square self.now }
    {
        match self {
            Frame::Group => false,
            Frame::Square => true,
            Frame::Prefix => false,
            Frame::Applied(_, _) => false,
            Frame::Left(_, _) => false,
        }
    }

    // Whether it takes an operand that binds at least this tightly.
    fn takes(&self, least: usize) -> bool
        ensures { result ≡ takes_operand least (frame_of self.now ∷ []) }
    {
        match self {
            Frame::Group => false,
            Frame::Square => false,
            Frame::Prefix => true,
            Frame::Applied(_, _) => false,
            Frame::Left(op, _) => least <= level(*op),
        }
    }

    // Whether it is no bracket.
    fn is_no_bracket(&self) -> bool
        ensures { result ≡ is_no_bracket self.now }
    {
        match self {
            Frame::Group => false,
            Frame::Square => false,
            Frame::Prefix => true,
            Frame::Applied(_, _) => false,
            Frame::Left(_, _) => true,
        }
    }
}

// Whether the innermost frame takes an operand that binds at least this tightly.
fn takes(frames: &[Frame], least: usize) -> bool
    ensures { result ≡ takes_operand least (term_stack_of frames.now) }
{
    match frames.last() {
        Some(frame) => frame.takes(least),
        None => false,
    }
}

/// Joins the operand with the open operators to its left that bind at least this tightly. Errors:
/// out of memory.
pub fn join(
    alloc: Global,
    least: usize,
    frames: &mut Vec<Frame>,
    operand: &mut Expression,
) -> Result<(), AllocError>
    ensures { IfOk result (λ _. fold_to least (term_stack_of frames.old.items) (term_of operand.old)
        ≡ (term_stack_of frames.new.items, term_of operand.new)) }
{
    while takes(frames, least) {
        let right = mem::replace(operand, Expression::Everything);
        match frames.pop() {
            Some(Frame::Prefix) => *operand = Expression::Complement(Box::new(alloc, right)?),
            Some(Frame::Left(op, left)) => {
                let left = Box::new(alloc, left)?;
                *operand = Expression::Joined(op, left, Box::new(alloc, right)?);
            }
            Some(Frame::Group) => unreachable!(),
            Some(Frame::Square) => unreachable!(),
            Some(Frame::Applied(_, _)) => unreachable!(),
            None => unreachable!(),
        }
    }
    Ok(())
}

/// How many brackets and prefixes are open.
pub fn open_frames(frames: &[Frame]) -> usize
    ensures { result ≡ open_count (term_stack_of frames.now) }
{
    frames.iter().filter(|f| f.is_open()).count()
}

/// Whether no bracket is open.
pub fn are_outermost(frames: &[Frame]) -> bool
    ensures { result ≡ is_outermost (term_stack_of frames.now) }
{
    for f in frames {
        if !f.is_no_bracket() {
            return false;
        }
    }
    true
}

/// Opens an infix operator whose left operand was read. Errors: out of memory.
pub fn open_infix(
    alloc: Global,
    frames: &mut Vec<Frame>,
    op: Infix,
    left: Expression,
) -> Result<(), AllocError>
    ensures { IfOk result (λ _. term_stack_of frames.new.items
        ≡ infix_at op (term_stack_of frames.old.items) (term_of left)) }
{
    let mut left = left;
    join(alloc, left_level(op), frames, &mut left)?;
    frames.push(Frame::Left(op, left))?;
    Ok(())
}
