//! Reads an expression, token by token.

use crate::frames::{
    Expectation, ExpressionStep, Frame, MAX_NESTING, MAX_OPERATORS, StepError, are_outermost, join,
    open_frames, open_infix,
};
use cat_tokens::{CatRule, Mark, Sign, Token};
use std::alloc::Global;
use std::mem;
use text_values::{Expression, Infix, Name, Postfix};

/// An expression that is read in part: what is open, how many operators it has so far, and what is
/// expected.
#[derive(Drop)]
pub struct OpenExpression {
    // The innermost last.
    frames: Vec<Frame>,
    operators: usize,
    expected: Expectation,
}

impl OpenExpression {
    ghost use Rattle.std.specs.Prelude.{◌≡◌, ◌+◌, []};
    ghost use Rattle.cat_grammar.specs.Machine.{InArguments, Goes, Ends, fold_to, operand, term_opened, after_brace, term_ended, term_closed, square_closed, comma_read, operand_after, after_name, after_star, after_star_tilde, expression_step};
    ghost use Rattle.cat_grammar.specs.Grammar.{model_limits};
    ghost use Rattle.text_values.specs.ModelValues.{term_of};
    ghost use Rattle.cat_expressions.specs.Reading.{frame_of, term_stack_of, term_expectation_of};
    ghost use Rattle.cat_expressions.specs.OpenReading.{IsOpenStart, StepsExpression, whole_of};
    ghost use Rattle.cat_tokens.specs.declared.token.Token.{Token};
    ghost use Rattle.cat_tokens.specs.declared.token.Token.TheVariants.{Close, CloseSquare, Comma};
    ghost use Rattle.cat_tokens.specs.declared.token.Token.TheVariants as tokens;

    /// An expression of which nothing is read.
    pub fn new(alloc: Global) -> OpenExpression
        ensures { IsOpenStart result }
    {
        OpenExpression {
            frames: Vec::new(alloc),
            operators: 0,
            expected: Expectation::Wants,
        }
    }

    /// Begins another expression.
    pub fn restart(&mut self)
        ensures { IsOpenStart self.new }
    {
        self.frames.clear();
        self.operators = 0;
        self.expect(Expectation::Wants);
    }

    /// Takes the expression out that has ended.
    pub fn take_whole(&mut self) -> Expression
        ensures { term_of result ≡ whole_of self.old.expected }
    {
        match mem::replace(&mut self.expected, Expectation::Wants) {
            Expectation::Has(whole) => whole,
            _ => Expression::Everything,
        }
    }

    /// The step over a token of an expression. A `*` is decided by the token behind it; where that
    /// is `~`, outside all brackets, by the token behind the `~`. Errors: out of memory, or the
    /// rule that this token breaks; the expression is then to be dropped.
    pub fn step(&mut self, alloc: Global, token: &Token) -> Result<ExpressionStep, StepError>
        ensures { StepsExpression token.now result self.new (expression_step model_limits
            (term_stack_of self.old.frames.items) self.old.operators
            (term_expectation_of self.old.expected) token.now) }
    {
        match self.expected {
            Expectation::Wants => self.operand(alloc, token),
            _ => self.expected_read(alloc, token),
        }
    }

    // A token that may be what is expected.
    fn expected_read(&mut self, alloc: Global, token: &Token) -> Result<ExpressionStep, StepError>
        ensures { StepsExpression token.now result self.new (expression_step model_limits
            (term_stack_of self.old.frames.items) self.old.operators
            (term_expectation_of self.old.expected) token.now) }
    {
        match mem::replace(&mut self.expected, Expectation::Wants) {
            Expectation::Wants => self.operand(alloc, token),
            Expectation::Brace => self.after_brace(token),
            Expectation::Named(name) => self.after_name(alloc, name, token),
            Expectation::Has(left) => self.after(alloc, left, token),
            Expectation::HasStar(left) => self.after_star(alloc, left, token),
            Expectation::HasStarTilde(left) => self.after_star_tilde(alloc, left, token),
        }
    }

    // This is expected next.
    #[inline(always)]
    fn expect(&mut self, expected: Expectation)
        ensures frames { self.new.frames ≡ self.old.frames }
        ensures operators { self.new.operators ≡ self.old.operators }
        ensures expected { self.new.expected ≡ expected }
    {
        self.expected = expected;
    }

    // The expression goes on with what is expected next.
    #[inline(always)]
    fn goes(&mut self, expected: Expectation) -> Result<ExpressionStep, StepError>
        ensures { (t : Token) → StepsExpression t result self.new
            (Goes (term_stack_of self.old.frames.items) self.old.operators
            (term_expectation_of expected)) }
    {
        self.expect(expected);
        Ok(ExpressionStep::Goes)
    }

    // The expression has ended.
    fn ends(&mut self, whole: Expression) -> Result<ExpressionStep, StepError>
        ensures { (t : Token) → StepsExpression t result self.new (Ends (term_of whole)) }
    {
        self.expect(Expectation::Has(whole));
        Ok(ExpressionStep::Ends)
    }

    // A token where an operand is wanted.
    fn operand(&mut self, alloc: Global, token: &Token) -> Result<ExpressionStep, StepError>
        ensures { StepsExpression token.now result self.new (operand model_limits
            (term_stack_of self.old.frames.items)
            self.old.operators token.now) }
    {
        match token {
            Token::Name(name) => {
                let name = name.copied(alloc)?;
                self.goes(Expectation::Named(name))
            }
            Token::Underscore => self.goes(Expectation::Has(Expression::Everything)),
            Token::Zero => self.goes(Expectation::Has(Expression::NoPairs)),
            Token::OpenBrace => self.goes(Expectation::Brace),
            Token::Tilde => self.opened(Frame::Prefix),
            Token::Open => self.opened(Frame::Group),
            Token::OpenSquare => self.opened(Frame::Square),
            other => Err(StepError::Refused(other.rule())),
        }
    }

    // Opens a bracket or a prefix.
    fn opened(&mut self, frame: Frame) -> Result<ExpressionStep, StepError>
        ensures { (t : Token) → StepsExpression t result self.new
            (term_opened model_limits (term_stack_of self.old.frames.items) self.old.operators
            (frame_of frame)) }
    {
        if open_frames(&self.frames) >= MAX_NESTING {
            return Err(StepError::Refused(CatRule::TooDeep));
        }
        self.frames.push(frame)?;
        self.goes(Expectation::Wants)
    }

    // A token after `{`.
    fn after_brace(&mut self, token: &Token) -> Result<ExpressionStep, StepError>
        ensures { StepsExpression token.now result self.new (after_brace
            (term_stack_of self.old.frames.items)
            self.old.operators token.now) }
    {
        match token {
            Token::CloseBrace => self.goes(Expectation::Has(Expression::NoEvents)),
            other => Err(StepError::Refused(other.rule())),
        }
    }

    // A `)` after an operand.
    fn closed(&mut self, alloc: Global, operand: Expression) -> Result<ExpressionStep, StepError>
        ensures { StepsExpression Close result self.new (term_closed self.old.operators
            (fold_to 0 (term_stack_of self.old.frames.items) (term_of operand))) }
    {
        let mut operand = operand;
        join(alloc, 0, &mut self.frames, &mut operand)?;
        match self.frames.pop() {
            None => self.ends(operand),
            Some(Frame::Group) => self.goes(Expectation::Has(operand)),
            Some(Frame::Applied(name, arguments)) => {
                let mut arguments = arguments;
                arguments.push(operand)?;
                self.goes(Expectation::Has(Expression::Applied(name, arguments)))
            }
            Some(Frame::Square) => Err(StepError::Refused(CatRule::Syntax)),
            Some(Frame::Prefix) => Err(StepError::Refused(CatRule::Syntax)),
            Some(Frame::Left(_, _)) => Err(StepError::Refused(CatRule::Syntax)),
        }
    }

    // A `]` after an operand.
    fn square_closed(
        &mut self,
        alloc: Global,
        operand: Expression,
    ) -> Result<ExpressionStep, StepError>
        ensures { StepsExpression CloseSquare result self.new (square_closed self.old.operators
            (fold_to 0 (term_stack_of self.old.frames.items) (term_of operand))) }
    {
        let mut operand = operand;
        join(alloc, 0, &mut self.frames, &mut operand)?;
        let Some(frame) = self.frames.pop() else {
            return self.ends(operand);
        };
        if !frame.is_square() {
            return Err(StepError::Refused(CatRule::Syntax));
        }
        let identity = Expression::Identity(Box::new(alloc, operand)?);
        self.goes(Expectation::Has(identity))
    }

    // A `,` after an operand.
    fn comma_read(
        &mut self,
        alloc: Global,
        operand: Expression,
    ) -> Result<ExpressionStep, StepError>
        ensures { StepsExpression Comma result self.new (comma_read self.old.operators
            (fold_to 0 (term_stack_of self.old.frames.items) (term_of operand))) }
    {
        let mut operand = operand;
        join(alloc, 0, &mut self.frames, &mut operand)?;
        match self.frames.pop() {
            None => self.ends(operand),
            Some(Frame::Applied(name, arguments)) => {
                let mut arguments = arguments;
                arguments.push(operand)?;
                self.frames.push(Frame::Applied(name, arguments))?;
                self.goes(Expectation::Wants)
            }
            Some(Frame::Group) => Err(StepError::Refused(CatRule::Syntax)),
            Some(Frame::Square) => Err(StepError::Refused(CatRule::Syntax)),
            Some(Frame::Prefix) => Err(StepError::Refused(CatRule::Syntax)),
            Some(Frame::Left(_, _)) => Err(StepError::Refused(CatRule::Syntax)),
        }
    }

    // A token that cannot go on after an operand.
    fn ended(
        &mut self,
        alloc: Global,
        operand: Expression,
        token: &Token,
    ) -> Result<ExpressionStep, StepError>
        ensures { StepsExpression token.now result self.new (term_ended token.now (fold_to 0
            (term_stack_of self.old.frames.items) (term_of operand))) }
    {
        let mut operand = operand;
        join(alloc, 0, &mut self.frames, &mut operand)?;
        match self.frames.pop() {
            None => self.ends(operand),
            Some(_) => Err(StepError::Refused(token.rule())),
        }
    }

    // An infix sign after an operand.
    fn sign_read(
        &mut self,
        alloc: Global,
        operand: Expression,
        sign: Sign,
    ) -> Result<ExpressionStep, StepError>
        ensures { StepsExpression (tokens.Sign sign) result self.new (operand_after model_limits
            (term_stack_of self.old.frames.items) self.old.operators (term_of operand)
            (tokens.Sign sign)) }
    {
        if self.operators >= MAX_OPERATORS {
            return Err(StepError::Refused(CatRule::TooDeep));
        }
        open_infix(alloc, &mut self.frames, sign.infix(), operand)?;
        self.operators += 1;
        self.goes(Expectation::Wants)
    }

    // A postfix sign after an operand.
    fn mark_read(
        &mut self,
        alloc: Global,
        operand: Expression,
        mark: Mark,
    ) -> Result<ExpressionStep, StepError>
        ensures { StepsExpression (tokens.Mark mark) result self.new (operand_after model_limits
            (term_stack_of self.old.frames.items) self.old.operators (term_of operand)
            (tokens.Mark mark)) }
    {
        if self.operators >= MAX_OPERATORS {
            return Err(StepError::Refused(CatRule::TooDeep));
        }
        let marked = Expression::Marked(mark.postfix(), Box::new(alloc, operand)?);
        self.operators += 1;
        self.goes(Expectation::Has(marked))
    }

    // A star after an operand.
    fn star_read(&mut self, operand: Expression) -> Result<ExpressionStep, StepError>
        ensures { StepsExpression tokens.Star result self.new (operand_after model_limits
            (term_stack_of self.old.frames.items)
            self.old.operators (term_of operand) tokens.Star) }
    {
        if self.operators >= MAX_OPERATORS {
            return Err(StepError::Refused(CatRule::TooDeep));
        }
        self.operators += 1;
        self.goes(Expectation::HasStar(operand))
    }

    // A token after an operand.
    fn after(
        &mut self,
        alloc: Global,
        operand: Expression,
        token: &Token,
    ) -> Result<ExpressionStep, StepError>
        ensures { StepsExpression token.now result self.new (operand_after model_limits
            (term_stack_of self.old.frames.items)
            self.old.operators (term_of operand) token.now) }
    {
        match token {
            Token::Sign(sign) => self.sign_read(alloc, operand, *sign),
            Token::Mark(mark) => self.mark_read(alloc, operand, *mark),
            Token::Star => self.star_read(operand),
            Token::Close => self.closed(alloc, operand),
            Token::CloseSquare => self.square_closed(alloc, operand),
            Token::Comma => self.comma_read(alloc, operand),
            other => self.ended(alloc, operand, other),
        }
    }

    // The `(` after a function.
    fn applied(&mut self, alloc: Global, name: Name) -> Result<ExpressionStep, StepError>
        ensures { (t : Token)
            → StepsExpression t result self.new (term_opened model_limits
            (term_stack_of self.old.frames.items)
            self.old.operators (InArguments name [])) }
    {
        self.opened(Frame::Applied(name, Vec::new(alloc)))
    }

    // A token after a name.
    fn after_name(
        &mut self,
        alloc: Global,
        name: Name,
        token: &Token,
    ) -> Result<ExpressionStep, StepError>
        ensures { StepsExpression token.now result self.new
            (after_name model_limits (term_stack_of self.old.frames.items) self.old.operators name
            token.now) }
    {
        match token {
            Token::Open => self.applied(alloc, name),
            other => self.after(alloc, Expression::Named(name), other),
        }
    }

    // A token after an operand and a star, which is infix where an operand follows.
    fn after_star(
        &mut self,
        alloc: Global,
        left: Expression,
        token: &Token,
    ) -> Result<ExpressionStep, StepError>
        ensures { StepsExpression token.now result self.new (after_star model_limits
            (term_stack_of self.old.frames.items) self.old.operators (term_of left) token.now) }
    {
        match token {
            Token::Tilde => {
                if are_outermost(&self.frames) {
                    return self.goes(Expectation::HasStarTilde(left));
                }
                open_infix(alloc, &mut self.frames, Infix::Product, left)?;
                self.operand(alloc, token)
            }
            other => {
                if other.begins_operand() {
                    open_infix(alloc, &mut self.frames, Infix::Product, left)?;
                    return self.operand(alloc, other);
                }
                let closure = Expression::Marked(Postfix::Closure, Box::new(alloc, left)?);
                self.after(alloc, closure, other)
            }
        }
    }

    // A token after an operand, a star and a tilde, outside all brackets.
    fn after_star_tilde(
        &mut self,
        alloc: Global,
        left: Expression,
        token: &Token,
    ) -> Result<ExpressionStep, StepError>
        ensures { StepsExpression token.now result self.new (after_star_tilde model_limits
            (term_stack_of self.old.frames.items) self.old.operators (term_of left) token.now) }
    {
        match token {
            Token::Check(word) => {
                let mut closure = Expression::Marked(Postfix::Closure, Box::new(alloc, left)?);
                join(alloc, 0, &mut self.frames, &mut closure)?;
                self.expected = Expectation::Has(closure);
                Ok(ExpressionStep::EndsTilde(*word))
            }
            other => {
                open_infix(alloc, &mut self.frames, Infix::Product, left)?;
                self.frames.push(Frame::Prefix)?;
                self.operand(alloc, other)
            }
        }
    }
}
