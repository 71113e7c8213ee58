//! When two parts of models are the same.

ghost use Rattle.std.specs.Prelude.{◌≡◌, ◌↔◌, IsTrue, map, MatchOption, Option};
ghost use Rattle.text_values.specs.ModelValue.{Atom, AllEvents, EmptyRelation, EmptySet, Join, Mark, Not, On, Apply, gathered, Function, Checking, Flagging, Showing, Including};
ghost use Rattle.text_values.specs.ModelValue as value;
ghost use Rattle.text_values.specs.ModelValues.{term_of, binding_of, shown_term, check_of, clause_of, clauses_of};
ghost use Rattle.text_values.specs.Parts.{IsNoJoin, IsNoMark, IsNoComplement, IsNoIdentity, IsNoApplication};

use crate::model::{Binding, Check, Expression, Infix, Item, ModelText, Postfix, ShownExpression};
use crate::name::Name;

// Whether an expression is this name.
fn is_named(expression: &Expression, name: &Name) -> bool
    ensures { IsTrue result ↔ (Atom name.now ≡ term_of expression.now) }
{
    match expression {
        Expression::Named(other) => name.is_same(other),
        Expression::Everything => false,
        Expression::NoPairs => false,
        Expression::NoEvents => false,
        Expression::Joined(_, _, _) => false,
        Expression::Marked(_, _) => false,
        Expression::Complement(_) => false,
        Expression::Identity(_) => false,
        Expression::Applied(_, _) => false,
    }
}

fn is_everything(expression: &Expression) -> bool
    ensures { IsTrue result ↔ (AllEvents ≡ term_of expression.now) }
{
    match expression {
        Expression::Everything => true,
        Expression::Named(_) => false,
        Expression::NoPairs => false,
        Expression::NoEvents => false,
        Expression::Joined(_, _, _) => false,
        Expression::Marked(_, _) => false,
        Expression::Complement(_) => false,
        Expression::Identity(_) => false,
        Expression::Applied(_, _) => false,
    }
}

fn is_no_pairs(expression: &Expression) -> bool
    ensures { IsTrue result ↔ (EmptyRelation ≡ term_of expression.now) }
{
    match expression {
        Expression::NoPairs => true,
        Expression::Named(_) => false,
        Expression::Everything => false,
        Expression::NoEvents => false,
        Expression::Joined(_, _, _) => false,
        Expression::Marked(_, _) => false,
        Expression::Complement(_) => false,
        Expression::Identity(_) => false,
        Expression::Applied(_, _) => false,
    }
}

fn is_no_events(expression: &Expression) -> bool
    ensures { IsTrue result ↔ (EmptySet ≡ term_of expression.now) }
{
    match expression {
        Expression::NoEvents => true,
        Expression::Named(_) => false,
        Expression::Everything => false,
        Expression::NoPairs => false,
        Expression::Joined(_, _, _) => false,
        Expression::Marked(_, _) => false,
        Expression::Complement(_) => false,
        Expression::Identity(_) => false,
        Expression::Applied(_, _) => false,
    }
}

// The operator of an infix expression, and its operands.
fn joined_parts(expression: &Expression) -> Option<(Infix, &Expression, &Expression)>
    ensures { MatchOption result (IsNoJoin (term_of expression.now)) (λ p. term_of expression.now
        ≡ Join p.0 (term_of p.1.now) (term_of p.2.now)) }
{
    match expression {
        Expression::Joined(op, left, right) => Some((*op, left, right)),
        Expression::Named(_) => None,
        Expression::Everything => None,
        Expression::NoPairs => None,
        Expression::NoEvents => None,
        Expression::Marked(_, _) => None,
        Expression::Complement(_) => None,
        Expression::Identity(_) => None,
        Expression::Applied(_, _) => None,
    }
}

// The operator of a postfix expression, and its operand.
fn marked_parts(expression: &Expression) -> Option<(Postfix, &Expression)>
    ensures { MatchOption result (IsNoMark (term_of expression.now))
        (λ p. term_of expression.now ≡ Mark p.0 (term_of p.1.now)) }
{
    match expression {
        Expression::Marked(op, operand) => Some((*op, operand)),
        Expression::Named(_) => None,
        Expression::Everything => None,
        Expression::NoPairs => None,
        Expression::NoEvents => None,
        Expression::Joined(_, _, _) => None,
        Expression::Complement(_) => None,
        Expression::Identity(_) => None,
        Expression::Applied(_, _) => None,
    }
}

// The operand of `~`.
fn complemented(expression: &Expression) -> Option<&Expression>
    ensures { MatchOption result (IsNoComplement (term_of expression.now))
        (λ e. term_of expression.now ≡ Not (term_of e.now)) }
{
    match expression {
        Expression::Complement(operand) => Some(operand),
        Expression::Named(_) => None,
        Expression::Everything => None,
        Expression::NoPairs => None,
        Expression::NoEvents => None,
        Expression::Joined(_, _, _) => None,
        Expression::Marked(_, _) => None,
        Expression::Identity(_) => None,
        Expression::Applied(_, _) => None,
    }
}

// The set of an identity.
fn identity_set(expression: &Expression) -> Option<&Expression>
    ensures { MatchOption result (IsNoIdentity (term_of expression.now))
        (λ e. term_of expression.now ≡ On (term_of e.now)) }
{
    match expression {
        Expression::Identity(set) => Some(set),
        Expression::Named(_) => None,
        Expression::Everything => None,
        Expression::NoPairs => None,
        Expression::NoEvents => None,
        Expression::Joined(_, _, _) => None,
        Expression::Marked(_, _) => None,
        Expression::Complement(_) => None,
        Expression::Applied(_, _) => None,
    }
}

// A function that is applied, and its arguments.
fn applied_parts(expression: &Expression) -> Option<(&Name, &[Expression])>
    ensures { MatchOption result (IsNoApplication (term_of expression.now))
        (λ p. term_of expression.now ≡ Apply p.0.now (gathered (map term_of p.1.now))) }
{
    match expression {
        Expression::Applied(name, arguments) => Some((name, arguments.as_slice())),
        Expression::Named(_) => None,
        Expression::Everything => None,
        Expression::NoPairs => None,
        Expression::NoEvents => None,
        Expression::Joined(_, _, _) => None,
        Expression::Marked(_, _) => None,
        Expression::Complement(_) => None,
        Expression::Identity(_) => None,
    }
}

#[cycle(same)]
fn are_same(these: &[Expression], those: &[Expression]) -> bool
    ensures { IsTrue result ↔ (map term_of these.now ≡ map term_of those.now) }
{
    if these.len() != those.len() {
        return false;
    }
    for (this, that) in these.iter().zip(those.iter()) {
        if !this.is_same(that) {
            return false;
        }
    }
    true
}

impl Expression {
    /// Whether both are the same, wherever they lie in memory. It goes as deep as this one does.
    #[cycle(same)]
    pub fn is_same(&self, other: &Expression) -> bool
        ensures { IsTrue result ↔ (term_of self.now ≡ term_of other.now) }
    {
        match self {
            Expression::Named(name) => is_named(other, name),
            Expression::Everything => is_everything(other),
            Expression::NoPairs => is_no_pairs(other),
            Expression::NoEvents => is_no_events(other),
            Expression::Joined(op, left, right) => match joined_parts(other) {
                Some((other_op, l, r)) => *op == other_op && left.is_same(l) && right.is_same(r),
                None => false,
            },
            Expression::Marked(op, operand) => match marked_parts(other) {
                Some((other_op, o)) => *op == other_op && operand.is_same(o),
                None => false,
            },
            Expression::Complement(operand) => match complemented(other) {
                Some(o) => operand.is_same(o),
                None => false,
            },
            Expression::Identity(set) => match identity_set(other) {
                Some(s) => set.is_same(s),
                None => false,
            },
            Expression::Applied(name, arguments) => match applied_parts(other) {
                Some((n, others)) => name.is_same(n) && are_same(arguments, others),
                None => false,
            },
        }
    }
}

/// Whether the names are the same, in order.
pub fn are_same_names(these: &[Name], those: &[Name]) -> bool
    ensures { IsTrue result ↔ (these.now ≡ those.now) }
{
    if these.len() != those.len() {
        return false;
    }
    for (this, that) in these.iter().zip(those.iter()) {
        if !this.is_same(that) {
            return false;
        }
    }
    true
}

/// Whether two labels are one: both are absent, or both have one name.
pub fn is_same_label(this: &Option<Name>, that: &Option<Name>) -> bool
    ensures { IsTrue result ↔ (this.now ≡ that.now) }
{
    match this {
        Some(name) => match that {
            Some(other) => name.is_same(other),
            None => false,
        },
        None => match that {
            Some(_) => false,
            None => true,
        },
    }
}

impl Check {
    fn is_same(&self, other: &Check) -> bool
        ensures { IsTrue result ↔ (check_of self.now ≡ check_of other.now) }
    {
        self.negated == other.negated && self.word == other.word && self.body.is_same(&other.body)
    }
}

impl Binding {
    fn is_same(&self, other: &Binding) -> bool
        ensures { IsTrue result ↔ (binding_of self.now ≡ binding_of other.now) }
    {
        self.name.is_same(&other.name) && self.body.is_same(&other.body)
    }
}

impl ShownExpression {
    fn is_same(&self, other: &ShownExpression) -> bool
        ensures { IsTrue result ↔ (shown_term self.now ≡ shown_term other.now) }
    {
        self.body.is_same(&other.body) && is_same_label(&self.label, &other.label)
    }
}

fn are_same_bindings(these: &[Binding], those: &[Binding]) -> bool
    ensures { IsTrue result ↔ (map binding_of these.now ≡ map binding_of those.now) }
{
    if these.len() != those.len() {
        return false;
    }
    for (this, that) in these.iter().zip(those.iter()) {
        if !this.is_same(that) {
            return false;
        }
    }
    true
}

fn are_same_shown(these: &[ShownExpression], those: &[ShownExpression]) -> bool
    ensures { IsTrue result ↔ (map shown_term these.now ≡ map shown_term those.now) }
{
    if these.len() != those.len() {
        return false;
    }
    for (this, that) in these.iter().zip(those.iter()) {
        if !this.is_same(that) {
            return false;
        }
    }
    true
}

fn is_let(item: &Item, recursive: bool, group: &[Binding]) -> bool
    ensures { IsTrue result
        ↔ (value.Binding recursive (map binding_of group.now) ≡ clause_of item.now) }
{
    match item {
        Item::Let {
            recursive: other,
            group: others,
        } => recursive == *other && are_same_bindings(group, others),
        Item::Function { .. } => false,
        Item::Check { .. } => false,
        Item::Flag { .. } => false,
        Item::Show { .. } => false,
        Item::Include(_) => false,
    }
}

fn is_function(item: &Item, name: &Name, parameters: &[Name], body: &Expression) -> bool
    ensures { IsTrue result
        ↔ (Function name.now parameters.now (term_of body.now) ≡ clause_of item.now) }
{
    match item {
        Item::Function {
            name: other,
            parameters: others,
            body: other_body,
        } => {
            name.is_same(other) && are_same_names(parameters, others) && body.is_same(other_body)
        }
        Item::Let { .. } => false,
        Item::Check { .. } => false,
        Item::Flag { .. } => false,
        Item::Show { .. } => false,
        Item::Include(_) => false,
    }
}

fn is_check(item: &Item, check: &Check, label: &Option<Name>) -> bool
    ensures { IsTrue result ↔ (Checking (check_of check.now) label.now ≡ clause_of item.now) }
{
    match item {
        Item::Check {
            check: other,
            label: other_label,
        } => check.is_same(other) && is_same_label(label, other_label),
        Item::Let { .. } => false,
        Item::Function { .. } => false,
        Item::Flag { .. } => false,
        Item::Show { .. } => false,
        Item::Include(_) => false,
    }
}

fn is_flag(item: &Item, check: &Check, label: &Name) -> bool
    ensures { IsTrue result ↔ (Flagging (check_of check.now) label.now ≡ clause_of item.now) }
{
    match item {
        Item::Flag {
            check: other,
            label: other_label,
        } => check.is_same(other) && label.is_same(other_label),
        Item::Let { .. } => false,
        Item::Function { .. } => false,
        Item::Check { .. } => false,
        Item::Show { .. } => false,
        Item::Include(_) => false,
    }
}

fn is_show(item: &Item, hidden: bool, shown: &[ShownExpression]) -> bool
    ensures { IsTrue result ↔ (Showing hidden (map shown_term shown.now) ≡ clause_of item.now) }
{
    match item {
        Item::Show {
            hidden: other,
            shown: others,
        } => hidden == *other && are_same_shown(shown, others),
        Item::Let { .. } => false,
        Item::Function { .. } => false,
        Item::Check { .. } => false,
        Item::Flag { .. } => false,
        Item::Include(_) => false,
    }
}

fn is_include(item: &Item, path: &Name) -> bool
    ensures { IsTrue result ↔ (Including path.now ≡ clause_of item.now) }
{
    match item {
        Item::Include(other) => path.is_same(other),
        Item::Let { .. } => false,
        Item::Function { .. } => false,
        Item::Check { .. } => false,
        Item::Flag { .. } => false,
        Item::Show { .. } => false,
    }
}

impl Item {
    /// Whether both items are the same: they are exactly where two texts that mean them mean the
    /// same item.
    pub fn is_same(&self, other: &Item) -> bool
        ensures { IsTrue result ↔ (clause_of self.now ≡ clause_of other.now) }
    {
        match self {
            Item::Let { recursive, group } => is_let(other, *recursive, group),
            Item::Function {
                name,
                parameters,
                body,
            } => is_function(other, name, parameters, body),
            Item::Check { check, label } => is_check(other, check, label),
            Item::Flag { check, label } => is_flag(other, check, label),
            Item::Show { hidden, shown } => is_show(other, *hidden, shown),
            Item::Include(path) => is_include(other, path),
        }
    }
}

impl ModelText {
    /// Whether both models have the same items in the same order.
    pub fn is_same(&self, other: &ModelText) -> bool
        ensures { IsTrue result
            ↔ (clauses_of self.now.items.items ≡ clauses_of other.now.items.items) }
    {
        if self.items.len() != other.items.len() {
            return false;
        }
        for (this, that) in self.items.iter().zip(other.items.iter()) {
            if !this.is_same(that) {
                return false;
            }
        }
        true
    }
}
