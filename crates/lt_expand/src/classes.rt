//! Where an expression depends on what is drawn in the same instant and may not.

ghost use Rattle.std.specs.Prelude.{◌≡◌};
ghost use Rattle.lt_term.specs.Classes.{is_linear, is_number};
ghost use Rattle.lt_expand.specs.inner.Judged.{binary_judged, choice_judged, judged, kinds, unary_judged, unrefused};
ghost use Rattle.lt_macros.specs.Tree.{placed};

use crate::kinds::Kinds;
use crate::statics::unless;
use lt_ast::Span;
use lt_formula::{BinaryOperator, Facts, Role, UnaryOperator};
use lt_macros::Placed;
use lt_num::Kind;

/// What is found out about an expression.
#[derive(Clone, Copy)]
pub(crate) struct Judged {
    /// What is known of it.
    pub(crate) facts: Facts,

    /// The first product or quotient that isn't linear.
    pub(crate) not_linear: Option<Span>,

    /// The first choice between numbers by what is drawn.
    pub(crate) condition: Option<Span>,
}

// What is found out about an expression over variables of these kinds.
#[tactic(auto, using(crate::proofs::Refused::judges))]
pub(crate) fn judge_expression(over: &Kinds, written: &Placed) -> Judged
    ensures { result ≡ judged (kinds over.now) (placed written.now) }
{
    match written {
        Placed::Constant(kind, _, _) => unrefused(Facts::of_constant(*kind)),
        Placed::Variable(role, place, _) => unrefused(Facts {
            kind: over.of_variable(*role, *place),
            is_known: matches!(role, Role::Input),
            is_static: false,
        }),
        Placed::Previous(role, place, _) => unrefused(Facts {
            kind: over.of_variable(*role, *place),
            is_known: true,
            is_static: false,
        }),
        Placed::Unary(operator, part, _) => unary_judged(*operator, judge_expression(over, part)),
        Placed::Binary(operator, left, right, at) => binary_judged(
            *operator,
            judge_expression(over, left),
            judge_expression(over, right),
            *at,
        ),
        Placed::Choice(condition, first, second, at) => choice_judged(
            judge_expression(over, condition),
            judge_expression(over, first),
            judge_expression(over, second),
            *at,
        ),
    }
}

// Where nothing is refused.
#[tactic(auto, unfolding(crate::specs::inner::Judged::unrefused))]
fn unrefused(facts: Facts) -> Judged
    ensures { result ≡ unrefused facts }
{
    Judged {
        facts,
        not_linear: None,
        condition: None,
    }
}

// An operator on one part.
#[tactic(auto, unfolding(crate::specs::inner::Judged::unary_judged))]
fn unary_judged(operator: UnaryOperator, part: Judged) -> Judged
    ensures { result ≡ unary_judged operator part }
{
    Judged {
        facts: Facts::of_unary(operator, part.facts),
        not_linear: part.not_linear,
        condition: part.condition,
    }
}

// An operator on two parts.
#[tactic(auto, unfolding(crate::specs::inner::Judged::binary_judged))]
fn binary_judged(operator: BinaryOperator, left: Judged, right: Judged, at: Span) -> Judged
    ensures { result ≡ binary_judged operator left right at }
{
    let (first, second) = (left.facts, right.facts);
    let linear = is_linear(operator, first.kind, !first.is_known, !second.is_known);
    Judged {
        facts: Facts::of_binary(operator, first, second),
        not_linear: unless(linear, at).or(left.not_linear.or(right.not_linear)),
        condition: left.condition.or(right.condition),
    }
}

// A choice.
#[tactic(auto, unfolding(crate::specs::inner::Judged::choice_judged))]
fn choice_judged(condition: Judged, first: Judged, second: Judged, at: Span) -> Judged
    ensures { result ≡ choice_judged condition first second at }
{
    let known = !(is_number(first.facts.kind) && !condition.facts.is_known);
    let in_parts = first.condition.or(second.condition);
    Judged {
        facts: Facts::of_choice(condition.facts, first.facts, second.facts),
        not_linear: condition
            .not_linear
            .or(first.not_linear.or(second.not_linear)),
        condition: unless(known, at).or(condition.condition.or(in_parts)),
    }
}

// Whether values of a kind are numbers.
fn is_number(kind: Kind) -> bool
    ensures { result ≡ is_number kind }
{
    match kind {
        Kind::Bool => false,
        Kind::Int | Kind::Real => true,
    }
}

// Whether what an operator gives is linear in what is drawn, where the left part has this kind, and the parts depend
// on what is drawn or not.
fn is_linear(operator: BinaryOperator, kind: Kind, left: bool, right: bool) -> bool
    ensures { result ≡ is_linear operator kind left right }
{
    match operator {
        BinaryOperator::Mul => !(left && right),
        BinaryOperator::Div => match kind {
            Kind::Real => !right,
            Kind::Bool | Kind::Int => !(left || right),
        },
        BinaryOperator::Mod => !(left || right),
        _ => true,
    }
}
