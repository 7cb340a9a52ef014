//! The first places of a node that are refused, of each kind.

ghost use Rattle.std.specs.Prelude.{◌≡◌, ◌≤◌, [], ◌∷◌, map, not, option_map, option_to_list};
ghost use Rattle.std.specs.List.{flat_map};
ghost use Rattle.lt_formula.specs.Kinds.{Kinds as KindsOfVariables};
ghost use Rattle.lt_num.specs.Bounds.{most_decimals};
ghost use Rattle.lt_expand.specs.Classes.{controllable_arguments, failing, is_controllable, kinds_of};
ghost use Rattle.lt_macros.specs.Preorder.{in_bounds, items, term as a_term};
ghost use Rattle.lt_expand.specs.Static.{bad_bounds};
ghost use Rattle.lt_expand.specs.inner.Items.{item, items_view};
ghost use Rattle.lt_expand.specs.inner.Judged.{kinds};
ghost use Rattle.lt_expand.specs.inner.Places.{call_places, declared_places, item_places, no_places, node_places, or_places, places_of};
ghost use Rattle.lt_expand.specs.inner.Firsts.{first};
ghost use Rattle.lt_macros.specs.Tree.{bounds as bounds_view, call as call_view, declared, expanded, node, placed};

use crate::classes::judge_expression;
use crate::items::Item;
use crate::kinds::Kinds;
use crate::statics::{bad_bounds, bad_first, unless};
use lt_ast::Span;
use lt_macros::{Bounds, Call, Declared, Expanded, Node, Placed};

/// The first places of a node that are refused, of each kind.
#[derive(Clone, Copy)]
pub(crate) struct FirstPlaces {
    /// A bound or a first value that may not stand there.
    pub(crate) bad_static: Option<Span>,

    /// A product or a quotient that isn't linear.
    pub(crate) not_linear: Option<Span>,

    /// A choice between numbers by what is drawn.
    pub(crate) condition: Option<Span>,

    /// A weight that depends on what is drawn.
    pub(crate) weight: Option<Span>,
}

impl FirstPlaces {
    // None.
    fn none() -> FirstPlaces
        ensures { result ≡ no_places }
    {
        FirstPlaces {
            bad_static: None,
            not_linear: None,
            condition: None,
            weight: None,
        }
    }

    // These, or else those.
    #[tactic(auto, unfolding(crate::specs::inner::Places::or_places))]
    fn or(self, other: FirstPlaces) -> FirstPlaces
        ensures { result ≡ or_places self other }
    {
        FirstPlaces {
            bad_static: self.bad_static.or(other.bad_static),
            not_linear: self.not_linear.or(other.not_linear),
            condition: self.condition.or(other.condition),
            weight: self.weight.or(other.weight),
        }
    }
}

// Those of a node over variables of these kinds, the parts of whose trace these are.
pub(crate) fn node_places(
    over: &Kinds,
    from: &Node,
    parts: &[Item<'_>],
    decimals: u32,
) -> FirstPlaces
    requires few { decimals ≤ most_decimals }
    requires kinds { kinds over.now ≡ kinds_of (node from.now) }
    requires parts { items_view parts.now ≡ items (expanded from.now.body) }
    ensures { result ≡ node_places decimals (node from.now) }
{
    let inputs = declared_places(over, &from.inputs, decimals);
    let outputs = declared_places(over, &from.outputs, decimals);
    let calls = calls_places(over, &from.calls, decimals);
    inputs.or(outputs.or(calls.or(item_places(over, parts, decimals))))
}

// Those of runs.
#[tactic(auto, using(crate::proofs::Refused::places))]
fn calls_places(over: &Kinds, calls: &[Call], decimals: u32) -> FirstPlaces
    requires { decimals ≤ most_decimals }
    ensures { result ≡ call_places decimals (kinds over.now)
        (flat_map (λ c. c.names) (map call_view calls.now))
        (flat_map (λ c. c.arguments) (map call_view calls.now)) }
{
    let mut places = FirstPlaces::none();
    for call in calls {
        places = places.or(one_call_places(over, call, decimals));
    }
    places
}

// Those of a run.
#[tactic(auto, using(crate::proofs::Refused::places))]
fn one_call_places(over: &Kinds, call: &Call, decimals: u32) -> FirstPlaces
    requires { decimals ≤ most_decimals }
    ensures { result ≡ call_places decimals (kinds over.now) (call_view call.now).names
        (call_view call.now).arguments }
{
    let mut places = FirstPlaces::none();
    for given in &call.names {
        places = places.or(given_places(given, decimals));
    }
    for argument in &call.arguments {
        places = places.or(expression_places(over, argument));
    }
    places
}

// That of the first value of an input that a run gives. Its parts are judged in the node that is run.
fn given_places(given: &Declared, decimals: u32) -> FirstPlaces
    requires { decimals ≤ most_decimals }
    ensures { (over : KindsOfVariables) →
        result ≡ call_places decimals over (declared given.now ∷ []) [] }
{
    FirstPlaces {
        bad_static: bad_first(given, decimals),
        ..FirstPlaces::none()
    }
}

// The place of the first argument of a run that depends on what is drawn.
pub(crate) fn controllable_argument(over: &Kinds, from: &Node) -> Option<Span>
    requires { kinds over.now ≡ kinds_of (node from.now) }
    ensures { result ≡ first (controllable_arguments (node from.now)) }
{
    for call in &from.calls {
        if let Some(at) = first_controllable(over, &call.arguments) {
            return Some(at);
        }
    }
    None
}

// The place of the first of these expressions that depends on what is drawn.
fn first_controllable(over: &Kinds, exprs: &[Placed]) -> Option<Span>
    ensures { result ≡ first (failing (λ e. not (is_controllable (kinds over.now) e))
        (map placed exprs.now)) }
{
    for expr in exprs {
        if !judge_expression(over, expr).facts.is_known {
            return Some(expr.place());
        }
    }
    None
}

// Those of variables.
#[tactic(auto, using(crate::proofs::Refused::places))]
fn declared_places(over: &Kinds, variables: &[Declared], decimals: u32) -> FirstPlaces
    requires { decimals ≤ most_decimals }
    ensures { result ≡ declared_places decimals (kinds over.now) (map declared variables.now) }
{
    let mut places = FirstPlaces::none();
    for variable in variables {
        places = places.or(first_value_places(over, variable, decimals));
    }
    places
}

// Those of parts of a trace.
#[tactic(auto, using(crate::proofs::Refused::places))]
fn item_places(over: &Kinds, parts: &[Item<'_>], decimals: u32) -> FirstPlaces
    requires { decimals ≤ most_decimals }
    ensures { result ≡ item_places decimals (kinds over.now) (items_view parts.now) }
{
    let mut places = FirstPlaces::none();
    for part in parts {
        places = places.or(part_places(over, *part, decimals));
    }
    places
}

// Those of one part.
#[tactic(auto, unfolding(crate::specs::inner::Places::item_places))]
fn part_places(over: &Kinds, part: Item<'_>, decimals: u32) -> FirstPlaces
    requires { decimals ≤ most_decimals }
    ensures { result ≡ item_places decimals (kinds over.now) (item part.entry ∷ []) }
{
    match part {
        Item::Term(term) => term_places(over, term, decimals),
        Item::Weight(weight) => weight_places(over, weight),
    }
}

// Those that a trace has of its own.
#[tactic(auto, unfolding(crate::specs::inner::Places::item_places, crate::specs::inner::Places::declared_places, crate::specs::inner::Places::places_of))]
fn term_places(over: &Kinds, term: &Expanded, decimals: u32) -> FirstPlaces
    requires { decimals ≤ most_decimals }
    ensures { result ≡ item_places decimals (kinds over.now) (a_term (expanded term.now) ∷ []) }
{
    match term {
        Expanded::Con(constraint) | Expanded::Assert(constraint, _) => {
            expression_places(over, constraint)
        }
        Expanded::Count(_, bounds, _) => bounds_places(over, bounds, decimals),
        Expanded::Exist(_, variable, _) => first_value_places(over, variable, decimals),
        Expanded::Eps
        | Expanded::Dead
        | Expanded::Raise(_)
        | Expanded::Seq(_, _)
        | Expanded::Loop(_)
        | Expanded::Any(_)
        | Expanded::Pri(_, _)
        | Expanded::Par(_, _)
        | Expanded::Catch(_, _, _)
        | Expanded::Try(_, _) => FirstPlaces::none(),
    }
}

// Those of an expression.
#[tactic(auto, using(crate::proofs::Refused::expression_found))]
fn expression_places(over: &Kinds, written: &Placed) -> FirstPlaces
    ensures { result ≡ places_of (kinds over.now) [] (placed written.now ∷ []) [] }
{
    let found = judge_expression(over, written);
    FirstPlaces {
        bad_static: None,
        not_linear: found.not_linear,
        condition: found.condition,
        weight: None,
    }
}

// Those of a weight.
#[tactic(auto, using(crate::proofs::Refused::weight_found))]
fn weight_places(over: &Kinds, written: &Placed) -> FirstPlaces
    ensures { result ≡ places_of (kinds over.now) [] (placed written.now ∷ []) (placed written.now ∷
        []) }
{
    let found = judge_expression(over, written);
    FirstPlaces {
        bad_static: None,
        not_linear: found.not_linear,
        condition: found.condition,
        weight: unless(found.facts.is_known, written.place()),
    }
}

// Those of the bounds of a counted loop.
#[tactic(auto, unfolding(crate::specs::inner::Places::places_of))]
fn bounds_places(over: &Kinds, bounds: &Bounds, decimals: u32) -> FirstPlaces
    requires { decimals ≤ most_decimals }
    ensures { result ≡ places_of (kinds over.now) (bad_bounds decimals (bounds_view bounds.now))
        (in_bounds (bounds_view bounds.now)) [] }
{
    FirstPlaces {
        bad_static: bad_bounds(bounds, decimals),
        ..number_places(over, bounds)
    }
}

// Those of the numbers of bounds.
fn number_places(over: &Kinds, bounds: &Bounds) -> FirstPlaces
    ensures { result ≡ places_of (kinds over.now) [] (in_bounds (bounds_view bounds.now)) [] }
{
    match bounds {
        Bounds::Between(low, high) => both_places(over, low, high),
        Bounds::Around(average, deviation) => both_places(over, average, deviation),
    }
}

// Those of two expressions.
#[tactic(auto, using(crate::proofs::Refused::both_found))]
fn both_places(over: &Kinds, first: &Placed, second: &Placed) -> FirstPlaces
    ensures { result ≡ places_of (kinds over.now) [] (placed first.now ∷ placed second.now ∷ []) [] }
{
    expression_places(over, first).or(expression_places(over, second))
}

// Those of the first value of a variable.
#[tactic(auto, using(crate::proofs::Refused::first_value_found))]
fn first_value_places(over: &Kinds, variable: &Declared, decimals: u32) -> FirstPlaces
    requires { decimals ≤ most_decimals }
    ensures { result ≡ declared_places decimals (kinds over.now) (declared variable.now ∷ []) }
{
    FirstPlaces {
        bad_static: bad_first(variable, decimals),
        ..maybe_places(over, &variable.first)
    }
}

// Those of an expression, where there is one.
#[tactic(auto, unfolding(crate::specs::inner::Places::places_of))]
fn maybe_places(over: &Kinds, written: &Option<Placed>) -> FirstPlaces
    ensures { result ≡ places_of (kinds over.now) []
        (option_to_list (option_map placed written.now)) [] }
{
    match written {
        Some(written) => expression_places(over, written),
        None => FirstPlaces::none(),
    }
}
