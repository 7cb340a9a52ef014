//! What bounds and first values are worth, and which of them may not stand where they do.

ghost use Rattle.std.specs.Prelude.{◌≡◌, ◌≤◌, ◌-ℤ◌, ◌%◌, pos, int_le, nat_eq, option_map, true, unsigned_abs};
ghost use Rattle.lt_num.specs.Bounds.{most_decimals};
ghost use Rattle.lt_num.specs.Range.{is_point};
ghost use Rattle.lt_formula.specs.Facts.{binary_facts, choice_facts, unary_facts};
ghost use Rattle.lt_formula.specs.Operators.{and_then, unary_value};
ghost use Rattle.lt_macros.specs.Expanded as x;
ghost use Rattle.lt_macros.specs.Failing.{unless};
ghost use Rattle.lt_formula.specs.Limits.{most_turns};
ghost use Rattle.lt_expand.specs.Static.{bad_bounds, bad_first, passes, static_raw, static_value, turns_of};
ghost use Rattle.lt_expand.specs.inner.Firsts.{first};
ghost use Rattle.lt_macros.specs.Tree.{bounds as bounds_view, declared, placed};
ghost use Rattle.lt_expand.specs.inner.Worth.{binary_answer, chosen_answer, turns as turns_view, worth};

use crate::turns::{MOST_TURNS, Turns, do_fit};
use lt_ast::Span;
use lt_formula::{
    BinaryOperator, Facts, Role, UnaryOperator, binary_value, constant_value, settled, unary_value,
};
use lt_macros::{Bounds, Declared, Placed};
use lt_num::{Arith, Kind, Range, Value};

/// What an expression is worth, where no variable has a value.
#[derive(Clone, Copy)]
struct Worth {
    /// What is known of it.
    facts: Facts,

    /// Its value, or the fault in its place.
    value: Result<Value, Arith>,
}

// What an expression is worth. A variable counts as false, which no value is made of that is asked for.
#[tactic(auto, using(crate::proofs::Worths::worths))]
fn worth_of(written: &Placed, decimals: u32) -> Worth
    requires { decimals ≤ most_decimals }
    ensures { result ≡ worth decimals (placed written.now) }
{
    match written {
        Placed::Constant(kind, value, _) => Worth {
            facts: Facts::of_constant(*kind),
            value: constant_value(*value),
        },
        Placed::Variable(role, _, _) => Worth {
            facts: Facts {
                kind: Kind::Bool,
                is_known: matches!(role, Role::Input),
                is_static: false,
            },
            value: Ok(Value::Bool(false)),
        },
        Placed::Previous(_, _, _) => Worth {
            facts: Facts {
                kind: Kind::Bool,
                is_known: true,
                is_static: false,
            },
            value: Err(Arith::NoPrevious),
        },
        Placed::Unary(operator, part, _) => unary_worth(*operator, worth_of(part, decimals)),
        Placed::Binary(operator, left, right, _) => {
            let (left, right) = (worth_of(left, decimals), worth_of(right, decimals));
            binary_worth(*operator, decimals, left, right)
        }
        Placed::Choice(condition, first, second, _) => choice_worth(
            worth_of(condition, decimals),
            worth_of(first, decimals),
            worth_of(second, decimals),
        ),
    }
}

// What an operator on one part is worth.
fn unary_worth(operator: UnaryOperator, part: Worth) -> Worth
    ensures { result ≡ record {
      facts = unary_facts operator part.facts;
      value = and_then part.value
          (unary_value operator);
    } }
{
    Worth {
        facts: Facts::of_unary(operator, part.facts),
        value: unary_answer(operator, part.value),
    }
}

// What an operator on one part gives.
fn unary_answer(operator: UnaryOperator, part: Result<Value, Arith>) -> Result<Value, Arith>
    ensures { result ≡ and_then part (unary_value operator) }
{
    unary_value(operator, part?)
}

// What an operator on two parts is worth.
fn binary_worth(operator: BinaryOperator, decimals: u32, left: Worth, right: Worth) -> Worth
    requires { decimals ≤ most_decimals }
    ensures { result ≡ record {
      facts = binary_facts operator left.facts right.facts;
      value = binary_answer operator left.facts.kind decimals left.value right.value;
    } }
{
    Worth {
        facts: Facts::of_binary(operator, left.facts, right.facts),
        value: binary_answer(operator, left.facts.kind, decimals, left.value, right.value),
    }
}

// What an operator on two parts gives, of which the left one has this kind.
fn binary_answer(
    operator: BinaryOperator,
    kind: Kind,
    decimals: u32,
    left: Result<Value, Arith>,
    right: Result<Value, Arith>,
) -> Result<Value, Arith>
    requires { decimals ≤ most_decimals }
    ensures { result ≡ binary_answer operator kind decimals left right }
{
    let left = left?;
    match settled(operator, left) {
        Some(truth) => Ok(Value::Bool(truth)),
        None => binary_value(operator, kind, decimals, left, right?),
    }
}

// What a choice is worth.
fn choice_worth(condition: Worth, first: Worth, second: Worth) -> Worth
    ensures { result ≡ record {
      facts = choice_facts condition.facts first.facts second.facts;
      value = chosen_answer condition.value first.value second.value;
    } }
{
    Worth {
        facts: Facts::of_choice(condition.facts, first.facts, second.facts),
        value: chosen_answer(condition.value, first.value, second.value),
    }
}

// What a choice gives.
fn chosen_answer(
    condition: Result<Value, Arith>,
    first: Result<Value, Arith>,
    second: Result<Value, Arith>,
) -> Result<Value, Arith>
    ensures { result ≡ chosen_answer condition first second }
{
    if condition?.is_true() { first } else { second }
}

// The value of an expression that names no variable and has no fault.
#[tactic(auto, unfolding(crate::specs::inner::Worth::worth))]
fn static_value(written: &Placed, decimals: u32) -> Option<Value>
    requires { decimals ≤ most_decimals }
    ensures { result ≡ static_value decimals (placed written.now) }
{
    let found = worth_of(written, decimals);
    if found.facts.is_static {
        found.value.ok()
    } else {
        None
    }
}

// Its raw number.
pub(crate) fn static_raw(written: &Placed, decimals: u32) -> Option<i64>
    requires { decimals ≤ most_decimals }
    ensures { result ≡ static_raw decimals (placed written.now) }
{
    match static_value(written, decimals) {
        Some(value) => Some(value.raw()),
        None => None,
    }
}

// The place, where a test fails.
pub(crate) fn unless(holds: bool, at: Span) -> Option<Span>
    ensures { result ≡ first (unless holds at) }
{
    if holds { None } else { Some(at) }
}

// Whether there is a number.
fn is_there(raw: Option<i64>) -> bool
    ensures { result ≡ passes (λ n. true) raw }
{
    raw.is_some()
}

// Whether there is a number, and it is 0 or more.
fn is_natural(raw: Option<i64>) -> bool
    ensures { result ≡ passes (λ n. int_le (pos 0) n) raw }
{
    match raw {
        Some(raw) => raw >= 0,
        None => false,
    }
}

// Whether there is a number, and it is no more than a loop may turn.
fn is_few(raw: Option<i64>) -> bool
    ensures { result ≡ passes (λ n. int_le n (pos most_turns)) raw }
{
    match raw {
        Some(raw) => raw <= MOST_TURNS,
        None => false,
    }
}

// Whether there is a number, and it is a point of a range.
fn is_point(range: Range, raw: Option<i64>) -> bool
    ensures { result ≡ passes (is_point range) raw }
{
    match raw {
        Some(raw) => range.low <= raw && raw <= range.high && is_whole_steps_away(range, raw),
        None => false,
    }
}

// Whether a number is a whole number of steps away from the low end of a range.
fn is_whole_steps_away(range: Range, raw: i64) -> bool
    ensures { result ≡
        nat_eq (unsigned_abs (raw -ℤ range.low) % unsigned_abs range.step) 0 }
{
    raw.abs_diff(range.low)
        .is_multiple_of(range.step.unsigned_abs())
}

// The place of a variable's first value, where it isn't a point of its range.
pub(crate) fn bad_first(variable: &Declared, decimals: u32) -> Option<Span>
    requires { decimals ≤ most_decimals }
    ensures { result ≡ first (bad_first decimals (declared variable.now)) }
{
    match &variable.first {
        Some(written) => {
            let raw = static_raw(written, decimals);
            unless(is_point(variable.range, raw), written.place())
        }
        None => None,
    }
}

// The first place of bounds that may not stand there.
pub(crate) fn bad_bounds(bounds: &Bounds, decimals: u32) -> Option<Span>
    requires { decimals ≤ most_decimals }
    ensures { result ≡ first (bad_bounds decimals (bounds_view bounds.now)) }
{
    match bounds {
        Bounds::Between(low, high) => bad_between(low, high, decimals),
        Bounds::Around(average, deviation) => bad_around(average, deviation, decimals),
    }
}

// That of bounds between two numbers.
#[tactic(auto, using(crate::proofs::Firsts::first_three))]
fn bad_between(low: &Placed, high: &Placed, decimals: u32) -> Option<Span>
    requires { decimals ≤ most_decimals }
    ensures { result ≡ first (bad_bounds decimals (x.between (placed low.now) (placed high.now))) }
{
    let (least, most) = (static_raw(low, decimals), static_raw(high, decimals));
    let last = unless(do_fit(Turns::between(least, most)), low.place());
    let second = unless(is_few(most), high.place()).or(last);
    unless(is_natural(least), low.place()).or(second)
}

// That of bounds around an average.
#[tactic(auto, using(crate::proofs::Firsts::first_three))]
fn bad_around(average: &Placed, deviation: &Placed, decimals: u32) -> Option<Span>
    requires { decimals ≤ most_decimals }
    ensures { result ≡ first
        (bad_bounds decimals (x.around (placed average.now) (placed deviation.now))) }
{
    let middle = static_raw(average, decimals);
    let distance = static_raw(deviation, decimals);
    let last = unless(do_fit(Turns::around(middle, distance)), average.place());
    let second = unless(is_natural(distance), deviation.place()).or(last);
    unless(is_there(middle), average.place()).or(second)
}

// How often a counted loop turns, where its numbers are there.
pub(crate) fn turns_of(bounds: &Bounds, decimals: u32) -> Option<Turns>
    requires { decimals ≤ most_decimals }
    ensures { option_map turns_view result ≡ turns_of decimals (bounds_view bounds.now) }
{
    match bounds {
        Bounds::Between(low, high) => {
            Turns::between(static_raw(low, decimals), static_raw(high, decimals))
        }
        Bounds::Around(average, deviation) => {
            Turns::around(
                static_raw(average, decimals),
                static_raw(deviation, decimals),
            )
        }
    }
}
