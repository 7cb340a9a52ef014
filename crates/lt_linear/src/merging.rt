//! Two lists of terms, variable by variable.

ghost use Rattle.std.specs.Prelude.{◌≡◌, ◌+◌, ◌≤◌, ◌-ℤ◌, ◌*ℤ◌, ◌++◌, [], IsTrue, length, unsigned_abs, vec_capacity, vec_len};
ghost use Rattle.lt_num.specs.Bounds.{most_raw};
ghost use Rattle.lt_linear.specs.Form.{merged, one, raw_in};
ghost use Rattle.lt_linear.specs.inner.Merging.{FrontTells, IsOperation, MergeTells, are_usable, combined, is_usable};

use lt_num::{Arith, Fixed, add, div, mul, sub};

/// What is done with the two coefficients that forms have of a variable, or with their two constants.
#[derive(Clone, Copy)]
pub(crate) enum Operation {
    /// Their sum.
    Sum,

    /// Their difference.
    Difference,

    /// The first times a number with so many decimals, rounded once.
    Scaled(Fixed, u32),

    /// The first divided by such a number, rounded once.
    Divided(Fixed, u32),

    /// Their difference times a factor, exactly.
    Compared(i64),
}

// The first variable of two lists of terms, its coefficient in both, and what is after it in both.
#[derive(Clone, Copy)]
struct Front<'a> {
    variable: u32,
    first: i64,
    second: i64,
    left: &'a [(u32, i64)],
    right: &'a [(u32, i64)],
}

/// Writes what an operation gives on the coefficients of two lists of terms, variable by variable, into
/// reserved room. There is nothing where one of them is past its bound.
pub(crate) fn merge(
    operation: Operation,
    left: &[(u32, i64)],
    right: &[(u32, i64)],
    into: &mut Vec<(u32, i64)>,
) -> Option<()>
    requires operation { IsOperation operation }
    requires left { IsTrue (are_usable operation left.now) }
    requires right { IsTrue (are_usable operation right.now) }
    requires empty { into.old.items ≡ [] }
    requires room { length left.now + length right.now ≤ vec_capacity into.old }
    ensures told { MergeTells result into.new.items (merged (combined operation) left.now right.now) }
    ensures capacity { vec_capacity into.old ≤ vec_capacity into.new }
{
    let mut rest = left;
    let mut others = right;
    while let Some(front) = front_of(rest, others) {
        let coefficient = combined(operation, front.first, front.second)?;
        put(into, front.variable, coefficient);
        rest = front.left;
        others = front.right;
    }
    Some(())
}

// The front of two lists of terms.
#[tactic(auto, using(crate::proofs::Fronts::fronts))]
fn front_of<'a>(left: &'a [(u32, i64)], right: &'a [(u32, i64)]) -> Option<Front<'a>>
    ensures { FrontTells left.now right.now result }
{
    let Some((a, rest)) = left.split_first() else {
        return second_front(left, right);
    };
    match right.split_first() {
        Some((b, others)) if b.0 < a.0 => Some(Front {
            variable: b.0,
            first: 0,
            second: b.1,
            left,
            right: others,
        }),
        Some((b, others)) if b.0 == a.0 => Some(Front {
            variable: a.0,
            first: a.1,
            second: b.1,
            left: rest,
            right: others,
        }),
        _ => Some(Front {
            variable: a.0,
            first: a.1,
            second: 0,
            left: rest,
            right,
        }),
    }
}

// The front where the first list is empty.
#[tactic(auto, using(crate::proofs::Fronts::fronts))]
fn second_front<'a>(left: &'a [(u32, i64)], right: &'a [(u32, i64)]) -> Option<Front<'a>>
    requires { left.now ≡ [] }
    ensures { FrontTells left.now right.now result }
{
    match right.split_first() {
        Some((b, others)) => Some(Front {
            variable: b.0,
            first: 0,
            second: b.1,
            left,
            right: others,
        }),
        None => None,
    }
}

/// What an operation gives on two raw numbers, unless that is past its bound.
pub(crate) fn combined(operation: Operation, a: i64, b: i64) -> Option<i64>
    requires operation { IsOperation operation }
    requires first { IsTrue (is_usable operation a) }
    requires second { IsTrue (is_usable operation b) }
    ensures { result ≡ combined operation a b }
{
    let (first, second) = (Fixed { raw: a }, Fixed { raw: b });
    match operation {
        Operation::Sum => raw_in(add(first, second)),
        Operation::Difference => raw_in(sub(first, second)),
        Operation::Scaled(by, decimals) => raw_in(mul(first, by, decimals)),
        Operation::Divided(by, decimals) => raw_in(div(first, by, decimals)),
        Operation::Compared(factor) => Some(compared(factor, a, b)),
    }
}

// The difference of two raw numbers times a factor.
fn compared(factor: i64, a: i64, b: i64) -> i64
    requires factor { unsigned_abs factor ≤ 1_000_000 }
    requires first { unsigned_abs a ≤ most_raw }
    requires second { unsigned_abs b ≤ most_raw }
    ensures { result ≡ (a -ℤ b) *ℤ factor }
{
    (a - b) * factor
}

// The raw number of a value that there is.
fn raw_in(answer: Result<Fixed, Arith>) -> Option<i64>
    ensures { result ≡ raw_in answer }
{
    match answer {
        Ok(fixed) => Some(fixed.raw),
        Err(_) => None,
    }
}

/// Puts a term after others, unless its coefficient is 0, into reserved room.
pub(crate) fn put(terms: &mut Vec<(u32, i64)>, variable: u32, coefficient: i64)
    requires { vec_len terms.old + 1 ≤ vec_capacity terms.old }
    ensures items { terms.new.items ≡ terms.old.items ++ one variable coefficient }
    ensures len { vec_len terms.new ≤ vec_len terms.old + 1 }
    ensures capacity { vec_capacity terms.new ≡ vec_capacity terms.old }
{
    if coefficient != 0 {
        terms.push_reserved((variable, coefficient));
    }
}
