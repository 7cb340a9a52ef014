//! Equations by their divisors: what the remainders of a sum of terms say of a variable's values.

ghost use Rattle.std.specs.Prelude.{◌≡◌, ◌<◌, ◌≤◌, ◌+◌, ◌^◌, ◌+ℤ◌, ◌*ℤ◌, ◌<ℤ◌, ◌≤ℤ◌, IfSome, IsTrue, List, ℤ, length, true, pos, slice_index_or, take, unsigned_abs};
ghost use Rattle.lt_bounds.specs.Ranges.{IsNarrower};
ghost use Rattle.lt_formula.specs.Box.{IsInBox};
ghost use Rattle.lt_num.specs.Bounds.{most_decimals, most_raw};
ghost use Rattle.lt_space.specs.Circuit.{are_terms, most_coefficient};
ghost use Rattle.lt_space.specs.CircuitView.{circuit_len};
ghost use Rattle.lt_space.specs.Evaluated.{Where};
ghost use Rattle.lt_space.specs.Formula.{sum_at};
ghost use Rattle.lt_space.specs.Size.{most_terms};
ghost use Rattle.lt_propagation.specs.Domains.{AreDomains};
ghost use Rattle.lt_propagation.specs.Wide.{Keeps};
ghost use Rattle.lt_propagation.specs.inner.Dividing.{IsMultiple, IsSumBut, value_of};

use crate::agenda::Agenda;
use crate::evaluation::{scaled, terms_between};
use crate::narrowing::narrow;
use lt_num::Interval;
use lt_space::{Circuit, Gate};

// Where so many variables of an equation have several values, each is narrowed by what divides the terms of the others. With
// more of them it is seldom that something does.
const MOST_OPEN: usize = 2;

// More remainders than two numbers of 64 bits have.
const MOST_REMAINDERS: u32 = 128;

// How many values are taken off an end of a range at most, at one look.
const MOST_PASSED: usize = 64;

/// Narrows the ranges of an equation's variables by what divides its terms, where its sign is known to be 0.
pub(crate) fn divide_comparison(
    circuit: &Circuit,
    number: u32,
    decimals: u32,
    count: usize,
    ranges: &mut [Interval],
    agenda: &mut Agenda,
) -> bool
    requires within { number < circuit_len circuit.now }
    requires decimals { decimals ≤ most_decimals }
    requires long { length ranges.old ≡ count + circuit_len circuit.now }
    requires domains { AreDomains ranges.old }
    ensures keeps { Keeps decimals circuit.now result ranges.old ranges.new }
    ensures narrower { IsNarrower ranges.old ranges.new }
    ensures domains { AreDomains ranges.new }
{
    let Gate::Compare {
        first,
        after,
        constant,
        ..
    } = circuit.gate(number)
    else {
        return true;
    };
    let signs = ranges[count + number as usize];
    if signs.low != 0 || signs.high != 0 {
        return true;
    }
    let terms = terms_between(circuit.terms(), first, after);
    divide(terms, scaled(constant, decimals), count, ranges, agenda)
}

// Narrows ranges by a sum of terms and a constant that is 0: what divides the terms of all variables with several values
// divides the rest too, and what divides those of all but one says of that one which values it has. Where one alone has
// several values, the sum has cut it to what fits already.
fn divide(
    terms: &[(u32, i64)],
    constant: i128,
    count: usize,
    ranges: &mut [Interval],
    agenda: &mut Agenda,
) -> bool
    requires exact { IsTrue (are_terms terms.now) }
    requires few { length terms.now ≤ most_terms }
    requires constant { unsigned_abs constant ≤ 2 ^ 95 }
    requires count { count ≤ length ranges.old }
    requires domains { AreDomains ranges.old }
    ensures keeps { (values : List ℤ) → IsInBox ranges.old values →
        (sum_at terms.now (take count values) +ℤ constant) ≡ pos 0 →
        Where result (IsInBox ranges.new values) }
    ensures narrower { IsNarrower ranges.old ranges.new }
    ensures domains { AreDomains ranges.new }
{
    let open = open_in(terms, count, ranges);
    if open < 2 {
        return true;
    }
    if !is_divisible(terms, constant, count, ranges) {
        return false;
    }
    if open > MOST_OPEN {
        return true;
    }
    let mut rest = terms;
    while let Some((term, more)) = rest.split_first() {
        if !divide_others(terms, *term, constant, count, ranges, agenda) {
            return false;
        }
        rest = more;
    }
    true
}

// Whether what divides the terms of all variables with several values divides the rest of the sum too.
fn is_divisible(terms: &[(u32, i64)], constant: i128, count: usize, ranges: &[Interval]) -> bool
    requires exact { IsTrue (are_terms terms.now) }
    requires few { length terms.now ≤ most_terms }
    requires constant { unsigned_abs constant ≤ 2 ^ 95 }
    requires count { count ≤ length ranges.now }
    requires domains { AreDomains ranges.now }
    ensures { (values : List ℤ) → IsInBox ranges.now values →
        (sum_at terms.now (take count values) +ℤ constant) ≡ pos 0 → result ≡ true }
{
    let divisor = divisor_of(terms, count, count, ranges);
    if divisor == 1 {
        return true;
    }
    match remainder_of(terms, constant, count, count, divisor, ranges) {
        None => true,
        Some(remainder) => is_multiple(remainder.rest, divisor),
    }
}

// Narrows the range of a term's variable by what divides the terms of the others.
fn divide_others(
    terms: &[(u32, i64)],
    term: (u32, i64),
    constant: i128,
    count: usize,
    ranges: &mut [Interval],
    agenda: &mut Agenda,
) -> bool
    requires exact { IsTrue (are_terms terms.now) }
    requires few { length terms.now ≤ most_terms }
    requires constant { unsigned_abs constant ≤ 2 ^ 95 }
    requires count { count ≤ length ranges.old }
    requires domains { AreDomains ranges.old }
    ensures keeps { (values : List ℤ) → IsInBox ranges.old values →
        (sum_at terms.now (take count values) +ℤ constant) ≡ pos 0 →
        Where result (IsInBox ranges.new values) }
    ensures narrower { IsNarrower ranges.old ranges.new }
    ensures domains { AreDomains ranges.new }
{
    let place = term.0 as usize;
    if place >= count || ranges[place].low == ranges[place].high {
        return true;
    }
    let divisor = divisor_of(terms, place, count, ranges);
    if divisor == 1 {
        return true;
    }
    match remainder_of(terms, constant, place, count, divisor, ranges) {
        None => true,
        Some(remainder) => {
            let fitting = fitting_part(remainder, divisor, ranges[place]);
            narrow(ranges, place, fitting, agenda)
        }
    }
}

// The part of a range between whose ends those of its values lie with which a sum is a multiple of a divisor. Not more than
// so many values are taken off at either end.
fn fitting_part(remainder: Remainder, divisor: i64, range: Interval) -> Interval
    requires divisor { pos 0 <ℤ divisor }
    requires coefficient { unsigned_abs remainder.coefficient ≤ 2 ^ 70 }
    requires rest { unsigned_abs remainder.rest ≤ 2 ^ 109 }
    requires low { unsigned_abs range.low ≤ most_raw }
    requires high { unsigned_abs range.high ≤ most_raw }
    ensures low { (value times : ℤ) →
        ((remainder.coefficient *ℤ value) +ℤ remainder.rest) ≡ divisor *ℤ times →
        range.low ≤ℤ value → value ≤ℤ range.high → result.low ≤ℤ value }
    ensures high { (value times : ℤ) →
        ((remainder.coefficient *ℤ value) +ℤ remainder.rest) ≡ divisor *ℤ times →
        range.low ≤ℤ value → value ≤ℤ range.high → value ≤ℤ result.high }
{
    Interval {
        low: least_fitting(remainder, divisor, range),
        high: greatest_fitting(remainder, divisor, range),
    }
}

// The least value of a range with which a sum is a multiple of a divisor; a lower one, where so many don't fit.
fn least_fitting(remainder: Remainder, divisor: i64, range: Interval) -> i64
    requires divisor { pos 0 <ℤ divisor }
    requires coefficient { unsigned_abs remainder.coefficient ≤ 2 ^ 70 }
    requires rest { unsigned_abs remainder.rest ≤ 2 ^ 109 }
    requires low { unsigned_abs range.low ≤ most_raw }
    requires high { unsigned_abs range.high ≤ most_raw }
    ensures { (value times : ℤ) →
        ((remainder.coefficient *ℤ value) +ℤ remainder.rest) ≡ divisor *ℤ times →
        range.low ≤ℤ value → value ≤ℤ range.high → result ≤ℤ value }
{
    let mut low = range.low;
    for _ in 0..MOST_PASSED {
        if low > range.high || is_fitting(remainder, divisor, low) {
            return low;
        }
        low += 1;
    }
    low
}

// The greatest value of a range with which a sum is a multiple of a divisor; a higher one, where so many don't fit.
fn greatest_fitting(remainder: Remainder, divisor: i64, range: Interval) -> i64
    requires divisor { pos 0 <ℤ divisor }
    requires coefficient { unsigned_abs remainder.coefficient ≤ 2 ^ 70 }
    requires rest { unsigned_abs remainder.rest ≤ 2 ^ 109 }
    requires low { unsigned_abs range.low ≤ most_raw }
    requires high { unsigned_abs range.high ≤ most_raw }
    ensures { (value times : ℤ) →
        ((remainder.coefficient *ℤ value) +ℤ remainder.rest) ≡ divisor *ℤ times →
        range.low ≤ℤ value → value ≤ℤ range.high → value ≤ℤ result }
{
    let mut high = range.high;
    for _ in 0..MOST_PASSED {
        if high < range.low || is_fitting(remainder, divisor, high) {
            return high;
        }
        high -= 1;
    }
    high
}

// Whether a sum is a multiple of a divisor where the variable that it leaves open has a value.
fn is_fitting(remainder: Remainder, divisor: i64, value: i64) -> bool
    requires divisor { pos 0 <ℤ divisor }
    requires coefficient { unsigned_abs remainder.coefficient ≤ 2 ^ 70 }
    requires rest { unsigned_abs remainder.rest ≤ 2 ^ 109 }
    requires value { unsigned_abs value ≤ most_raw }
    ensures { (times : ℤ) →
        ((remainder.coefficient *ℤ value) +ℤ remainder.rest) ≡ divisor *ℤ times → result ≡ true }
{
    is_multiple(
        remainder.coefficient * i128::from(value) + remainder.rest,
        divisor,
    )
}

// Whether a number is a multiple of a divisor. Most have 64 bits, whose remainders take less time.
fn is_multiple(number: i128, divisor: i64) -> bool
    requires { pos 0 <ℤ divisor }
    ensures only { result ≡ true → IsMultiple divisor number }
    ensures all { IsMultiple divisor number → result ≡ true }
{
    match i64::try_from(number) {
        Ok(short) => is_short_multiple(short, divisor),
        Err(_) => is_long_multiple(number, divisor),
    }
}

// Whether a number of 64 bits is a multiple of a divisor.
fn is_short_multiple(number: i64, divisor: i64) -> bool
    requires { pos 0 <ℤ divisor }
    ensures only { result ≡ true → IsMultiple divisor number }
    ensures all { IsMultiple divisor number → result ≡ true }
{
    number % divisor == 0
}

// Whether any number is a multiple of a divisor.
fn is_long_multiple(number: i128, divisor: i64) -> bool
    requires { pos 0 <ℤ divisor }
    ensures only { result ≡ true → IsMultiple divisor number }
    ensures all { IsMultiple divisor number → result ≡ true }
{
    number % i128::from(divisor) == 0
}

// What is known of a sum over a box but for a multiple of a divisor: so many times the value of one variable, and a rest.
#[derive(Clone, Copy)]
struct Remainder {
    // How many times that variable's value.
    coefficient: i128,

    // What is added to it.
    rest: i128,
}

// What a sum of terms and a constant is over a box, but for a multiple of a divisor, by the value of one variable; none, where
// the divisor doesn't divide the term of another one that has several values.
fn remainder_of(
    terms: &[(u32, i64)],
    constant: i128,
    but: usize,
    count: usize,
    divisor: i64,
    ranges: &[Interval],
) -> Option<Remainder>
    requires exact { IsTrue (are_terms terms.now) }
    requires few { length terms.now ≤ most_terms }
    requires constant { unsigned_abs constant ≤ 2 ^ 95 }
    requires divisor { pos 0 <ℤ divisor }
    requires count { count ≤ length ranges.now }
    requires domains { AreDomains ranges.now }
    ensures is { IfSome result (λ r. (values : List ℤ) → IsInBox ranges.now values →
        IsSumBut divisor (sum_at terms.now (take count values) +ℤ constant)
        (value_of r but count values)) }
    ensures coefficient { IfSome result (λ r. unsigned_abs r.coefficient ≤ 2 ^ 70) }
    ensures rest { IfSome result (λ r. unsigned_abs r.rest ≤ 2 ^ 109) }
{
    let mut remainder = Remainder {
        coefficient: 0,
        rest: constant,
    };
    let mut left = terms;
    while let Some((term, more)) = left.split_first() {
        remainder = with_term(remainder, *term, but, count, divisor, ranges)?;
        left = more;
    }
    Some(remainder)
}

// What such a sum with one more term is; none, where its variable is another one that has several values and the divisor
// doesn't divide it.
fn with_term(
    remainder: Remainder,
    term: (u32, i64),
    but: usize,
    count: usize,
    divisor: i64,
    ranges: &[Interval],
) -> Option<Remainder>
    requires factor { unsigned_abs term.1 ≤ most_coefficient }
    requires coefficient { unsigned_abs remainder.coefficient ≤ 2 ^ 70 }
    requires rest { unsigned_abs remainder.rest ≤ 2 ^ 109 }
    requires divisor { pos 0 <ℤ divisor }
    requires count { count ≤ length ranges.now }
    requires domains { AreDomains ranges.now }
    ensures is { IfSome result (λ r. (values : List ℤ) → IsInBox ranges.now values →
        IsSumBut divisor
        (value_of remainder but count values +ℤ
        (term.1 *ℤ slice_index_or (take count values) term.0 (pos 0)))
        (value_of r but count values)) }
    ensures coefficient { IfSome result (λ r.
        unsigned_abs r.coefficient ≤ unsigned_abs remainder.coefficient + 2 ^ 61) }
    ensures rest { IfSome result (λ r.
        unsigned_abs r.rest ≤ unsigned_abs remainder.rest + 2 ^ 101) }
{
    let variable = term.0 as usize;
    if variable >= count {
        return Some(remainder);
    }
    let range = ranges[variable];
    let factor = i128::from(term.1);
    if variable == but {
        return Some(Remainder {
            coefficient: remainder.coefficient + factor,
            rest: remainder.rest,
        });
    }
    if range.low == range.high {
        return Some(Remainder {
            coefficient: remainder.coefficient,
            rest: remainder.rest + factor * i128::from(range.low),
        });
    }
    if divides(divisor, term.1) {
        Some(remainder)
    } else {
        None
    }
}

// Whether a divisor, which often is the coefficient itself, divides it.
fn divides(divisor: i64, coefficient: i64) -> bool
    requires { pos 0 <ℤ divisor }
    ensures { result ≡ true → IsMultiple divisor coefficient }
{
    if coefficient == divisor {
        return true;
    }
    is_short_multiple(coefficient, divisor)
}

// A divisor of the terms of all variables with several values but one, as great as it is found; 1 where there is none.
fn divisor_of(terms: &[(u32, i64)], but: usize, count: usize, ranges: &[Interval]) -> i64
    requires count { count ≤ length ranges.now }
    ensures { pos 0 <ℤ result }
{
    let mut divisor: u64 = 0;
    for place in 0..terms.len() {
        let variable = terms[place].0 as usize;
        if variable < count && variable != but && ranges[variable].low != ranges[variable].high {
            divisor = common_divisor(divisor, terms[place].1.unsigned_abs());
            if divisor == 1 {
                return 1;
            }
        }
    }
    match i64::try_from(divisor) {
        Ok(divisor) => divisor.max(1),
        Err(_) => 1,
    }
}

// A common divisor of two numbers, by remainders: the greatest, and of 0 and another number that one.
fn common_divisor(one: u64, other: u64) -> u64 {
    let mut greater = one.max(other);
    let mut smaller = one.min(other);
    for _ in 0..MOST_REMAINDERS {
        if smaller == 0 {
            return greater;
        }
        if smaller == 1 {
            return 1;
        }
        let rest = greater % smaller;
        greater = smaller;
        smaller = rest;
    }
    1
}

// How many variables of some terms have several values.
fn open_in(terms: &[(u32, i64)], count: usize, ranges: &[Interval]) -> usize
    requires count { count ≤ length ranges.now }
    ensures { result ≤ length terms.now }
{
    let mut open = 0;
    for place in 0..terms.len() {
        let variable = terms[place].0 as usize;
        if variable < count && ranges[variable].low != ranges[variable].high {
            open += 1;
        }
    }
    open
}
