//! Where formulas hold.

ghost use Rattle.std.specs.Prelude.{◌≡◌, ◌≤◌, ◌^◌, ◌*ℤ◌, pos, IsTrue, length, slice_index_or, unsigned_abs};
ghost use Rattle.std.specs.List.{list_all};
ghost use Rattle.lt_num.specs.Bounds.{most_decimals, most_raw};
ghost use Rattle.lt_linear.specs.Form.{is_raw};
ghost use Rattle.lt_space.specs.Formula.{atom_holds, form_at, holds, stands, sum_at};
ghost use Rattle.lt_space.specs.FormulaView.{formula_view};
ghost use Rattle.lt_space.specs.Size.{is_small, is_small_atom, is_small_form, most_terms};

use crate::forming::power_of_ten;
use crate::formula::{Atom, Formula, Relation};
use lt_linear::Form;

/// Whether a formula holds where variables have these raw numbers, by their numbers, and reals have so many
/// decimals, 0 to 6. A variable that isn't there has 0. Nothing is rounded.
///
/// No raw number is past 10^12 in size, and no form of the formula has more than 128 terms.
pub fn holds(formula: &Formula, assignment: &[i64], decimals: u32) -> bool
    requires decimals { decimals ≤ most_decimals }
    requires values { IsTrue (list_all is_raw assignment.now) }
    requires small { IsTrue (is_small (formula_view formula.now)) }
    ensures { result ≡ holds decimals assignment.now (formula_view formula.now) }
{
    match formula {
        Formula::Truth(truth) => *truth,
        Formula::Atom(atom) => atom_holds(atom, assignment, decimals),
        Formula::Not(part) => !holds(part, assignment, decimals),
        Formula::And(left, right) => {
            holds(left, assignment, decimals) && holds(right, assignment, decimals)
        }
        Formula::Or(left, right) => {
            holds(left, assignment, decimals) || holds(right, assignment, decimals)
        }
        Formula::Xor(left, right) => {
            holds(left, assignment, decimals) != holds(right, assignment, decimals)
        }
        Formula::If(condition, first, second) => {
            if holds(condition, assignment, decimals) {
                holds(first, assignment, decimals)
            } else {
                holds(second, assignment, decimals)
            }
        }
    }
}

// Whether an atom holds.
fn atom_holds(atom: &Atom, assignment: &[i64], decimals: u32) -> bool
    requires decimals { decimals ≤ most_decimals }
    requires values { IsTrue (list_all is_raw assignment.now) }
    requires small { IsTrue (is_small_atom atom.now) }
    ensures { result ≡ atom_holds decimals assignment.now atom.now }
{
    match atom {
        Atom::Flag(variable) => value_at(assignment, *variable) != 0,
        Atom::Compare(form, relation) => stands(*relation, form_at(form, assignment, decimals)),
    }
}

// How a number stands to 0.
fn stands(relation: Relation, number: i128) -> bool
    ensures { result ≡ stands relation number }
{
    match relation {
        Relation::Below => number < 0,
        Relation::NotAbove => number <= 0,
        Relation::Equal => number == 0,
    }
}

// What a form is at raw numbers.
fn form_at(form: &Form, assignment: &[i64], decimals: u32) -> i128
    requires decimals { decimals ≤ most_decimals }
    requires values { IsTrue (list_all is_raw assignment.now) }
    requires small { IsTrue (is_small_form form.now) }
    ensures { result ≡ form_at decimals assignment.now form.now }
{
    let sum = sum_at(form.terms.as_slice(), assignment);
    sum + product(form.constant, power_of_ten(decimals))
}

// The sum of terms at raw numbers.
fn sum_at(terms: &[(u32, i64)], assignment: &[i64]) -> i128
    requires values { IsTrue (list_all is_raw assignment.now) }
    requires few { length terms.now ≤ most_terms }
    ensures sum { result ≡ sum_at terms.now assignment.now }
    ensures bound { unsigned_abs result ≤ 2 ^ 110 }
{
    let mut sum = 0;
    let mut rest = terms;
    while let Some((term, more)) = rest.split_first() {
        sum += product(term.1, value_at(assignment, term.0));
        rest = more;
    }
    sum
}

// A number times one that isn't past the bound of raw numbers.
fn product(coefficient: i64, value: i64) -> i128
    requires value { unsigned_abs value ≤ most_raw }
    ensures product { result ≡ coefficient *ℤ value }
    ensures bound { unsigned_abs result ≤ 2 ^ 103 }
{
    i128::from(coefficient) * i128::from(value)
}

// The raw number of a variable, and 0 where it has none.
fn value_at(assignment: &[i64], variable: u32) -> i64
    requires { IsTrue (list_all is_raw assignment.now) }
    ensures value { result ≡ slice_index_or assignment.now variable (pos 0) }
    ensures bound { unsigned_abs result ≤ most_raw }
{
    match assignment.get(variable as usize) {
        Some(value) => *value,
        None => 0,
    }
}
