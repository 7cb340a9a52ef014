//! Which variables are hard.

ghost use Rattle.std.specs.Prelude.{◌≡◌, ◌<◌, ◌&&◌, ◌||◌, ℕ, IsTrue, List, false, length, neg_ℤ, slice_index_or};
ghost use Rattle.std.specs.Ordering.{int_eq};
ghost use Rattle.lt_formula.specs.Limits.{most_variables};
ghost use Rattle.lt_linear.specs.Form.{Term};
ghost use Rattle.lt_space.specs.Circuit.{are_terms, formula_at};
ghost use Rattle.lt_space.specs.CircuitView.{circuit_formulas, circuit_len};
ghost use Rattle.lt_need.specs.Need.{has_variable, is_difference, is_hard_variable, step_of};
ghost use Rattle.lt_need.specs.inner.Counts.{AreGates, found_atoms, own_of};
ghost use Rattle.lt_need.specs.inner.Marks.{own_atoms};
ghost use Rattle.lt_need.specs.inner.Uses.{equation_in, has_shared, is_hard_at, is_hard_with, several_at};

use crate::uses::{find_shared, several_at};
use lt_num::Range;
use lt_space::{Circuit, Gate, Relation};

/// Marks the variables of those gates that are hard among some that are atoms.
pub(crate) fn mark_hard(
    circuit: &Circuit,
    atoms: &[u32],
    ranges: &[Range],
    owners: &mut Vec<Option<u32>>,
    shared: &mut Vec<bool>,
    hard: &mut Vec<bool>,
)
    requires gates { AreGates (circuit_len circuit.now) atoms.now }
    requires owners { length owners.old.items ≡ most_variables }
    requires shared { length shared.old.items ≡ most_variables }
    requires hard { length hard.old.items ≡ most_variables }
    ensures marks { (i : ℕ) → slice_index_or hard.new.items i false ≡
        is_hard_variable ranges.now (found_atoms (circuit_formulas circuit.now) atoms.now) i }
    ensures owners { length owners.new.items ≡ most_variables }
    ensures shared { length shared.new.items ≡ most_variables }
    ensures hard { length hard.new.items ≡ most_variables }
{
    find_shared(circuit, atoms, owners, shared);
    hard.fill(false);
    for place in 0..atoms.len() {
        mark_own(circuit, atoms[place], ranges, shared, hard);
    }
}

// Marks the variables of a gate, if it is a hard atom.
fn mark_own(circuit: &Circuit, number: u32, ranges: &[Range], shared: &[bool], hard: &mut Vec<bool>)
    requires number { number < circuit_len circuit.now }
    requires hard { length hard.old.items ≡ most_variables }
    ensures marks { (i : ℕ) → slice_index_or hard.new.items i false ≡
        (slice_index_or hard.old.items i false ||
        (is_hard_at ranges.now (circuit_formulas circuit.now) shared.now number &&
        has_variable (several_at (circuit_formulas circuit.now) number) i)) }
    ensures hard { length hard.new.items ≡ most_variables }
{
    let terms = several_at(circuit, number);
    if is_hard(terms, is_equation_at(circuit, number), ranges, shared) {
        mark_variables(terms, hard);
    }
}

// Marks the variables of terms.
fn mark_variables(terms: &[(u32, i64)], hard: &mut Vec<bool>)
    requires exact { IsTrue (are_terms terms.now) }
    requires hard { length hard.old.items ≡ most_variables }
    ensures marks { (i : ℕ) → slice_index_or hard.new.items i false ≡
        (slice_index_or hard.old.items i false || has_variable terms.now i) }
    ensures hard { length hard.new.items ≡ most_variables }
{
    for place in 0..terms.len() {
        hard[terms[place].0 as usize] = true;
    }
}

// Whether an atom is hard, by its terms and by whether it is an equation.
fn is_hard(terms: &[(u32, i64)], is_equation: bool, ranges: &[Range], shared: &[bool]) -> bool
    ensures { result ≡ is_hard_with ranges.now shared.now terms.now is_equation }
{
    !is_difference(terms, ranges) && (is_equation || has_shared(terms, shared))
}

/// Whether terms are one variable less another one of the same step, but for a factor.
pub(crate) fn is_difference(terms: &[(u32, i64)], ranges: &[Range]) -> bool
    ensures { result ≡ is_difference ranges.now terms.now }
{
    terms.len() == 2
        && are_opposite(terms[0].1, terms[1].1)
        && step_of(ranges, terms[0].0) == step_of(ranges, terms[1].0)
}

// The step of a variable; where there is none, 1.
fn step_of(ranges: &[Range], variable: u32) -> i64
    ensures { result ≡ step_of ranges.now variable }
{
    match ranges.get(variable as usize) {
        Some(range) => range.step,
        None => 1,
    }
}

// Whether one number is the other one's negation.
fn are_opposite(left: i64, right: i64) -> bool
    ensures { result ≡ int_eq left (neg_ℤ right) }
{
    i128::from(left) == -i128::from(right)
}

// Whether one of some terms has a shared variable.
fn has_shared(terms: &[(u32, i64)], shared: &[bool]) -> bool
    ensures { result ≡ has_shared shared.now terms.now }
{
    for place in 0..terms.len() {
        if is_marked(shared, terms[place].0 as usize) {
            return true;
        }
    }
    false
}

// Whether a gate is an equation, by its number.
fn is_equation_at(circuit: &Circuit, number: u32) -> bool
    requires { number < circuit_len circuit.now }
    ensures { result ≡ equation_in
        (own_atoms (formula_at (circuit_formulas circuit.now) number)) }
{
    is_equation(circuit.gate(number))
}

// Whether a gate is an equation.
fn is_equation(gate: Gate) -> bool
    ensures { (terms : List Term) → result ≡ equation_in (own_of terms gate) }
{
    match gate {
        Gate::Compare { relation, .. } => matches!(relation, Relation::Equal),
        _ => false,
    }
}

/// Whether a mark is set; one that isn't there isn't.
pub(crate) fn is_marked(marks: &[bool], number: usize) -> bool
    ensures { result ≡ slice_index_or marks.now number false }
{
    match marks.get(number) {
        Some(mark) => *mark,
        None => false,
    }
}
