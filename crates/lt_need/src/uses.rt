//! Which variables several comparisons share.

ghost use Rattle.std.specs.Prelude.{◌≡◌, ◌<◌, ◌||◌, Bool, IsTrue, None, [], if◌then◌else◌, length, nat_lt, slice_index_or, slice_set, true};
ghost use Rattle.lt_formula.specs.Limits.{most_variables};
ghost use Rattle.lt_linear.specs.Form.{Term};
ghost use Rattle.lt_space.specs.Circuit.{are_terms, formula_at};
ghost use Rattle.lt_space.specs.CircuitView.{circuit_formulas, circuit_len};
ghost use Rattle.lt_need.specs.inner.Counts.{AreGates, is_within, own_of};
ghost use Rattle.lt_need.specs.inner.Uses.{AreOwned, AreOwners, UseTest, is_used, passes_some, same_at, several_at, several_in};

use crate::counts::is_same;
use lt_space::{Circuit, Gate};

/// Finds which variables several of these gates use beside others, where the gates aren't the same atom. The first
/// gate that uses a variable is its owner, and any other one is compared with that alone.
pub(crate) fn find_shared(
    circuit: &Circuit,
    atoms: &[u32],
    owners: &mut Vec<Option<u32>>,
    shared: &mut Vec<bool>,
)
    requires gates { AreGates (circuit_len circuit.now) atoms.now }
    requires owners { length owners.old.items ≡ most_variables }
    requires shared { length shared.old.items ≡ most_variables }
    ensures owned { AreOwned (circuit_formulas circuit.now)
        (is_used (circuit_formulas circuit.now) atoms.now) owners.new.items shared.new.items }
    ensures owners { length owners.new.items ≡ most_variables }
    ensures shared { length shared.new.items ≡ most_variables }
{
    owners.fill(None);
    shared.fill(false);
    for place in 0..atoms.len() {
        note_uses(circuit, atoms[place], owners, shared);
    }
}

// Notes the variables that a gate uses beside others.
fn note_uses(circuit: &Circuit, number: u32, owners: &mut Vec<Option<u32>>, shared: &mut Vec<bool>)
    requires number { number < circuit_len circuit.now }
    requires gates { AreOwners (circuit_len circuit.now) owners.old.items }
    requires owners { length owners.old.items ≡ most_variables }
    requires shared { length shared.old.items ≡ most_variables }
    ensures gates { AreOwners (circuit_len circuit.now) owners.new.items }
    ensures owned { (used : UseTest → Bool) →
        AreOwned (circuit_formulas circuit.now) used owners.old.items shared.old.items →
        AreOwned (circuit_formulas circuit.now) (λ test. used test ||
        passes_some test number (several_at (circuit_formulas circuit.now) number))
        owners.new.items shared.new.items }
    ensures owners { length owners.new.items ≡ most_variables }
    ensures shared { length shared.new.items ≡ most_variables }
{
    let terms = several_at(circuit, number);
    for place in 0..terms.len() {
        note_use(circuit, number, terms[place].0, owners, shared);
    }
}

// Notes a variable that a gate uses beside others.
fn note_use(
    circuit: &Circuit,
    number: u32,
    variable: u32,
    owners: &mut Vec<Option<u32>>,
    shared: &mut Vec<bool>,
)
    requires number { number < circuit_len circuit.now }
    requires atom { same_at (circuit_formulas circuit.now) number number ≡ true }
    requires variable { variable < most_variables }
    requires gates { AreOwners (circuit_len circuit.now) owners.old.items }
    requires owners { length owners.old.items ≡ most_variables }
    requires shared { length shared.old.items ≡ most_variables }
    ensures gates { AreOwners (circuit_len circuit.now) owners.new.items }
    ensures owned { (used : UseTest → Bool) →
        AreOwned (circuit_formulas circuit.now) used owners.old.items shared.old.items →
        AreOwned (circuit_formulas circuit.now) (λ test. used test || test number variable)
        owners.new.items shared.new.items }
    ensures owners { length owners.new.items ≡ most_variables }
    ensures shared { length shared.new.items ≡ most_variables }
{
    match owner_of(owners, variable) {
        None => owners[variable as usize] = Some(number),
        Some(owner) => note_other(circuit, number, owner, variable, shared),
    }
}

// Notes that a variable is shared, if its owner isn't the same atom as a gate.
fn note_other(circuit: &Circuit, number: u32, owner: u32, variable: u32, shared: &mut Vec<bool>)
    requires number { number < circuit_len circuit.now }
    requires owner { owner < circuit_len circuit.now }
    requires variable { variable < length shared.old.items }
    ensures items { shared.new.items ≡
        if same_at (circuit_formulas circuit.now) number owner then shared.old.items
        else slice_set shared.old.items variable true }
{
    if !is_same(circuit, number, owner) {
        shared[variable as usize] = true;
    }
}

// The owner of a variable.
fn owner_of(owners: &[Option<u32>], variable: u32) -> Option<u32>
    ensures { result ≡ slice_index_or owners.now variable None }
{
    match owners.get(variable as usize) {
        Some(owner) => *owner,
        None => None,
    }
}

/// The terms of a gate that compares several variables; another one has none.
pub(crate) fn several_at<'a>(circuit: &'a Circuit, number: u32) -> &'a [(u32, i64)]
    requires { number < circuit_len circuit.now }
    ensures terms { result.now ≡ several_at (circuit_formulas circuit.now) number }
    ensures exact { IsTrue (are_terms result.now) }
{
    several_of(circuit.terms(), circuit.gate(number))
}

// The same of a gate over terms.
fn several_of<'a>(terms: &'a [(u32, i64)], gate: Gate) -> &'a [(u32, i64)]
    requires within { is_within (length terms.now) gate ≡ true }
    requires exact { IsTrue (are_terms terms.now) }
    ensures terms { result.now ≡ several_in (own_of terms.now gate) }
    ensures exact { IsTrue (are_terms result.now) }
{
    match gate {
        Gate::Compare { first, after, .. } => { several(&terms[first as usize..after as usize]) }
        _ => &[],
    }
}

// Terms, if they are several, and else none.
fn several<'a>(terms: &'a [(u32, i64)]) -> &'a [(u32, i64)]
    ensures { result.now ≡ if nat_lt 1 (length terms.now) then terms.now else [] }
{
    if terms.len() > 1 { terms } else { &[] }
}
