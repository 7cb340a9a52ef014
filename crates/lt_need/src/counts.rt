//! How many different atoms gates have.

ghost use Rattle.std.specs.Prelude.{◌≡◌, ◌<◌, ◌≤◌, ◌++◌, ◌&&◌, suc, false, true, [], nat_eq, if◌then◌else◌, length, slice_index_or, vec_capacity, vec_len};
ghost use Rattle.std.specs.List.{list_any};
ghost use Rattle.std.specs.Ordering.{int_eq};
ghost use Rattle.lt_space.specs.Circuit.{formula_at};
ghost use Rattle.lt_space.specs.CircuitView.{circuit_formulas, circuit_len};
ghost use Rattle.lt_space.specs.declared.formula.Atom.TheVariants.{Compare, Flag};
ghost use Rattle.lt_need.specs.Need.{count_different, same_atom, same_relation, same_terms};
ghost use Rattle.lt_need.specs.inner.Counts.{AreGates, found_atoms, is_among, is_atom, is_within, own_of};
ghost use Rattle.lt_need.specs.inner.Marks.{HaveSame, own_atoms};

use lt_space::{Circuit, Gate, Relation};

/// How many different atoms gates have, in reserved room.
pub(crate) fn count_atoms(circuit: &Circuit, atoms: &[u32], found: &mut Vec<u32>) -> usize
    requires gates { AreGates (circuit_len circuit.now) atoms.now }
    requires room { length atoms.now ≤ vec_capacity found.old }
    ensures count { result ≡ count_different
        (found_atoms (circuit_formulas circuit.now) atoms.now) }
    ensures room { vec_capacity found.new ≡ vec_capacity found.old }
{
    found.clear();
    for place in 0..atoms.len() {
        note(circuit, atoms[place], found);
    }
    found.len()
}

// Notes a gate, if it is an atom that isn't noted yet.
fn note(circuit: &Circuit, number: u32, found: &mut Vec<u32>)
    requires within { number < circuit_len circuit.now }
    requires gates { AreGates (circuit_len circuit.now) found.old.items }
    requires room { vec_len found.old < vec_capacity found.old }
    ensures atoms { HaveSame (found_atoms (circuit_formulas circuit.now) found.new.items)
        (found_atoms (circuit_formulas circuit.now) found.old.items ++
        own_atoms (formula_at (circuit_formulas circuit.now) number)) }
    ensures different { count_different (found_atoms (circuit_formulas circuit.now)
        found.old.items) ≡ length found.old.items →
        count_different (found_atoms (circuit_formulas circuit.now) found.new.items) ≡
        length found.new.items }
    ensures gates { AreGates (circuit_len circuit.now) found.new.items }
    ensures len { length found.new.items ≤ suc (length found.old.items) }
    ensures room { vec_capacity found.new ≡ vec_capacity found.old }
{
    if !is_atom(circuit.gate(number)) {
        return;
    }
    if is_found(circuit, number, found) {
        return;
    }
    found.push_reserved(number);
}

/// Whether a gate is an atom.
pub(crate) fn is_atom(gate: Gate) -> bool
    ensures { result ≡ is_atom gate }
{
    matches!(gate, Gate::Flag(_) | Gate::Compare { .. })
}

// Whether the atom of a gate is that of one of these.
fn is_found(circuit: &Circuit, number: u32, found: &[u32]) -> bool
    requires within { number < circuit_len circuit.now }
    requires gates { AreGates (circuit_len circuit.now) found.now }
    ensures { result ≡ is_among (own_atoms (formula_at (circuit_formulas circuit.now) number))
        (found_atoms (circuit_formulas circuit.now) found.now) }
{
    for place in 0..found.len() {
        if is_same(circuit, number, found[place]) {
            return true;
        }
    }
    false
}

/// Whether two gates are the same atom.
pub(crate) fn is_same(circuit: &Circuit, left: u32, right: u32) -> bool
    requires left { left < circuit_len circuit.now }
    requires right { right < circuit_len circuit.now }
    ensures { result ≡ is_among (own_atoms (formula_at (circuit_formulas circuit.now) left))
        (own_atoms (formula_at (circuit_formulas circuit.now) right)) }
{
    are_same(circuit.terms(), circuit.gate(left), circuit.gate(right))
}

// Whether two gates are the same atom.
fn are_same(terms: &[(u32, i64)], left: Gate, right: Gate) -> bool
    requires left { is_within (length terms.now) left ≡ true }
    requires right { is_within (length terms.now) right ≡ true }
    ensures { result ≡ is_among (own_of terms.now left) (own_of terms.now right) }
{
    match left {
        Gate::Flag(variable) => is_flag(terms, right, variable),
        Gate::Compare {
            relation,
            first,
            after,
            constant,
        } => is_comparison(
            terms,
            right,
            relation,
            &terms[first as usize..after as usize],
            constant,
        ),
        _ => false,
    }
}

// Whether a gate is a flag.
fn is_flag(terms: &[(u32, i64)], gate: Gate, variable: u32) -> bool
    ensures { result ≡ list_any (same_atom (Flag variable)) (own_of terms.now gate) }
{
    match gate {
        Gate::Flag(other) => variable == other,
        _ => false,
    }
}

// Whether a gate is a comparison.
fn is_comparison(
    terms: &[(u32, i64)],
    gate: Gate,
    relation: Relation,
    own: &[(u32, i64)],
    constant: i64,
) -> bool
    requires { is_within (length terms.now) gate ≡ true }
    ensures { result ≡ list_any
        (same_atom (Compare (record { terms = own.now; constant = constant }) relation))
        (own_of terms.now gate) }
{
    match gate {
        Gate::Compare {
            relation: other,
            first,
            after,
            constant: another,
        } => is_alike(
            relation,
            other,
            constant,
            another,
            own,
            &terms[first as usize..after as usize],
        ),
        _ => false,
    }
}

// Whether two comparisons are the same.
fn is_alike(
    relation: Relation,
    other: Relation,
    constant: i64,
    another: i64,
    left: &[(u32, i64)],
    right: &[(u32, i64)],
) -> bool
    ensures { result ≡ same_atom
        (Compare (record { terms = left.now; constant = constant }) relation)
        (Compare (record { terms = right.now; constant = another }) other) }
{
    same_relation(relation, other) && (constant == another && same_terms(left, right))
}

// Whether two relations are the same.
fn same_relation(left: Relation, right: Relation) -> bool
    ensures { result ≡ same_relation left right }
{
    match (left, right) {
        (Relation::Below, Relation::Below)
        | (Relation::NotAbove, Relation::NotAbove)
        | (Relation::Equal, Relation::Equal) => true,
        _ => false,
    }
}

// Whether terms are the same.
fn same_terms(left: &[(u32, i64)], right: &[(u32, i64)]) -> bool
    ensures { result ≡ same_terms left.now right.now }
{
    if left.len() != right.len() {
        return false;
    }
    for place in 0..left.len() {
        if !same_term(left[place], right[place]) {
            return false;
        }
    }
    true
}

// Whether two terms are the same.
fn same_term(left: (u32, i64), right: (u32, i64)) -> bool
    ensures { result ≡ (nat_eq left.0 right.0 && int_eq left.1 right.1) }
{
    left.0 == right.0 && left.1 == right.1
}
