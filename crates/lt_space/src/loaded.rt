//! What a load says of atoms.

ghost use Rattle.std.specs.Prelude.{◌≡◌, ◌<◌};
ghost use Rattle.lt_space.specs.Circuit.{formula_at};
ghost use Rattle.lt_space.specs.CircuitView.{circuit_formulas, circuit_len};
ghost use Rattle.lt_space.specs.LoadedView.{atom_of, loaded_formula, plain_atom_of};

use crate::circuit::{Circuit, Gate};
use crate::formula::Relation;
use lt_linear::FormRef;

/// What a load says of an atom of a constraint.
#[derive(Clone, Copy)]
pub enum Loaded<'a> {
    /// The load didn't evaluate it.
    Skipped,

    /// It is a known Boolean, with this truth.
    Truth(bool),

    /// It is a Boolean variable, by its number.
    Flag(u32),

    /// It is this form, compared with 0. Of `a <> b` it is what `a = b` says.
    Compare(FormRef<'a>, Relation),
}

/// The atom that a gate is, or that it denies. It is skipped where there is none.
pub(crate) fn atom_at(circuit: &Circuit, number: u32) -> Loaded<'_>
    requires { number < circuit_len circuit.now }
    ensures { loaded_formula result ≡ atom_of (formula_at (circuit_formulas circuit.now) number) }
{
    match circuit.gate(number) {
        Gate::Not(part) => plain_atom_at(circuit, part),
        _ => plain_atom_at(circuit, number),
    }
}

// The atom that a gate is. It is skipped where it is none.
fn plain_atom_at(circuit: &Circuit, number: u32) -> Loaded<'_>
    requires { number < circuit_len circuit.now }
    ensures { loaded_formula result ≡
        plain_atom_of (formula_at (circuit_formulas circuit.now) number) }
{
    match circuit.gate(number) {
        Gate::Truth(truth) => Loaded::Truth(truth),
        Gate::Flag(variable) => Loaded::Flag(variable),
        Gate::Compare {
            relation,
            first,
            after,
            constant,
        } => Loaded::Compare(
            FormRef {
                terms: &circuit.terms()[first as usize..after as usize],
                constant,
            },
            relation,
        ),
        _ => Loaded::Skipped,
    }
}
