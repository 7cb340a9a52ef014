//! How many choices a formula leaves.

ghost use Rattle.std.specs.Prelude.{◌≡◌, ◌<◌, ◌≤◌, length};
ghost use Rattle.lt_space.specs.CircuitView.{circuit_formulas, circuit_len};
ghost use Rattle.lt_need.specs.Need.{atoms_of, choices_in, count_different};
ghost use Rattle.lt_need.specs.inner.Choices.{denied_choices, or_count, plain_choices, unequal_choices};
ghost use Rattle.lt_need.specs.inner.Faces.{AreFaces, absorbed_at};
ghost use Rattle.lt_need.specs.inner.GatheringView.{HasRoom, KeepsRoom};

use crate::counts::count_atoms;
use crate::faces::{Face, face_at};
use crate::gathering::{Gathering, gather};
use lt_space::{Circuit, Gate, Relation};

/// The choices of a conjunct: of what a gate comes down to.
pub(crate) fn choices_at(
    circuit: &Circuit,
    faces: &[Face],
    number: u32,
    gathering: &mut Gathering,
) -> usize
    requires known { AreFaces (circuit_formulas circuit.now) (length faces.now) faces.now }
    requires within { number < length faces.now }
    requires few { length faces.now ≤ circuit_len circuit.now }
    requires room { HasRoom (length faces.now) gathering.old }
    ensures choices { result ≡ choices_in (absorbed_at (circuit_formulas circuit.now) number) }
    ensures room { KeepsRoom gathering.old gathering.new }
{
    match face_at(faces, number) {
        Face::Known(_) => 0,
        Face::Plain(base) => {
            let choices = plain_choices(circuit.gate(base));
            choices_or(choices, circuit, faces, number, gathering)
        }
        Face::Denied(base) => {
            let choices = denied_choices(circuit.gate(base));
            choices_or(choices, circuit, faces, number, gathering)
        }
        Face::Twice(_) => different_at(circuit, faces, number, gathering),
    }
}

// The choices of an atom.
fn plain_choices(gate: Gate) -> Option<usize>
    ensures { result ≡ plain_choices gate }
{
    match gate {
        Gate::Flag(_) | Gate::Compare { .. } => Some(0),
        _ => None,
    }
}

// The choices of the denial of an atom.
fn denied_choices(gate: Gate) -> Option<usize>
    ensures { result ≡ denied_choices gate }
{
    match gate {
        Gate::Flag(_) => Some(0),
        Gate::Compare { relation, .. } => Some(unequal_choices(relation)),
        _ => None,
    }
}

// The choices of the denial of a comparison.
fn unequal_choices(relation: Relation) -> usize
    ensures { result ≡ unequal_choices relation }
{
    match relation {
        Relation::Below | Relation::NotAbove => 0,
        Relation::Equal => 1,
    }
}

// Choices, or else one for each different atom that a gate comes down to.
fn choices_or(
    choices: Option<usize>,
    circuit: &Circuit,
    faces: &[Face],
    number: u32,
    gathering: &mut Gathering,
) -> usize
    requires known { AreFaces (circuit_formulas circuit.now) (length faces.now) faces.now }
    requires within { number < length faces.now }
    requires few { length faces.now ≤ circuit_len circuit.now }
    requires room { HasRoom (length faces.now) gathering.old }
    ensures choices { result ≡ or_count choices
        (count_different (atoms_of (absorbed_at (circuit_formulas circuit.now) number))) }
    ensures room { KeepsRoom gathering.old gathering.new }
{
    match choices {
        Some(choices) => choices,
        None => different_at(circuit, faces, number, gathering),
    }
}

// How many different atoms a gate comes down to.
fn different_at(circuit: &Circuit, faces: &[Face], from: u32, gathering: &mut Gathering) -> usize
    requires known { AreFaces (circuit_formulas circuit.now) (length faces.now) faces.now }
    requires within { from < length faces.now }
    requires few { length faces.now ≤ circuit_len circuit.now }
    requires room { HasRoom (length faces.now) gathering.old }
    ensures different { result ≡
        count_different (atoms_of (absorbed_at (circuit_formulas circuit.now) from)) }
    ensures room { KeepsRoom gathering.old gathering.new }
{
    gather(
        circuit,
        faces,
        from,
        &mut gathering.marks,
        &mut gathering.reached,
    );
    count_atoms(circuit, &gathering.reached, &mut gathering.found)
}
