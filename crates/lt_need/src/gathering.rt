//! The atoms that gates come down to once truths are absorbed.

ghost use Rattle.std.specs.Prelude.{◌≡◌, ◌<◌, ◌≤◌, ◌∷◌, [], ℕ, length, slice_index_or, vec_capacity};
ghost use Rattle.lt_space.specs.Circuit.{formula_at};
ghost use Rattle.lt_space.specs.CircuitView.{circuit_formulas, circuit_len};
ghost use Rattle.lt_need.specs.Need.{atoms_of};
ghost use Rattle.lt_need.specs.inner.Counts.{AreGates, found_atoms};
ghost use Rattle.lt_need.specs.inner.Faces.{AreFaces, absorbed_at};
ghost use Rattle.lt_need.specs.inner.Marks.{AreUnmarked, HaveSame};
ghost use Rattle.lt_need.specs.inner.Reached.{AreReached, HaveSameAtoms, IsIn, IsLonger, IsSpread, Reaches, choice_parts, gate_parts, own_parts, parts_of};

use crate::faces::{Face, face_at};
use lt_space::{Circuit, Gate};

/// Room to gather atoms in.
#[derive(Drop)]
pub(crate) struct Gathering {
    /// A mark for each gate. Between two calls none is set.
    pub(crate) marks: Vec<bool>,

    /// The gates that were reached.
    pub(crate) reached: Vec<u32>,

    /// Those of them that are different atoms.
    pub(crate) found: Vec<u32>,
}

/// Those parts of a gate that it comes down to.
#[derive(Clone, Copy)]
pub(crate) enum Parts {
    /// None.
    Nothing,

    /// One.
    One(u32),

    /// Two.
    Two(u32, u32),

    /// Three.
    Three(u32, u32, u32),
}

/// Gathers the gates that a gate comes down to, each once and in reserved room: the atoms among them are its own. No
/// mark is set before, and none afterwards.
pub(crate) fn gather(
    circuit: &Circuit,
    faces: &[Face],
    from: u32,
    marks: &mut Vec<bool>,
    reached: &mut Vec<u32>,
)
    requires known { AreFaces (circuit_formulas circuit.now) (length faces.now) faces.now }
    requires within { from < length faces.now }
    requires few { length faces.now ≤ circuit_len circuit.now }
    requires marks { length faces.now ≤ length marks.old.items }
    requires unmarked { AreUnmarked marks.old.items }
    requires room { length marks.old.items ≤ vec_capacity reached.old }
    ensures atoms { HaveSame (atoms_of (absorbed_at (circuit_formulas circuit.now) from))
        (found_atoms (circuit_formulas circuit.now) reached.new.items) }
    ensures gates { AreGates (circuit_len circuit.now) reached.new.items }
    ensures few { length reached.new.items ≤ length marks.new.items }
    ensures unmarked { AreUnmarked marks.new.items }
    ensures len { length marks.new.items ≡ length marks.old.items }
    ensures room { vec_capacity reached.new ≡ vec_capacity reached.old }
{
    spread(circuit, faces, from, marks, reached);
    unmark(marks, reached);
}

// Reaches the gates that a gate comes down to, and marks them.
fn spread(
    circuit: &Circuit,
    faces: &[Face],
    from: u32,
    marks: &mut Vec<bool>,
    reached: &mut Vec<u32>,
)
    requires known { AreFaces (circuit_formulas circuit.now) (length faces.now) faces.now }
    requires within { from < length faces.now }
    requires few { length faces.now ≤ circuit_len circuit.now }
    requires marks { length faces.now ≤ length marks.old.items }
    requires unmarked { AreUnmarked marks.old.items }
    requires room { length marks.old.items ≤ vec_capacity reached.old }
    ensures atoms { HaveSame (atoms_of (absorbed_at (circuit_formulas circuit.now) from))
        (found_atoms (circuit_formulas circuit.now) reached.new.items) }
    ensures reached { AreReached marks.new.items reached.new.items }
    ensures gates { AreGates (length faces.now) reached.new.items }
    ensures len { length marks.new.items ≡ length marks.old.items }
    ensures room { vec_capacity reached.new ≡ vec_capacity reached.old }
{
    reached.clear();
    reach(from, marks, reached);
    let mut place = 0;
    while place < reached.len() {
        visit(circuit, faces, reached[place], marks, reached);
        place += 1;
    }
}

// Takes the marks of gates away.
fn unmark(marks: &mut Vec<bool>, reached: &[u32])
    requires reached { AreReached marks.old.items reached.now }
    requires gates { AreGates (length marks.old.items) reached.now }
    ensures unmarked { AreUnmarked marks.new.items }
    ensures len { length marks.new.items ≡ length marks.old.items }
{
    for place in 0..reached.len() {
        marks[reached[place] as usize] = false;
    }
}

// Reaches the parts that a gate comes down to.
fn visit(
    circuit: &Circuit,
    faces: &[Face],
    number: u32,
    marks: &mut Vec<bool>,
    reached: &mut Vec<u32>,
)
    requires known { AreFaces (circuit_formulas circuit.now) (length faces.now) faces.now }
    requires within { number < length faces.now }
    requires few { length faces.now ≤ circuit_len circuit.now }
    requires marks { length faces.now ≤ length marks.old.items }
    requires room { length marks.old.items ≤ vec_capacity reached.old }
    requires reached { AreReached marks.old.items reached.old.items }
    requires own { IsIn reached.old.items number }
    requires gates { AreGates (length faces.now) reached.old.items }
    ensures spread { IsSpread (circuit_formulas circuit.now) reached.new.items number }
    ensures same { HaveSameAtoms (circuit_formulas circuit.now) reached.old.items
        reached.new.items }
    ensures more { IsLonger reached.old.items reached.new.items }
    ensures reached { AreReached marks.new.items reached.new.items }
    ensures gates { AreGates (length faces.now) reached.new.items }
    ensures len { length marks.new.items ≡ length marks.old.items }
    ensures room { vec_capacity reached.new ≡ vec_capacity reached.old }
{
    let parts = own_parts(face_at(faces, number), circuit.gate(number), faces);
    reach_all(parts, marks, reached);
}

// Those parts of a gate that it comes down to; of one that stands for a truth they are none.
fn own_parts(face: Face, gate: Gate, faces: &[Face]) -> Parts
    ensures { parts_of result ≡ own_parts face faces.now gate }
{
    match face {
        Face::Known(_) => Parts::Nothing,
        Face::Plain(_) | Face::Denied(_) | Face::Twice(_) => gate_parts(gate, faces),
    }
}

// Those of a gate that stands for no truth.
fn gate_parts(gate: Gate, faces: &[Face]) -> Parts
    ensures { parts_of result ≡ gate_parts faces.now gate }
{
    match gate {
        Gate::Truth(_) | Gate::Flag(_) | Gate::Compare { .. } => Parts::Nothing,
        Gate::Not(part) => Parts::One(part),
        Gate::And(left, right) | Gate::Or(left, right) | Gate::Xor(left, right) => {
            Parts::Two(left, right)
        }
        Gate::If(condition, first, second) => {
            choice_parts(face_at(faces, condition), condition, first, second)
        }
    }
}

// Those of an `if`.
fn choice_parts(face: Face, condition: u32, first: u32, second: u32) -> Parts
    ensures { parts_of result ≡ choice_parts face condition first second }
{
    match face {
        Face::Known(true) => Parts::One(first),
        Face::Known(false) => Parts::One(second),
        Face::Plain(_) | Face::Denied(_) | Face::Twice(_) => {
            Parts::Three(condition, first, second)
        }
    }
}

// Reaches parts.
fn reach_all(parts: Parts, marks: &mut Vec<bool>, reached: &mut Vec<u32>)
    requires within { (n : ℕ) → IsIn (parts_of parts) n → n < length marks.old.items }
    requires reached { AreReached marks.old.items reached.old.items }
    requires room { length marks.old.items ≤ vec_capacity reached.old }
    ensures reaches { Reaches reached.old.items reached.new.items (parts_of parts) }
    ensures reached { AreReached marks.new.items reached.new.items }
    ensures len { length marks.new.items ≡ length marks.old.items }
    ensures room { vec_capacity reached.new ≡ vec_capacity reached.old }
{
    match parts {
        Parts::Nothing => {}
        Parts::One(part) => reach(part, marks, reached),
        Parts::Two(left, right) => {
            reach(left, marks, reached);
            reach(right, marks, reached);
        }
        Parts::Three(condition, first, second) => {
            reach(condition, marks, reached);
            reach(first, marks, reached);
            reach(second, marks, reached);
        }
    }
}

// Reaches a gate and marks it, if it has no mark yet.
fn reach(number: u32, marks: &mut Vec<bool>, reached: &mut Vec<u32>)
    requires within { number < length marks.old.items }
    requires reached { AreReached marks.old.items reached.old.items }
    requires room { length marks.old.items ≤ vec_capacity reached.old }
    ensures reaches { Reaches reached.old.items reached.new.items (number ∷ []) }
    ensures reached { AreReached marks.new.items reached.new.items }
    ensures len { length marks.new.items ≡ length marks.old.items }
    ensures room { vec_capacity reached.new ≡ vec_capacity reached.old }
{
    if marks[number as usize] {
        return;
    }
    marks[number as usize] = true;
    reached.push_reserved(number);
}
