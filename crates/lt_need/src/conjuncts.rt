//! How many choices the conjuncts of a formula leave together.

ghost use Rattle.std.specs.Prelude.{◌≡◌, ◌<◌, ◌≤◌, ◌+◌, ◌*◌, length, min, suc, slice_index_or, slice_set, take, vec_capacity};
ghost use Rattle.lt_space.specs.CircuitView.{circuit_formulas, circuit_len};
ghost use Rattle.lt_need.specs.declared.faces.Face.TheVariants.{Plain};
ghost use Rattle.lt_need.specs.inner.Conjuncts.{IsSplit, choices_at, most_choices, weighed, weighed_last};
ghost use Rattle.lt_need.specs.inner.Faces.{AreFaces, StandsFor, absorbed_at};
ghost use Rattle.lt_need.specs.inner.GatheringView.{HasRoom, KeepsRoom};

use crate::choices::choices_at;
use crate::faces::{Face, face_at};
use crate::gathering::Gathering;
use lt_space::{Circuit, Gate};

// Where the number of choices stops: 3 to the power of it is past the greatest need.
const MOST_CHOICES: usize = 81;

/// How what a gate comes down to is split into conjuncts.
#[derive(Clone, Copy)]
pub(crate) enum Split {
    /// Into those of an earlier gate.
    Same(u32),

    /// Into those of two earlier gates.
    Both(u32, u32),

    /// Not at all.
    Whole,
}

/// The choices of all conjuncts of what a gate comes down to, stopped at 81. A conjunct counts as often as it is met
/// from there, so each gate has a weight, in reserved room, and hands it on to the parts of a conjunction.
pub(crate) fn choices_of(
    circuit: &Circuit,
    faces: &[Face],
    root: u32,
    weights: &mut Vec<usize>,
    gathering: &mut Gathering,
) -> usize
    requires known { AreFaces (circuit_formulas circuit.now) (length faces.now) faces.now }
    requires within { root < length faces.now }
    requires few { length faces.now ≤ circuit_len circuit.now }
    requires weights { root < vec_capacity weights.old }
    requires room { HasRoom (length faces.now) gathering.old }
    ensures all { result ≡ min (choices_at (circuit_formulas circuit.now) root) most_choices }
    ensures weights { vec_capacity weights.new ≡ vec_capacity weights.old }
    ensures room { KeepsRoom gathering.old gathering.new }
{
    weigh_last(weights, root);
    let mut sum = 0;
    let mut number = root;
    'gates: loop {
        sum = with_gate(sum, circuit, faces, number, weights, gathering);
        if number == 0 {
            return sum;
        }
        number -= 1;
    }
}

// Makes weights up to a number, of which the last one is 1, and the others are 0.
fn weigh_last(weights: &mut Vec<usize>, last: u32)
    requires { last < vec_capacity weights.old }
    ensures items { weights.new.items ≡ weighed_last last }
    ensures capacity { vec_capacity weights.new ≡ vec_capacity weights.old }
{
    weights.clear();
    for _ in 0..last {
        weights.push_reserved(0);
    }
    weights.push_reserved(1);
}

// A sum and the choices of a gate as often as it is weighed, or what its parts are weighed for them.
fn with_gate(
    sum: usize,
    circuit: &Circuit,
    faces: &[Face],
    number: u32,
    weights: &mut Vec<usize>,
    gathering: &mut Gathering,
) -> usize
    requires known { AreFaces (circuit_formulas circuit.now) (length faces.now) faces.now }
    requires within { number < length faces.now }
    requires few { length faces.now ≤ circuit_len circuit.now }
    requires weights { number < length weights.old.items }
    requires room { HasRoom (length faces.now) gathering.old }
    requires most { sum ≤ most_choices }
    ensures all { min (sum + weighed (choices_at (circuit_formulas circuit.now))
        (take (suc number) weights.old.items)) most_choices ≡
        min (result + weighed (choices_at (circuit_formulas circuit.now))
        (take number weights.new.items)) most_choices }
    ensures most { result ≤ most_choices }
    ensures len { length weights.new.items ≡ length weights.old.items }
    ensures weights { vec_capacity weights.new ≡ vec_capacity weights.old }
    ensures room { KeepsRoom gathering.old gathering.new }
{
    let weight = weights[number as usize];
    if weight == 0 {
        return sum;
    }
    match split_at(circuit, faces, number) {
        Split::Same(gate) => {
            weigh(weights, gate, weight);
            sum
        }
        Split::Both(left, right) => {
            weigh(weights, left, weight);
            weigh(weights, right, weight);
            sum
        }
        Split::Whole => with_choices(sum, weight, choices_at(circuit, faces, number, gathering)),
    }
}

// How what a gate comes down to is split into conjuncts.
fn split_at(circuit: &Circuit, faces: &[Face], number: u32) -> Split
    requires known { AreFaces (circuit_formulas circuit.now) (length faces.now) faces.now }
    requires within { number < length faces.now }
    requires few { length faces.now ≤ circuit_len circuit.now }
    ensures { IsSplit (circuit_formulas circuit.now) number result }
{
    match face_at(faces, number) {
        Face::Plain(base) => split_plain(circuit, number, base),
        Face::Known(_) | Face::Denied(_) | Face::Twice(_) => Split::Whole,
    }
}

// The same of a gate that stands for what a gate is.
fn split_plain(circuit: &Circuit, number: u32, base: u32) -> Split
    requires within { number < circuit_len circuit.now }
    requires stands { StandsFor (circuit_formulas circuit.now) (suc number) (Plain base)
        (absorbed_at (circuit_formulas circuit.now) number) }
    ensures { IsSplit (circuit_formulas circuit.now) number result }
{
    if base < number {
        return Split::Same(base);
    }
    match circuit.gate(number) {
        Gate::And(left, right) => Split::Both(left, right),
        _ => Split::Whole,
    }
}

// Adds to the weight of a gate, up to where the number of choices stops; one that isn't there is passed over.
fn weigh(weights: &mut Vec<usize>, number: u32, weight: usize)
    ensures items { weights.new.items ≡ slice_set weights.old.items number
        (min (slice_index_or weights.old.items number 0 + weight) most_choices) }
    ensures len { length weights.new.items ≡ length weights.old.items }
    ensures capacity { vec_capacity weights.new ≡ vec_capacity weights.old }
{
    if (number as usize) < weights.len() {
        let sum = weights[number as usize].saturating_add(weight);
        weights[number as usize] = sum.min(MOST_CHOICES);
    }
}

// A sum and choices as often as they are weighed, stopped.
fn with_choices(sum: usize, weight: usize, choices: usize) -> usize
    ensures { result ≡ min (sum + weight * choices) most_choices }
{
    weight
        .saturating_mul(choices)
        .saturating_add(sum)
        .min(MOST_CHOICES)
}
