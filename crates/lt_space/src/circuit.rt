//! Formulas as lists of gates.

ghost use Rattle.std.specs.Prelude.{◌≡◌, ◌≤◌, ◌<◌, ◌+◌, ◌++◌, ◌^◌, ◌∷◌, [], IfOk, IsTrue, length, min, vec_capacity, vec_len};
ghost use Rattle.lt_linear.specs.Draft.{lent_form};
ghost use Rattle.lt_space.specs.declared.formula.Atom.TheVariants.{Compare};
ghost use Rattle.lt_space.specs.Circuit.{are_terms, are_sound, formula_at, gate_formula, gate_fits, is_exact_form};
ghost use Rattle.lt_space.specs.Formula.{atom};

use crate::formula::Relation;
use lt_linear::{Form, FormRef};
use std::alloc::{AllocError, Global};

/// A part of a circuit. Its own parts are gates with smaller numbers.
#[derive(Clone, Copy)]
pub enum Gate {
    /// A truth.
    Truth(bool),

    /// A Boolean variable, by its number.
    Flag(u32),

    /// A form that is compared with 0.
    Compare {
        /// How it is compared.
        relation: Relation,

        /// The place of its first term among the circuit's terms.
        first: u32,

        /// The place behind its last term.
        after: u32,

        /// Its raw constant.
        constant: i64,
    },

    /// `not`
    Not(u32),

    /// `and`
    And(u32, u32),

    /// `or`
    Or(u32, u32),

    /// `xor`
    Xor(u32, u32),

    /// `if`, with the condition first.
    If(u32, u32, u32),
}

/// Formulas as a list of gates, in which parts stand before wholes. It only grows, unless it is cleared.
///
/// Its variables have numbers below 128. A comparison has at most 128 terms, no coefficient is past 2 * 10^18
/// in size, and no constant past 2 * 10^12.
#[derive(Drop)]
pub struct Circuit {
    gates: Vec<Gate>,
    terms: Vec<(u32, i64)>,
    ghost few: { length gates.items ≤ 2 ^ 32 },
    ghost few_terms: { length terms.items < 2 ^ 32 },
    ghost sound: { IsTrue (are_sound (length terms.items) 0 gates.items) },
    ghost exact: { IsTrue (are_terms terms.items) },
}

impl Circuit {
    ghost use Rattle.lt_space.specs.CircuitView.{circuit_formulas, circuit_len, circuit_room, circuit_terms, circuit_terms_room};

    /// A circuit without gates, with room for so many of them and for so many terms, but not for more than have
    /// a number: 2^32 gates and one term less.
    ///
    /// # Errors
    ///
    /// Want of memory.
    pub fn make(alloc: Global, gates: usize, terms: usize) -> Result<Circuit, AllocError>
        ensures formulas { IfOk result (λ circuit. circuit_formulas circuit ≡ []) }
        ensures len { IfOk result (λ circuit. circuit_len circuit ≡ 0) }
        ensures terms { IfOk result (λ circuit. circuit_terms circuit ≡ []) }
        ensures room { IfOk result (λ circuit. circuit_room circuit ≡ min gates 4_294_967_296) }
        ensures terms_room { IfOk result (λ circuit. circuit_terms_room circuit ≡
            min terms 4_294_967_295) }
    {
        Ok(Circuit {
            gates: Vec::with_capacity(alloc, gates)?,
            terms: Vec::with_capacity(alloc, terms)?,
        })
    }

    /// Takes all gates and terms away, and keeps the room.
    pub fn clear(&mut self)
        ensures formulas { circuit_formulas self.new ≡ [] }
        ensures len { circuit_len self.new ≡ 0 }
        ensures terms { circuit_terms self.new ≡ [] }
        ensures room { circuit_room self.new ≡ circuit_room self.old }
        ensures terms_room { circuit_terms_room self.new ≡ circuit_terms_room self.old }
    {
        self.gates.clear();
        self.terms.clear();
    }

    /// How many gates it has.
    pub fn len(&self) -> usize
        ensures len { result ≡ circuit_len self.now }
        ensures few { result ≤ 2 ^ 32 }
        ensures formulas { result ≡ length (circuit_formulas self.now) }
    {
        self.gates.len()
    }

    /// How many gates it has room for.
    pub fn room(&self) -> usize
        ensures room { result ≡ circuit_room self.now }
        ensures len { circuit_len self.now ≤ result }
    {
        self.gates.capacity().min(1 << 32)
    }

    /// A gate.
    pub fn gate(&self, number: u32) -> Gate
        requires { number < circuit_len self.now }
        ensures formula { formula_at (circuit_formulas self.now) number ≡
            gate_formula (circuit_terms self.now) (circuit_formulas self.now) result }
        ensures fits { IsTrue (gate_fits (length (circuit_terms self.now)) number result) }
    {
        self.gates[number as usize]
    }

    /// The terms of all comparisons.
    pub fn terms(&self) -> &[(u32, i64)]
        ensures terms { result.now ≡ circuit_terms self.now }
        ensures exact { IsTrue (are_terms result.now) }
        ensures few { length result.now < 2 ^ 32 }
    {
        &self.terms
    }

    /// Puts a gate behind those that are there, in reserved room, and answers its number.
    pub fn push(&mut self, gate: Gate) -> u32
        requires fits { IsTrue (gate_fits (length (circuit_terms self.old)) (circuit_len self.old)
            gate) }
        requires room { circuit_len self.old < circuit_room self.old }
        ensures number { result ≡ circuit_len self.old }
        ensures formulas { circuit_formulas self.new ≡ circuit_formulas self.old ++
            gate_formula (circuit_terms self.old) (circuit_formulas self.old) gate ∷ [] }
        ensures len { circuit_len self.new ≡ circuit_len self.old + 1 }
        ensures terms { circuit_terms self.new ≡ circuit_terms self.old }
        ensures room { circuit_room self.new ≡ circuit_room self.old }
        ensures terms_room { circuit_terms_room self.new ≡ circuit_terms_room self.old }
    {
        let number = self.gates.len() as u32;
        self.gates.push_reserved(gate);
        number
    }

    /// Puts a comparison of a form with 0 behind the gates that are there, in reserved room, and answers its
    /// number.
    pub fn push_comparison(&mut self, relation: Relation, form: &Form) -> u32
        requires exact { IsTrue (is_exact_form form.now) }
        requires room { circuit_len self.old < circuit_room self.old }
        requires terms_room { length (circuit_terms self.old) + length form.now.terms ≤
            circuit_terms_room self.old }
        ensures number { result ≡ circuit_len self.old }
        ensures formulas { circuit_formulas self.new ≡ circuit_formulas self.old ++
            atom (Compare form.now relation) ∷ [] }
        ensures len { circuit_len self.new ≡ circuit_len self.old + 1 }
        ensures terms { circuit_terms self.new ≡ circuit_terms self.old ++ form.now.terms }
        ensures room { circuit_room self.new ≡ circuit_room self.old }
        ensures terms_room { circuit_terms_room self.old ≤ circuit_terms_room self.new }
    {
        self.push_lent(relation, form.lend())
    }

    /// The same of a form that is lent.
    pub fn push_lent(&mut self, relation: Relation, form: FormRef<'_>) -> u32
        requires exact { IsTrue (is_exact_form (lent_form form)) }
        requires room { circuit_len self.old < circuit_room self.old }
        requires terms_room { length (circuit_terms self.old) + length form.terms.now ≤
            circuit_terms_room self.old }
        ensures number { result ≡ circuit_len self.old }
        ensures formulas { circuit_formulas self.new ≡ circuit_formulas self.old ++
            atom (Compare (lent_form form.entry) relation) ∷ [] }
        ensures len { circuit_len self.new ≡ circuit_len self.old + 1 }
        ensures terms { circuit_terms self.new ≡ circuit_terms self.old ++ form.entry.terms.now }
        ensures room { circuit_room self.new ≡ circuit_room self.old }
        ensures terms_room { circuit_terms_room self.old ≤ circuit_terms_room self.new }
    {
        let first = self.terms.len() as u32;
        let count = form.terms.len() as u32;
        self.push_terms(form.terms);
        self.push(Gate::Compare {
            relation,
            first,
            after: first + count,
            constant: form.constant,
        })
    }

    // Puts terms behind those that are there, in reserved room.
    fn push_terms(&mut self, terms: &[(u32, i64)])
        requires exact { IsTrue (are_terms terms.now) }
        requires room { length (circuit_terms self.old) + length terms.now ≤
            circuit_terms_room self.old }
        ensures formulas { circuit_formulas self.new ≡ circuit_formulas self.old }
        ensures len { circuit_len self.new ≡ circuit_len self.old }
        ensures terms { circuit_terms self.new ≡ circuit_terms self.old ++ terms.now }
        ensures room { circuit_room self.new ≡ circuit_room self.old }
        ensures terms_room { circuit_terms_room self.old ≤ circuit_terms_room self.new }
    {
        append(&mut self.terms, terms);
    }
}

/// Puts terms behind others, in reserved room.
pub(crate) fn append(terms: &mut Vec<(u32, i64)>, more: &[(u32, i64)])
    requires { vec_len terms.old + length more.now ≤ vec_capacity terms.old }
    ensures items { terms.new.items ≡ terms.old.items ++ more.now }
    ensures capacity { vec_capacity terms.old ≤ vec_capacity terms.new }
{
    terms.extend_from_slice(more).unwrap();
}
