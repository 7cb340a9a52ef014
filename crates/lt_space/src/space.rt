//! The constraints of an instant, loaded.

ghost use Rattle.std.specs.Prelude.{◌≡◌, ◌<◌, ◌≤◌, [], true, false, ℕ, None, IfOk, IsTrue, OnOk, OnErr, length, map, nat_lt, vec_capacity};
ghost use Rattle.std.specs.List.{list_all};
ghost use Rattle.lt_num.specs.Bounds.{most_decimals};
ghost use Rattle.lt_formula.specs.Kinds.{variables_of};
ghost use Rattle.lt_formula.specs.Limits.{most_variables};
ghost use Rattle.lt_formula.specs.Table.{spelled};
ghost use Rattle.lt_formula.specs.View.{table_expressions, table_kinds, table_len, valuation_of_known};
ghost use Rattle.lt_space.specs.CircuitView.{circuit_formulas, circuit_len};
ghost use Rattle.lt_space.specs.Formula.{truth};
ghost use Rattle.lt_space.specs.Meaning.{formula_of_all};
ghost use Rattle.lt_space.specs.Size.{most_constraints, most_expressions};
ghost use Rattle.lt_space.specs.inner.Memo.{memo_numbers};
ghost use Rattle.lt_space.specs.inner.Noted.{are_below};
ghost use Rattle.lt_space.specs.inner.Work.{HasWorkRoom, formulas_in, gates_in};

use crate::circuit::Circuit;
use crate::loaded::{Loaded, atom_at};
use crate::loading::load_and_note;
use crate::memo::Memo;
use crate::work::Work;
use lt_formula::{Known, Memory, Table};
use lt_num::Arith;
use std::alloc::Global;

/// The constraints of an instant: what they say of its outputs and locals, as a circuit. All its room is reserved
/// when it is made.
#[derive(Drop)]
pub struct Space {
    work: Work,
    wanted: Vec<u32>,
    noted: Memo,
    root: u32,
    decimals: u32,
    most: usize,
    ghost within: { root < length (formulas_in work) },
    ghost few: { decimals ≤ most_decimals },
    ghost kept: { most ≤ vec_capacity wanted },
    ghost room: { HasWorkRoom most work },
    ghost as_many: { length (memo_numbers noted) ≡ length (gates_in work) },
    ghost below: { IsTrue (are_below (length (formulas_in work)) (memo_numbers noted)) },
}

impl Space {
    ghost use Rattle.lt_space.specs.LoadedView.{loaded_formula, told_atom};
    ghost use Rattle.lt_space.specs.SpaceView.{IsOver, TellsEvaluated, loaded, space_circuit, space_decimals, space_formula, space_gates, space_len, space_most, space_root, space_told, space_wanted};

    /// A space for the expressions of a table, of which there are at most 2^24, over at most 128 outputs and locals
    /// together; with room for at most so many constraints, which are 2^31 or fewer. It has none: its formula is the
    /// truth true.
    ///
    /// # Errors
    ///
    /// Want of memory.
    pub fn make(alloc: Global, table: &Table, most: usize) -> Result<Space, Memory>
        requires few { variables_of (table_kinds table.now) ≤ most_variables }
        requires few_expressions { table_len table.now ≤ most_expressions }
        requires few_constraints { most ≤ most_constraints }
        ensures table { IfOk result (IsOver table.now) }
        ensures wanted { IfOk result (λ space. space_wanted space ≡ []) }
        ensures formula { IfOk result (λ space. space_formula space ≡ truth true) }
        ensures decimals { IfOk result (λ space. space_decimals space ≡ 0) }
        ensures most { IfOk result (λ space. space_most space ≡ most) }
        ensures untold { IfOk result (λ space. (k : ℕ) → space_told space k ≡ None) }
    {
        let expressions = table.len();
        let wanted = Vec::with_capacity(alloc, most)?;
        let noted = Memo::make(alloc, expressions)?;
        let mut work = Work::make(alloc, expressions, table.variables(), most)?;
        let root = work.empty();
        Ok(Space {
            work,
            wanted,
            noted,
            root,
            decimals: 0,
            most,
        })
    }

    /// Loads constraints of a table, by their numbers and in the order of a list: their formula is that of the
    /// constraints joined by `and`. Each expression that isn't known is evaluated at most once; one that is known is
    /// evaluated where it stands, with its parts. It needs no memory, and its time doesn't depend on the size of the
    /// table. Of atoms nothing is told afterwards.
    ///
    /// The table is that of [`Space::make`], or one with as many expressions, outputs and locals.
    ///
    /// # Errors
    ///
    /// The first fault that the evaluation meets, constraint by constraint and from left to right. Then the space has
    /// no constraint, and its formula is the truth true.
    pub fn load(&mut self, table: &Table, wanted: &[u32], known: &Known<'_>) -> Result<(), Arith>
        requires table { IsOver table.now self.old }
        requires few { variables_of (table_kinds table.now) ≤ most_variables }
        requires within { IsTrue (list_all (λ exp. nat_lt exp (table_len table.now)) wanted.now) }
        requires most { length wanted.now ≤ space_most self.old }
        requires decimals { known.now.decimals ≤ most_decimals }
        ensures loads { loaded (space_formula self.new) result ≡
            formula_of_all (valuation_of_known known.now) (table_kinds table.now)
            (map (spelled (table_expressions table.now)) wanted.now) }
        ensures wanted { OnOk result (space_wanted self.new ≡ wanted.now) }
        ensures none { OnErr result (space_wanted self.new ≡ []) }
        ensures empty { OnErr result (space_formula self.new ≡ truth true) }
        ensures decimals { space_decimals self.new ≡ known.now.decimals }
        ensures table_stays { IsOver table.now self.new }
        ensures most_stays { space_most self.new ≡ space_most self.old }
        ensures gates { space_gates self.new ≡ space_gates self.old }
        ensures untold { (k : ℕ) → space_told self.new k ≡ None }
    {
        self.fill(table, wanted, known, false)
    }

    /// Loads constraints as [`Space::load`] does, and takes down what it evaluates, so that [`Space::atom`] can tell.
    ///
    /// # Errors
    ///
    /// Those of [`Space::load`].
    pub fn load_noted(
        &mut self,
        table: &Table,
        wanted: &[u32],
        known: &Known<'_>,
    ) -> Result<(), Arith>
        requires table { IsOver table.now self.old }
        requires few { variables_of (table_kinds table.now) ≤ most_variables }
        requires within { IsTrue (list_all (λ exp. nat_lt exp (table_len table.now)) wanted.now) }
        requires most { length wanted.now ≤ space_most self.old }
        requires decimals { known.now.decimals ≤ most_decimals }
        ensures loads { loaded (space_formula self.new) result ≡
            formula_of_all (valuation_of_known known.now) (table_kinds table.now)
            (map (spelled (table_expressions table.now)) wanted.now) }
        ensures wanted { OnOk result (space_wanted self.new ≡ wanted.now) }
        ensures none { OnErr result (space_wanted self.new ≡ []) }
        ensures empty { OnErr result (space_formula self.new ≡ truth true) }
        ensures decimals { space_decimals self.new ≡ known.now.decimals }
        ensures table_stays { IsOver table.now self.new }
        ensures most_stays { space_most self.new ≡ space_most self.old }
        ensures gates { space_gates self.new ≡ space_gates self.old }
        ensures tells { TellsEvaluated (valuation_of_known known.now) table.now self.new }
    {
        self.fill(table, wanted, known, true)
    }

    // Loads constraints, and takes down what it evaluates where notes are asked for.
    fn fill(
        &mut self,
        table: &Table,
        wanted: &[u32],
        known: &Known<'_>,
        notes: bool,
    ) -> Result<(), Arith>
        requires table { IsOver table.now self.old }
        requires few { variables_of (table_kinds table.now) ≤ most_variables }
        requires within { IsTrue (list_all (λ exp. nat_lt exp (table_len table.now)) wanted.now) }
        requires most { length wanted.now ≤ space_most self.old }
        requires decimals { known.now.decimals ≤ most_decimals }
        ensures loads { loaded (space_formula self.new) result ≡
            formula_of_all (valuation_of_known known.now) (table_kinds table.now)
            (map (spelled (table_expressions table.now)) wanted.now) }
        ensures wanted { OnOk result (space_wanted self.new ≡ wanted.now) }
        ensures none { OnErr result (space_wanted self.new ≡ []) }
        ensures empty { OnErr result (space_formula self.new ≡ truth true) }
        ensures decimals { space_decimals self.new ≡ known.now.decimals }
        ensures table_stays { IsOver table.now self.new }
        ensures most_stays { space_most self.new ≡ space_most self.old }
        ensures gates { space_gates self.new ≡ space_gates self.old }
        ensures tells { notes ≡ true →
            TellsEvaluated (valuation_of_known known.now) table.now self.new }
        ensures untold { notes ≡ false → (k : ℕ) → space_told self.new k ≡ None }
    {
        self.wanted.clear();
        self.decimals = known.decimals;
        match load_and_note(table, wanted, known, notes, &mut self.work, &mut self.noted) {
            Ok(root) => {
                self.root = root;
                self.wanted.extend_from_slice(wanted).unwrap();
                Ok(())
            }
            Err(fault) => {
                self.root = self.work.empty();
                Err(fault)
            }
        }
    }

    /// The constraints that were loaded.
    pub fn wanted(&self) -> &[u32]
        ensures { result.now ≡ space_wanted self.now }
    {
        &self.wanted
    }

    /// The circuit that has their formula.
    pub fn circuit(&self) -> &Circuit
        ensures { result.now ≡ space_circuit self.now }
    {
        &self.work.circuit
    }

    /// The number of the gate of their formula.
    pub fn root(&self) -> u32
        ensures root { result ≡ space_root self.now }
        ensures within { result < circuit_len (space_circuit self.now) }
    {
        self.root
    }

    /// What the last load with notes says of an atom of a constraint that it loaded: a known Boolean, a Boolean variable or a
    /// comparison of numbers, by its number in the table. It is skipped exactly where it wasn't evaluated. Of an
    /// expression that isn't such an atom nothing is promised.
    pub fn atom(&self, exp: u32) -> Loaded<'_>
        requires { exp < space_len self.now }
        ensures { loaded_formula result ≡ told_atom (space_told self.now exp) }
    {
        match self.noted.find(exp) {
            Some(gate) => atom_at(&self.work.circuit, gate),
            None => Loaded::Skipped,
        }
    }

    /// How many decimals a real had in the last load.
    pub fn decimals(&self) -> u32
        ensures decimals { result ≡ space_decimals self.now }
        ensures few { result ≤ most_decimals }
    {
        self.decimals
    }

    /// How many gates its circuit has room for.
    pub fn gates(&self) -> usize
        ensures gates { result ≡ space_gates self.now }
        ensures within { circuit_len (space_circuit self.now) ≤ result }
    {
        self.work.circuit.room()
    }
}
