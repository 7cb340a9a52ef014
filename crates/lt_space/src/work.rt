//! The gates of Booleans while constraints are loaded.

ghost use Rattle.std.specs.Prelude.{◌≡◌, ◌<◌, ◌≤◌, ◌+◌, true, IfOk, Ok, length};
ghost use Rattle.lt_num.specs.Bounds.{most_decimals};
ghost use Rattle.lt_formula.specs.Limits.{most_variables};
ghost use Rattle.lt_linear.specs.Draft.{draft_room};
ghost use Rattle.lt_space.specs.Circuit.{formula_at};
ghost use Rattle.lt_space.specs.CircuitView.{circuit_formulas, circuit_room};
ghost use Rattle.lt_space.specs.Formula.{truth};
ghost use Rattle.lt_space.specs.Meaning.{compared, comparison, connected};
ghost use Rattle.lt_space.specs.Size.{most_constraints, most_expressions};
ghost use Rattle.lt_space.specs.inner.Place.{form_at};
ghost use Rattle.lt_space.specs.inner.Measures.{AreForms, IsRedrafted, measured};
ghost use Rattle.lt_space.specs.inner.Pushed.{HasGates, HasTerms, IsPushed};
ghost use Rattle.lt_space.specs.inner.Work.{HasWorkRoom, IsCleared, LoadTells, gates_in};

use crate::building::factor_of;
use crate::circuit::{Circuit, Gate};
use crate::formula::Relation;
use crate::measures::Measures;
use crate::memo::Memo;
use lt_formula::BinaryOperator;
use lt_num::Kind;
use std::alloc::{AllocError, Global};

/// The gates of Booleans, each of them once, with the number of its gate for each expression; and the forms of
/// numbers.
#[derive(Drop)]
pub(crate) struct Work {
    pub(crate) circuit: Circuit,
    pub(crate) memo: Memo,
    pub(crate) measures: Measures,
}

impl Work {
    /// Room for so many expressions over so many variables, and for so many constraints at once. Nothing is kept.
    pub(crate) fn make(
        alloc: Global,
        expressions: usize,
        variables: usize,
        most: usize,
    ) -> Result<Work, AllocError>
        requires expressions { expressions ≤ most_expressions }
        requires variables { variables ≤ most_variables }
        requires most { most ≤ most_constraints }
        ensures room { IfOk result (λ work. HasWorkRoom most work) }
        ensures len { IfOk result (λ work. length (gates_in work) ≡ expressions) }
        ensures variables { IfOk result (λ work. work.measures.variables ≡ variables) }
    {
        let memo = Memo::make(alloc, expressions)?;
        let circuit = Circuit::make(alloc, expressions * 2 + most + 1, expressions * variables)?;
        let measures = Measures::make(alloc, expressions, variables)?;
        Ok(Work {
            circuit,
            memo,
            measures,
        })
    }

    /// Takes all away.
    pub(crate) fn clear(&mut self)
        ensures { IsCleared self.old self.new }
    {
        self.circuit.clear();
        self.memo.clear();
        self.measures.clear();
    }

    /// Takes all away but the truth true, and answers its number.
    pub(crate) fn empty(&mut self) -> u32
        requires { 1 ≤ circuit_room self.old.circuit }
        ensures { LoadTells (Ok (truth true)) (Ok result) self.old self.new }
    {
        self.clear();
        self.circuit.push(Gate::Truth(true))
    }
}

/// Puts what an operator gives on two gates, and answers its number.
pub(crate) fn connect(circuit: &mut Circuit, operator: BinaryOperator, left: u32, right: u32) -> u32
    requires left { left < length (circuit_formulas circuit.old) }
    requires right { right < length (circuit_formulas circuit.old) }
    requires room { HasGates 2 circuit.old }
    ensures { IsPushed 2 0 circuit.old circuit.new result
        (connected operator (formula_at (circuit_formulas circuit.old) left)
        (formula_at (circuit_formulas circuit.old) right)) }
{
    match operator {
        BinaryOperator::And => circuit.push(Gate::And(left, right)),
        BinaryOperator::Or => circuit.push(Gate::Or(left, right)),
        BinaryOperator::Implies => {
            let denied = circuit.push(Gate::Not(left));
            circuit.push(Gate::Or(denied, right))
        }
        BinaryOperator::Xor | BinaryOperator::Ne => circuit.push(Gate::Xor(left, right)),
        _ => {
            let different = circuit.push(Gate::Xor(left, right));
            circuit.push(Gate::Not(different))
        }
    }
}

/// Puts what an operator gives on two forms of a kind, and answers its number.
pub(crate) fn compare(
    circuit: &mut Circuit,
    measures: &mut Measures,
    operator: BinaryOperator,
    scale: Scale,
    a: u32,
    b: u32,
) -> u32
    requires first { a < length (measured measures.old) }
    requires second { b < length (measured measures.old) }
    requires scale { scale.decimals ≤ most_decimals }
    requires forms { AreForms measures.old }
    requires few { measures.old.variables ≤ most_variables }
    requires draft { measures.old.variables + measures.old.variables + 1 ≤
        draft_room measures.old.draft }
    requires room { HasGates 2 circuit.old }
    requires terms { HasTerms measures.old.variables circuit.old }
    ensures pushed { IsPushed 2 measures.old.variables circuit.old circuit.new result
        (comparison operator scale.kind scale.decimals (form_at (measured measures.old) a)
        (form_at (measured measures.old) b)) }
    ensures measures { IsRedrafted measures.old measures.new }
{
    match operator {
        BinaryOperator::Eq => put_comparison(circuit, measures, Relation::Equal, scale, a, b),
        BinaryOperator::Ne => {
            let equal = put_comparison(circuit, measures, Relation::Equal, scale, a, b);
            circuit.push(Gate::Not(equal))
        }
        BinaryOperator::Lt => put_comparison(circuit, measures, Relation::Below, scale, a, b),
        BinaryOperator::Le => put_comparison(circuit, measures, Relation::NotAbove, scale, a, b),
        BinaryOperator::Gt => put_comparison(circuit, measures, Relation::Below, scale, b, a),
        BinaryOperator::Ge => put_comparison(circuit, measures, Relation::NotAbove, scale, b, a),
        _ => circuit.push(Gate::Truth(false)),
    }
}

/// The kind of the numbers of a comparison, and how many decimals a real has.
#[derive(Clone, Copy)]
pub(crate) struct Scale {
    pub(crate) kind: Kind,
    pub(crate) decimals: u32,
}

// Puts the comparison of the difference of two forms with 0.
fn put_comparison(
    circuit: &mut Circuit,
    measures: &mut Measures,
    relation: Relation,
    scale: Scale,
    a: u32,
    b: u32,
) -> u32
    requires first { a < length (measured measures.old) }
    requires second { b < length (measured measures.old) }
    requires scale { scale.decimals ≤ most_decimals }
    requires forms { AreForms measures.old }
    requires few { measures.old.variables ≤ most_variables }
    requires draft { measures.old.variables + measures.old.variables + 1 ≤
        draft_room measures.old.draft }
    requires room { HasGates 1 circuit.old }
    requires terms { HasTerms measures.old.variables circuit.old }
    ensures pushed { IsPushed 1 measures.old.variables circuit.old circuit.new result
        (compared scale.kind scale.decimals (form_at (measured measures.old) a)
        (form_at (measured measures.old) b) relation) }
    ensures measures { IsRedrafted measures.old measures.new }
{
    measures.set_comparison(a, b, factor_of(scale.kind, scale.decimals));
    circuit.push_lent(relation, measures.draft())
}
