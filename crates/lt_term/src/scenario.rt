//! Scenarios.

ghost use Rattle.std.specs.Prelude.{◌≡◌, ◌≤◌, ◌+◌, [], IsTrue, length};
ghost use Rattle.std.specs.List.{list_all};
ghost use Rattle.lt_num.specs.Bounds.{most_decimals};
ghost use Rattle.lt_formula.specs.View.{table_expressions, table_kinds, table_len};
ghost use Rattle.lt_formula.specs.Limits.{most_variables};
ghost use Rattle.lt_term.specs.Depth.{term_depth};
ghost use Rattle.lt_term.specs.Limits.{most_nodes, most_term_depth};
ghost use Rattle.lt_term.specs.Scope.{are_named_inside};
ghost use Rattle.lt_term.specs.Subterms.{counters_in, is_at_start, is_narrow, locals_in, numbers_from};
ghost use Rattle.lt_term.specs.TypedTerm.{IsTypedTerm};
ghost use Rattle.lt_term.specs.Valid.{AreNamed, has_known_conditions, has_known_weights, is_linear_throughout, is_shallow, node_count};
ghost use Rattle.lt_term.specs.View.{all_kinds, process, process_over};
ghost use Rattle.lt_term.specs.Within.{is_within};

use crate::counter::Counter;
use crate::term::Term;
use crate::variable::Var;
use lt_formula::Table;

/// A scenario: its variables, and what it does.
///
/// Whoever makes one shows what the ghost fields say, each by itself.
#[derive(Drop)]
pub struct Scenario {
    /// The name of its node.
    pub name: String,

    /// How many decimals a real number has: 0 to 6.
    pub decimals: u32,

    /// What the controller answers in each instant; at most 128.
    pub inputs: Vec<Var>,

    /// What the scenario draws in each instant, and the controller is told. There are at most 128 outputs
    /// and locals.
    pub outputs: Vec<Var>,

    /// What it draws for itself in the instants of a scope, each local by its number.
    pub locals: Vec<Var>,

    /// How often its counted loops turn, each counter by its number.
    pub counters: Vec<Counter>,

    /// The names of its exceptions, by their numbers.
    pub exceptions: Vec<String>,

    /// Its expressions.
    pub table: Table,

    /// What it does, over the expressions of the table.
    pub body: Term,

    pub ghost few_decimals: { decimals ≤ most_decimals },
    pub ghost few_inputs: { length inputs.items ≤ most_variables },
    pub ghost few_drawn: { length outputs.items + length locals.items ≤ most_variables },

    // The table's variables are the scenario's.
    pub ghost kinds: { table_kinds table ≡ all_kinds inputs.items outputs.items locals.items },

    // Its expressions and exceptions are those of the scenario.
    pub ghost within: { IsTrue (is_within (table_len table) (length exceptions.items) (process body)) },

    // Locals and counters are numbered in preorder: so each local has one scope, and each counter one loop.
    pub ghost scopes: { locals_in (process_over table body) ≡ numbers_from 0 (length locals.items) },
    pub ghost loops: { counters_in (process_over table body) ≡ numbers_from 0 (length counters.items) },

    // A local is named in its scope alone.
    pub ghost inside: { IsTrue (are_named_inside [] (process_over table body)) },

    // Nothing of the body is done yet, and each of its choices has at most 64 alternatives.
    pub ghost at_start: { IsTrue (is_at_start (process_over table body)) },
    pub ghost narrow: { IsTrue (is_narrow (process_over table body)) },

    // Each expression of the table is a constraint or a weight of the body, or a part of one.
    pub ghost named: { ∥ AreNamed (table_expressions table) (process_over table body) ∥₁ },

    // The constraints of the body are truths, and its weights ints, by the kinds of the variables, and all their parts are
    // well typed: so are all expressions of the table.
    pub ghost typed: { ∥ IsTypedTerm (table_kinds table) (process_over table body) ∥₁ },

    // No expression of the table, and no part of one, is a product of two controllable parts, a quotient by a
    // controllable divisor, a quotient or a rest of ints with a controllable part, or a choice between numbers by
    // a controllable condition; and no weight of the body is controllable.
    pub ghost linear: { IsTrue
        (list_all (is_linear_throughout (table_kinds table)) (table_expressions table)) },
    pub ghost conditions: { IsTrue
        (list_all (has_known_conditions (table_kinds table)) (table_expressions table)) },
    pub ghost weights: { IsTrue
        (has_known_weights (table_kinds table) (process_over table body)) },

    // There are at most 100,000 expressions in the table, and as many terms and nodes of expressions in the body,
    // each counted each time that it stands there. The terms stand at most 1,000 deep in one another, and the parts
    // of an expression 5,000 deep.
    pub ghost few_expressions: { table_len table ≤ most_nodes },
    pub ghost few_nodes: { node_count (process_over table body) ≤ most_nodes },
    pub ghost flat: { term_depth (process_over table body) ≤ most_term_depth },
    pub ghost shallow: { IsTrue (list_all is_shallow (table_expressions table)) },
}
