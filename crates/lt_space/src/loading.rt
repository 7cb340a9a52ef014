//! Lists of constraints, loaded.

ghost use Rattle.std.specs.Prelude.{true, false, ◌≡◌, ◌<◌, ◌≤◌, ◌+◌, ◌*◌, IsTrue, OnErr, OnOk, length, map, nat_lt};
ghost use Rattle.std.specs.List.{list_all};
ghost use Rattle.lt_num.specs.Bounds.{most_decimals};
ghost use Rattle.lt_formula.specs.Kinds.{variables_of};
ghost use Rattle.lt_formula.specs.Limits.{most_variables};
ghost use Rattle.lt_formula.specs.Table.{HasEachOnce, spelled};
ghost use Rattle.lt_formula.specs.View.{table_expressions, table_kinds, table_len, valuation_of_known};
ghost use Rattle.lt_space.specs.Circuit.{formula_at};
ghost use Rattle.lt_space.specs.CircuitView.{circuit_len, circuit_room};
ghost use Rattle.lt_space.specs.Meaning.{formula_of_all, formulas_of};
ghost use Rattle.lt_space.specs.inner.Kept.{are_free, unkept};
ghost use Rattle.lt_space.specs.inner.Memo.{memo_numbers};
ghost use Rattle.lt_space.specs.inner.Noted.{AreEvaluated, are_below};
ghost use Rattle.lt_space.specs.inner.Work.{HasWorkRoom, IsReady, LoadTells, formulas_in, gates_in, joined_onto};

use crate::circuit::Gate;
use crate::memo::Memo;
use crate::noting::note_all;
use crate::visiting::visit;
use crate::work::Work;
use lt_formula::{Known, Table};
use lt_num::Arith;

/// Loads the constraints of a list as [`load_into`] does, and notes what is evaluated for them, where notes are asked for.
/// Where they meet a fault, or no notes are asked for, nothing is noted.
pub(crate) fn load_and_note(
    table: &Table,
    wanted: &[u32],
    known: &Known<'_>,
    notes: bool,
    work: &mut Work,
    noted: &mut Memo,
) -> Result<u32, Arith>
    requires within { IsTrue (list_all (λ exp. nat_lt exp (table_len table.now)) wanted.now) }
    requires few { variables_of (table_kinds table.now) ≤ most_variables }
    requires decimals { known.now.decimals ≤ most_decimals }
    requires expressions { length (gates_in work.old) ≡ table_len table.now }
    requires variables { work.old.measures.variables ≡ variables_of (table_kinds table.now) }
    requires room { HasWorkRoom (length wanted.now) work.old }
    requires notes { length (memo_numbers noted.old) ≡ table_len table.now }
    ensures loads { LoadTells (formula_of_all (valuation_of_known known.now) (table_kinds table.now)
        (map (spelled (table_expressions table.now)) wanted.now)) result work.old work.new }
    ensures evaluated { notes ≡ true → OnOk result (AreEvaluated (valuation_of_known known.now)
        table.now wanted.now (formulas_in work.new) (memo_numbers noted.new)) }
    ensures none { OnErr result (IsTrue (are_free (memo_numbers noted.new))) }
    ensures untold { notes ≡ false → IsTrue (are_free (memo_numbers noted.new)) }
    ensures below { IsTrue (are_below (length (formulas_in work.new)) (memo_numbers noted.new)) }
    ensures len { length (memo_numbers noted.new) ≡ length (memo_numbers noted.old) }
{
    noted.clear();
    let root = load_into(table, wanted, known, work)?;
    if !notes {
        return Ok(root);
    }
    has_each_once(table);
    note_all(table, wanted, known, work, noted);
    Ok(root)
}

// No two expressions of a table are equal.
fn has_each_once(table: &Table)
    ensures { HasEachOnce (table_expressions table.now) }
{
    table.len();
}

/// Takes all away, and puts the gates of the constraints of a list; answers the number of the gate that joins them, or
/// the first fault that they meet.
pub(crate) fn load_into(
    table: &Table,
    wanted: &[u32],
    known: &Known<'_>,
    work: &mut Work,
) -> Result<u32, Arith>
    requires within { IsTrue (list_all (λ exp. nat_lt exp (table_len table.now)) wanted.now) }
    requires few { variables_of (table_kinds table.now) ≤ most_variables }
    requires decimals { known.now.decimals ≤ most_decimals }
    requires expressions { length (gates_in work.old) ≡ table_len table.now }
    requires variables { work.old.measures.variables ≡ variables_of (table_kinds table.now) }
    requires room { HasWorkRoom (length wanted.now) work.old }
    ensures loads { LoadTells (formula_of_all (valuation_of_known known.now) (table_kinds table.now)
        (map (spelled (table_expressions table.now)) wanted.now)) result work.old work.new }
    ensures ready { OnOk result (IsReady (valuation_of_known known.now) table.now work.new) }
{
    work.clear();
    visit_all(table, wanted, known, work)
}

// The number of the gate of the constraints of a list, joined by `and` and grouped to the left; or the first fault
// that they meet, one after another.
fn visit_all(
    table: &Table,
    wanted: &[u32],
    known: &Known<'_>,
    work: &mut Work,
) -> Result<u32, Arith>
    requires within { IsTrue (list_all (λ exp. nat_lt exp (table_len table.now)) wanted.now) }
    requires few { variables_of (table_kinds table.now) ≤ most_variables }
    requires decimals { known.now.decimals ≤ most_decimals }
    requires ready { IsReady (valuation_of_known known.now) table.now work.old }
    requires room { circuit_len work.old.circuit + unkept (gates_in work.old) * 2 + length
        wanted.now + 1 ≤ circuit_room work.old.circuit }
    ensures loads { LoadTells (formula_of_all (valuation_of_known known.now) (table_kinds table.now)
        (map (spelled (table_expressions table.now)) wanted.now)) result work.old work.new }
    ensures ready { OnOk result (IsReady (valuation_of_known known.now) table.now work.new) }
{
    let Some((first, more)) = wanted.split_first() else {
        return Ok(work.circuit.push(Gate::Truth(true)));
    };
    let root = visit(table, *first, known, work)?;
    join_all(table, root, more, known, work)
}

// The number of the gate that joins a gate with those of the constraints of a list; or the first fault that they meet.
fn join_all(
    table: &Table,
    first: u32,
    wanted: &[u32],
    known: &Known<'_>,
    work: &mut Work,
) -> Result<u32, Arith>
    requires first { first < length (formulas_in work.old) }
    requires within { IsTrue (list_all (λ exp. nat_lt exp (table_len table.now)) wanted.now) }
    requires few { variables_of (table_kinds table.now) ≤ most_variables }
    requires decimals { known.now.decimals ≤ most_decimals }
    requires ready { IsReady (valuation_of_known known.now) table.now work.old }
    requires room { circuit_len work.old.circuit + unkept (gates_in work.old) * 2 + length
        wanted.now ≤ circuit_room work.old.circuit }
    ensures loads { LoadTells (joined_onto (formula_at (formulas_in work.old) first)
        (formulas_of (valuation_of_known known.now) (table_kinds table.now)
        (map (spelled (table_expressions table.now)) wanted.now))) result work.old work.new }
    ensures ready { OnOk result (IsReady (valuation_of_known known.now) table.now work.new) }
{
    let mut root = first;
    let mut rest = wanted;
    while let Some((exp, more)) = rest.split_first() {
        let gate = visit(table, *exp, known, work)?;
        root = work.circuit.push(Gate::And(root, gate));
        rest = more;
    }
    Ok(root)
}
