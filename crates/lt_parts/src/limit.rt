//! The limit of the atoms of a conjunct.

ghost use Rattle.std.specs.Prelude.{◌≡◌, ◌<◌, ◌||◌, All, IfOk, false, replicate};
ghost use Rattle.lt_formula.specs.View.{table_kinds, table_len};
ghost use Rattle.lt_parts.specs.Atoms.{is_crowded};
ghost use Rattle.lt_parts.specs.Part.{at};
ghost use Rattle.lt_parts.specs.Scenario.{has_constraint, has_constraint_anywhere, has_too_many_atoms};
ghost use Rattle.lt_parts.specs.inner.Crowded.{HavePassed, choices_over};
ghost use Rattle.lt_parts.specs.inner.Numbered.{AreConstraintsBelow};
ghost use Rattle.lt_term.specs.SceneView.{scene};
ghost use Rattle.lt_term.specs.View.{process, process_over};

use crate::dividing::most_atoms;
use lt_formula::{Memory, Table};
use lt_term::{Scenario, Term};
use std::alloc::{AllocError, Global};

/// The most atoms that a conjunct of a constraint may have in a scenario that is run.
pub const MOST_ATOMS: usize = 16;

/// Whether some constraint of a scenario has a conjunct of more than [`MOST_ATOMS`] atoms, also one that no instant comes to.
///
/// # Errors
///
/// Want of memory.
pub fn has_too_many_atoms(alloc: Global, scenario: &Scenario) -> Result<bool, Memory>
    ensures { IfOk result (λ many. many ≡ has_too_many_atoms (scene scenario.now)) }
{
    let mut passed = no_marks(alloc, scenario.table.len() as usize)?;
    is_anything_crowded(alloc, &scenario.table, &scenario.body, &mut passed)
}

// So many marks, none of which is set.
fn no_marks(alloc: Global, count: usize) -> Result<Vec<bool>, AllocError>
    ensures { IfOk result (λ marks. marks.items ≡ replicate count false) }
{
    let mut marks = Vec::with_capacity(alloc, count)?;
    for _made in 0..count {
        marks.push_reserved(false);
    }
    Ok(marks)
}

// Whether some constraint of a term has such a conjunct. A constraint that stands at several places is looked at once: a mark
// says that it passed.
#[cycle(crowded)]
fn is_anything_crowded(
    alloc: Global,
    table: &Table,
    term: &Term,
    passed: &mut Vec<bool>,
) -> Result<bool, Memory>
    requires below { AreConstraintsBelow (table_len table.now) (process term.now) }
    requires passed { HavePassed table.now passed.old.items }
    ensures passed { HavePassed table.now passed.new.items }
    ensures crowded { IfOk result (λ many. many ≡
        has_constraint (is_crowded (table_kinds table.now)) (process_over table.now term.now)) }
{
    match term {
        Term::Eps | Term::Dead | Term::Raise(_) => Ok(false),
        Term::Con(constraint) => is_crowded(alloc, table, *constraint, passed),
        Term::Seq(first, second) | Term::Pri(first, second) | Term::Par(first, second) => {
            is_either_crowded(alloc, table, first, second, passed)
        }
        Term::Loop(body) | Term::Count { body, .. } | Term::Exist { body, .. } => {
            is_anything_crowded(alloc, table, body, passed)
        }
        Term::Any(parts) => is_any_crowded(alloc, table, parts, passed),
        Term::Assert(constraint, body) => {
            if is_crowded(alloc, table, *constraint, passed)? {
                return Ok(true);
            }
            is_anything_crowded(alloc, table, body, passed)
        }
        Term::Catch {
            body,
            otherwise,
            ..
        } => is_either_crowded(alloc, table, body, otherwise, passed),
        Term::Try { body, otherwise } => is_either_crowded(alloc, table, body, otherwise, passed),
    }
}

// Whether some constraint of one of two terms has one.
#[cycle(crowded)]
fn is_either_crowded(
    alloc: Global,
    table: &Table,
    first: &Term,
    second: &Term,
    passed: &mut Vec<bool>,
) -> Result<bool, Memory>
    requires first { AreConstraintsBelow (table_len table.now) (process first.now) }
    requires second { AreConstraintsBelow (table_len table.now) (process second.now) }
    requires passed { HavePassed table.now passed.old.items }
    ensures passed { HavePassed table.now passed.new.items }
    ensures crowded { IfOk result (λ many. many ≡
        (has_constraint (is_crowded (table_kinds table.now)) (process_over table.now first.now) ||
        has_constraint (is_crowded (table_kinds table.now))
        (process_over table.now second.now))) }
{
    if is_anything_crowded(alloc, table, first, passed)? {
        return Ok(true);
    }
    is_anything_crowded(alloc, table, second, passed)
}

// Whether some constraint of one of the parts of a choice has one.
#[cycle(crowded)]
fn is_any_crowded(
    alloc: Global,
    table: &Table,
    parts: &Vec<(u32, Term)>,
    passed: &mut Vec<bool>,
) -> Result<bool, Memory>
    requires below { All (λ p. AreConstraintsBelow (table_len table.now) (process p.1)) parts.now.items }
    requires passed { HavePassed table.now passed.old.items }
    ensures passed { HavePassed table.now passed.new.items }
    ensures crowded { IfOk result (λ many. many ≡
        has_constraint_anywhere (is_crowded (table_kinds table.now))
        (choices_over table.now parts.now.items)) }
{
    for (_, part) in parts {
        if is_anything_crowded(alloc, table, part, passed)? {
            return Ok(true);
        }
    }
    Ok(false)
}

// Whether a conjunct of a constraint has too many atoms.
fn is_crowded(
    alloc: Global,
    table: &Table,
    constraint: u32,
    passed: &mut Vec<bool>,
) -> Result<bool, Memory>
    requires below { constraint < table_len table.now }
    requires passed { HavePassed table.now passed.old.items }
    ensures passed { HavePassed table.now passed.new.items }
    ensures crowded { IfOk result (λ many. many ≡
        is_crowded (table_kinds table.now) (at table.now constraint)) }
{
    let place = constraint as usize;
    if place < passed.len() && passed[place] {
        return Ok(false);
    }
    if most_atoms(alloc, table, constraint)? > MOST_ATOMS {
        return Ok(true);
    }
    if place < passed.len() {
        passed[place] = true;
    }
    Ok(false)
}
