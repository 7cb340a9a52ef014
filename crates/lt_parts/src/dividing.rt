//! The parts of a constraint.

ghost use Rattle.std.specs.Prelude.{◌≡◌, ◌<◌, ℕ, List, IfOk, map};
ghost use Rattle.lt_formula.specs.Table.{HasEachOnce};
ghost use Rattle.lt_formula.specs.View.{table_expressions, table_kinds, table_len};
ghost use Rattle.lt_parts.specs.Atoms.{most_atoms};
ghost use Rattle.lt_parts.specs.Outline.{conjuncts_of};
ghost use Rattle.lt_parts.specs.Part.{AreParts, IsPart, Piece, at, most_atoms_of};
ghost use Rattle.lt_parts.specs.PartView.{piece_of};

use crate::arranging::{Arranged, arrange};
use crate::collecting::{collect_atoms, collect_conjuncts};
use crate::outlining::outline;
use crate::part::Part;
use lt_formula::{Memory, Table};
use std::alloc::Global;

/// The parts of a constraint: one for each of its conjuncts, in their order. These are the parts of its outermost
/// `and`s.
///
/// # Errors
///
/// Want of memory.
pub fn parts(alloc: Global, table: &Table, exp: u32) -> Result<Vec<Part>, Memory>
    requires { exp < table_len table.now }
    ensures { IfOk result (λ parts.
        AreParts table.now (conjuncts_of (table_kinds table.now) (at table.now exp))
        (map piece_of parts.items)) }
{
    let mut conjuncts = Vec::new(alloc);
    collect_conjuncts(table, exp, &mut conjuncts)?;
    let mut parts = Vec::with_capacity(alloc, conjuncts.len())?;
    let mut rest = conjuncts.as_slice();
    while let Some((exp, more)) = rest.split_first() {
        parts.push(part(alloc, table, *exp)?)?;
        rest = more;
    }
    Ok(parts)
}

/// The greatest number of atoms of one part of a constraint. It takes a time in proportion to the constraint's length.
///
/// # Errors
///
/// Want of memory.
pub fn most_atoms(alloc: Global, table: &Table, exp: u32) -> Result<usize, Memory>
    requires { exp < table_len table.now }
    ensures parts { IfOk result (λ most. (pieces : List Piece) ×
        AreParts table.now (conjuncts_of (table_kinds table.now) (at table.now exp)) pieces ×
        (most ≡ most_atoms_of pieces)) }
    ensures most { IfOk result (λ most.
        most ≡ most_atoms (table_kinds table.now) (at table.now exp)) }
{
    let found = parts(alloc, table, exp)?;
    has_each_once(table);
    Ok(greatest(&found))
}

// Equal expressions of a table have one number.
fn has_each_once(table: &Table)
    ensures { HasEachOnce (table_expressions table.now) }
{
    table.len();
}

// The greatest number of atoms of some parts.
fn greatest(parts: &[Part]) -> usize
    ensures { result ≡ most_atoms_of (map piece_of parts.now) }
{
    let mut most = 0;
    let mut rest = parts;
    while let Some((part, more)) = rest.split_first() {
        most = most.max(part.atoms.len());
        rest = more;
    }
    most
}

// The part for a conjunct.
fn part(alloc: Global, table: &Table, exp: u32) -> Result<Part, Memory>
    requires { exp < table_len table.now }
    ensures { IfOk result (λ part. IsPart table.now (at table.now exp) (piece_of part)) }
{
    let mut occurring = Vec::new(alloc);
    collect_atoms(table, exp, &mut occurring)?;
    let atoms = arrange(alloc, table, &occurring)?;
    has_each_once(table);
    Ok(Part {
        conjunct: outline(alloc, table, exp, &atoms.numbers)?,
        atoms: atoms.numbers.as_slice().to_vec(alloc)?,
        known: atoms.known,
    })
}
