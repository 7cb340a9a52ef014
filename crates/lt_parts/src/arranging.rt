//! Atoms, each of them once.

ghost use Rattle.std.specs.Prelude.{◌≡◌, ◌<◌, ◌++◌, [], IfOk, IsTrue, OnOk, if◌then◌else◌, length};
ghost use Rattle.lt_formula.specs.View.{table_len};
ghost use Rattle.lt_parts.specs.Part.{arranged, known_numbers, with_number, with_numbers};
ghost use Rattle.lt_parts.specs.inner.Collected.{are_within, is_of_class};

use indexmap::IndexSet;
use lt_formula::{Memory, Table};
use std::alloc::Global;

/// The numbers of atoms, each of them once: those that are known, and then the others.
#[derive(Drop)]
pub(crate) struct Arranged {
    pub(crate) numbers: IndexSet<u32>,

    /// How many are known.
    pub(crate) known: usize,
}

/// The numbers of atoms that occur, each of them once. It takes a time in proportion to how many occur.
pub(crate) fn arrange(alloc: Global, table: &Table, occurring: &[u32]) -> Result<Arranged, Memory>
    requires { IsTrue (are_within table.now occurring.now) }
    ensures numbers { IfOk result (λ atoms. atoms.numbers.keys ≡
        arranged table.now occurring.now) }
    ensures known { IfOk result (λ atoms. atoms.known ≡
        length (known_numbers table.now occurring.now)) }
{
    let mut numbers = IndexSet::new(alloc);
    add_numbers(table, occurring, true, &mut numbers)?;
    let known = numbers.len();
    add_numbers(table, occurring, false, &mut numbers)?;
    Ok(Arranged { numbers, known })
}

// Puts the numbers of those of a class, known or not, behind others: each that isn't there yet.
fn add_numbers(
    table: &Table,
    occurring: &[u32],
    is_known: bool,
    found: &mut IndexSet<u32>,
) -> Result<(), Memory>
    requires { IsTrue (are_within table.now occurring.now) }
    ensures { OnOk result (found.new.keys ≡
        with_numbers (is_of_class is_known table.now) found.old.keys occurring.now) }
{
    let mut rest = occurring;
    while let Some((exp, more)) = rest.split_first() {
        add_number(table, *exp, is_known, found)?;
        rest = more;
    }
    Ok(())
}

// Puts a number behind others, if it is of the class, and isn't there yet.
fn add_number(
    table: &Table,
    exp: u32,
    is_known: bool,
    found: &mut IndexSet<u32>,
) -> Result<(), Memory>
    requires { exp < table_len table.now }
    ensures { OnOk result (found.new.keys ≡
        (if is_of_class is_known table.now exp then with_number found.old.keys exp
        else found.old.keys)) }
{
    if table.facts(exp).is_known != is_known {
        return Ok(());
    }
    found.insert(exp)?;
    Ok(())
}
