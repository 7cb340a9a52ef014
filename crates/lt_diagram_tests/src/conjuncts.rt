//! The diagrams of conjuncts with many atoms, with ample memory, which no clause can promise.

ghost use Rattle.std.specs.Prelude.{◌≡◌, ◌<◌, IfOk, IsTrue, length};
ghost use Rattle.lt_formula.specs.Kinds.{Kinds};
ghost use Rattle.lt_formula.specs.Table.{fits};
ghost use Rattle.lt_formula.specs.View.{table_kinds, table_len};

use crate::formulas::diagram_of;
use lt_diagram::{Diagram, DiagramRefusal};
use lt_formula::ExpNode::{Or, Output};
use lt_formula::{ExpNode, Role, Shape, Table};
use lt_num::Kind;
use lt_parts::parts;
use lt_space::Formula;
use std::alloc::Global;
use std::test::Fail;

// A table over 17 Boolean outputs.
#[derive(Drop)]
struct Names {
    table: Table,
    ghost names: { length (table_kinds table).outputs ≡ 17 },
}

impl Names {
    // A table without expressions.
    fn new(alloc: Global) -> Result<Names, Fail> {
        let outputs = vec![in alloc; Kind::Bool; 17]?;
        Ok(Names {
            table: Table::new(alloc, Vec::new(alloc), outputs, Vec::new(alloc)),
        })
    }

    // Puts an expression whose parts are there.
    fn put(&mut self, node: ExpNode) -> Result<u32, Fail> {
        if !has_parts(node.shape(), self.table.len()) {
            return Err(Fail::new("a part is missing"));
        }
        Ok(self.table.push(node)?)
    }

    // Puts the first of the names, so many, joined by `or`.
    fn put_joined(&mut self, names: u32) -> Result<u32, Fail> {
        let mut joined = self.put(Output(0))?;
        for name in 1..names {
            let other = self.put(Output(name))?;
            joined = self.put(Or(joined, other))?;
        }
        Ok(joined)
    }
}

// Whether a shape is one of the names, or one of two parts that are there.
fn has_parts(shape: Shape, before: usize) -> bool
    ensures { IsTrue result → (kinds : Kinds) → length kinds.outputs ≡ 17 →
        IsTrue (fits kinds before shape) }
{
    match shape {
        Shape::Variable(Role::Output, place) => place < 17,
        Shape::Binary(_, left, right) => (left as usize) < before && (right as usize) < before,
        _ => false,
    }
}

// The diagram of so many names that are joined by `or`, or why there is none.
fn diagram_of_names(alloc: Global, count: u32) -> Result<Result<Diagram, DiagramRefusal>, Fail> {
    let mut names = Names::new(alloc)?;
    let joined = names.put_joined(count)?;
    if joined as usize >= names.table.len() {
        return Err(Fail::new("the names are missing"));
    }
    let parts = parts(alloc, &names.table, joined)?;
    match parts.as_slice() {
        [part] => diagram_of(alloc, &part.conjunct, u32::try_from(part.atoms.len())?),
        _ => Err(Fail::new("there is another number of conjuncts")),
    }
}

#[test]
fn sixteen_atoms_have_a_diagram(rt: HostRuntime) -> Result<(), Fail> {
    assert!(rt; diagram_of_names(rt.alloc(), 16)?.is_ok());
    assert!(rt; diagram_of(rt.alloc(), &Formula::Truth(true), 16)?.is_ok());
    Ok(())
}

#[test]
fn seventeen_atoms_have_none(rt: HostRuntime) -> Result<(), Fail> {
    let refused = Err(DiagramRefusal::TooManyAtoms);
    assert!(rt; diagram_of_names(rt.alloc(), 17)?.map(|_| ()) == refused);
    // It comes by how many flags there may be, also where the formula names none.
    assert!(rt; diagram_of(rt.alloc(), &Formula::Truth(true), 17)?.map(|_| ()) == refused);
    Ok(())
}
