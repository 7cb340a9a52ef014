//! The kinds of a node's variables.

ghost use Rattle.std.specs.Prelude.{◌≡◌, ◌++◌, map, IfOk, OnOk};
ghost use Rattle.std.specs.List.{flat_map};
ghost use Rattle.lt_formula.specs.Kinds.{kind_of_variable};
ghost use Rattle.lt_expand.specs.Classes.{kinds_of};
ghost use Rattle.lt_macros.specs.Expanded.{all_inputs};
ghost use Rattle.lt_macros.specs.Preorder.{items, local_at};
ghost use Rattle.lt_expand.specs.inner.Items.{item, items_view};
ghost use Rattle.lt_expand.specs.inner.Judged.{kinds};
ghost use Rattle.lt_macros.specs.Tree.{declared, expanded, node};

use crate::items::{Item, local_at};
use lt_formula::Role;
use lt_macros::{Declared, Node};
use lt_num::Kind;
use std::alloc::{AllocError, Global};

/// The kinds of a node's variables, each by its place among those of its role.
#[derive(Drop)]
pub(crate) struct Kinds {
    /// Those of the inputs.
    pub(crate) inputs: Vec<Kind>,

    /// Those of the outputs.
    pub(crate) outputs: Vec<Kind>,

    /// Those of the locals.
    pub(crate) locals: Vec<Kind>,
}

impl Kinds {
    // That of a variable; `Bool` where there is none.
    pub(crate) fn of_variable(&self, role: Role, place: u32) -> Kind
        ensures { result ≡ kind_of_variable (kinds self.now) role place }
    {
        let found = match role {
            Role::Input => self.inputs.get(place as usize),
            Role::Output => self.outputs.get(place as usize),
            Role::Local => self.locals.get(place as usize),
        };
        match found {
            Some(kind) => *kind,
            None => Kind::Bool,
        }
    }
}

// The kinds of the variables of a node, the parts of whose trace these are.
#[tactic(auto, using(crate::proofs::Preorders::kinds_from))]
pub(crate) fn kinds_of(alloc: Global, from: &Node, parts: &[Item<'_>]) -> Result<Kinds, AllocError>
    requires { items_view parts.now ≡ items (expanded from.now.body) }
    ensures { IfOk result (λ found. kinds found ≡ kinds_of (node from.now)) }
{
    Ok(Kinds {
        inputs: input_kinds(alloc, from)?,
        outputs: declared_kinds(alloc, &from.outputs)?,
        locals: local_kinds(alloc, parts)?,
    })
}

// The kinds of the inputs of a node: its own, and those that its runs give.
#[tactic(auto, using(crate::proofs::Preorders::gathered))]
fn input_kinds(alloc: Global, from: &Node) -> Result<Vec<Kind>, AllocError>
    ensures { IfOk result (λ found. found.items ≡
        map (λ d. d.kind) (all_inputs (node from.now))) }
{
    let mut found = declared_kinds(alloc, &from.inputs)?;
    for call in &from.calls {
        put_declared_kinds(&mut found, &call.names)?;
    }
    Ok(found)
}

// The kinds of variables.
#[tactic(auto, using(crate::proofs::Preorders::gathered))]
fn declared_kinds(alloc: Global, variables: &[Declared]) -> Result<Vec<Kind>, AllocError>
    ensures { IfOk result (λ found. found.items ≡ map (λ d. d.kind) (map declared variables.now)) }
{
    let mut found = Vec::new(alloc);
    put_declared_kinds(&mut found, variables)?;
    Ok(found)
}

// Puts the kinds of variables behind others.
#[tactic(auto, using(crate::proofs::Preorders::gathered))]
fn put_declared_kinds(found: &mut Vec<Kind>, variables: &[Declared]) -> Result<(), AllocError>
    ensures { OnOk result (found.new.items ≡ found.old.items ++
        map (λ d. d.kind) (map declared variables.now)) }
{
    for variable in variables {
        found.push(variable.kind)?;
    }
    Ok(())
}

// The kinds of the locals that parts of a trace declare.
#[tactic(auto, using(crate::proofs::Preorders::gathered))]
fn local_kinds(alloc: Global, parts: &[Item<'_>]) -> Result<Vec<Kind>, AllocError>
    ensures { IfOk result (λ found. found.items ≡
        map (λ d. d.kind) (flat_map local_at (items_view parts.now))) }
{
    let mut found = Vec::new(alloc);
    for part in parts {
        put_local_kind(&mut found, *part)?;
    }
    Ok(found)
}

// Puts the kind of the local that a part declares, if it does, behind others.
fn put_local_kind(found: &mut Vec<Kind>, part: Item<'_>) -> Result<(), AllocError>
    ensures { OnOk result (found.new.items ≡ found.old.items ++
        map (λ d. d.kind) (local_at (item part.entry))) }
{
    if let Some(declared) = local_at(part) {
        found.push(declared.kind)?;
    }
    Ok(())
}
