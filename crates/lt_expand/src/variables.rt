//! The variables of a scenario.

ghost use Rattle.std.specs.Prelude.{◌≡◌, ◌≤◌, ◌++◌, ◌∷◌, IfOk, OnOk, length, map, decimal, string_bytes};
ghost use Rattle.std.specs.List.{All, flat_map};
ghost use Rattle.lt_num.specs.Bounds.{most_decimals};
ghost use Rattle.lt_macros.specs.Preorder.{local_at, term as a_term};
ghost use Rattle.lt_macros.specs.Expanded.{all_inputs};
ghost use Rattle.lt_macros.specs.Tree.{declared as declared_view, expanded, node};
ghost use Rattle.lt_term.specs.SceneView.{variable as variable_view};
ghost use Rattle.lt_expand.specs.Scenes.{first_of, locals_of, variable_of};
ghost use Rattle.lt_expand.specs.inner.Items.{item, items_view};
ghost use Rattle.lt_expand.specs.inner.Ready.{IsFine, IsFinePart};

use crate::items::Item;
use crate::statics::static_raw;
use lt_formula::Memory;
use lt_macros::{Declared, Expanded, Node};
use lt_num::Value;
use lt_term::Var;
use std::alloc::{AllocError, Global};

// The inputs of a node: its own, and then those that its runs give.
#[tactic(auto, using(crate::proofs::Preorders::given_taken))]
pub(crate) fn inputs_of(alloc: Global, from: &Node, decimals: u32) -> Result<Vec<Var>, Memory>
    requires few { decimals ≤ most_decimals }
    requires fine { All (IsFine decimals) (all_inputs (node from.now)) }
    ensures { IfOk result (λ made. map variable_view made.items ≡
        map (variable_of decimals) (all_inputs (node from.now))) }
{
    let mut made = variables_of(alloc, &from.inputs, decimals)?;
    for call in &from.calls {
        put_given(alloc, &mut made, &call.names, decimals)?;
    }
    Ok(made)
}

// Puts the inputs that a run gives behind others.
#[tactic(auto, using(crate::proofs::Declares::given_variable_taken))]
fn put_given(
    alloc: Global,
    made: &mut Vec<Var>,
    names: &[Declared],
    decimals: u32,
) -> Result<(), Memory>
    requires few { decimals ≤ most_decimals }
    requires fine { All (IsFine decimals) (map declared_view names.now) }
    ensures { OnOk result (map variable_view made.new.items ≡ map variable_view made.old.items ++
        map (variable_of decimals) (map declared_view names.now)) }
{
    for declared in names {
        let name = String::from_str(alloc, &declared.name)?;
        made.push(variable_named(name, declared, decimals))?;
    }
    Ok(())
}

// Variables as they are declared.
pub(crate) fn variables_of(
    alloc: Global,
    declared: &[Declared],
    decimals: u32,
) -> Result<Vec<Var>, Memory>
    requires few { decimals ≤ most_decimals }
    requires fine { All (IsFine decimals) (map declared_view declared.now) }
    ensures { IfOk result (λ made. map variable_view made.items ≡
        map (variable_of decimals) (map declared_view declared.now)) }
{
    let mut made = Vec::new(alloc);
    for variable in declared {
        let name = String::from_str(alloc, &variable.name)?;
        made.push(variable_named(name, variable, decimals))?;
    }
    Ok(made)
}

// The locals that parts of a trace declare.
pub(crate) fn locals_of(
    alloc: Global,
    parts: &[Item<'_>],
    decimals: u32,
) -> Result<Vec<Var>, Memory>
    requires few { decimals ≤ most_decimals }
    requires fine { All (IsFinePart decimals) (items_view parts.now) }
    ensures { IfOk result (λ made. map variable_view made.items ≡
        locals_of decimals 0 (flat_map local_at (items_view parts.now))) }
{
    let mut made = Vec::new(alloc);
    for part in parts {
        put_local(alloc, &mut made, *part, decimals)?;
    }
    Ok(made)
}

// Puts the local that a part declares, if it does, behind others.
fn put_local(
    alloc: Global,
    made: &mut Vec<Var>,
    part: Item<'_>,
    decimals: u32,
) -> Result<(), Memory>
    requires few { decimals ≤ most_decimals }
    requires fine { IsFinePart decimals (item part) }
    ensures { OnOk result (map variable_view made.new.items ≡ map variable_view made.old.items ++
        locals_of decimals (length made.old.items) (local_at (item part.entry))) }
{
    match part {
        Item::Term(trace) => put_local_of(alloc, made, trace, decimals),
        Item::Weight(_) => Ok(()),
    }
}

// Puts the local that a trace declares, if it does, behind others.
fn put_local_of(
    alloc: Global,
    made: &mut Vec<Var>,
    trace: &Expanded,
    decimals: u32,
) -> Result<(), Memory>
    requires few { decimals ≤ most_decimals }
    requires fine { IsFinePart decimals (a_term (expanded trace.now)) }
    ensures { OnOk result (map variable_view made.new.items ≡ map variable_view made.old.items ++
        locals_of decimals (length made.old.items) (local_at (a_term (expanded trace.now)))) }
{
    match trace {
        Expanded::Exist(_, declared, _) => {
            let name = local_name(alloc, &declared.name, made.len() + 1)?;
            made.push(variable_named(name, declared, decimals))?;
            Ok(())
        }
        _ => Ok(()),
    }
}

// A local's name: the one in the text, a point, and its number from 1.
fn local_name(alloc: Global, name: &str, number: usize) -> Result<String, AllocError>
    ensures { IfOk result (λ made. string_bytes made ≡ name.now ++ 46 ∷ decimal number) }
{
    format!(in alloc; "{name}.{number}")
}

// A variable as it is declared, but for its name.
fn variable_named(name: String, declared: &Declared, decimals: u32) -> Var
    requires few { decimals ≤ most_decimals }
    requires fine { IsFine decimals (declared_view declared.now) }
    ensures { variable_view result ≡
        record (variable_of decimals (declared_view declared.now)) { name = string_bytes name } }
{
    Var {
        name,
        kind: declared.kind,
        range: declared.range,
        first: first_of(declared, decimals),
    }
}

// The first value of a variable.
fn first_of(declared: &Declared, decimals: u32) -> Option<Value>
    requires { decimals ≤ most_decimals }
    ensures { result ≡ first_of decimals (declared_view declared.now) }
{
    match &declared.first {
        Some(written) => match static_raw(written, decimals) {
            Some(raw) => Some(Value::of_raw(declared.kind, raw)),
            None => None,
        },
        None => None,
    }
}
