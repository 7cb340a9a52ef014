//! What is known of a node that may be run.

ghost use Rattle.std.specs.Prelude.{◌≡◌, ◌++◌, [], map, IfOk, OnOk};
ghost use Rattle.lt_ast.specs.View.{groupings};
ghost use Rattle.lt_ast.specs.inner.Rows.{group_of};
ghost use Rattle.lt_types.specs.Environment.{group_inputs, group_types, groups_inputs, groups_types};
ghost use Rattle.lt_types.specs.inner.Checks.{Checks};
ghost use Rattle.lt_types.specs.inner.Scoping.{input_view};

use crate::refusal::TypeRefusal;
use lt_ast::{Group, Groups, NodeDecl, TypeName};
use std::alloc::Global;

// An input of a node.
#[derive(Clone, Copy)]
pub(crate) struct Input {
    // Its type.
    pub(crate) kind: TypeName,

    // Whether a range is written for it.
    pub(crate) ranged: bool,
}

// The inputs of a node, and the types of its outputs.
#[derive(Drop)]
pub(crate) struct NodeTypes {
    // The inputs, in order.
    pub(crate) inputs: Vec<Input>,

    // The types of the outputs, in order.
    pub(crate) outputs: Vec<TypeName>,
}

impl NodeTypes {
    // Those of a node of a text.
    pub(crate) fn of_node(alloc: Global, declared: &NodeDecl) -> Result<NodeTypes, TypeRefusal>
        ensures inputs { IfOk result (λ x. map input_view x.inputs.items ≡
            groups_inputs (groupings declared.now.inputs)) }
        ensures outputs { IfOk result (λ x. x.outputs.items ≡
            groups_types (groupings declared.now.outputs)) }
        ensures memory { Checks result [] }
    {
        let mut inputs = Vec::new(alloc);
        add_inputs(&mut inputs, &declared.inputs)?;
        let mut outputs = Vec::new(alloc);
        add_types(&mut outputs, &declared.outputs)?;
        Ok(NodeTypes { inputs, outputs })
    }
}

// One input for each name of the groups.
fn add_inputs(all: &mut Vec<Input>, groups: &Groups) -> Result<(), TypeRefusal>
    ensures ok { OnOk result (map input_view all.new.items ≡ map input_view all.old.items ++
        groups_inputs (groupings groups.now)) }
    ensures memory { Checks result [] }
{
    for group in &groups.items {
        add_group_inputs(all, group)?;
    }
    Ok(())
}

// One input for each name of a group.
fn add_group_inputs(all: &mut Vec<Input>, group: &Group) -> Result<(), TypeRefusal>
    ensures ok { OnOk result (map input_view all.new.items ≡ map input_view all.old.items ++
        group_inputs (group_of group.now)) }
    ensures memory { Checks result [] }
{
    for _ in &group.names.items {
        all.push(Input {
            kind: group.kind,
            ranged: group.range.is_some(),
        })?;
    }
    Ok(())
}

// The type of each name of the groups.
fn add_types(all: &mut Vec<TypeName>, groups: &Groups) -> Result<(), TypeRefusal>
    ensures ok { OnOk result (all.new.items ≡ all.old.items ++
        groups_types (groupings groups.now)) }
    ensures memory { Checks result [] }
{
    for group in &groups.items {
        add_group_types(all, group)?;
    }
    Ok(())
}

// The type of each name of a group.
fn add_group_types(all: &mut Vec<TypeName>, group: &Group) -> Result<(), TypeRefusal>
    ensures ok { OnOk result (all.new.items ≡ all.old.items ++ group_types (group_of group.now)) }
    ensures memory { Checks result [] }
{
    for _ in &group.names.items {
        all.push(group.kind)?;
    }
    Ok(())
}
