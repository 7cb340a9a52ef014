//! Expressions of a tree as numbers of a table.

ghost use Rattle.std.specs.Prelude.{◌≡◌, ◌<◌, IfOk, OnOk};
ghost use Rattle.lt_num.specs.Value.{raw_of, value_of};
ghost use Rattle.lt_formula.specs.Shape.{shape_of};
ghost use Rattle.lt_formula.specs.Table.{IsNumber};
ghost use Rattle.lt_formula.specs.View.{table_expressions, table_kinds};
ghost use Rattle.lt_formula.specs.declared.shape.Shape.TheVariants as shape;
ghost use Rattle.lt_macros.specs.Placed.{bare};
ghost use Rattle.lt_macros.specs.Tree.{placed};
ghost use Rattle.lt_term.specs.Named.{with_parts};
ghost use Rattle.lt_expand.specs.inner.Put.{IsFilled, IsGrown};
ghost use Rattle.lt_expand.specs.inner.Ready.{IsReady};

use lt_formula::{BinaryOperator, ExpNode, Memory, Role, Table, UnaryOperator};
use lt_macros::Placed;
use lt_num::{Kind, Value};

// The number of an expression, which is put into the table with all its parts, where it isn't there.
pub(crate) fn put_expression(table: &mut Table, written: &Placed) -> Result<u32, Memory>
    requires { IsReady (table_kinds table.old) (placed written.now) }
    ensures number { IfOk result (λ number.
        IsNumber (table_expressions table.new) number (bare (placed written.now))) }
    ensures grown { OnOk result (IsGrown table.old table.new) }
    ensures filled { OnOk result
        (IsFilled (table_expressions table.old) (table_expressions table.new)
        (with_parts (bare (placed written.now)))) }
{
    match written {
        Placed::Constant(kind, value, _) => table.push(constant_node(*kind, *value)),
        Placed::Variable(role, place, _) => table.push(variable_node(*role, *place)),
        Placed::Previous(role, place, _) => table.push(previous_node(*role, *place)),
        Placed::Unary(operator, part, _) => {
            let part = put_expression(table, part)?;
            table.push(unary_node(*operator, part))
        }
        Placed::Binary(operator, left, right, _) => {
            let left = put_expression(table, left)?;
            let right = put_expression(table, right)?;
            table.push(binary_node(*operator, left, right))
        }
        Placed::Choice(condition, first, second, _) => {
            let condition = put_expression(table, condition)?;
            let first = put_expression(table, first)?;
            let second = put_expression(table, second)?;
            table.push(ExpNode::If(condition, first, second))
        }
    }
}

// The node of a value of a kind.
#[tactic(auto, using(crate::proofs::Shapes::constant_shape))]
fn constant_node(kind: Kind, value: Value) -> ExpNode
    requires { value_of kind (raw_of value) ≡ value }
    ensures { shape_of result ≡ shape.Constant kind value }
{
    match kind {
        Kind::Bool => ExpNode::Flag(value.is_true()),
        Kind::Int => ExpNode::Int(value.raw()),
        Kind::Real => ExpNode::Real(value.raw()),
    }
}

// The node of a variable.
fn variable_node(role: Role, place: u32) -> ExpNode
    ensures { shape_of result ≡ shape.Variable role place }
{
    match role {
        Role::Input => ExpNode::Input(place),
        Role::Output => ExpNode::Output(place),
        Role::Local => ExpNode::Local(place),
    }
}

// The node of what a variable was in the instant before.
fn previous_node(role: Role, place: u32) -> ExpNode
    ensures { shape_of result ≡ shape.Previous role place }
{
    match role {
        Role::Input => ExpNode::PreInput(place),
        Role::Output => ExpNode::PreOutput(place),
        Role::Local => ExpNode::PreLocal(place),
    }
}

// The node of an operator on one part.
fn unary_node(operator: UnaryOperator, part: u32) -> ExpNode
    ensures { shape_of result ≡ shape.Unary operator part }
{
    match operator {
        UnaryOperator::Not => ExpNode::Not(part),
        UnaryOperator::Neg => ExpNode::Neg(part),
    }
}

// The node of an operator on two parts.
fn binary_node(operator: BinaryOperator, left: u32, right: u32) -> ExpNode
    ensures { shape_of result ≡ shape.Binary operator left right }
{
    match operator {
        BinaryOperator::And => ExpNode::And(left, right),
        BinaryOperator::Or => ExpNode::Or(left, right),
        BinaryOperator::Xor => ExpNode::Xor(left, right),
        BinaryOperator::Implies => ExpNode::Implies(left, right),
        BinaryOperator::Eq => ExpNode::Eq(left, right),
        BinaryOperator::Ne => ExpNode::Ne(left, right),
        BinaryOperator::Lt => ExpNode::Lt(left, right),
        BinaryOperator::Le => ExpNode::Le(left, right),
        BinaryOperator::Gt => ExpNode::Gt(left, right),
        BinaryOperator::Ge => ExpNode::Ge(left, right),
        BinaryOperator::Add => ExpNode::Add(left, right),
        BinaryOperator::Sub => ExpNode::Sub(left, right),
        BinaryOperator::Mul => ExpNode::Mul(left, right),
        BinaryOperator::Div => ExpNode::Div(left, right),
        BinaryOperator::Mod => ExpNode::Mod(left, right),
    }
}
