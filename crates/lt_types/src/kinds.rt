//! Types, and what operators make of them.

ghost use Rattle.std.specs.Prelude.{◌≡◌};
ghost use Rattle.lt_types.specs.Operators.{binary_gives, binary_takes, is_number as is_a_number, is_value as is_a_value, same_type, serves_as as may_serve_as, unary_gives, unary_takes};

use lt_ast::{BinOp, OperatorClass, TypeName, UnOp};

pub(crate) fn is_same(kind: TypeName, other: TypeName) -> bool
    ensures { result ≡ same_type kind other }
{
    match (kind, other) {
        (TypeName::Bool, TypeName::Bool) => true,
        (TypeName::Int, TypeName::Int) => true,
        (TypeName::Real, TypeName::Real) => true,
        (TypeName::Trace, TypeName::Trace) => true,
        _ => false,
    }
}

pub(crate) fn is_number(kind: TypeName) -> bool
    ensures { result ≡ is_a_number kind }
{
    is_same(kind, TypeName::Int) || is_same(kind, TypeName::Real)
}

pub(crate) fn is_value(kind: TypeName) -> bool
    ensures { result ≡ is_a_value kind }
{
    is_same(kind, TypeName::Bool) || is_number(kind)
}

pub(crate) fn serves_as(kind: TypeName, wanted: TypeName) -> bool
    ensures { result ≡ may_serve_as kind wanted }
{
    match (kind, wanted) {
        (TypeName::Bool, TypeName::Trace) => true,
        _ => is_same(kind, wanted),
    }
}

// Whether the operand of an operator may have this type.
pub(crate) fn takes_one(operator: UnOp, kind: TypeName) -> bool
    ensures { result ≡ unary_takes operator kind }
{
    match operator {
        UnOp::Not => is_same(kind, TypeName::Bool),
        UnOp::Neg => is_number(kind),
    }
}

// The type of the whole, where the operand has this one.
pub(crate) fn gives_one(operator: UnOp, kind: TypeName) -> TypeName
    ensures { result ≡ unary_gives operator kind }
{
    match operator {
        UnOp::Not => TypeName::Bool,
        UnOp::Neg => kind,
    }
}

// Whether both operands of an operator may have this type.
pub(crate) fn takes_two(operator: BinOp, kind: TypeName) -> bool
    ensures { result ≡ binary_takes operator kind }
{
    match operator.class() {
        OperatorClass::Connective => is_same(kind, TypeName::Bool),
        OperatorClass::Equality => is_value(kind),
        OperatorClass::Order | OperatorClass::Arithmetic => is_number(kind),
        OperatorClass::Whole => is_same(kind, TypeName::Int),
    }
}

// The type of the whole, where the left operand has this one.
pub(crate) fn gives_two(operator: BinOp, kind: TypeName) -> TypeName
    ensures { result ≡ binary_gives operator kind }
{
    match operator.class() {
        OperatorClass::Connective | OperatorClass::Equality | OperatorClass::Order => {
            TypeName::Bool
        }
        OperatorClass::Arithmetic | OperatorClass::Whole => kind,
    }
}
