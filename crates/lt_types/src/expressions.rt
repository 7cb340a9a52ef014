//! Expressions.
//!
//! The functions of this module and of those for groups and traces call each other. Each says this of its construct:
//! where it is Ok, no rule is broken, and the scope is as it was; an error is the first rule that is broken, or want of
//! memory.

ghost use Rattle.std.specs.Prelude.{◌≡◌, IfOk, OnOk, Some, map, string_bytes};
ghost use Rattle.lt_ast.specs.inner.Lists.{arguments_of};
ghost use Rattle.lt_ast.specs.inner.Rows.{IsOperand};
ghost use Rattle.lt_ast.specs.Syntax.{called};
ghost use Rattle.lt_ast.specs.View.{argument, exp, word};
ghost use Rattle.lt_types.specs.inner.Checks.{Answers, Checks};
ghost use Rattle.lt_types.specs.inner.Given.{argument_type, used};
ghost use Rattle.lt_types.specs.Operators.{binary_gives, binary_takes, unary_gives, unary_takes};
ghost use Rattle.lt_types.specs.Refusals.{argument_refusals, arguments_refusals, branches, exp_refusals, operands, type_of, typed};

use crate::kinds::{gives_one, gives_two, is_same, is_value, takes_one, takes_two};
use crate::refusal::TypeRefusal;
use crate::scope::Scope;
use crate::traces::check_braces;
use crate::uses::{check_alone, check_applied, check_behind_pre};
use lt_ast::{Arg, Args, BinOp, Expr, Name, Span, TypeName, UnOp};
use std::alloc::Global;

// An expression. A chain of operators hangs on its left side, which a loop goes down: its length takes no stack.
#[cycle(check)]
#[tactic(auto, using(crate::proofs::Leading::leads, crate::proofs::Stacks::turned))]
pub(crate) fn check_expr(
    alloc: Global,
    scope: &mut Scope,
    expr: &Expr,
) -> Result<TypeName, TypeRefusal>
    ensures answered { Answers result (exp_refusals scope.old (exp expr.now))
        (type_of scope.old (exp expr.now)) }
    ensures kept { OnOk result (scope.new ≡ scope.old) }
{
    let mut sides = Vec::new(alloc);
    let mut left = expr;
    while let Expr::Binary(operator, both, at) = left {
        sides.push((*operator, &both.right, *at))?;
        left = &both.left;
    }
    let mut kind = check_operand(alloc, scope, left)?;
    while let Some((operator, right, at)) = sides.pop() {
        let other = check_expr(alloc, scope, right)?;
        kind = check_binary(operator, kind, other, at)?;
    }
    Ok(kind)
}

// An expression that is no operator between two operands.
#[cycle(check)]
fn check_operand(alloc: Global, scope: &mut Scope, expr: &Expr) -> Result<TypeName, TypeRefusal>
    requires operand { IsOperand (exp expr.now) }
    ensures answered { Answers result (exp_refusals scope.old (exp expr.now))
        (type_of scope.old (exp expr.now)) }
    ensures kept { OnOk result (scope.new ≡ scope.old) }
{
    match expr {
        Expr::Number(literal) => Ok(literal.type_name()),
        Expr::Flag(_, _) => Ok(TypeName::Bool),
        Expr::Named(name, args) => check_use(alloc, scope, name, args),
        Expr::Pre(name, at) => check_behind_pre(scope, name, *at),
        Expr::Paren(inner, _) => check_expr(alloc, scope, inner),
        Expr::Unary(operator, inner, at) => {
            let kind = check_expr(alloc, scope, inner)?;
            check_unary(*operator, kind, *at)
        }
        Expr::Binary(_, _, _) => unreachable!(),
        Expr::If(condition, left, right, at) => {
            let tested = check_expr(alloc, scope, condition)?;
            let kind = check_expr(alloc, scope, left)?;
            let other = check_expr(alloc, scope, right)?;
            check_branches(tested, kind, other, *at)
        }
    }
}

// A name, with its arguments where it has a list of them.
#[cycle(check)]
fn check_use(
    alloc: Global,
    scope: &mut Scope,
    name: &Name,
    args: &Option<Box<Args>>,
) -> Result<TypeName, TypeRefusal>
    ensures answered { Answers result (exp_refusals scope.old (used (word name.now) args.now))
        (type_of scope.old (used (word name.now) args.now)) }
    ensures kept { OnOk result (scope.new ≡ scope.old) }
{
    match args {
        None => check_alone(scope, name),
        Some(args) => check_call(alloc, scope, name, &args.items),
    }
}

// A name with arguments.
#[cycle(check)]
fn check_call(
    alloc: Global,
    scope: &mut Scope,
    name: &Name,
    args: &[Arg],
) -> Result<TypeName, TypeRefusal>
    ensures answered { Answers result
        (exp_refusals scope.old (called (word name.now) (arguments_of (map argument args.now))))
        (type_of scope.old (called (word name.now) (arguments_of (map argument args.now)))) }
    ensures kept { OnOk result (scope.new ≡ scope.old) }
{
    if scope.lookup(name.text.as_str()).is_none() {
        return Err(TypeRefusal::Unknown(name.span));
    }
    let kinds = check_args(alloc, scope, args)?;
    check_applied(scope, name, args, &kinds)
}

// Arguments, and the types that they have.
#[cycle(check)]
fn check_args(alloc: Global, scope: &mut Scope, args: &[Arg]) -> Result<Vec<TypeName>, TypeRefusal>
    ensures answered { Checks result
        (arguments_refusals scope.old (arguments_of (map argument args.now))) }
    ensures kinds { IfOk result (λ kinds. map Some kinds.items ≡
        map (argument_type scope.old) (map argument args.now)) }
    ensures kept { OnOk result (scope.new ≡ scope.old) }
{
    let mut kinds = Vec::new(alloc);
    for arg in args {
        kinds.push(check_arg(alloc, scope, arg)?)?;
    }
    Ok(kinds)
}

// An argument, and the type that it has.
#[cycle(check)]
fn check_arg(alloc: Global, scope: &mut Scope, arg: &Arg) -> Result<TypeName, TypeRefusal>
    ensures answered { Answers result (argument_refusals scope.old (argument arg.now))
        (argument_type scope.old (argument arg.now)) }
    ensures kept { OnOk result (scope.new ≡ scope.old) }
{
    match arg {
        Arg::Value(expr) => check_expr(alloc, scope, expr),
        Arg::Trace(inside, _) => {
            check_braces(alloc, scope, inside)?;
            Ok(TypeName::Trace)
        }
    }
}

// An operator and its operand.
#[tactic(auto, using(crate::proofs::Leading::leads))]
fn check_unary(operator: UnOp, kind: TypeName, at: Span) -> Result<TypeName, TypeRefusal>
    ensures { Answers result (typed (unary_takes operator) (Some kind) at)
        (Some (unary_gives operator kind)) }
{
    if takes_one(operator, kind) {
        return Ok(gives_one(operator, kind));
    }
    Err(TypeRefusal::Mismatch(at))
}

// An operator between its operands.
#[tactic(auto, using(crate::proofs::Leading::leads))]
fn check_binary(
    operator: BinOp,
    left: TypeName,
    right: TypeName,
    at: Span,
) -> Result<TypeName, TypeRefusal>
    ensures { Answers result (operands (binary_takes operator) (Some left) (Some right) at)
        (Some (binary_gives operator left)) }
{
    if is_same(right, left) && takes_two(operator, left) {
        return Ok(gives_two(operator, left));
    }
    Err(TypeRefusal::Mismatch(at))
}

// A condition and what it chooses between.
#[tactic(auto, using(crate::proofs::Leading::leads))]
fn check_branches(
    condition: TypeName,
    left: TypeName,
    right: TypeName,
    at: Span,
) -> Result<TypeName, TypeRefusal>
    ensures { Answers result (branches (Some condition) (Some left) (Some right) at) (Some left) }
{
    if is_same(condition, TypeName::Bool) && is_same(right, left) && is_value(left) {
        return Ok(left);
    }
    Err(TypeRefusal::Mismatch(at))
}
