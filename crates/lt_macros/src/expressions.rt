//! Expressions without names.

ghost use Rattle.std.specs.Prelude.{◌≡◌};
ghost use Rattle.lt_ast.specs.Syntax as s;
ghost use Rattle.lt_ast.specs.View.{exp};
ghost use Rattle.lt_macros.specs.Denotation.{as_expression};
ghost use Rattle.lt_macros.specs.inner.Builder.{Builds, IsReady, IsReadyFor, form_denotation, phrase_at, value_at};
ghost use Rattle.lt_macros.specs.Tree.{placed};

use crate::builder::Builder;
use crate::head_normal_form::{HeadNormalForm, reduce};
use crate::literals::{binary_operator, meaningless, number_at, unary_operator};
use crate::position::Position;
use crate::scope::Phrase;
use crate::tree::Placed;
use lt_ast::{BinOp, Expr, Span, UnOp};
use lt_formula::Memory;
use lt_num::{Kind, Value};

// What a phrase stands for as an expression.
#[cycle(build_expr)]
#[inline(never)]
pub(crate) fn build_expr<'a>(
    builder: &mut Builder<'a>,
    environment: usize,
    phrase: Phrase<'a>,
) -> Result<Placed, Memory>
    requires { IsReady builder.old environment }
    ensures { Builds builder.old builder.new result (λ e.
        placed e ≡ as_expression (phrase_at builder.old environment phrase.entry)) }
{
    let reach = builder.reach;
    builder.enter_expression()?;
    let expr = build_met(builder, environment, phrase)?;
    builder.leave_to(reach);
    Ok(expr)
}

// What is met of a phrase as an expression.
#[cycle(build_expr)]
#[inline(always)]
fn build_met<'a>(
    builder: &mut Builder<'a>,
    environment: usize,
    phrase: Phrase<'a>,
) -> Result<Placed, Memory>
    requires { IsReady builder.old environment }
    ensures { Builds builder.old builder.new result (λ e.
        placed e ≡ as_expression (phrase_at builder.old environment phrase.entry)) }
{
    let before = builder.scope.len();
    let form = reduce(
        &mut builder.scope,
        Position::Expression,
        environment,
        phrase,
    )?;
    let expr = build_expr_form(builder, form)?;
    builder.scope.truncate(before);
    Ok(expr)
}

// What is met as an expression; a trace means nothing there.
#[cycle(build_expr)]
#[inline(never)]
pub(crate) fn build_expr_form<'a>(
    builder: &mut Builder<'a>,
    form: HeadNormalForm<'a>,
) -> Result<Placed, Memory>
    requires { IsReadyFor builder.old form }
    ensures { Builds builder.old builder.new result (λ e.
        placed e ≡ as_expression (form_denotation builder.old form.entry)) }
{
    match form {
        HeadNormalForm::Variable(role, place, at) => Ok(Placed::Variable(role, place, at)),
        HeadNormalForm::Previous(role, place, at) => Ok(Placed::Previous(role, place, at)),
        HeadNormalForm::Number(literal) => number_at(builder.alloc, builder.decimals, literal),
        HeadNormalForm::Flag(flag, at) => Ok(Placed::Constant(Kind::Bool, Value::Bool(flag), at)),
        HeadNormalForm::Unary(operator, part, at, environment) => {
            build_unary(builder, environment, operator, part, at)
        }
        HeadNormalForm::Binary(operator, left, right, at, environment) => {
            build_binary(builder, environment, operator, left, right, at)
        }
        HeadNormalForm::If(condition, holds, otherwise, at, environment) => {
            build_if(builder, environment, condition, holds, otherwise, at)
        }
        HeadNormalForm::Meaningless
        | HeadNormalForm::Nothing
        | HeadNormalForm::Joined(_, _, _, _)
        | HeadNormalForm::Loop(_, _, _)
        | HeadNormalForm::Choice(_, _)
        | HeadNormalForm::Raise(_, _)
        | HeadNormalForm::Assert(_, _, _)
        | HeadNormalForm::Exist(_, _, _)
        | HeadNormalForm::Catch(_, _, _, _)
        | HeadNormalForm::Try(_, _, _) => Ok(meaningless()),
    }
}

// An operator on one part.
#[cycle(build_expr)]
#[inline(never)]
fn build_unary<'a>(
    builder: &mut Builder<'a>,
    environment: usize,
    operator: UnOp,
    part: &'a Expr,
    at: Span,
) -> Result<Placed, Memory>
    requires { IsReady builder.old environment }
    ensures { Builds builder.old builder.new result (λ e.
        placed e ≡ value_at builder.old environment (s.unary operator (exp part.now) at)) }
{
    let part = build_part(builder, environment, part)?;
    Ok(Placed::Unary(unary_operator(operator), part, at))
}

// An operator on two parts.
#[cycle(build_expr)]
#[inline(never)]
fn build_binary<'a>(
    builder: &mut Builder<'a>,
    environment: usize,
    operator: BinOp,
    left: &'a Expr,
    right: &'a Expr,
    at: Span,
) -> Result<Placed, Memory>
    requires { IsReady builder.old environment }
    ensures { Builds builder.old builder.new result (λ e.
        placed e ≡ value_at builder.old environment
        (s.binary operator (exp left.now) (exp right.now) at)) }
{
    let left = build_part(builder, environment, left)?;
    let right = build_part(builder, environment, right)?;
    Ok(Placed::Binary(binary_operator(operator), left, right, at))
}

// The second part where the first is true, and else the third.
#[cycle(build_expr)]
#[inline(never)]
fn build_if<'a>(
    builder: &mut Builder<'a>,
    environment: usize,
    condition: &'a Expr,
    holds: &'a Expr,
    otherwise: &'a Expr,
    at: Span,
) -> Result<Placed, Memory>
    requires { IsReady builder.old environment }
    ensures { Builds builder.old builder.new result (λ e.
        placed e ≡ value_at builder.old environment
        (s.choose (exp condition.now) (exp holds.now) (exp otherwise.now) at)) }
{
    let condition = build_part(builder, environment, condition)?;
    let holds = build_part(builder, environment, holds)?;
    let otherwise = build_part(builder, environment, otherwise)?;
    Ok(Placed::Choice(condition, holds, otherwise, at))
}

// A part of an expression.
#[cycle(build_expr)]
#[inline(never)]
fn build_part<'a>(
    builder: &mut Builder<'a>,
    environment: usize,
    part: &'a Expr,
) -> Result<Box<Placed>, Memory>
    requires { IsReady builder.old environment }
    ensures { Builds builder.old builder.new result (λ e.
        placed e.value ≡ value_at builder.old environment (exp part.now)) }
{
    let part = build_expr(builder, environment, Phrase::Value(part))?;
    Ok(Box::new(builder.alloc, part)?)
}
