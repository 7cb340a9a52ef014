//! Names that are used, and the arguments that they are given.

ghost use Rattle.std.specs.Prelude.{◌≡◌, IsSome, map, option_map};
ghost use Rattle.lt_ast.specs.Letters.{letters};
ghost use Rattle.lt_ast.specs.inner.Lists.{arguments_of};
ghost use Rattle.lt_ast.specs.Syntax.{called, named, pre};
ghost use Rattle.lt_ast.specs.View.{argument, exp, word};
ghost use Rattle.lt_types.specs.inner.Checks.{Answers, Checks};
ghost use Rattle.lt_types.specs.Environment.{found};
ghost use Rattle.lt_ast.specs.Places.{span_of};
ghost use Rattle.lt_types.specs.Refusals.{alone, applied, argument_misfit, arguments_misfit, behind_pre, entry_type, exp_refusals, known_exception, is_variable as is_a_variable, is_variable_entry as is_a_variable_entry, type_of, typed, unless};
ghost use Rattle.lt_types.specs.Operators.{same_type};
ghost use Rattle.lt_types.specs.inner.Given.{argument_span, argument_type, used};
ghost use Rattle.lt_types.specs.inner.Scoping.{entry_view, param_view};

use crate::entry::{Entry, Param};
use crate::kinds::{is_same, serves_as};
use crate::refusal::TypeRefusal;
use crate::scope::Scope;
use lt_ast::{Arg, Args, Expr, Name, Span, TypeName};

// A name alone.
#[tactic(auto, using(crate::proofs::Leading::leads))]
pub(crate) fn check_alone(scope: &Scope, name: &Name) -> Result<TypeName, TypeRefusal>
    ensures { Answers result (exp_refusals scope.now (named (word name.now)))
        (type_of scope.now (named (word name.now))) }
{
    match scope.lookup(name.text.as_str()) {
        None => Err(TypeRefusal::Unknown(name.span)),
        Some(entry) => check_entry_alone(name, entry),
    }
}

// What a name alone stands for.
#[tactic(auto, using(crate::proofs::Leading::leads, crate::proofs::Naming::alone_many))]
fn check_entry_alone(name: &Name, entry: &Entry) -> Result<TypeName, TypeRefusal>
    ensures { Answers result (alone (word name.now) (Some (entry_view entry.now)))
        (Some (entry_type (entry_view entry.now))) }
{
    match entry {
        Entry::Variable(kind) => Ok(*kind),
        Entry::Parameter(kind) => Ok(*kind),
        Entry::Macro(params, kind) if params.is_empty() => Ok(*kind),
        Entry::Macro(_, _) => Err(TypeRefusal::Arity(name.span)),
    }
}

// A name after `pre`.
#[tactic(auto, using(crate::proofs::Leading::leads))]
pub(crate) fn check_behind_pre(
    scope: &Scope,
    name: &Name,
    at: Span,
) -> Result<TypeName, TypeRefusal>
    ensures { Answers result (exp_refusals scope.now (pre (word name.now) at))
        (type_of scope.now (pre (word name.now) at)) }
{
    match scope.lookup(name.text.as_str()) {
        None => Err(TypeRefusal::Unknown(name.span)),
        Some(Entry::Variable(kind)) => Ok(*kind),
        Some(Entry::Parameter(_)) => Err(TypeRefusal::PreOfExpression(name.span)),
        Some(Entry::Macro(_, _)) => Err(TypeRefusal::PreOfExpression(name.span)),
    }
}

// The name of an exception.
#[tactic(auto, using(crate::proofs::Leading::leads))]
pub(crate) fn check_exception(scope: &Scope, name: &Name) -> Result<(), TypeRefusal>
    ensures { Checks result (known_exception scope.now (word name.now)) }
{
    if scope.is_exception(name.text.as_str()) {
        return Ok(());
    }
    Err(TypeRefusal::Unknown(name.span))
}

// That an expression of a type has the type that is wanted.
#[tactic(auto, using(crate::proofs::Leading::leads))]
pub(crate) fn check_kind(own: TypeName, wanted: TypeName, expr: &Expr) -> Result<(), TypeRefusal>
    ensures { Checks result (typed (λ k. same_type k wanted) (Some own) (span_of (exp expr.now))) }
{
    if is_same(own, wanted) {
        return Ok(());
    }
    Err(TypeRefusal::Mismatch(expr.span()))
}

// A known name with arguments of these types, which break no rule of their own.
#[tactic(auto, using(crate::proofs::Leading::leads))]
pub(crate) fn check_applied(
    scope: &Scope,
    name: &Name,
    args: &[Arg],
    kinds: &[TypeName],
) -> Result<TypeName, TypeRefusal>
    requires known { IsSome (found scope.now.names (letters name.now.text)) }
    requires kinds { map Some kinds.now ≡ map (argument_type scope.now) (map argument args.now) }
    ensures { Answers result
        (applied scope.now (word name.now) (arguments_of (map argument args.now))
        (found scope.now.names (letters name.now.text)))
        (option_map entry_type (found scope.now.names (letters name.now.text))) }
{
    match scope.lookup(name.text.as_str()) {
        None => unreachable!(),
        Some(entry) => check_entry_applied(scope, name, args, kinds, entry),
    }
}

// What a name with arguments stands for.
fn check_entry_applied(
    scope: &Scope,
    name: &Name,
    args: &[Arg],
    kinds: &[TypeName],
    entry: &Entry,
) -> Result<TypeName, TypeRefusal>
    requires { map Some kinds.now ≡ map (argument_type scope.now) (map argument args.now) }
    ensures { Answers result
        (applied scope.now (word name.now) (arguments_of (map argument args.now))
        (Some (entry_view entry.now))) (Some (entry_type (entry_view entry.now))) }
{
    match entry {
        Entry::Variable(_) => Err(TypeRefusal::Arity(name.span)),
        Entry::Parameter(_) => Err(TypeRefusal::Arity(name.span)),
        Entry::Macro(params, kind) => {
            if args.len() != params.len() {
                return Err(TypeRefusal::Arity(name.span));
            }
            check_arguments_fit(scope, args, kinds, params)?;
            Ok(*kind)
        }
    }
}

// Arguments for parameters, as far as both go, with the types of the arguments.
fn check_arguments_fit(
    scope: &Scope,
    args: &[Arg],
    kinds: &[TypeName],
    params: &[Param],
) -> Result<(), TypeRefusal>
    requires { map Some kinds.now ≡ map (argument_type scope.now) (map argument args.now) }
    ensures { Checks result
        (arguments_misfit scope.now (arguments_of (map argument args.now))
        (map param_view params.now)) }
{
    let mut args = args;
    let mut kinds = kinds;
    let mut params = params;
    while let [param, more_params @ ..] = params {
        let ([arg, more_args @ ..], [kind, more_kinds @ ..]) = (args, kinds) else {
            return Ok(());
        };
        check_argument_fits(scope, arg, *kind, *param)?;
        args = more_args;
        kinds = more_kinds;
        params = more_params;
    }
    Ok(())
}

// An argument of a type for a parameter.
#[tactic(auto, using(crate::proofs::Leading::leads))]
fn check_argument_fits(
    scope: &Scope,
    arg: &Arg,
    kind: TypeName,
    param: Param,
) -> Result<(), TypeRefusal>
    requires { argument_type scope.now (argument arg.now) ≡ Some kind }
    ensures { Checks result (argument_misfit scope.now (argument arg.now) (param_view param)) }
{
    if argument_fits(scope, arg, kind, param) {
        return Ok(());
    }
    Err(TypeRefusal::Mismatch(place_of_argument(arg)))
}

// Whether an argument of a type may be given for a parameter.
#[tactic(auto, using(crate::proofs::Naming::served_trace))]
fn argument_fits(scope: &Scope, arg: &Arg, kind: TypeName, param: Param) -> bool
    requires { argument_type scope.now (argument arg.now) ≡ Some kind }
    ensures { argument_misfit scope.now (argument arg.now) (param_view param) ≡
        unless result (TypeRefusal.Mismatch (argument_span (argument arg.now))) }
{
    match arg {
        Arg::Value(expr) if param.by_ref => is_variable(scope, expr, param.kind),
        Arg::Value(_) => serves_as(kind, param.kind),
        Arg::Trace(_, _) => !param.by_ref && is_same(param.kind, TypeName::Trace),
    }
}

// Whether an expression is the name of a variable of this type.
fn is_variable(scope: &Scope, expr: &Expr, kind: TypeName) -> bool
    ensures { result ≡ is_a_variable scope.now (exp expr.now) kind }
{
    match expr {
        Expr::Named(name, args) => names_variable(scope, name, args, kind),
        Expr::Number(_)
        | Expr::Flag(_, _)
        | Expr::Pre(_, _)
        | Expr::Paren(_, _)
        | Expr::Unary(_, _, _)
        | Expr::Binary(_, _, _)
        | Expr::If(_, _, _, _) => false,
    }
}

// Whether a name, which must have no arguments, is that of a variable of this type.
fn names_variable(scope: &Scope, name: &Name, args: &Option<Box<Args>>, kind: TypeName) -> bool
    ensures { result ≡ is_a_variable scope.now (used (word name.now) args.now) kind }
{
    match args {
        Some(_) => false,
        None => match scope.lookup(name.text.as_str()) {
            Some(entry) => is_variable_entry(entry, kind),
            None => false,
        },
    }
}

// Whether a name stands for a variable of this type.
fn is_variable_entry(entry: &Entry, kind: TypeName) -> bool
    ensures { result ≡ is_a_variable_entry (Some (entry_view entry.now)) kind }
{
    match entry {
        Entry::Variable(own) => is_same(*own, kind),
        Entry::Parameter(_) => false,
        Entry::Macro(_, _) => false,
    }
}

// The place of an argument.
fn place_of_argument(arg: &Arg) -> Span
    ensures { result ≡ argument_span (argument arg.now) }
{
    match arg {
        Arg::Value(expr) => expr.span(),
        Arg::Trace(_, at) => *at,
    }
}
