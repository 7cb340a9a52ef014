//! Traces of a tree as terms, whose expressions are numbers of a table.

ghost use Rattle.std.specs.Prelude.{◌≡◌, IfOk};
ghost use Rattle.lt_formula.specs.View.{table_kinds};
ghost use Rattle.lt_macros.specs.Expanded as tree;
ghost use Rattle.lt_macros.specs.Tree.{exception, expanded, parts};
ghost use Rattle.lt_term.specs.View.{process};
ghost use Rattle.lt_expand.specs.Exceptions.{number_in};
ghost use Rattle.lt_expand.specs.inner.Declarations.{exceptions};
ghost use Rattle.lt_expand.specs.inner.Put.{IsPut};
ghost use Rattle.lt_expand.specs.inner.Ready.{AreReady, IsKnown};

use crate::exceptions::Exceptions;
use crate::expressions::put_expression;
use lt_formula::{Memory, Table};
use lt_macros::{Exception, Expanded, Parts};
use lt_term::{Last, Term};
use std::alloc::Global;
use std::rc::Rc;

// A trace as a term. Its expressions are put into the table, where they aren't there.
#[cycle(terms)]
pub(crate) fn put_term(
    alloc: Global,
    table: &mut Table,
    known: &Exceptions<'_>,
    trace: &Expanded,
) -> Result<Term, Memory>
    requires { AreReady (table_kinds table.old) (exceptions known.now) (expanded trace.now) }
    ensures { IfOk result (λ made. IsPut table.old table.new (exceptions known.now)
        (expanded trace.now) (process made)) }
{
    match trace {
        Expanded::Eps => Ok(Term::Eps),
        Expanded::Dead => Ok(Term::Dead),
        Expanded::Con(constraint) => {
            let constraint = put_expression(table, constraint)?;
            Ok(Term::Con(constraint))
        }
        Expanded::Raise(raised) => Ok(Term::Raise(exception_number(known, raised))),
        Expanded::Seq(first, second) => put_seq(alloc, table, known, first, second),
        Expanded::Loop(body) => {
            let body = put_part(alloc, table, known, body)?;
            Ok(Term::Loop(body))
        }
        Expanded::Count(counter, _, body) => {
            let body = put_part(alloc, table, known, body)?;
            Ok(Term::Count {
                counter: *counter,
                done: 0,
                body,
            })
        }
        Expanded::Any(alternatives) => put_any(alloc, table, known, alternatives),
        Expanded::Pri(first, second) => put_pri(alloc, table, known, first, second),
        Expanded::Par(first, second) => put_par(alloc, table, known, first, second),
        Expanded::Assert(constraint, body) => {
            let constraint = put_expression(table, constraint)?;
            let body = put_part(alloc, table, known, body)?;
            Ok(Term::Assert(constraint, body))
        }
        Expanded::Exist(local, _, body) => {
            let body = put_part(alloc, table, known, body)?;
            Ok(Term::Exist {
                local: *local,
                last: Last::First,
                body,
            })
        }
        Expanded::Catch(caught, body, otherwise) => {
            put_catch(alloc, table, known, caught, body, otherwise)
        }
        Expanded::Try(body, otherwise) => put_try(alloc, table, known, body, otherwise),
    }
}

// What has several parts is put by a function of its own, which is marked `inline(never)` for the stack: a level of
// nesting takes 304 bytes so, and 448 at most where it has several parts. Where one function put all, each took 544.

// One trace, and then another.
#[cycle(terms)]
#[inline(never)]
fn put_seq(
    alloc: Global,
    table: &mut Table,
    known: &Exceptions<'_>,
    first: &Expanded,
    second: &Expanded,
) -> Result<Term, Memory>
    requires { AreReady (table_kinds table.old) (exceptions known.now)
        (tree.seq (expanded first.now) (expanded second.now)) }
    ensures { IfOk result (λ made. IsPut table.old table.new (exceptions known.now)
        (tree.seq (expanded first.now) (expanded second.now)) (process made)) }
{
    let first = put_part(alloc, table, known, first)?;
    let second = put_part(alloc, table, known, second)?;
    Ok(Term::Seq(first, second))
}

// Traces to choose from, each behind the number of its weight.
#[cycle(terms)]
#[inline(never)]
fn put_any(
    alloc: Global,
    table: &mut Table,
    known: &Exceptions<'_>,
    alternatives: &Parts,
) -> Result<Term, Memory>
    requires { AreReady (table_kinds table.old) (exceptions known.now)
        (tree.any (parts alternatives.now)) }
    ensures { IfOk result (λ made. IsPut table.old table.new (exceptions known.now)
        (tree.any (parts alternatives.now)) (process made)) }
{
    let mut made = Vec::with_capacity(alloc, alternatives.items.len())?;
    for alternative in &alternatives.items {
        let weight = put_expression(table, &alternative.weight)?;
        let body = put_term(alloc, table, known, &alternative.body)?;
        made.push((weight, body))?;
    }
    Ok(Term::Any(made))
}

// One trace, or another where nothing can be done in it.
#[cycle(terms)]
#[inline(never)]
fn put_pri(
    alloc: Global,
    table: &mut Table,
    known: &Exceptions<'_>,
    first: &Expanded,
    second: &Expanded,
) -> Result<Term, Memory>
    requires { AreReady (table_kinds table.old) (exceptions known.now)
        (tree.pri (expanded first.now) (expanded second.now)) }
    ensures { IfOk result (λ made. IsPut table.old table.new (exceptions known.now)
        (tree.pri (expanded first.now) (expanded second.now)) (process made)) }
{
    let first = put_part(alloc, table, known, first)?;
    let second = put_part(alloc, table, known, second)?;
    Ok(Term::Pri(first, second))
}

// Two traces at once.
#[cycle(terms)]
#[inline(never)]
fn put_par(
    alloc: Global,
    table: &mut Table,
    known: &Exceptions<'_>,
    first: &Expanded,
    second: &Expanded,
) -> Result<Term, Memory>
    requires { AreReady (table_kinds table.old) (exceptions known.now)
        (tree.par (expanded first.now) (expanded second.now)) }
    ensures { IfOk result (λ made. IsPut table.old table.new (exceptions known.now)
        (tree.par (expanded first.now) (expanded second.now)) (process made)) }
{
    let first = put_part(alloc, table, known, first)?;
    let second = put_part(alloc, table, known, second)?;
    Ok(Term::Par(first, second))
}

// A trace, and what takes the place of its rest once it raises an exception.
#[cycle(terms)]
#[inline(never)]
fn put_catch(
    alloc: Global,
    table: &mut Table,
    known: &Exceptions<'_>,
    caught: &Exception,
    body: &Expanded,
    otherwise: &Expanded,
) -> Result<Term, Memory>
    requires { AreReady (table_kinds table.old) (exceptions known.now)
        (tree.catch (exception caught.now) (expanded body.now) (expanded otherwise.now)) }
    ensures { IfOk result (λ made. IsPut table.old table.new (exceptions known.now)
        (tree.catch (exception caught.now) (expanded body.now) (expanded otherwise.now))
        (process made)) }
{
    let exception = exception_number(known, caught);
    let body = put_part(alloc, table, known, body)?;
    let otherwise = put_part(alloc, table, known, otherwise)?;
    Ok(Term::Catch {
        exception,
        body,
        otherwise,
    })
}

// A trace, and what takes the place of its rest once nothing can be done in it.
#[cycle(terms)]
#[inline(never)]
fn put_try(
    alloc: Global,
    table: &mut Table,
    known: &Exceptions<'_>,
    body: &Expanded,
    otherwise: &Expanded,
) -> Result<Term, Memory>
    requires { AreReady (table_kinds table.old) (exceptions known.now)
        (tree.try (expanded body.now) (expanded otherwise.now)) }
    ensures { IfOk result (λ made. IsPut table.old table.new (exceptions known.now)
        (tree.try (expanded body.now) (expanded otherwise.now)) (process made)) }
{
    let body = put_part(alloc, table, known, body)?;
    let otherwise = put_part(alloc, table, known, otherwise)?;
    Ok(Term::Try { body, otherwise })
}

// A trace as a part of another term.
#[cycle(terms)]
#[inline(never)]
fn put_part(
    alloc: Global,
    table: &mut Table,
    known: &Exceptions<'_>,
    trace: &Expanded,
) -> Result<Rc<Term>, Memory>
    requires { AreReady (table_kinds table.old) (exceptions known.now) (expanded trace.now) }
    ensures { IfOk result (λ made. IsPut table.old table.new (exceptions known.now)
        (expanded trace.now) (process made.value)) }
{
    let made = put_term(alloc, table, known, trace)?;
    Ok(Rc::new(alloc, made)?)
}

// The number of an exception that is known.
fn exception_number(known: &Exceptions<'_>, of: &Exception) -> u32
    requires { IsKnown (exceptions known.now) (exception of.now) }
    ensures { result ≡ number_in (exceptions known.now) (exception of.now) }
{
    known.number(of) as u32
}
