//! Declarations of macros and exceptions, and the arguments of macros.

ghost use Rattle.std.specs.Prelude.{◌≡◌, ◌≤◌, ◌++◌, ◌∷◌, [], ℕ, IfOk, IfSome, IsTrue, OnOk, length, map};
ghost use Rattle.lt_ast.specs.View.{argument, groupings, macro, word, words};
ghost use Rattle.lt_ast.specs.inner.Rows.{group_of};
ghost use Rattle.lt_macros.specs.Environment.{with_arguments, with_exceptions};
ghost use Rattle.lt_macros.specs.Denotation.{Denotation, group_names, groups_names, parameter_names};
ghost use Rattle.lt_macros.specs.inner.Parameters.{Binds, name_text, parameters_view};
ghost use Rattle.lt_macros.specs.inner.Handing.{AreRight};
ghost use Rattle.lt_macros.specs.inner.HeadNormalForm.{AddsTo};
ghost use Rattle.lt_macros.specs.inner.Leads.{IsReached, IsReachedBy, LeadsTo, cover_index, cover_with, is_plain, parameters, with_macro};
ghost use Rattle.lt_macros.specs.inner.Reading.{Reading, environment as environment_of, is_chosen, phrase_view};
ghost use Rattle.lt_macros.specs.inner.Rows.{rows};

use crate::resolution::{handed_on, reached_by};
use crate::scope::{Before, Binding, Entry, Handed, Phrase, Reached, Scope, Target};
use crate::shape::{Shape, phrase_of_argument, phrase_of_body, shape_of};
use lt_ast::{Arg, Group, Groups, MacroDecl, Name, Names, Span};
use lt_formula::Memory;
use std::alloc::Global;

/// The name that a phrase leads to.
#[derive(Clone, Copy)]
pub(crate) struct Led {
    /// The environment whose newest name it is.
    pub(crate) environment: usize,

    /// Where it is named.
    pub(crate) at: Span,

    /// Where exceptions are declared around it: how many entries there were before the first of these.
    pub(crate) cover: Option<usize>,
}

// The names of a macro's parameters.
pub(crate) fn parameters_of<'a>(
    alloc: Global,
    params: &'a Option<Groups>,
) -> Result<Vec<&'a Name>, Memory>
    ensures { IfOk result (λ v.
        map name_text v.items ≡ parameter_names (parameters_view params.now)) }
{
    let mut all = Vec::new(alloc);
    if let Some(groups) = params {
        add_groups(&mut all, groups)?;
    }
    Ok(all)
}

// The names of groups, behind those that are there.
fn add_groups<'a>(all: &mut Vec<&'a Name>, groups: &'a Groups) -> Result<(), Memory>
    ensures { OnOk result (map name_text all.new.items
        ≡ map name_text all.old.items ++ groups_names (groupings groups.now)) }
{
    for group in &groups.items {
        add_group(all, group)?;
    }
    Ok(())
}

// The names of a group, behind those that are there.
fn add_group<'a>(all: &mut Vec<&'a Name>, group: &'a Group) -> Result<(), Memory>
    ensures { OnOk result (map name_text all.new.items
        ≡ map name_text all.old.items ++ group_names (group_of group.now)) }
{
    for name in &group.names.items {
        all.push(name)?;
    }
    Ok(())
}

// The environment that binds parameters to their arguments, which are written in the environment `written`; as
// many as there are of both.
pub(crate) fn bind<'a>(
    scope: &mut Scope<'a>,
    outer: usize,
    params: &[&'a Name],
    args: &'a [Arg],
    written: usize,
) -> Result<usize, Memory>
    requires outer { outer ≤ length (rows scope.old) }
    requires written { written ≤ length (rows scope.old) }
    requires right { AreRight (rows scope.old) }
    ensures denotation { IfOk result (λ number. (r : Reading Denotation) →
        Binds r (rows scope.old) (rows scope.new) (map name_text params.now) (map argument args.now)
        outer written number) }
    ensures work { IfOk result (λ number. (r : Reading ℕ) →
        Binds r (rows scope.old) (rows scope.new) (map name_text params.now) (map argument args.now)
        outer written number) }
    ensures within { IfOk result (λ number. number ≤ length (rows scope.new)) }
    ensures adds { OnOk result (AddsTo (rows scope.old) (rows scope.new)) }
    ensures right { OnOk result (AreRight (rows scope.new)) }
{
    let mut environment = outer;
    let mut args = args;
    for param in params {
        let Some((arg, others)) = args.split_first() else {
            return Ok(environment);
        };
        environment = scope.push(Entry {
            name: param.text.as_str(),
            outer: environment,
            binding: Binding::Argument(phrase_of_argument(arg), written),
        })?;
        args = others;
    }
    Ok(environment)
}

// The environment in which a macro's parameters stand for whatever is chosen.
fn put_parameters<'a>(
    scope: &mut Scope<'a>,
    outer: usize,
    params: &[&'a Name],
) -> Result<usize, Memory>
    requires outer { outer ≤ length (rows scope.old) }
    requires right { AreRight (rows scope.old) }
    ensures denotation { IfOk result (λ number. (r : Reading Denotation) →
        environment_of r (rows scope.new) number
        ≡ with_arguments (map name_text params.now)
        (parameters r.parameter (length (rows scope.old)) (map name_text params.now))
        (environment_of r (rows scope.old) outer)) }
    ensures work { IfOk result (λ number. (r : Reading ℕ) →
        environment_of r (rows scope.new) number
        ≡ with_arguments (map name_text params.now)
        (parameters r.parameter (length (rows scope.old)) (map name_text params.now))
        (environment_of r (rows scope.old) outer)) }
    ensures within { IfOk result (λ number. number ≤ length (rows scope.new)) }
    ensures adds { OnOk result (AddsTo (rows scope.old) (rows scope.new)) }
    ensures right { OnOk result (AreRight (rows scope.new)) }
{
    let mut environment = outer;
    for param in params {
        let number = scope.len();
        environment = scope.push(Entry {
            name: param.text.as_str(),
            outer: environment,
            binding: Binding::Parameter(number),
        })?;
    }
    Ok(environment)
}

// The environment that has an exception as well, before which so many terms stand.
pub(crate) fn put_exception<'a>(
    scope: &mut Scope<'a>,
    outer: usize,
    name: &'a Name,
    before: Before,
) -> Result<usize, Memory>
    requires outer { outer ≤ length (rows scope.old) }
    requires before { IsTrue (is_chosen (length (rows scope.old)) before) }
    requires right { AreRight (rows scope.old) }
    ensures denotation { IfOk result (λ number. (r : Reading Denotation) →
        environment_of r (rows scope.new) number
        ≡ with_exceptions (r.terms_before before) (word name.now ∷ [])
        (environment_of r (rows scope.old) outer)) }
    ensures work { IfOk result (λ number. (r : Reading ℕ) →
        environment_of r (rows scope.new) number
        ≡ with_exceptions (r.terms_before before) (word name.now ∷ [])
        (environment_of r (rows scope.old) outer)) }
    ensures within { IfOk result (λ number. number ≤ length (rows scope.new)) }
    ensures adds { OnOk result (AddsTo (rows scope.old) (rows scope.new)) }
    ensures right { OnOk result (AreRight (rows scope.new)) }
{
    Ok(scope.push(Entry {
        name: name.text.as_str(),
        outer,
        binding: Binding::Exception(name.span.start as usize, before),
    })?)
}

// The environment that has exceptions as well, before which so many terms stand.
pub(crate) fn put_exceptions<'a>(
    scope: &mut Scope<'a>,
    outer: usize,
    names: &'a Names,
    before: Before,
) -> Result<usize, Memory>
    requires outer { outer ≤ length (rows scope.old) }
    requires before { IsTrue (is_chosen (length (rows scope.old)) before) }
    requires right { AreRight (rows scope.old) }
    ensures denotation { IfOk result (λ number. (r : Reading Denotation) →
        environment_of r (rows scope.new) number
        ≡ with_exceptions (r.terms_before before) (words names.now)
        (environment_of r (rows scope.old) outer)) }
    ensures work { IfOk result (λ number. (r : Reading ℕ) →
        environment_of r (rows scope.new) number
        ≡ with_exceptions (r.terms_before before) (words names.now)
        (environment_of r (rows scope.old) outer)) }
    ensures within { IfOk result (λ number. number ≤ length (rows scope.new)) }
    ensures adds { OnOk result (AddsTo (rows scope.old) (rows scope.new)) }
    ensures right { OnOk result (AreRight (rows scope.new)) }
{
    let mut environment = outer;
    for name in &names.items {
        environment = put_exception(scope, environment, name, before)?;
    }
    Ok(environment)
}

// Behind how many entries the exceptions are declared that stand around a phrase, where one more stands there.
fn cover_index(cover: Option<usize>, count: usize) -> usize
    ensures { result ≡ cover_index cover count }
{
    match cover {
        None => count,
        Some(index) => index,
    }
}

// Behind how many entries the exceptions are declared that stand around a phrase, if there are some, where one more
// may stand there.
fn cover_with(cover: Option<usize>, covered: bool, count: usize) -> Option<usize>
    ensures { result ≡ cover_with cover covered count }
{
    match cover {
        None => { if covered { Some(count) } else { None } }
        Some(index) => Some(index),
    }
}

// Whether a name is no macro.
fn is_plain(binding: Binding<'_>) -> bool
    ensures { result ≡ is_plain binding.entry }
{
    match binding {
        Binding::Variable(_, _) | Binding::Argument(_, _) | Binding::Parameter(_) => true,
        Binding::Macro(_, _) | Binding::Exception(_, _) => false,
    }
}

// What the name is that the body of a macro leads to, which has so many parameters and before which there are so many
// entries.
fn target_led(scope: &Scope<'_>, led: Led, before: usize, count: usize) -> Option<Target>
    requires { led.environment ≤ length (rows scope.now) }
    ensures { IfSome result (IsReached (rows scope.now) before count led) }
{
    let covered = led.cover.is_some();
    if led.environment <= before {
        return Some(Target::Outer(Reached {
            environment: led.environment,
            at: led.at,
            covered,
        }));
    }
    let Binding::Parameter(parameter) = scope.newest(led.environment)?.binding else {
        return None;
    };
    let place = parameter.checked_sub(before)?;
    if place < count {
        Some(Target::Own { place, covered })
    } else {
        None
    }
}

// What is known of a macro's uses.
fn handed_by(scope: &Scope<'_>, led: Option<Led>, before: usize, count: usize) -> Option<Handed>
    requires { IfSome led (λ l. l.environment ≤ length (rows scope.now)) }
    ensures { IfSome result (λ h. IsReachedBy (rows scope.now) before count led h) }
{
    let target = target_led(scope, led?, before, count)?;
    Some(Handed {
        parameters: count,
        target,
    })
}

// The environment that has a macro as well. What its uses lead to is found once, here.
#[cycle(declare)]
pub(crate) fn declare<'a>(
    scope: &mut Scope<'a>,
    environment: usize,
    declared: &'a MacroDecl,
) -> Result<usize, Memory>
    requires within { environment ≤ length (rows scope.old) }
    requires right { AreRight (rows scope.old) }
    ensures denotation { IfOk result (λ number. (r : Reading Denotation) →
        environment_of r (rows scope.new) number
        ≡ with_macro r (macro declared.now) (environment_of r (rows scope.old) environment)) }
    ensures work { IfOk result (λ number. (r : Reading ℕ) →
        environment_of r (rows scope.new) number
        ≡ with_macro r (macro declared.now) (environment_of r (rows scope.old) environment)) }
    ensures within { IfOk result (λ number. number ≤ length (rows scope.new)) }
    ensures adds { OnOk result (AddsTo (rows scope.old) (rows scope.new)) }
    ensures right { OnOk result (AreRight (rows scope.new)) }
{
    let before = scope.len();
    let params = parameters_of(scope.alloc(), &declared.params)?;
    let inner = put_parameters(scope, environment, &params)?;
    let led = led_to(scope, inner, phrase_of_body(&declared.body))?;
    let handed = handed_by(scope, led, before, params.len());
    scope.truncate(before);
    Ok(scope.push(Entry {
        name: declared.name.text.as_str(),
        outer: environment,
        binding: Binding::Macro(declared, handed),
    })?)
}

// The name that a phrase stands for, where names alone lead to one that is no macro.
#[cycle(declare)]
fn led_to<'a>(
    scope: &mut Scope<'a>,
    environment: usize,
    phrase: Phrase<'a>,
) -> Result<Option<Led>, Memory>
    requires within { environment ≤ length (rows scope.old) }
    requires right { AreRight (rows scope.old) }
    ensures leads { IfOk result (λ led.
        IfSome led (LeadsTo (rows scope.old) (rows scope.new) environment
        (phrase_view phrase.entry))) }
    ensures adds { OnOk result (AddsTo (rows scope.old) (rows scope.new)) }
    ensures right { OnOk result (AreRight (rows scope.new)) }
{
    let mut environment = environment;
    let mut phrase = phrase;
    let mut cover = None;
    loop {
        match shape_of(phrase) {
            Shape::Cover(inner) => phrase = inner,
            Shape::Let(declared, body) => {
                environment = declare(scope, environment, declared)?;
                phrase = Phrase::Trace(body);
            }
            Shape::Exceptions(names, body) => {
                let index = cover_index(cover, scope.len());
                let before = Before::Chosen(index);
                environment = put_exceptions(scope, environment, names, before)?;
                phrase = Phrase::Trace(body);
                cover = Some(index);
            }
            Shape::Use(used) => {
                let reached = reached_by(scope, environment, used);
                let named = cover_with(cover, reached.covered, scope.len());
                let Some(entry) = scope.newest(reached.environment) else {
                    return Ok(None);
                };
                if is_plain(entry.binding) {
                    return Ok(Some(Led {
                        environment: reached.environment,
                        at: reached.at,
                        cover: named,
                    }));
                }
                let Some(handed) = handed_on(entry.binding, used.args) else {
                    return Ok(None);
                };
                phrase = phrase_of_argument(handed.argument);
                cover = cover_with(named, handed.covered, scope.len());
            }
            Shape::Pre(_, _) | Shape::Trap(_, _, _) | Shape::HeadNormalForm => return Ok(None),
        }
    }
}
