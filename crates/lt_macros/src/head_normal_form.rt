//! Head normal forms: what is met where a phrase is expanded, once names, covers and declarations are
//! passed.

ghost use Rattle.std.specs.Prelude.{◌≡◌, ◌≤◌, ℕ, suc, IfOk, IsTrue, OnOk, length, map};
ghost use Rattle.lt_ast.specs.Syntax.{exceptions, pre, trap};
ghost use Rattle.lt_ast.specs.View.{argument, macro, trace, word, words};
ghost use Rattle.lt_ast.specs.inner.Rows.{maybe_trace};
ghost use Rattle.lt_macros.specs.Denotation.{argument_denotation, macro_denotation, standing_for};
ghost use Rattle.lt_macros.specs.inner.Handing.{AreRight, binding_at};
ghost use Rattle.lt_macros.specs.inner.HeadNormalForm.{AddsTo, IsWithin, form_reads};
ghost use Rattle.lt_macros.specs.inner.Phrase.{trace as trace_phrase, value};
ghost use Rattle.lt_macros.specs.inner.Reading.{environment as environment_of, is_linked, is_name, meant, phrase_view, worked};
ghost use Rattle.lt_macros.specs.inner.Rows.{rows};
ghost use Rattle.lt_macros.specs.inner.Seen.{seen};
ghost use Rattle.lt_macros.specs.inner.Steps.{AdvancesTo, IsFitting, IsLess, StepIsWithin, StepsTo, before_of, fits, is_expression, is_hidden, phrase_meant, phrase_worked, step_reads, use_meant, use_worked};
ghost use Rattle.lt_macros.specs.inner.Work.{argument_work, macro_work, used};

use crate::constructors::form_at;
use crate::declaring::{bind, declare, parameters_of, put_exception, put_exceptions};
use crate::position::Position;
use crate::resolution::{handed_on, reached_by};
use crate::scope::{Before, Binding, Entry, Join, Phrase, Scope};
use crate::shape::{NameUse, Shape, inside_cover, phrase_of_argument, phrase_of_body, shape_of};
use lt_ast::{
    Arg, BinOp, Bounds, Expr, Groups, Literal, MacroDecl, Name, Names, Parts, Span, TraceExpr, UnOp,
};
use lt_formula::{Memory, Role};

/// A phrase in head normal form: an expression or a trace that is no name, with the environment in which
/// its parts are written.
#[derive(Clone, Copy)]
pub(crate) enum HeadNormalForm<'a> {
    /// What means nothing where it stands: by the rules of types no text has it.
    Meaningless,

    /// The variable of a role, by its place, as it is named at this place of the text.
    Variable(Role, u32, Span),

    /// What it was in the instant before.
    Previous(Role, u32, Span),

    /// A number.
    Number(&'a Literal),

    /// `true` or `false`.
    Flag(bool, Span),

    /// An operator on one part.
    Unary(UnOp, &'a Expr, Span, usize),

    /// An operator on two parts.
    Binary(BinOp, &'a Expr, &'a Expr, Span, usize),

    /// `if .. then .. else ..`
    If(&'a Expr, &'a Expr, &'a Expr, Span, usize),

    /// A trace of no instant.
    Nothing,

    /// A trace that is joined with those behind it, of which there are some.
    Joined(Join, &'a TraceExpr, &'a [TraceExpr], usize),

    /// `loop`
    Loop(&'a Bounds, &'a TraceExpr, usize),

    /// A choice.
    Choice(&'a Parts, usize),

    /// `raise`
    Raise(&'a Name, usize),

    /// `assert`
    Assert(&'a Expr, &'a TraceExpr, usize),

    /// `exist`
    Exist(&'a Groups, &'a TraceExpr, usize),

    /// `catch`; its `do` part may be missing.
    Catch(&'a Name, &'a TraceExpr, &'a Option<Box<TraceExpr>>, usize),

    /// `try`; its `do` part may be missing.
    Try(&'a TraceExpr, &'a Option<Box<TraceExpr>>, usize),
}

/// What one step from a phrase leads to.
#[derive(Clone, Copy)]
pub(crate) enum Step<'a> {
    /// What is met.
    Done(HeadNormalForm<'a>),

    /// A phrase in an environment, which stands for what the one before it did.
    Further(Phrase<'a>, usize),

    /// `pre` of a name in an environment.
    Previous(&'a Name, Span, usize),
}

/// What one step from a phrase leads to in a position.
#[derive(Clone, Copy)]
pub(crate) enum Advance<'a> {
    /// What is met, which can stand there.
    Met(HeadNormalForm<'a>),

    /// A phrase in an environment, which stands for what the one before it did.
    Further(Phrase<'a>, usize),
}

// Whether what may stand for a trace alone means nothing here.
fn is_hidden(position: Position, covered: bool) -> bool
    ensures { result ≡ is_hidden position covered }
{
    match position {
        Position::Expression => covered,
        Position::Trace(_) => false,
    }
}

// What stands for the arguments of a macro's use where its text is.
fn enter<'a>(
    scope: &mut Scope<'a>,
    environment: usize,
    outer: usize,
    declared: &'a MacroDecl,
    args: &'a [Arg],
) -> Result<Step<'a>, Memory>
    requires within { environment ≤ length (rows scope.old) }
    requires outer { outer ≤ length (rows scope.old) }
    requires right { AreRight (rows scope.old) }
    ensures denotation { IfOk result (λ step. (decimals : ℕ) →
        step_reads (meant decimals) (rows scope.new) step
        ≡ macro_denotation (environment_of (meant decimals) (rows scope.old) outer)
        (macro declared.now)
        (map
        (λ a. argument_denotation (environment_of (meant decimals) (rows scope.old) environment) a)
        (map argument args.now))) }
    ensures work { IfOk result (λ step.
        IsLess (rows scope.new) step
        (suc
        (macro_work (environment_of worked (rows scope.old) outer) (macro declared.now)
        (map (λ a. argument_work (environment_of worked (rows scope.old) environment) a)
        (map argument args.now))))) }
    ensures within { IfOk result (StepIsWithin (length (rows scope.new))) }
    ensures adds { OnOk result (AddsTo (rows scope.old) (rows scope.new)) }
    ensures right { OnOk result (AreRight (rows scope.new)) }
{
    let params = parameters_of(scope.alloc(), &declared.params)?;
    let inner = bind(scope, outer, &params, args, environment)?;
    Ok(Step::Further(phrase_of_body(&declared.body), inner))
}

// One step from a name that is no argument of a macro's use, to what its entry has.
fn step_from_entry<'a>(
    scope: &mut Scope<'a>,
    environment: usize,
    entry: Entry<'a>,
    at: Span,
    args: &'a [Arg],
) -> Result<Step<'a>, Memory>
    requires within { environment ≤ length (rows scope.old) }
    requires linked { IsTrue (is_linked (length (rows scope.old)) entry) }
    requires name { IsTrue (is_name entry.binding) }
    requires right { AreRight (rows scope.old) }
    ensures denotation { IfOk result (λ step. (decimals : ℕ) →
        step_reads (meant decimals) (rows scope.new) step
        ≡ standing_for at (binding_at (meant decimals) (rows scope.old) entry.entry)
        (map
        (λ a. argument_denotation (environment_of (meant decimals) (rows scope.old) environment) a)
        (map argument args.now))) }
    ensures work { IfOk result (λ step.
        IsLess (rows scope.new) step
        (suc
        (used (binding_at worked (rows scope.old) entry.entry)
        (map (λ a. argument_work (environment_of worked (rows scope.old) environment) a)
        (map argument args.now))))) }
    ensures within { IfOk result (StepIsWithin (length (rows scope.new))) }
    ensures adds { OnOk result (AddsTo (rows scope.old) (rows scope.new)) }
    ensures right { OnOk result (AreRight (rows scope.new)) }
{
    match entry.binding {
        Binding::Variable(role, place) => Ok(Step::Done(HeadNormalForm::Variable(role, place, at))),
        Binding::Argument(argument, written) => Ok(Step::Further(argument, written)),
        Binding::Macro(declared, _) => enter(scope, environment, entry.outer, declared, args),
        Binding::Parameter(_) | Binding::Exception(_, _) => Ok(Step::Done(
            HeadNormalForm::Meaningless,
        )),
    }
}

// One step from the use of a name.
#[inline(never)]
fn step_from_use<'a>(
    scope: &mut Scope<'a>,
    position: Position,
    environment: usize,
    used: NameUse<'a>,
) -> Result<Step<'a>, Memory>
    requires within { environment ≤ length (rows scope.old) }
    requires right { AreRight (rows scope.old) }
    ensures steps { IfOk result (StepsTo position (rows scope.new)
        (use_meant (rows scope.old) environment (word used.entry.name.now)
        (map argument used.entry.args.now))
        (suc (use_worked (rows scope.old) environment (word used.entry.name.now)
        (map argument used.entry.args.now)))) }
    ensures adds { OnOk result (AddsTo (rows scope.old) (rows scope.new)) }
    ensures right { OnOk result (AreRight (rows scope.new)) }
{
    let reached = reached_by(scope, environment, used);
    if is_hidden(position, reached.covered) {
        return Ok(Step::Done(HeadNormalForm::Meaningless));
    }
    let Some(entry) = scope.newest(reached.environment) else {
        return Ok(Step::Done(HeadNormalForm::Meaningless));
    };
    let Some(handed) = handed_on(entry.binding, used.args) else {
        return step_from_entry(scope, environment, entry, reached.at, used.args);
    };
    if is_hidden(position, handed.covered) {
        return Ok(Step::Done(HeadNormalForm::Meaningless));
    }
    Ok(Step::Further(phrase_of_argument(handed.argument), environment))
}

// One step from a trace behind the declaration of exceptions.
fn step_from_exceptions<'a>(
    scope: &mut Scope<'a>,
    position: Position,
    environment: usize,
    names: &'a Names,
    body: &'a TraceExpr,
) -> Result<Step<'a>, Memory>
    requires within { environment ≤ length (rows scope.old) }
    requires right { AreRight (rows scope.old) }
    ensures steps { IfOk result (StepsTo position (rows scope.new)
        (phrase_meant (rows scope.old) environment
        (trace_phrase (exceptions (words names.now) (trace body.now))))
        (phrase_worked (rows scope.old) environment
        (trace_phrase (exceptions (words names.now) (trace body.now))))) }
    ensures adds { OnOk result (AddsTo (rows scope.old) (rows scope.new)) }
    ensures right { OnOk result (AreRight (rows scope.new)) }
{
    match position {
        Position::Expression => Ok(Step::Done(HeadNormalForm::Meaningless)),
        Position::Trace(numbers) => {
            let before = Before::Terms(numbers.term);
            let inner = put_exceptions(scope, environment, names, before)?;
            Ok(Step::Further(Phrase::Trace(body), inner))
        }
    }
}

// One step from `trap`, to `catch` where its exception is declared.
fn step_from_trap<'a>(
    scope: &mut Scope<'a>,
    position: Position,
    environment: usize,
    name: &'a Name,
    body: &'a TraceExpr,
    handler: &'a Option<Box<TraceExpr>>,
) -> Result<Step<'a>, Memory>
    requires within { environment ≤ length (rows scope.old) }
    requires right { AreRight (rows scope.old) }
    ensures steps { IfOk result (StepsTo position (rows scope.new)
        (phrase_meant (rows scope.old) environment
        (trace_phrase (trap (word name.now) (trace body.now) (maybe_trace handler.now))))
        (phrase_worked (rows scope.old) environment
        (trace_phrase (trap (word name.now) (trace body.now) (maybe_trace handler.now))))) }
    ensures adds { OnOk result (AddsTo (rows scope.old) (rows scope.new)) }
    ensures right { OnOk result (AreRight (rows scope.new)) }
{
    match position {
        Position::Expression => Ok(Step::Done(HeadNormalForm::Meaningless)),
        Position::Trace(numbers) => {
            let before = Before::Terms(numbers.term);
            let inner = put_exception(scope, environment, name, before)?;
            Ok(Step::Done(HeadNormalForm::Catch(name, body, handler, inner)))
        }
    }
}

// One step from a phrase; a cover around it is no step of its own.
#[inline(always)]
fn take_step<'a>(
    scope: &mut Scope<'a>,
    position: Position,
    environment: usize,
    phrase: Phrase<'a>,
) -> Result<Step<'a>, Memory>
    requires within { environment ≤ length (rows scope.old) }
    requires right { AreRight (rows scope.old) }
    ensures steps { IfOk result (StepsTo position (rows scope.new)
        (phrase_meant (rows scope.old) environment (phrase_view phrase.entry))
        (phrase_worked (rows scope.old) environment (phrase_view phrase.entry))) }
    ensures adds { OnOk result (AddsTo (rows scope.old) (rows scope.new)) }
    ensures right { OnOk result (AreRight (rows scope.new)) }
{
    let bare = inside_cover(phrase);
    match shape_of(bare) {
        Shape::Cover(inner) => Ok(Step::Further(inner, environment)),
        Shape::Use(used) => step_from_use(scope, position, environment, used),
        Shape::Pre(name, at) => Ok(Step::Previous(name, at, environment)),
        Shape::Let(declared, body) => {
            let inner = declare(scope, environment, declared)?;
            Ok(Step::Further(Phrase::Trace(body), inner))
        }
        Shape::Exceptions(names, body) => {
            step_from_exceptions(scope, position, environment, names, body)
        }
        Shape::Trap(name, body, handler) => {
            step_from_trap(scope, position, environment, name, body, handler)
        }
        Shape::HeadNormalForm => Ok(Step::Done(form_at(environment, bare))),
    }
}

// What an expression was in the instant before: only a variable had a value.
fn before_form(form: HeadNormalForm<'_>, at: Span) -> HeadNormalForm<'_>
    ensures { result ≡ before_of at form.entry }
{
    match form {
        HeadNormalForm::Variable(role, place, _) => HeadNormalForm::Previous(role, place, at),
        HeadNormalForm::Meaningless
        | HeadNormalForm::Previous(_, _, _)
        | HeadNormalForm::Number(_)
        | HeadNormalForm::Flag(_, _)
        | HeadNormalForm::Unary(_, _, _, _)
        | HeadNormalForm::Binary(_, _, _, _, _)
        | HeadNormalForm::If(_, _, _, _, _)
        | HeadNormalForm::Nothing
        | HeadNormalForm::Joined(_, _, _, _)
        | HeadNormalForm::Loop(_, _, _)
        | HeadNormalForm::Choice(_, _)
        | HeadNormalForm::Raise(_, _)
        | HeadNormalForm::Assert(_, _, _)
        | HeadNormalForm::Exist(_, _, _)
        | HeadNormalForm::Catch(_, _, _, _)
        | HeadNormalForm::Try(_, _, _) => HeadNormalForm::Meaningless,
    }
}

// What the name of a variable was in the instant before.
#[inline(never)]
fn previous<'a>(
    scope: &mut Scope<'a>,
    environment: usize,
    name: &'a Name,
    at: Span,
) -> Result<HeadNormalForm<'a>, Memory>
    requires within { environment ≤ length (rows scope.old) }
    requires right { AreRight (rows scope.old) }
    ensures denotation { IfOk result (λ form. (decimals : ℕ) →
        form_reads (meant decimals) (rows scope.new) form
        ≡ phrase_meant (rows scope.old) environment (value (pre (word name.now) at)) decimals) }
    ensures work { IfOk result (λ form. form_reads worked (rows scope.new) form ≤ 1) }
    ensures within { IfOk result (IsWithin (length (rows scope.new))) }
    ensures adds { OnOk result (AddsTo (rows scope.old) (rows scope.new)) }
    ensures right { OnOk result (AreRight (rows scope.new)) }
{
    let used = NameUse { name, args: &[] };
    let mut step = step_from_use(scope, Position::Expression, environment, used)?;
    loop {
        match step {
            Step::Done(form) => return Ok(before_form(form, at)),
            Step::Further(phrase, written) => {
                step = take_step(scope, Position::Expression, written, phrase)?;
            }
            Step::Previous(_, _, _) => return Ok(HeadNormalForm::Meaningless),
        }
    }
}

// Whether a head normal form can stand in a position.
fn fits(position: Position, form: HeadNormalForm<'_>) -> bool
    ensures { result ≡ fits position form.entry }
{
    match position {
        Position::Expression => is_expression(form),
        Position::Trace(_) => true,
    }
}

// Whether a head normal form is an expression.
fn is_expression(form: HeadNormalForm<'_>) -> bool
    ensures { result ≡ is_expression form.entry }
{
    match form {
        HeadNormalForm::Meaningless
        | HeadNormalForm::Variable(_, _, _)
        | HeadNormalForm::Previous(_, _, _)
        | HeadNormalForm::Number(_)
        | HeadNormalForm::Flag(_, _)
        | HeadNormalForm::Unary(_, _, _, _)
        | HeadNormalForm::Binary(_, _, _, _, _)
        | HeadNormalForm::If(_, _, _, _, _) => true,
        HeadNormalForm::Nothing
        | HeadNormalForm::Joined(_, _, _, _)
        | HeadNormalForm::Loop(_, _, _)
        | HeadNormalForm::Choice(_, _)
        | HeadNormalForm::Raise(_, _)
        | HeadNormalForm::Assert(_, _, _)
        | HeadNormalForm::Exist(_, _, _)
        | HeadNormalForm::Catch(_, _, _, _)
        | HeadNormalForm::Try(_, _, _) => false,
    }
}

// What is met, or nothing where it can't stand in a position.
fn fitting(position: Position, form: HeadNormalForm<'_>) -> HeadNormalForm<'_>
    ensures { IsFitting position form.entry result }
{
    if fits(position, form) {
        form
    } else {
        HeadNormalForm::Meaningless
    }
}

// One step from a phrase in a position. Entries are added for what it needs.
#[inline(always)]
pub(crate) fn step_in<'a>(
    scope: &mut Scope<'a>,
    position: Position,
    environment: usize,
    phrase: Phrase<'a>,
) -> Result<Advance<'a>, Memory>
    requires within { environment ≤ length (rows scope.old) }
    requires right { AreRight (rows scope.old) }
    ensures advances { IfOk result (AdvancesTo position (rows scope.new)
        (phrase_meant (rows scope.old) environment (phrase_view phrase.entry))
        (phrase_worked (rows scope.old) environment (phrase_view phrase.entry))) }
    ensures adds { OnOk result (AddsTo (rows scope.old) (rows scope.new)) }
    ensures right { OnOk result (AreRight (rows scope.new)) }
{
    match take_step(scope, position, environment, phrase)? {
        Step::Done(form) => Ok(Advance::Met(fitting(position, form))),
        Step::Further(next, written) => Ok(Advance::Further(next, written)),
        Step::Previous(name, at, written) => {
            let form = previous(scope, written, name, at)?;
            Ok(Advance::Met(fitting(position, form)))
        }
    }
}

// What is met where a phrase is expanded. Entries are added for what it needs.
#[inline(never)]
pub(crate) fn reduce<'a>(
    scope: &mut Scope<'a>,
    position: Position,
    environment: usize,
    phrase: Phrase<'a>,
) -> Result<HeadNormalForm<'a>, Memory>
    requires within { environment ≤ length (rows scope.old) }
    requires right { AreRight (rows scope.old) }
    ensures denotation { IfOk result (λ form. (decimals : ℕ) →
        seen position (form_reads (meant decimals) (rows scope.new) form)
        ≡ seen position
        ((meant decimals).phrase (environment_of (meant decimals) (rows scope.old) environment)
        (phrase_view phrase.entry))) }
    ensures work { IfOk result (λ form.
        form_reads worked (rows scope.new) form
        ≤ worked.phrase (environment_of worked (rows scope.old) environment)
        (phrase_view phrase.entry)) }
    ensures within { IfOk result (IsWithin (length (rows scope.new))) }
    ensures fits { IfOk result (λ form. IsTrue (fits position form)) }
    ensures adds { OnOk result (AddsTo (rows scope.old) (rows scope.new)) }
    ensures right { OnOk result (AreRight (rows scope.new)) }
{
    // Most phrases are in head normal form already.
    let bare = inside_cover(phrase);
    if let Shape::HeadNormalForm = shape_of(bare) {
        return Ok(fitting(position, form_at(environment, bare)));
    }
    let mut environment = environment;
    let mut phrase = bare;
    loop {
        match step_in(scope, position, environment, phrase)? {
            Advance::Met(form) => return Ok(form),
            Advance::Further(next, written) => {
                phrase = next;
                environment = written;
            }
        }
    }
}
