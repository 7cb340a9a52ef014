//! What names stand for while a node is expanded.

ghost use Rattle.std.specs.Prelude.{◌≡◌, ◌<◌, ◌≤◌, Some, slice_get, ◌+◌, ◌-◌, ℕ, drop, IfOk, IfSome, IsTrue, OnErr, OnOk, [], ◌∷◌, reverse, length};
ghost use Rattle.lt_macros.specs.Environment.{found_exception};
ghost use Rattle.lt_macros.specs.Denotation.{Denotation};
ghost use Rattle.lt_macros.specs.inner.Handing.{AreRight, IsRight};
ghost use Rattle.lt_macros.specs.inner.HeadNormalForm.{AddsTo};
ghost use Rattle.lt_macros.specs.inner.Hidden.{AreKeyed, key_in, kind_of, newest_below, outer_in, run_from, run_of};
ghost use Rattle.lt_macros.specs.inner.Keyed.{keys};
ghost use Rattle.lt_macros.specs.inner.Reading.{IsFound, IsNewest, Reading, are_linked, environment as environment_of, declared_by, is_linked, is_name, raised_by};

use crate::index::Index;
use crate::key::{Key, NameKind};
use lt_ast::{Braced, Expr, MacroDecl, Span, TraceExpr};
use lt_formula::Role;
use std::alloc::{AllocError, Global};

/// A phrase: what is expanded.
#[derive(Clone, Copy)]
pub(crate) enum Phrase<'a> {
    /// An expression.
    Value(&'a Expr),

    /// A trace.
    Trace(&'a TraceExpr),

    /// What stands in braces.
    Braces(&'a Braced),

    /// Traces that are joined, the first with those behind it.
    Joined(Join, &'a [TraceExpr]),

    /// A `do` part, which may be missing.
    Handler(&'a Option<Box<TraceExpr>>),
}

/// How traces are joined.
#[derive(Clone, Copy)]
pub(crate) enum Join {
    /// One after the other.
    Seq,

    /// The first that can do something.
    Pri,

    /// All at once.
    Par,
}

/// A name as it is used at a place of the text.
#[derive(Clone, Copy)]
pub(crate) struct Reached {
    /// The environment whose newest name it is.
    pub(crate) environment: usize,

    /// Where it is named.
    pub(crate) at: Span,

    /// Whether exceptions are declared around it, so that it stands for a trace alone.
    pub(crate) covered: bool,
}

/// What uses of a macro lead to, where names alone lead there, whatever the arguments are.
#[derive(Clone, Copy)]
pub(crate) enum Target {
    /// An argument.
    Own {
        /// Its place among the arguments.
        place: usize,

        /// Whether exceptions are declared around it, so that it stands for a trace alone.
        covered: bool,
    },

    /// A name that is older than the macro, and is no macro.
    Outer(Reached),
}

/// What is known of the uses of a macro that have an argument for each of its parameters.
#[derive(Clone, Copy)]
pub(crate) struct Handed {
    /// How many parameters it has.
    pub(crate) parameters: usize,

    /// What they lead to.
    pub(crate) target: Target,
}

/// How many terms stand before the declaration of an exception.
#[derive(Clone, Copy)]
pub(crate) enum Before {
    /// So many.
    Terms(u32),

    /// As many as may be: it stands in a macro that is looked at without a place, and there are so many
    /// entries before it.
    Chosen(usize),
}

/// What a name is bound to.
#[derive(Clone, Copy)]
pub(crate) enum Binding<'a> {
    /// A variable of a role, by its place among those.
    Variable(Role, u32),

    /// A parameter: its argument, and the environment in which that is written.
    Argument(Phrase<'a>, usize),

    /// A parameter of a macro that is looked at without arguments, by the number of entries before it.
    Parameter(usize),

    /// A macro, which is written in the environment that its entry adds it to, and what its use leads to,
    /// where that is known.
    Macro(&'a MacroDecl, Option<Handed>),

    /// An exception, by the byte of the text at which it is declared, and what stands before it.
    Exception(usize, Before),
}

/// A name that is added to an environment.
#[derive(Clone, Copy)]
pub(crate) struct Entry<'a> {
    /// The name.
    pub(crate) name: &'a str,

    /// The environment that it is added to.
    pub(crate) outer: usize,

    /// What it stands for.
    pub(crate) binding: Binding<'a>,
}

/// The declaration of an exception.
#[derive(Clone, Copy)]
pub(crate) struct Declared<'a> {
    /// The name.
    pub(crate) name: &'a str,

    /// The byte of the text at which it is declared.
    pub(crate) place: usize,

    /// What stands before it.
    pub(crate) before: Before,
}

/// Environments by number: 0 is that before the first declaration of a text, and each entry makes one more.
///
/// Entries each of which is added to the environment just before it are a run. A name is found in a run without going
/// through its entries, and where it isn't there it is looked for in the environment to which the run was added.
#[derive(Drop)]
pub(crate) struct Scope<'a> {
    alloc: Global,
    entries: Vec<Entry<'a>>,
    index: Index<'a>,
    ghost keyed: { AreKeyed entries.items (keys index) },
    ghost linked: { IsTrue (are_linked (reverse entries.items)) },
}

impl<'a> Scope<'a> {
    ghost use Rattle.lt_macros.specs.inner.Rows.{rows};

    // No entries.
    pub(crate) fn new(alloc: Global) -> Scope<'a>
        ensures { rows result ≡ [] }
    {
        Scope {
            alloc,
            entries: Vec::new(alloc),
            index: Index::new(alloc),
        }
    }

    // Where its entries lie.
    pub(crate) fn alloc(&self) -> Global {
        self.alloc
    }

    // How many entries there are.
    pub(crate) fn len(&self) -> usize
        ensures { result ≡ length (rows self.now) }
    {
        self.entries.len()
    }

    // One more entry: the environment that has its name.
    #[inline(never)]
    pub(crate) fn push(&mut self, entry: Entry<'a>) -> Result<usize, AllocError>
        requires { IsTrue (is_linked (length (rows self.old)) entry) }
        ensures number { IfOk result (λ number. number ≡ length (rows self.old) + 1) }
        ensures rows { OnOk result (rows self.new ≡ entry.entry ∷ rows self.old) }
    {
        let key = Key {
            run: self.run_from(entry.outer),
            kind: kind_of(entry.binding),
            name: entry.name,
        };
        self.entries.push(entry)?;
        match self.index.push(key) {
            Ok(()) => Ok(self.entries.len()),
            Err(error) => {
                self.entries.pop();
                Err(error)
            }
        }
    }

    // The run of one more entry, which is added to this environment.
    fn run_from(&self, outer: usize) -> usize
        ensures { result ≡ run_from (keys self.now.index) (length self.now.entries.items) outer }
    {
        let place = self.entries.len();
        if outer == place && place > 0 {
            self.index.run(place - 1)
        } else {
            place
        }
    }

    // The environment whose newest name a name is in an environment: 0 where it is unknown.
    pub(crate) fn number(&self, environment: usize, name: &str) -> usize
        requires { environment ≤ length (rows self.now) }
        ensures denotation { (r : Reading Denotation) →
            IsFound r (rows self.now) environment name.now result }
        ensures work { (r : Reading ℕ) → IsFound r (rows self.now) environment name.now result }
        ensures within { result ≤ length (rows self.now) }
    {
        let mut environment = environment;
        while environment > 0 {
            let number = self.newest_in_run(NameKind::Name, environment, name);
            if number > 0 {
                return number;
            }
            environment = self.before_run(environment);
        }
        0
    }

    // The newest of a name in the run of an environment, or 0.
    fn newest_in_run(&self, kind: NameKind, environment: usize, name: &str) -> usize
        requires some { 0 < environment }
        requires within { environment ≤ length self.now.entries.items }
        ensures { result ≡ newest_below (keys self.now.index)
            (key_in (keys self.now.index) environment kind name.entry) environment }
    {
        let run = self.index.run(environment - 1);
        self.index.newest(Key { run, kind, name }, environment)
    }

    // The environment to which the run of an environment is added.
    fn before_run(&self, environment: usize) -> usize
        requires some { 0 < environment }
        requires within { environment ≤ length self.now.entries.items }
        ensures outer { result ≡ outer_in
            (slice_get self.now.entries.items (run_of (keys self.now.index) (environment - 1))) }
        ensures older { result < environment }
    {
        self.entries[self.index.run(environment - 1)].outer
    }

    // The entry of the newest name of an environment.
    pub(crate) fn newest(&self, number: usize) -> Option<Entry<'a>>
        requires { number ≤ length (rows self.now) }
        ensures denotation { (r : Reading Denotation) → IsNewest r (rows self.now) number result }
        ensures work { (r : Reading ℕ) → IsNewest r (rows self.now) number result }
        ensures linked { IfSome result (λ entry.
            IsTrue (is_linked (length (rows self.now)) entry)) }
        ensures name { IfSome result (λ entry. IsTrue (is_name entry.binding)) }
        ensures right { AreRight (rows self.now) → IfSome result (IsRight (rows self.now)) }
    {
        let mut environment = number;
        while environment > 0 {
            let entry = self.entries[environment - 1];
            if is_name(entry.binding) {
                return Some(entry);
            }
            environment = entry.outer;
        }
        None
    }

    // The declaration of an exception; none is `Deadlock`, as it is before the first declaration.
    #[inline(never)]
    pub(crate) fn exception(&self, environment: usize, name: &str) -> Option<Declared<'a>>
        requires { environment ≤ length (rows self.now) }
        ensures { (r : Reading Denotation) →
            found_exception (environment_of r (rows self.now) environment).exceptions name.now
            ≡ raised_by r result }
    {
        let mut environment = environment;
        while environment > 0 {
            let number = self.newest_in_run(NameKind::Exception, environment, name);
            if number > 0 {
                return declared_as(self.entries[number - 1], name);
            }
            environment = self.before_run(environment);
        }
        None
    }

    // Takes the newest entries back, so that so many are left. Mostly there are no more.
    #[inline(always)]
    pub(crate) fn truncate(&mut self, len: usize)
        requires { len ≤ length (rows self.old) }
        ensures rows { rows self.new ≡ drop (length (rows self.old) - len) (rows self.old) }
        ensures adds { AddsTo (rows self.new) (rows self.old) }
        ensures len { length (rows self.new) ≡ len }
        ensures right { AreRight (rows self.old) → AreRight (rows self.new) }
    {
        if len < self.entries.len() {
            self.entries.truncate(len);
            self.index.truncate(len);
        }
    }
}

// Whether what a name stands for is no exception.
fn is_name(binding: Binding<'_>) -> bool
    ensures { result ≡ is_name binding.entry }
{
    !matches!(binding, Binding::Exception(_, _))
}

// The kind of the name of what it stands for.
fn kind_of(binding: Binding<'_>) -> NameKind
    ensures { result ≡ kind_of (is_name binding.entry) }
{
    if is_name(binding) {
        NameKind::Name
    } else {
        NameKind::Exception
    }
}

// The declaration of an exception of this name, where an entry is one.
fn declared_as<'a>(entry: Entry<'a>, name: &str) -> Option<Declared<'a>>
    ensures { result ≡ declared_by name.now entry.entry entry.entry.binding }
{
    match entry.binding {
        Binding::Exception(place, before) => {
            if name == entry.name {
                Some(Declared {
                    name: entry.name,
                    place,
                    before,
                })
            } else {
                None
            }
        }
        Binding::Variable(_, _)
        | Binding::Argument(_, _)
        | Binding::Parameter(_)
        | Binding::Macro(_, _) => None,
    }
}
