//! The resolution of names: what those that are used stand for.

ghost use Rattle.std.specs.Prelude.{◌≡◌, ◌≤◌, IfSome, length};
ghost use Rattle.lt_ast.specs.View.{word};
ghost use Rattle.lt_macros.specs.inner.Handing.{AreRight, HasTarget, IsTaken, IsUsed};
ghost use Rattle.lt_macros.specs.inner.Rows.{rows};

use crate::scope::{Binding, Reached, Scope, Target};
use crate::shape::NameUse;
use lt_ast::Arg;

/// The argument that a use leads to.
#[derive(Clone, Copy)]
pub(crate) struct HandedOn<'a> {
    /// The argument.
    pub(crate) argument: &'a Arg,

    /// Whether exceptions are declared around it, so that it stands for a trace alone.
    pub(crate) covered: bool,
}

// What uses of a binding with so many arguments lead to, where that is known.
fn target_of(binding: Binding<'_>, count: usize) -> Option<Target>
    ensures { IfSome result (HasTarget binding.entry count) }
{
    match binding {
        Binding::Macro(_, handed) => {
            let handed = handed?;
            if handed.parameters == count {
                Some(handed.target)
            } else {
                None
            }
        }
        Binding::Variable(_, _)
        | Binding::Argument(_, _)
        | Binding::Parameter(_)
        | Binding::Exception(_, _) => None,
    }
}

// The name that a use stands for.
pub(crate) fn reached_by(scope: &Scope<'_>, environment: usize, used: NameUse<'_>) -> Reached
    requires within { environment ≤ length (rows scope.now) }
    requires right { AreRight (rows scope.now) }
    ensures { IsUsed (rows scope.now) environment (word used.entry.name.now)
        (length used.entry.args.now) result }
{
    let number = scope.number(environment, used.name.text.as_str());
    let here = Reached {
        environment: number,
        at: used.name.span,
        covered: false,
    };
    let Some(entry) = scope.newest(number) else {
        return here;
    };
    let Some(target) = target_of(entry.binding, used.args.len()) else {
        return here;
    };
    match target {
        Target::Own { .. } => here,
        Target::Outer(reached) => reached,
    }
}

// The argument that the use of a binding leads to, where that is known.
pub(crate) fn handed_on<'a>(binding: Binding<'_>, args: &'a [Arg]) -> Option<HandedOn<'a>>
    ensures { IfSome result (IsTaken binding.entry args.now) }
{
    match target_of(binding, args.len())? {
        Target::Own { place, covered } => {
            if place >= args.len() {
                return None;
            }
            Some(HandedOn {
                argument: &args[place],
                covered,
            })
        }
        Target::Outer(_) => None,
    }
}
