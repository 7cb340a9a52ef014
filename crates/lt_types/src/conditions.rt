//! Expressions that stand alone, as conditions over variables.

ghost use Rattle.std.specs.Prelude.{◌≡◌, ◌≤◌, ◌++◌, IfErr, IfOk, map};
ghost use Rattle.lt_ast.specs.View.{exp};
ghost use Rattle.lt_num.specs.Bounds.{most_decimals};
ghost use Rattle.lt_types.specs.Answer.{Leads};
ghost use Rattle.lt_types.specs.Refusals.{condition_refusals, exp_refusals, wanted};
ghost use Rattle.lt_types.specs.Spelled.{IsSpelledExpression};
ghost use Rattle.lt_types.specs.Typing.{IsCondition};
ghost use Rattle.lt_types.specs.View.{typed_name};
ghost use Rattle.lt_types.specs.inner.Checks.{Checks};

use crate::expressions::check_expr as check_parts;
use crate::refusal::TypeRefusal;
use crate::scope::Scope;
use crate::uses::check_kind;
use lt_ast::{Expr, TypeName};
use std::alloc::Global;

/// Checks an expression that some text spells against the rules, where nothing is declared but these variables: it is to be a
/// Boolean. Of equal names the first counts. A real has so many decimals, 0 to 6.
///
/// # Errors
///
/// The first rule that the expression breaks, in the order of its text, or [`TypeRefusal::Memory`] where memory ran out.
#[tactic(auto, using(crate::proofs::Checking::condition_checked))]
pub fn check_expr(
    alloc: Global,
    expr: &Expr,
    names: &[(String, TypeName)],
    decimals: u32,
) -> Result<(), TypeRefusal>
    requires spelled { IsSpelledExpression (exp expr.now) }
    requires few { decimals ≤ most_decimals }
    ensures typed { IfOk result (λ _.
        IsCondition decimals (map typed_name names.now) (exp expr.now)) }
    ensures only { IsCondition decimals (map typed_name names.now) (exp expr.now) →
        IfErr result (λ r. r ≡ TypeRefusal.Memory) }
    ensures refused { IfErr result (λ r.
        Leads r (condition_refusals decimals (map typed_name names.now) (exp expr.now))) }
{
    let mut scope = Scope::with_variables(alloc, decimals, names)?;
    check_condition(alloc, &mut scope, expr)
}

// An expression that is to be a Boolean.
#[tactic(auto, using(crate::proofs::Leading::leads))]
fn check_condition(alloc: Global, scope: &mut Scope, expr: &Expr) -> Result<(), TypeRefusal>
    ensures { Checks result
        (exp_refusals scope.old (exp expr.now) ++ wanted TypeName.Bool scope.old (exp expr.now)) }
{
    let kind = check_parts(alloc, scope, expr)?;
    check_kind(kind, TypeName::Bool, expr)
}
