//! The values of expressions before an instant is drawn.

ghost use Rattle.std.specs.Prelude.{◌≡◌, ◌<◌, []};
ghost use Rattle.lt_formula.specs.Table.{spelled};
ghost use Rattle.lt_formula.specs.Valuation.{value_under};
ghost use Rattle.lt_formula.specs.View.{table_expressions, table_kinds, table_len};
ghost use Rattle.lt_term.specs.Configuration.{known_in};
ghost use Rattle.lt_term.specs.SceneView.{scene};
ghost use Rattle.lt_instant.specs.Equipment.{HasRoomForEarlier};
ghost use Rattle.lt_instant.specs.RunStateView.{configuration_behind};

use crate::draw_context::DrawContext;
use crate::earlier::Earlier;
use lt_formula::{Table, known_value};
use lt_num::{Arith, Value};

/// The value of an expression of a table before an instant is drawn, where no local is in scope. The table need not be the
/// scenario's; it is meant for one over the same variables.
///
/// # Errors
///
/// The first fault that its evaluation meets.
pub fn value_before(
    context: &DrawContext<'_>,
    table: &Table,
    exp: u32,
    earlier: &mut Earlier,
) -> Result<Value, Arith>
    requires within { exp < table_len table.now }
    requires earlier { HasRoomForEarlier context.now.scenario.now earlier.old }
    ensures value { result ≡ value_under
        (known_in (scene context.now.scenario.now) (configuration_behind context.now.past.now)
        context.now.inputs.now []) (table_kinds table.now)
        (spelled (table_expressions table.now) exp) }
    ensures earlier { HasRoomForEarlier context.now.scenario.now earlier.new }
{
    earlier.find(context, &[]);
    known_value(table, exp, &context.known(earlier))
}
