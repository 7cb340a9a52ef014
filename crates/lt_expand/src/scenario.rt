//! From the tree of a node to its scenario.

ghost use Rattle.std.specs.Prelude.{◌≡◌, ◌≤◌, [], IfOk};
ghost use Rattle.lt_num.specs.Bounds.{most_decimals};
ghost use Rattle.lt_macros.specs.Limits.{passed_limits};
ghost use Rattle.lt_macros.specs.Naming.{NamesWhatIsThere};
ghost use Rattle.lt_macros.specs.Numbering.{IsNumbered};
ghost use Rattle.lt_macros.specs.Preorder.{items};
ghost use Rattle.lt_macros.specs.Scoping.{AreInside};
ghost use Rattle.lt_macros.specs.Tree.{expanded, node};
ghost use Rattle.lt_term.specs.SceneView.{scene};
ghost use Rattle.lt_typing_laws.specs.TypedNode.{IsTypedNode};
ghost use Rattle.lt_expand.specs.Classes.{kinds_of};
ghost use Rattle.lt_expand.specs.Scenes.{scene_of};
ghost use Rattle.lt_expand.specs.inner.Items.{items_view};
ghost use Rattle.lt_expand.specs.inner.Judged.{kinds as kinds_view};
ghost use Rattle.lt_expand.specs.inner.Places.{judged_refusals};

use crate::counters::counters_of;
use crate::exceptions::numbered;
use crate::items::Item;
use crate::kinds::Kinds;
use crate::term::put_term;
use crate::variables::{inputs_of, locals_of, variables_of};
use lt_formula::{Memory, Table};
use lt_macros::Node;
use lt_term::Scenario;
use std::alloc::Global;

// The scenario of a node of which nothing is refused, where reals have so many decimals. Its variables have these kinds,
// and its trace these parts.
pub(crate) fn scenario(
    alloc: Global,
    kinds: Kinds,
    from: &Node,
    parts: &[Item<'_>],
    decimals: u32,
) -> Result<Scenario, Memory>
    requires few { decimals ≤ most_decimals }
    requires kinds { kinds_view kinds ≡ kinds_of (node from.now) }
    requires parts { items_view parts.now ≡ items (expanded from.now.body) }
    requires limits { passed_limits (node from.now) ≡ [] }
    requires judged { judged_refusals decimals (node from.now) ≡ [] }
    requires named { NamesWhatIsThere (node from.now) }
    requires numbered { IsNumbered (node from.now) }
    requires inside { AreInside [] (expanded from.now.body) }
    requires typed { ∥ IsTypedNode (node from.now) ∥₁ }
    ensures { IfOk result (λ made. scene made ≡ scene_of decimals (node from.now)) }
{
    let known = numbered(alloc, parts)?;
    let name = String::from_str(alloc, &from.name)?;
    let inputs = inputs_of(alloc, from, decimals)?;
    let outputs = variables_of(alloc, &from.outputs, decimals)?;
    let locals = locals_of(alloc, parts, decimals)?;
    let counters = counters_of(alloc, parts, decimals)?;
    let exceptions = known.names(alloc)?;
    let mut table = Table::new(alloc, kinds.inputs, kinds.outputs, kinds.locals);
    let body = put_term(alloc, &mut table, &known, &from.body)?;
    Ok(Scenario {
        name,
        decimals,
        inputs,
        outputs,
        locals,
        counters,
        exceptions,
        table,
        body,
    })
}
