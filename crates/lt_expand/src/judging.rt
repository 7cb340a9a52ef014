//! Whether a node that is within the limits has a scenario.

ghost use Rattle.std.specs.Prelude.{◌≡◌, ◌≤◌};
ghost use Rattle.lt_num.specs.Bounds.{most_decimals};
ghost use Rattle.lt_expand.specs.Classes.{kinds_of};
ghost use Rattle.lt_macros.specs.Preorder.{items};
ghost use Rattle.lt_expand.specs.inner.Items.{items_view};
ghost use Rattle.lt_expand.specs.inner.Judged.{kinds};
ghost use Rattle.lt_expand.specs.inner.Places.{IsFirst, judged_refusals, refusal_of};
ghost use Rattle.lt_macros.specs.Tree.{expanded, node};

use crate::items::Item;
use crate::kinds::Kinds;
use crate::places::{FirstPlaces, controllable_argument, node_places};
use crate::refusal::ExpandRefusal;
use lt_macros::Node;

// What is refused first of a node that is within the limits, where reals have so many decimals. Its variables have these
// kinds, and its trace these parts.
pub(crate) fn judge(
    over: &Kinds,
    from: &Node,
    parts: &[Item<'_>],
    decimals: u32,
) -> Result<(), ExpandRefusal>
    requires few { decimals ≤ most_decimals }
    requires kinds { kinds over.now ≡ kinds_of (node from.now) }
    requires parts { items_view parts.now ≡ items (expanded from.now.body) }
    ensures { IsFirst result (judged_refusals decimals (node from.now)) }
{
    if let Some(refusal) = refusal_of(node_places(over, from, parts, decimals)) {
        return Err(refusal);
    }
    match controllable_argument(over, from) {
        Some(at) => Err(ExpandRefusal::ControllableArgument(at)),
        None => Ok(()),
    }
}

// What is refused first, where these are the first places of each kind.
fn refusal_of(places: FirstPlaces) -> Option<ExpandRefusal>
    ensures { result ≡ refusal_of places }
{
    if let Some(at) = places.bad_static {
        return Some(ExpandRefusal::BadStatic(at));
    }
    if let Some(at) = places.not_linear {
        return Some(ExpandRefusal::NonLinear(at));
    }
    if let Some(at) = places.condition {
        return Some(ExpandRefusal::ControllableCondition(at));
    }
    places.weight.map(ExpandRefusal::ControllableWeight)
}
