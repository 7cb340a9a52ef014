//! The counters of a scenario.

ghost use Rattle.std.specs.Prelude.{◌≡◌, ◌≤◌, ◌++◌, [], IfOk, OnOk, map};
ghost use Rattle.std.specs.List.{All, flat_map};
ghost use Rattle.lt_num.specs.Bounds.{most_decimals};
ghost use Rattle.lt_macros.specs.Preorder.{counter_at, term as a_term};
ghost use Rattle.lt_macros.specs.Tree.{bounds as bounds_view, expanded};
ghost use Rattle.lt_term.specs.SceneView.{turns};
ghost use Rattle.lt_expand.specs.Static.{bad_bounds, least_and_most};
ghost use Rattle.lt_expand.specs.inner.Items.{item, items_view};
ghost use Rattle.lt_expand.specs.inner.Ready.{IsFinePart};

use crate::items::Item;
use crate::statics::turns_of;
use lt_formula::Memory;
use lt_macros::{Bounds, Expanded};
use lt_term::Counter;
use std::alloc::Global;

// The counters that parts of a trace have.
pub(crate) fn counters_of(
    alloc: Global,
    parts: &[Item<'_>],
    decimals: u32,
) -> Result<Vec<Counter>, Memory>
    requires few { decimals ≤ most_decimals }
    requires fine { All (IsFinePart decimals) (items_view parts.now) }
    ensures { IfOk result (λ made. map turns made.items ≡
        map (least_and_most decimals) (flat_map counter_at (items_view parts.now))) }
{
    let mut made = Vec::new(alloc);
    for part in parts {
        put_counter(&mut made, *part, decimals)?;
    }
    Ok(made)
}

// Puts the counter that a part has, if it does, behind others.
fn put_counter(made: &mut Vec<Counter>, part: Item<'_>, decimals: u32) -> Result<(), Memory>
    requires few { decimals ≤ most_decimals }
    requires fine { IsFinePart decimals (item part) }
    ensures { OnOk result (map turns made.new.items ≡ map turns made.old.items ++
        map (least_and_most decimals) (counter_at (item part.entry))) }
{
    match part {
        Item::Term(trace) => put_counter_of(made, trace, decimals),
        Item::Weight(_) => Ok(()),
    }
}

// Puts the counter that a trace has, if it does, behind others.
fn put_counter_of(made: &mut Vec<Counter>, trace: &Expanded, decimals: u32) -> Result<(), Memory>
    requires few { decimals ≤ most_decimals }
    requires fine { IsFinePart decimals (a_term (expanded trace.now)) }
    ensures { OnOk result (map turns made.new.items ≡ map turns made.old.items ++
        map (least_and_most decimals) (counter_at (a_term (expanded trace.now)))) }
{
    match trace {
        Expanded::Count(_, bounds, _) => {
            made.push(counter_of(bounds, decimals))?;
            Ok(())
        }
        _ => Ok(()),
    }
}

// The counter of a counted loop, whose bounds may stand where they do.
fn counter_of(bounds: &Bounds, decimals: u32) -> Counter
    requires few { decimals ≤ most_decimals }
    requires fit { bad_bounds decimals (bounds_view bounds.now) ≡ [] }
    ensures { turns result ≡ least_and_most decimals (bounds_view bounds.now) }
{
    let (least, most) = least_and_most(bounds, decimals);
    Counter { least, most }
}

// The least and the greatest number of turns of such a loop.
fn least_and_most(bounds: &Bounds, decimals: u32) -> (u64, u64)
    requires few { decimals ≤ most_decimals }
    requires fit { bad_bounds decimals (bounds_view bounds.now) ≡ [] }
    ensures { result ≡ least_and_most decimals (bounds_view bounds.now) }
{
    match turns_of(bounds, decimals) {
        Some(turns) => (
            turns.least.unsigned_abs() as u64,
            turns.most.unsigned_abs() as u64,
        ),
        None => (0, 0),
    }
}
