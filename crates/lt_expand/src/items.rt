//! The parts of a trace in preorder: each before the parts in it, and these from left to right.

ghost use Rattle.std.specs.Prelude.{◌≡◌, ◌++◌, IfOk, OnOk, option_map, option_to_list};
ghost use Rattle.lt_macros.specs.Preorder.{items, items_in, local_at, term as a_term};
ghost use Rattle.lt_expand.specs.inner.Items.{item, items_view};
ghost use Rattle.lt_macros.specs.Tree.{declared, expanded, parts};

use lt_macros::{Declared, Expanded, Parts, Placed};
use std::alloc::{AllocError, Global};

/// A part of a trace.
#[derive(Clone, Copy)]
pub(crate) enum Item<'a> {
    /// A trace.
    Term(&'a Expanded),

    /// The weight of an alternative, which stands before it.
    Weight(&'a Placed),
}

// A trace and all parts of it.
pub(crate) fn items_of(alloc: Global, term: &Expanded) -> Result<Vec<Item<'_>>, AllocError>
    ensures { IfOk result (λ found. items_view found.items ≡ items (expanded term.now)) }
{
    let mut found = Vec::new(alloc);
    put_items(&mut found, term)?;
    Ok(found)
}

// Puts a trace and all parts of it behind other parts.
#[cycle(items)]
fn put_items<'a>(found: &mut Vec<Item<'a>>, term: &'a Expanded) -> Result<(), AllocError>
    ensures { OnOk result (items_view found.new.items ≡ items_view found.old.items ++
        items (expanded term.now)) }
{
    found.push(Item::Term(term))?;
    match term {
        Expanded::Eps | Expanded::Dead | Expanded::Con(_) | Expanded::Raise(_) => Ok(()),
        Expanded::Loop(body)
        | Expanded::Count(_, _, body)
        | Expanded::Assert(_, body)
        | Expanded::Exist(_, _, body) => put_items(found, body),
        Expanded::Seq(first, second)
        | Expanded::Pri(first, second)
        | Expanded::Par(first, second)
        | Expanded::Catch(_, first, second)
        | Expanded::Try(first, second) => {
            put_items(found, first)?;
            put_items(found, second)
        }
        Expanded::Any(alternatives) => put_parts(found, alternatives),
    }
}

// Puts alternatives behind other parts, each behind its weight.
#[cycle(items)]
fn put_parts<'a>(found: &mut Vec<Item<'a>>, alternatives: &'a Parts) -> Result<(), AllocError>
    ensures { OnOk result (items_view found.new.items ≡ items_view found.old.items ++
        items_in (parts alternatives.now)) }
{
    for alternative in &alternatives.items {
        found.push(Item::Weight(&alternative.weight))?;
        put_items(found, &alternative.body)?;
    }
    Ok(())
}

// The local that a part declares, if it does.
pub(crate) fn local_at<'a>(part: Item<'a>) -> Option<&'a Declared>
    ensures { option_to_list (option_map (λ d. declared d.now) result) ≡
        local_at (item part.entry) }
{
    match part {
        Item::Term(term) => local_of(term),
        Item::Weight(_) => None,
    }
}

// The local that a trace declares, if it does.
fn local_of(term: &Expanded) -> Option<&Declared>
    ensures { option_to_list (option_map (λ d. declared d.now) result) ≡
        local_at (a_term (expanded term.now)) }
{
    match term {
        Expanded::Exist(_, declared, _) => Some(declared),
        _ => None,
    }
}
