//! A choice between two numbers by a third.

ghost use Rattle.std.specs.Prelude.{◌≤◌, IfNone, IfSome};
ghost use Rattle.lt_diagram.specs.inner.Picks.{Picks};

/// What says the first of two where a condition is true, and else the second; all three are numbers of branches.
#[derive(Clone, Copy, PartialEq, Eq)]
pub(crate) struct Trio {
    pub(crate) condition: u32,
    pub(crate) first: u32,
    pub(crate) second: u32,
}

/// The number that a choice is, if one of the three is it, whatever the branches are.
pub(crate) fn picked(trio: Trio) -> Option<u32>
    ensures some { IfSome result (Picks trio) }
    ensures none { IfNone result (2 ≤ trio.condition) }
{
    if trio.condition == 1 || trio.first == trio.second {
        return Some(trio.first);
    }
    if trio.condition == 0 {
        return Some(trio.second);
    }
    if trio.first == 1 && trio.second == 0 {
        return Some(trio.condition);
    }
    None
}
