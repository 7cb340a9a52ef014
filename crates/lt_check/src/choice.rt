//! Choices of what is unfolded.

ghost use Rattle.std.specs.Prelude.{◌≡◌, ◌≤◌, ◌++◌, All, List, OnOk, length, map};
ghost use Rattle.lt_num.specs.declared.kind.Kind.{Kind};
ghost use Rattle.lt_term.specs.UnfoldedView.{parts_count};
ghost use Rattle.lt_term.specs.UnfoldingView.{Grows, IsWithin, parts_of, tree_of};
ghost use Rattle.lt_check.specs.inner.ChoiceView.{ChoiceIsWithin};
ghost use Rattle.lt_check.specs.inner.Visited.{positive_parts};

use lt_term::{Later, Memory, Parts, Unfolding};

/// A choice of parts, under rules by number.
#[derive(Clone, Copy)]
pub(crate) struct Choice<'a> {
    pub parts: Parts<'a>,
    pub rules: u32,
}

/// Adds the parts of a choice that have a positive weight.
pub(crate) fn push_parts<'a>(
    unfolded: &mut Unfolding<'a>,
    choice: Choice<'a>,
    weights: &[u64],
    trees: &mut Vec<Later<'a>>,
) -> Result<(), Memory>
    requires within { ChoiceIsWithin unfolded.old choice }
    requires count { length weights.now ≤ parts_count choice.parts }
    requires trees { All (IsWithin unfolded.old) trees.old.items }
    ensures parts { OnOk result ((kinds : List Kind) →
        map (tree_of kinds unfolded.new) trees.new.items ≡
        map (tree_of kinds unfolded.old) trees.old.items ++
        positive_parts (parts_of kinds unfolded.old choice.entry.parts choice.entry.rules)
        weights.now) }
    ensures trees { OnOk result (All (IsWithin unfolded.new) trees.new.items) }
    ensures grows { Grows unfolded.old unfolded.new }
{
    for (number, weight) in weights.iter().enumerate() {
        if *weight > 0 {
            let part = unfolded.part(choice.parts, choice.rules, number)?;
            trees.push(part)?;
        }
    }
    Ok(())
}
