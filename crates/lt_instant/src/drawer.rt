//! Who chooses in a draw.

ghost use Rattle.std.specs.Prelude.{◌≡◌, ◌++◌, ℕ, List, [], ℤ, map};
ghost use Rattle.std.specs.Option.{option_to_list};
ghost use Rattle.lt_draw_path.specs.Going.{come, rest};
ghost use Rattle.lt_walk.specs.Asked.{Chosen, IsChoice};
ghost use Rattle.lt_term.specs.Offers.{TermTree};
ghost use Rattle.lt_term.specs.TreeView.{weight};
ghost use Rattle.lt_instant.specs.declared.draw_context.DrawContext.{DrawContext};
ghost use Rattle.lt_instant.specs.inner.Found.{finding, is_stop};
ghost use Rattle.lt_instant.specs.inner.Picking.{HasStoppedAt, IsAtNode};

use crate::draw_context::DrawContext;
use crate::earlier::Earlier;
use crate::finding::Finding;
use crate::weighing::weigh;
use lt_draw_path::DrawPath;
use lt_marks_laws::trees_agree;
use lt_term::{Last, Weight};
use lt_walk::Chooser;

/// Chooses where a draw goes on, and keeps what is still to be tried, and what was found where it stops.
#[derive(Drop)]
pub struct Drawer {
    /// Where the draw is.
    pub draw_path: DrawPath,

    /// Room for what variables were in the instant before.
    pub earlier: Earlier,

    /// What was found at the leaf that was visited last.
    pub found: Finding,
}

impl Drawer {
    /// Whether the draw stops at the leaf that was visited last.
    pub fn has_found(&self) -> bool
        ensures { (raws : List ℤ) → result ≡ is_stop (finding raws self.now.found) }
    {
        !matches!(self.found, Finding::Passed)
    }
}

impl<'a> Chooser<DrawContext<'a>> for Drawer {
    ghost come = { λ p. come p.draw_path };

    ghost left = { λ p. rest p.draw_path };

    ghost is_at = { λ p m whole most. IsAtNode m whole most p };

    ghost has_stopped = { λ p m whole most. HasStoppedAt m whole most p };

    fn given(&mut self) -> Option<u32>
        ensures come { come self.new.draw_path ≡ come self.old.draw_path ++ option_to_list result }
        ensures left { rest self.old.draw_path ≡ option_to_list result ++ rest self.new.draw_path }
        ensures ends { result ≡ None → rest self.old.draw_path ≡ [] }
        ensures at { (context : DrawContext) (whole : TermTree ℕ) (most : ℕ) →
            IsAtNode context whole most self.old → IsAtNode context whole most self.new }
    {
        self.draw_path.given()
    }

    fn side(&mut self, _context: &DrawContext<'a>, nodes: u32) -> Option<u32> {
        // A law that the proof needs: the tree in which the draw goes has as many nodes as what is offered.
        trees_agree();
        self.draw_path.go_to_side(nodes as usize);
        Some(0)
    }

    fn part(
        &mut self,
        context: &DrawContext<'a>,
        scope: &[(u32, Last)],
        weights: &[Weight],
        before: &[u32],
    ) -> Option<u32> {
        pick(self, context, scope, weights, before)
    }
}

// The part of a choice by weight that is tried first. The draw stops at a fault, and passes a choice of which no part may be tried.
fn pick(
    drawer: &mut Drawer,
    context: &DrawContext<'_>,
    scope: &[(u32, Last)],
    weights: &[Weight],
    before: &[u32],
) -> Option<u32>
    requires ends { rest drawer.old.draw_path ≡ [] }
    requires asked { (whole : TermTree ℕ) × (most : ℕ) ×
        IsAtNode context.now whole most drawer.old ×
        IsChoice whole (come drawer.old.draw_path) scope.now (map weight weights.now) before.now }
    ensures come { come drawer.new.draw_path ≡ come drawer.old.draw_path ++ option_to_list result }
    ensures left { rest drawer.new.draw_path ≡ [] }
    ensures at { (whole : TermTree ℕ) (most : ℕ) → IsAtNode context.now whole most drawer.old →
        IsChoice whole (come drawer.old.draw_path) scope.now (map weight weights.now) before.now →
        Chosen (IsAtNode context.now whole most drawer.new)
        (HasStoppedAt context.now whole most drawer.new) result }
{
    // A law that the proof needs: the tree in which the draw goes has as many nodes as what is offered.
    trees_agree();
    let draw_path = &mut drawer.draw_path;
    match weigh(
        context,
        weights,
        scope,
        &mut drawer.earlier,
        &mut draw_path.weights,
    ) {
        Err(fault) => {
            drawer.found = Finding::Fault(fault);
            None
        }
        Ok(()) => {
            drawer.found = Finding::Passed;
            draw_path.go_to_part(context.words, before)
        }
    }
}
