//! Who leads a walk along a path.

ghost use Rattle.std.specs.Prelude.{◌≡◌, drop, take};

use lt_term::{Last, Weight};
use lt_walk::Chooser;

/// Leads a walk along a path, and stops it at a choice where the path ends. It keeps how many nodes the walk has told of there.
#[derive(Drop)]
pub struct Guide<'a> {
    path: &'a [u32],

    // How many choices of the path were taken.
    taken: usize,

    // Before which part of the choice at the end of the path nodes are counted.
    part: u32,

    // How many nodes stand before it.
    nodes: u32,
}

impl<'a> Guide<'a> {
    /// Leads along a path from its beginning, and asks how many nodes stand before a part of the choice at its end.
    pub fn along(path: &'a [u32], part: u32) -> Guide<'a>
        ensures path { result.path.now ≡ path.now }
        ensures begins { result.taken ≡ 0 }
    {
        Guide {
            path,
            taken: 0,
            part,
            nodes: 0,
        }
    }

    /// Whether all of the path was gone.
    pub fn is_at_end(&self) -> bool {
        self.taken >= self.path.len()
    }

    /// How many nodes stand before the part that was asked for.
    pub fn nodes(&self) -> u32 {
        self.nodes
    }
}

impl<'a> Chooser<()> for Guide<'a> {
    ghost come = { λ g. take g.taken g.path.now };

    ghost left = { λ g. drop g.taken g.path.now };

    ghost is_at = { λ g m whole most. Unit {0} };

    ghost has_stopped = { λ g m whole most. Unit {0} };

    fn given(&mut self) -> Option<u32> {
        let choice = *self.path.get(self.taken)?;
        self.taken += 1;
        Some(choice)
    }

    fn side(&mut self, _context: &(), nodes: u32) -> Option<u32> {
        if self.part > 0 {
            self.nodes = nodes;
        }
        None
    }

    fn part(
        &mut self,
        _context: &(),
        _scope: &[(u32, Last)],
        _weights: &[Weight],
        before: &[u32],
    ) -> Option<u32> {
        if let Some(nodes) = before.get(self.part as usize) {
            self.nodes = *nodes;
        }
        None
    }
}
