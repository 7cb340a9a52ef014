//! Directions.

ghost use Rattle.std.specs.Prelude.{◌≡◌};
ghost use Rattle.lt_draw.specs.Direction.{is_downward};

/// The rule by which a run draws.
#[derive(Clone, Copy, Debug, PartialEq, Eq)]
pub enum Draw {
    /// From its target each variable goes up.
    Up,

    /// Each variable has a direction of its own, which is drawn too.
    Directed,

    /// Each variable has a direction, and its target is drawn between the least and the greatest of the points that
    /// are possible for it.
    Inside,
}

/// Whether a word says that a variable goes downward from its target.
pub fn downward(word: u64) -> bool
    ensures { result ≡ is_downward word }
{
    word % 2 == 1
}
