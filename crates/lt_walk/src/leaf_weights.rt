//! What a walk takes along.

ghost use Rattle.std.specs.Prelude.{◌≤◌};

/// What leaves weigh in the part of a tree at hand, but for those that raise exceptions: as many nodes as stand in their
/// place in the whole tree. Each weight is exact up to 65,537, which stands for more.
#[derive(Clone, Copy)]
pub struct LeafWeights {
    /// What a leaf weighs that vanishes.
    pub vanish: u32,

    /// What a leaf weighs that goes on.
    pub go: u32,

    pub ghost some_vanish: { 1 ≤ vanish },
    pub ghost few_vanish: { vanish ≤ 65537 },
    pub ghost some_go: { 1 ≤ go },
    pub ghost few_go: { go ≤ 65537 },
}
