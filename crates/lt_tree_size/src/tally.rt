//! How many nodes a tree has, and how many of its leaves vanish and go on.

ghost use Rattle.std.specs.Prelude.{◌≤◌};

/// How many nodes a tree has, and how many of its leaves vanish and go on. Each number is exact up
/// to 65,537, which stands for more.
#[derive(Clone, Copy)]
pub struct Tally {
    /// The nodes.
    pub nodes: u32,

    /// The leaves that vanish.
    pub vanishes: u32,

    /// The leaves that go on.
    pub goes: u32,

    pub ghost some: { 1 ≤ nodes },
    pub ghost few: { nodes ≤ 65537 },
    pub ghost few_vanishes: { vanishes ≤ 65537 },
    pub ghost few_goes: { goes ≤ 65537 },
}
