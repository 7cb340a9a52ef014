//! Numbers that look like drawn ones.

ghost use Rattle.std.specs.Prelude.{◌<◌, ◌≤◌};

/// Numbers that look like drawn ones, from a first one on.
#[derive(Clone, Copy)]
pub(crate) struct Numbers {
    pub(crate) state: u64,
}

impl Numbers {
    /// A number below another.
    pub(crate) fn below(&mut self, most: u64) -> u64
        requires { 1 ≤ most }
        ensures { result < most }
    {
        self.state = self
            .state
            .wrapping_mul(6_364_136_223_846_793_005)
            .wrapping_add(1_442_695_040_888_963_407);
        (self.state >> 33) % most
    }
}
