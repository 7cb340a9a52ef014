//! The calls of an object in memory.

ghost use Rattle.std.specs.Prelude.{◌≡◌, ◌≤◌, ◌↔◌, IsTrue};
ghost use Rattle.lt_io.specs.Calls.{none_made, IsNextToFail, with_success, with_fault};
ghost use Rattle.lt_io.specs.Programs.{with_more};

/// The calls that an object in memory answered, and which of them it is told to fail.
#[derive(Drop)]
pub struct Calls {
    /// How many calls were made, up to `u64::MAX`: the number of the next one.
    pub made: u64,
    /// The numbers of the calls that are to fail, where the first call is number 0.
    pub failing: Vec<u64>,
    /// How many calls failed, up to `u64::MAX`.
    pub faults: u64,
}

impl Calls {
    /// No call so far. Those whose numbers are in `failing` are to fail.
    pub fn new(failing: Vec<u64>) -> Self
        ensures { result ≡ none_made failing }
    {
        Calls {
            made: 0,
            failing,
            faults: 0,
        }
    }

    /// Whether the next call is to fail.
    pub fn is_next_to_fail(&self) -> bool
        ensures { IsTrue result ↔ IsNextToFail self.now }
    {
        self.failing.contains(&self.made)
    }

    // Forgets the calls so far. The same numbers are to fail.
    pub(crate) fn restart(&mut self)
        ensures { self.new ≡ none_made self.old.failing }
    {
        self.made = 0;
        self.faults = 0;
    }

    // Counts faults of elsewhere, as of a link that was finished.
    pub(crate) fn add_faults(&mut self, more: u64)
        ensures added { self.new ≡ record self.old { faults = with_more self.old.faults more } }
        ensures later { self.old.faults ≤ self.new.faults }
    {
        self.faults = self.faults.saturating_add(more);
    }

    /// Counts a call that went well.
    pub fn count_success(&mut self)
        ensures { self.new ≡ with_success self.old }
    {
        self.made = self.made.saturating_add(1);
    }

    /// Counts a call that failed.
    pub fn count_fault(&mut self)
        ensures counted { self.new ≡ with_fault self.old }
        ensures later { self.old.faults ≤ self.new.faults }
    {
        self.made = self.made.saturating_add(1);
        self.faults = self.faults.saturating_add(1);
    }
}
