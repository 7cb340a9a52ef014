//! What is sought among the leaves of a tree.

ghost use Rattle.std.specs.Prelude.{◌≡◌, ℕ};
ghost use Rattle.lt_check.specs.inner.Wanted.{same_fault, same_name};
ghost use Rattle.lt_check.specs.inner.SoughtView.{wanted};
ghost use Rattle.lt_legal.specs.LegalRun.{name_of};
ghost use Rattle.lt_term.specs.SceneView.{scene};

use crate::step::ShownStep;
use lt_num::Arith;
use lt_term::Scenario;

/// What is sought among the leaves of a tree.
#[derive(Clone, Copy)]
pub(crate) enum Sought<'a> {
    /// An instant of which a step shows the values.
    Step(&'a ShownStep),

    /// That the scenario is over.
    Normal,

    /// An exception that has the name of this one.
    Raise(u32),

    /// This fault.
    Fault(Arith),

    /// What is live whatever values there are.
    Free,
}

/// Whether a leaf is sought at which the scenario is over.
pub(crate) fn seeks_vanish(sought: Sought<'_>, scenario: &Scenario) -> bool
    ensures { result ≡ (wanted (scene scenario.now) sought.entry).vanish }
{
    match sought {
        Sought::Normal | Sought::Free => true,
        Sought::Step(_) | Sought::Raise(_) | Sought::Fault(_) => false,
    }
}

/// Whether a leaf is sought that raises an exception.
pub(crate) fn seeks_raise(sought: Sought<'_>, scenario: &Scenario, raised: u32) -> bool
    ensures { result ≡ (wanted (scene scenario.now) sought.entry).raise raised }
{
    match sought {
        Sought::Raise(exception) => same_name(scenario, raised, exception),
        Sought::Free => true,
        Sought::Step(_) | Sought::Normal | Sought::Fault(_) => false,
    }
}

/// Whether a leaf is sought that has a fault.
pub(crate) fn seeks_fault(sought: Sought<'_>, scenario: &Scenario, met: Arith) -> bool
    ensures { result ≡ (wanted (scene scenario.now) sought.entry).fault met }
{
    match sought {
        Sought::Fault(fault) => same_fault(met, fault),
        Sought::Free => true,
        Sought::Step(_) | Sought::Normal | Sought::Raise(_) => false,
    }
}

// Whether two exceptions have one name.
fn same_name(scenario: &Scenario, one: u32, other: u32) -> bool
    ensures { result ≡ same_name (scene scenario.now) one other }
{
    name_of(scenario, one) == name_of(scenario, other)
}

// The name of an exception.
fn name_of(scenario: &Scenario, exception: u32) -> &str
    ensures { result.now ≡ name_of (scene scenario.now) exception }
{
    match scenario.exceptions.get(exception as usize) {
        Some(name) => name.as_str(),
        None => "",
    }
}

// Whether two faults are one.
fn same_fault(met: Arith, wanted: Arith) -> bool
    ensures { result ≡ same_fault met wanted }
{
    match met {
        Arith::NoPrevious => matches!(wanted, Arith::NoPrevious),
        Arith::DivisionByZero => matches!(wanted, Arith::DivisionByZero),
        Arith::Overflow => matches!(wanted, Arith::Overflow),
        Arith::NegativeWeight => matches!(wanted, Arith::NegativeWeight),
    }
}
