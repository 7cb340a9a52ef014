//! Whether a run may end where it stands.

ghost use Rattle.std.specs.Prelude.{◌≡◌, IfErr, IfOk, IsTrue};
ghost use Rattle.lt_term.specs.SceneView.{numbers_of};
ghost use Rattle.lt_term.specs.View.{process};
ghost use Rattle.lt_term.specs.Within.{passes};
ghost use Rattle.lt_check.specs.inner.MomentView.{IsEndingHalt, ends_at};
ghost use Rattle.lt_check.specs.inner.SearcherView.{IsSearcherOf};
ghost use Rattle.lt_check.specs.inner.Fitting.{IsSoughtIn};
ghost use Rattle.lt_check.specs.inner.LookView.{IsFindingHalt, IsLookEndHalt, IsReady, look_ends, look_finds};
ghost use Rattle.lt_check.specs.inner.SoughtView.{wanted};
ghost use Rattle.lt_instant.specs.inner.DrawContextView.{scene_of};

use crate::following::{is_too_large, look_at};
use crate::looking::Look;
use crate::moment::Moment;
use crate::searcher::Searcher;
use crate::sought::Sought;
use lt_legal::Halt;
use lt_term::Term;
use lt_trace::RecordedEnd;
use std::alloc::Global;

/// Whether a run may end, and what leaves are searched with.
#[derive(Drop)]
pub(crate) struct Ending {
    pub searcher: Searcher,
    pub may_end: bool,
}

/// Whether a run may end that stands at a term.
pub(crate) fn may_end(
    alloc: Global,
    moment: &Moment<'_>,
    searcher: Searcher,
    term: &Term,
    end: RecordedEnd,
) -> Result<Ending, Halt>
    requires searcher { IsSearcherOf moment.now.scenario.now searcher }
    requires passes { IsTrue (passes (numbers_of moment.now.scenario.now) (process term.now)) }
    ensures tells { IfOk result (λ ending. ending.may_end ≡
        ends_at moment.now (process term.now) end) }
    ensures searcher { IfOk result (λ ending. IsSearcherOf moment.now.scenario.now ending.searcher) }
    ensures halts { IfErr result (IsEndingHalt moment.now (process term.now) end) }
{
    if matches!(end, RecordedEnd::Cut) {
        return Ok(Ending {
            searcher,
            may_end: true,
        });
    }
    if is_too_large(alloc, moment, term)? {
        return Ok(Ending {
            searcher,
            may_end: false,
        });
    }
    let mut look = look_at(alloc, moment, searcher, term)?;
    let may_end = looks_ended(&mut look, end)?;
    Ok(Ending {
        searcher: look.searcher,
        may_end,
    })
}

// Whether a run may end where a look shows what is offered.
fn looks_ended(look: &mut Look<'_>, end: RecordedEnd) -> Result<bool, Halt>
    requires { IsReady look.old }
    ensures ready { IsReady look.new }
    ensures tells { IfOk result (λ may_end. may_end ≡ look_ends look.old end) }
    ensures halts { IfErr result (IsLookEndHalt look.old end) }
    ensures context { look.new.context ≡ look.old.context }
{
    match end {
        RecordedEnd::Normal => has_some(look, Sought::Normal),
        RecordedEnd::Raise(exception) => has_some(look, Sought::Raise(exception)),
        RecordedEnd::Fault(fault) => has_some(look, Sought::Fault(fault)),
        RecordedEnd::Deadlock => Ok(!look.is_live()?),
        RecordedEnd::Cut => Ok(true),
    }
}

// Whether some leaf that is sought may be taken.
fn has_some(look: &mut Look<'_>, sought: Sought<'_>) -> Result<bool, Halt>
    requires ready { IsReady look.old }
    requires sought { IsSoughtIn look.old.context.scenario.now sought }
    ensures ready { IsReady look.new }
    ensures tells { IfOk result (λ has_some. has_some ≡
        look_finds look.old (wanted (scene_of look.old.context) sought.entry)) }
    ensures halts { IfErr result (IsFindingHalt look.old (wanted (scene_of look.old.context) sought.entry)) }
    ensures context { look.new.context ≡ look.old.context }
{
    let leaves = look.find(sought)?;
    Ok(!leaves.is_empty())
}
