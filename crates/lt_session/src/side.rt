//! One side of a run.

ghost use Rattle.std.specs.Prelude.{◌≡◌, Err, IfOk};
ghost use Rattle.lt_io.specs.Programs.{Same};
ghost use Rattle.lt_loop.specs.InputSource.{InputSource};
ghost use Rattle.lt_session.specs.Session.{Closes, Opens};
ghost use Rattle.lt_session.specs.Side.{IsNotStarted, IsOf, side_link, source_of};

use crate::recorded::Recorded;
use lt_io::{Link, Spawner, StartRefusal};
use std::alloc::Global;

/// Where the replies of a side come from.
#[derive(Clone, Copy)]
pub enum Source<'a> {
    /// There is nobody.
    Nobody,

    /// From these bytes, which were recorded before.
    Recorded(&'a [u8]),

    /// From the program that this command starts.
    Program(&'a str),
}

/// The link of a side that was opened. One to a program is given back by [`close`].
pub enum Side<'a, L> {
    /// To what was recorded: nothing, where there is nobody.
    Recorded(Recorded<'a>),

    /// To a program.
    Program(L),
}

/// Opens a side: a program is started.
///
/// # Errors
///
/// The program can't be started, or memory ran out.
pub fn open<'a, P: Spawner>(
    alloc: Global,
    source: Source<'a>,
    spawner: &mut P,
) -> Result<Side<'a, P::L>, StartRefusal>
    ensures opened { IfOk result (λ s. Opens (source_of source.entry) (P.state spawner.old)
        (P.state spawner.new) (side_link P.L.state s)) }
    ensures kind { IfOk result (λ s. IsOf (source_of source.entry) s) }
    ensures failed { result ≡ Err StartRefusal.Failed →
        IsNotStarted (source_of source.entry) (P.state spawner.old) (P.state spawner.new) }
    ensures memory { result ≡ Err StartRefusal.Memory →
        Same (P.state spawner.old) (P.state spawner.new) }
{
    match source {
        Source::Nobody => Ok(Side::Recorded(Recorded::new(&[]))),
        Source::Recorded(bytes) => Ok(Side::Recorded(Recorded::new(bytes))),
        Source::Program(command) => Ok(Side::Program(spawner.start(alloc, command)?)),
    }
}

/// Closes a side: the link of a program is given back.
pub fn close<P: Spawner>(spawner: &mut P, side: Side<'_, P::L>)
    ensures { (s : InputSource) → IsOf s side.entry →
        Closes s (P.state spawner.old) (P.state spawner.new) (side_link P.L.state side.entry) }
{
    match side {
        Side::Recorded(_) => {}
        Side::Program(link) => spawner.finish(link),
    }
}
