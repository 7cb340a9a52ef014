//! The core of a run is told events.

ghost use Rattle.lt_loop.specs.CoreState.{CoreState};
ghost use Rattle.lt_loop.specs.CoreView.{core_state, last_text};
ghost use Rattle.lt_loop.specs.Event.{WantsTell};
ghost use Rattle.lt_loop.specs.Run.{Answers};
ghost use Rattle.lt_drive.specs.Sides.{is_asked};

use crate::reactor::Reactor;
use lt_loop::{Core, Emits, Event, Machine};

impl<M: Machine> Reactor for Core<M> {
    ghost State = { CoreState M.State };

    ghost state = { λ c. core_state c };

    ghost shown = { λ c. last_text c };

    ghost answers = { λ s e a n. Answers s e a n };

    ghost speaks = { λ s w. is_asked s.plan w };

    ghost awaits = { λ s w. WantsTell s w };

    fn event(&mut self, event: Event<'_>) -> Emits {
        Core::event(self, event)
    }

    fn text(&self) -> &[u8] {
        Core::text(self)
    }
}
