//! What is told events.

ghost use Rattle.std.specs.Prelude.{◌≡◌, ℕ, Bool, List, Some, true};
ghost use Rattle.lt_loop.specs.Event.{Told, told};
ghost use Rattle.lt_loop.specs.Play.{destination_of};
ghost use Rattle.lt_loop.specs.Run.{Answer};
ghost use Rattle.lt_loop.specs.declared.event.PieceKind.{PieceKind};
ghost use Rattle.lt_loop.specs.declared.event.Wants.{Wants};
ghost use Rattle.lt_rif.specs.declared.end.Who.{Who};
ghost use Rattle.lt_drive.specs.Interaction.{side};
ghost use Rattle.lt_drive.specs.Served.{answer_of};

use lt_loop::{Emits, Event};

/// What is told events, one after another, and answers each: the core of a run, or what stands around one.
pub trait Reactor {
    // the states in which one may be
    ghost State: { Type 0 };

    // the state of one
    ghost state: { Self → State };

    // the text of the last piece
    ghost shown: { Self → List ℕ };

    // from a state, an event may be answered so, and then it is in that state
    ghost answers: { State → Told → Answer → State → Type 0 };

    // whether pieces are put out for a side
    ghost speaks: { State → Who → Bool };

    // what is waited for
    ghost awaits: { State → Wants → Type 0 };

    /// Takes an event, and goes on until one piece is put out, or a byte is needed that is not there, or all is over.
    fn event(&mut self, event: Event<'_>) -> Emits
        ensures answers { answers (state self.old) (told event.entry)
            (answer_of result (shown self.new)) (state self.new) }
        ensures awaits { awaits (state self.new) result.wants }
        ensures sides { (w : Who) (kind : PieceKind) → result.piece ≡ Some kind →
            destination_of kind ≡ side w → speaks (state self.old) w ≡ true };

    /// The text of the last piece.
    fn text(&self) -> &[u8]
        ensures { result.now ≡ shown self.now };
}
