//! What locals keep.

ghost use Rattle.std.specs.Prelude.{◌≡◌};
ghost use Rattle.lt_term.specs.Next.{kept};
ghost use Rattle.lt_term.specs.Offers.{start_of};
ghost use Rattle.lt_term.specs.View.{kinds_of};

use lt_num::Value;
use lt_term::{Last, Var};

/// What a local keeps until its next value is known: the value that it had, or false or 0 where it
/// had none.
pub fn kept(locals: &[Var], local: u32, last: Last) -> Last
    ensures { result ≡ kept (start_of (kinds_of locals.now) local) last }
{
    match last {
        Last::First => Last::Kept(start_of(locals, local)),
        Last::Kept(value) => Last::Kept(value),
    }
}

// The value of a local that has had none: false or 0, by its kind.
#[tactic(auto, using(crate::proofs::Rules::kind_at))]
fn start_of(locals: &[Var], local: u32) -> Value
    ensures { result ≡ start_of (kinds_of locals.now) local }
{
    match locals.get(local as usize) {
        Some(var) => Value::of_raw(var.kind, 0),
        None => Value::Bool(false),
    }
}
