//! The header of a trace.

ghost use Rattle.std.specs.Prelude.{◌≡◌, ◌<◌, ◌^◌, ◌++◌, ℕ, [], true, IfSome, Some, codes, decimal, if◌then◌else◌};
ghost use Rattle.lt_draw.specs.declared.directions.Draw.{Draw};
ghost use Rattle.lt_rif.specs.Trace.{draw_header, line};
ghost use Rattle.lt_trace.specs.View.{shape_view};
ghost use Rattle.lt_trace.specs.inner.Stages.{ComesNext, place_in_header};

use crate::digits::number_in;
use crate::front::{behind, declares, is_numbered};
use crate::shape::Shape;
use crate::stage::{HeaderLine, Next, Stage};

/// What comes after a line, without its line feed, that stands where this one of the header is due.
pub fn in_header(shape: &Shape, line: HeaderLine, text: &[u8]) -> Next
    ensures { ComesNext (shape_view shape.now) (place_in_header line) text.now result [] }
{
    let declared = &shape.declared;
    let inputs = Stage::Header(HeaderLine::Inputs);
    match line {
        HeaderLine::Seed => on(is_seed(text), Stage::Header(HeaderLine::Rule)),
        HeaderLine::Rule => {
            if is_rule(text) {
                return Next::At(Stage::Header(HeaderLine::Outputs));
            }
            on(declares(text, b"#inputs", &declared.outputs), inputs)
        }
        HeaderLine::Outputs => on(declares(text, b"#inputs", &declared.outputs), inputs),
        HeaderLine::Inputs => on(
            declares(text, b"#outputs", &declared.inputs),
            Stage::Header(HeaderLine::Locals),
        ),
        HeaderLine::Locals => on(declares(text, b"#locals", &declared.locals), Stage::Step),
    }
}

// The next stage, where the line is one that is due.
fn on(is_due: bool, stage: Stage) -> Next
    ensures { result ≡ (if is_due then Next.At stage else Next.Bad) }
{
    if is_due { Next::At(stage) } else { Next::Bad }
}

// Whether a line tells a seed.
fn is_seed(text: &[u8]) -> bool
    ensures yes { result ≡ true → (n : ℕ) × (n < 2 ^ 64) × (text.now ≡ codes "#seed " ++ decimal n) }
    ensures no { (n : ℕ) → n < 2 ^ 64 → text.now ≡ codes "#seed " ++ decimal n → result ≡ true }
{
    match seed_in(text) {
        Some(seed) => is_numbered(text, b"#seed ", seed),
        None => false,
    }
}

// The seed that a line may tell.
fn seed_in(text: &[u8]) -> Option<u64>
    ensures found { (n : ℕ) → n < 2 ^ 64 → text.now ≡ codes "#seed " ++ decimal n →
        result ≡ Some n }
    ensures small { IfSome result (λ seed. seed < 2 ^ 64) }
{
    let digits = behind(text, b"#seed ")?;
    u64::try_from(number_in(digits)?).ok()
}

// Whether a line tells a rule of drawing.
fn is_rule(text: &[u8]) -> bool
    ensures yes { result ≡ true → (draw : Draw) × (line text.now ≡ draw_header draw) }
    ensures no { (draw : Draw) → line text.now ≡ draw_header draw → result ≡ true }
{
    text == b"#draw 2".as_slice() || text == b"#draw 3".as_slice()
}
