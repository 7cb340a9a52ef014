//! Whole traces.

ghost use Rattle.std.specs.Prelude.{◌≡◌, ◌≤◌, ◌<◌, ◌^◌, ℕ, length, map, position, MatchResult};
ghost use Rattle.lt_trace.specs.Lines.{IsRefusedFor, IsTold, is_feed};
ghost use Rattle.lt_trace.specs.View.{shape_view, told};
ghost use Rattle.lt_trace.specs.inner.Stages.{IsFeed};

use crate::recorded::Recorded;
use crate::refusal::TraceRefusal;
use crate::shape::Shape;
use crate::stage::{HeaderLine, Next, Stage, next_after};
use std::alloc::Global;

/// What a text tells, if it is a trace of this shape.
///
/// # Errors
///
/// [`TraceRefusal::BadLine`] where a line is none of a trace, or is missing. Memory ran out, or exceptions are 2^32 or more,
/// for which there are no numbers.
pub fn read_trace(alloc: Global, shape: &Shape, text: &[u8]) -> Result<Recorded, TraceRefusal>
    ensures { MatchResult result (λ r. IsTold (shape_view shape.now) text.now (told r))
        (λ why. IsRefusedFor (shape_view shape.now) text.now why) }
{
    if u32::try_from(shape.exceptions.len()).is_err() {
        return Err(TraceRefusal::Memory);
    }
    read_lines(alloc, shape, text)
}

// The same, line by line.
fn read_lines(alloc: Global, shape: &Shape, text: &[u8]) -> Result<Recorded, TraceRefusal>
    requires { length shape.now.exceptions.items < 2 ^ 32 }
    ensures { MatchResult result (λ r. IsTold (shape_view shape.now) text.now (told r))
        (λ why. IsRefusedFor (shape_view shape.now) text.now why) }
{
    let mut steps = Vec::new(alloc);
    let mut stage = Stage::Header(HeaderLine::Seed);
    let mut at = 0;
    let mut number = 1;
    loop {
        let Some(end) = feed_from(text, at) else {
            return Err(TraceRefusal::BadLine(number));
        };
        match next_after(alloc, shape, stage, &text[at..end], &mut steps)? {
            Next::At(following) => stage = following,
            Next::Over(_) if end + 1 < text.len() => {
                return Err(TraceRefusal::BadLine(number + 1));
            }
            Next::Over(end) => return Ok(Recorded { steps, end }),
            Next::Bad => return Err(TraceRefusal::BadLine(number)),
        }
        at = end + 1;
        number += 1;
    }
}

// Where the next line feed is, from a place on.
fn feed_from(text: &[u8], at: usize) -> Option<usize>
    requires { at ≤ length text.now }
    ensures { IsFeed text.now at result }
{
    match feed_in(&text[at..]) {
        Some(before) => Some(at + before),
        None => None,
    }
}

// Where the first line feed is.
fn feed_in(bytes: &[u8]) -> Option<usize>
    ensures { result ≡ position is_feed bytes.now }
{
    bytes.iter().position(|byte| *byte == b'\n')
}
