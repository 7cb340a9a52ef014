//! Laws of the definitions. The functions do nothing: their contracts say it.

ghost use Rattle.lt_trace.specs.Laws.{TextsHaveOneReading, TracesHaveTheirShape};
ghost use Rattle.lt_trace.specs.inner.Words.{StepLineIsRead};

use lt_rif::value_reads_back;

/// Each text tells one thing, or breaks at one line.
pub fn texts_have_one_reading()
    ensures { TextsHaveOneReading }
{
    value_reads_back();
}

/// What is told has the shape of the scenario's traces.
pub fn traces_have_their_shape()
    ensures { TracesHaveTheirShape }
{}

// What the code finds in a line is the step of which it is written, if it is written of one.
pub(crate) fn step_line_is_read()
    ensures { StepLineIsRead }
{
    value_reads_back();
}
