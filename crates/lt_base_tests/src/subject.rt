//! What tables tell of.

use crate::{drawing, files_and_sinks, formulas, links, numbers, plants, replies, traces};
use std::alloc::Global;
use std::test::Fail;

/// What the rows of a table tell of. What a row gives stands where its text is put.
pub enum Subject {
    Sinks,
    Files,
    Links,
    Starts,
    Numbers,
    Values,
    Words,
    Picks,
    Targets,
    Directions,
    Expressions,
    Names,
    PlantReplies,
    Services,
    FailingServices,
    Replies,
    Traces,
}

/// Puts what is found of what a row gives.
pub fn put_found(
    found: &mut String,
    alloc: Global,
    subject: &Subject,
    given: &str,
) -> Result<(), Fail> {
    match subject {
        Subject::Sinks => files_and_sinks::put_sink(found, alloc, given),
        Subject::Files => files_and_sinks::put_files(found, alloc, given),
        Subject::Links => links::put_link(found, alloc, given),
        Subject::Starts => links::put_starts(found, alloc, given),
        Subject::Numbers => numbers::put_answers(found, given),
        Subject::Values => numbers::put_value(found, given),
        Subject::Words => drawing::put_word(found, given),
        Subject::Picks => drawing::put_pick(found, alloc, given),
        Subject::Targets => drawing::put_target(found, given),
        Subject::Directions => drawing::put_direction(found, given),
        Subject::Expressions => formulas::put_worth(found, alloc, given),
        Subject::Names => plants::put_named(found, alloc, given),
        Subject::PlantReplies => plants::put_replies(found, alloc, given),
        Subject::Services => plants::put_service(found, alloc, given),
        Subject::FailingServices => plants::put_failing(found, alloc, given),
        Subject::Replies => replies::put_replies(found, alloc, given),
        Subject::Traces => traces::put_text(found, alloc, given),
    }
}
