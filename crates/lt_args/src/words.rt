//! What the words of a call ask for.

ghost use Rattle.std.specs.Prelude.{◌≡◌, map, option_map, string_bytes, Ok, Err, IfErr, IfOk, MatchResult};
ghost use Rattle.clap.specs.Words.{found_of, rows_of};
ghost use Rattle.lt_loop.specs.InputSource.{source_of};
ghost use Rattle.lt_args.specs.Asked.{request};
ghost use Rattle.lt_args.specs.Words.{HasSmallNumber, HaveForm, IsOfMeaning, IsPromised, IsRefusedBy, IsWithin, asked_by, controller_in, draw_of, has_both, lacks_trace, large_run, makes_runs, mode_of, request_of, requested, source_in, stress_of};
ghost use Rattle.lt_args.specs.inner.Fitting.{NumbersFit};

use crate::command::command;
use crate::found::{decimals_in, is_given, number_in, option_in, word_in};
use crate::settings::{
    DEFAULT_BUDGET, DEFAULT_COUNT, DEFAULT_DECIMALS, DEFAULT_DRAW, DEFAULT_SEED, DEFAULT_STEPS,
    MOST_NUMBER,
};
use crate::usage::{UsageKind, WordsRefusal};
use clap::ArgMatches;
use lt_draw::Draw;
use lt_loop::InputSource;
use std::alloc::Global;

/// What is done with a scenario.
#[derive(Clone, Copy, Debug, PartialEq, Eq)]
pub enum Mode {
    /// It is run.
    Run,

    /// It is printed.
    Print,

    /// An earlier trace is checked by it.
    Check,

    /// It is run many times at once, side by side.
    Campaign,

    /// A large run is made from this number, which is at most 999,999. It has no scenario's file.
    Stress(u64),
}

/// What the words of a call ask for.
#[derive(Clone, Copy)]
pub struct Request<'a> {
    /// What is done.
    pub mode: Mode,

    /// The name of the scenario's file; in a large run its number as it was written.
    pub file: &'a str,

    /// The most steps.
    pub limit: u64,

    /// The seed of what is drawn.
    pub seed: u64,

    /// The rule by which it is drawn.
    pub draw: Draw,

    /// How many decimals a real has.
    pub decimals: u32,

    /// The greatest need that a search may have, from 1.
    pub budget: u64,

    /// The name of the node, where one is given.
    pub node: Option<&'a str>,

    /// Where the inputs of the scenario come from. A run has one source alone, as each of a campaign has, and a check has the
    /// trace.
    pub inputs: InputSource<'a>,

    /// The command of the oracle, where one is given.
    pub oracle: Option<&'a str>,

    /// Whether locals are written to the trace.
    pub locals: bool,

    /// How many sessions a campaign has: 1 to 64.
    pub count: u64,
}

/// What the words ask for, as clap reads them: MODE and FILE, which is `run FILE`, `print FILE`, `check FILE`, `campaign FILE`
/// or `stress N`, and `-l N`, `--seed N`, `--precision N`, `--budget N`, `--node NAME`, `--sut CMD`, `--oracle CMD`,
/// `--replay FILE`, `--locals`, `--draw N` and `--count N`, in any order and each at most once. A run or a campaign has no
/// `--sut` beside `--replay`, and a check has a `--replay`.
pub fn requested<'a>(alloc: Global, words: &'a [String]) -> Result<Request<'a>, WordsRefusal>
    ensures reads { MatchResult result
        (λ asked. requested (map string_bytes words.entry.now) ≡ Ok (request asked))
        (λ refusal. IsRefusedBy refusal (requested (map string_bytes words.entry.now))) }
    ensures promised { IfErr result (λ refusal. IsPromised (map string_bytes words.entry.now) →
        HaveForm refusal) }
    ensures within { IfOk result (λ asked. IsWithin (request asked)) }
{
    let found = command(alloc)?.try_get_matches_from(words)?;
    Ok(asked_by(&found)?)
}

// What is asked for by what was found in the words.
fn asked_by<'a>(found: &ArgMatches<'a>) -> Result<Request<'a>, UsageKind>
    requires { NumbersFit (rows_of (found_of found.now)) }
    ensures reads { MatchResult result
        (λ asked. asked_by (rows_of (found_of found.now)) ≡ Ok (request asked))
        (λ kind. asked_by (rows_of (found_of found.now)) ≡ Err kind) }
    ensures formed { IfErr result IsOfMeaning }
    ensures within { IfOk result (λ asked. IsWithin (request asked)) }
{
    let mode = mode_named(word_in(found, "mode"), word_in(found, "file"))?;
    if has_both(mode, found) {
        return Err(UsageKind::Both);
    }
    if lacks_trace(mode, found) {
        return Err(UsageKind::Trace);
    }
    Ok(request_in(mode, found))
}

// The mode that a word is, where the other one stands in the place of FILE.
fn mode_named(word: &str, file: &str) -> Result<Mode, UsageKind>
    ensures is { result ≡ mode_of word.now file.now }
    ensures formed { IfErr result IsOfMeaning }
    ensures within { IfOk result HasSmallNumber }
{
    match word {
        "run" => Ok(Mode::Run),
        "print" => Ok(Mode::Print),
        "check" => Ok(Mode::Check),
        "campaign" => Ok(Mode::Campaign),
        "stress" => large_run(file),
        _ => Err(UsageKind::Mode),
    }
}

// The large run of the number that a word is: decimal digits alone.
fn large_run(word: &str) -> Result<Mode, UsageKind>
    ensures is { result ≡ large_run word.now }
    ensures formed { IfErr result IsOfMeaning }
    ensures within { IfOk result HasSmallNumber }
{
    if word.starts_with('+') {
        return Err(UsageKind::Number);
    }
    match word.parse::<u64>() {
        Ok(number) => stress_of(number),
        Err(_) => Err(UsageKind::Number),
    }
}

// The large run of a number, where it isn't too great.
fn stress_of(number: u64) -> Result<Mode, UsageKind>
    ensures is { result ≡ stress_of number }
    ensures formed { IfErr result IsOfMeaning }
    ensures within { IfOk result HasSmallNumber }
{
    if number > MOST_NUMBER {
        return Err(UsageKind::Number);
    }
    Ok(Mode::Stress(number))
}

// Whether a run would have both a controller and an earlier trace that stands for one, or each of a campaign would.
fn has_both(mode: Mode, found: &ArgMatches<'_>) -> bool
    ensures { result ≡ has_both mode (rows_of (found_of found.now)) }
{
    makes_runs(mode) && option_in(found, "sut").is_some() && option_in(found, "replay").is_some()
}

// Whether a mode makes runs of a scenario.
fn makes_runs(mode: Mode) -> bool
    ensures { result ≡ makes_runs mode }
{
    matches!(mode, Mode::Run | Mode::Campaign)
}

// Whether a check would have no trace.
fn lacks_trace(mode: Mode, found: &ArgMatches<'_>) -> bool
    ensures { result ≡ lacks_trace mode (rows_of (found_of found.now)) }
{
    mode == Mode::Check && option_in(found, "replay").is_none()
}

// The command of a controller that a mode takes: a check takes none.
fn controller_in<'a>(mode: Mode, found: &ArgMatches<'a>) -> Option<&'a str>
    ensures { option_map (λ s. s.now) result ≡ controller_in mode (rows_of (found_of found.now)) }
{
    match mode {
        Mode::Check => None,
        Mode::Run | Mode::Print | Mode::Campaign | Mode::Stress(_) => option_in(found, "sut"),
    }
}

// Where the inputs come from by what was found in the words: a controller stands before an earlier trace.
fn source_in<'a>(mode: Mode, found: &ArgMatches<'a>) -> InputSource<'a>
    ensures { source_of result ≡ source_in mode (rows_of (found_of found.now)) }
{
    match (controller_in(mode, found), option_in(found, "replay")) {
        (Some(command), _) => InputSource::Program(command),
        (None, Some(file)) => InputSource::Trace(file),
        (None, None) => InputSource::Nobody,
    }
}

// The rule of drawing that has this number.
fn draw_of(number: u64) -> Draw
    ensures { result ≡ draw_of number }
{
    match number {
        2 => Draw::Directed,
        3 => Draw::Inside,
        _ => Draw::Up,
    }
}

// The request of a mode, from what was found in the words, with what holds where an option isn't given.
fn request_in<'a>(mode: Mode, found: &ArgMatches<'a>) -> Request<'a>
    requires fits { NumbersFit (rows_of (found_of found.now)) }
    requires small { HasSmallNumber mode }
    ensures reads { request result ≡ request_of mode (rows_of (found_of found.now)) }
    ensures within { IsWithin (request result) }
{
    Request {
        mode,
        file: word_in(found, "file"),
        limit: number_in(found, "limit").unwrap_or(DEFAULT_STEPS),
        seed: number_in(found, "seed").unwrap_or(DEFAULT_SEED),
        draw: draw_of(number_in(found, "draw").unwrap_or(DEFAULT_DRAW)),
        decimals: decimals_in(found).unwrap_or(DEFAULT_DECIMALS),
        budget: number_in(found, "budget").unwrap_or(DEFAULT_BUDGET),
        node: option_in(found, "node"),
        inputs: source_in(mode, found),
        oracle: option_in(found, "oracle"),
        locals: is_given(found, "locals"),
        count: number_in(found, "count").unwrap_or(DEFAULT_COUNT),
    }
}
