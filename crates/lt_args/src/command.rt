//! The command that the words of a call are read by.

ghost use Rattle.std.specs.Prelude.{◌≡◌, false, IfOk};
ghost use Rattle.clap.specs.Words.{app_of, rule_of, with_rule};
ghost use Rattle.lt_args.specs.Command.{command, limit, locals, no_arguments, placed, with_number, with_word};

use crate::settings::{MOST_BUDGET, MOST_COUNT, MOST_DECIMALS, MOST_DRAW, MOST_SEED, MOST_STEPS};
use clap::builder::ValueParser;
use clap::{Arg, ArgAction, Command};
use std::alloc::{AllocError, Global};

// The command: MODE, FILE and the options.
pub(crate) fn command<'a>(alloc: Global) -> Result<Command<'a>, AllocError>
    ensures { IfOk result (λ made. app_of made ≡ command) }
{
    let made = with(no_arguments(alloc), placed(alloc, "mode"))?;
    let made = with(made, placed(alloc, "file"))?;
    let made = with(made, limit(alloc))?;
    let made = with(made, with_number(alloc, "seed", 0, MOST_SEED))?;
    let made = with(
        made,
        with_number(alloc, "precision", 0, u64::from(MOST_DECIMALS)),
    )?;
    let made = with(made, with_number(alloc, "budget", 1, MOST_BUDGET))?;
    let made = with(made, with_word(alloc, "node"))?;
    let made = with(made, with_word(alloc, "sut"))?;
    let made = with(made, with_word(alloc, "oracle"))?;
    let made = with(made, with_word(alloc, "replay"))?;
    let made = with(made, locals(alloc))?;
    let made = with(made, with_number(alloc, "draw", 1, MOST_DRAW))?;
    with(made, with_number(alloc, "count", 1, MOST_COUNT))
}

// The command without any argument. The words have no program's name before them.
fn no_arguments<'a>(alloc: Global) -> Command<'a>
    ensures { app_of result ≡ no_arguments }
{
    Command::new(alloc, "lurette").no_binary_name(true)
}

// A command with one more argument.
fn with<'a>(command: Command<'a>, arg: Arg<'a>) -> Result<Command<'a>, AllocError>
    requires { arg.global ≡ false }
    ensures { IfOk result (λ made. app_of made ≡
        with_rule (app_of command.entry) (rule_of arg.entry)) }
{
    command.arg(arg)
}

// A word that has to be there, and is known by its place.
fn placed<'a>(alloc: Global, name: &'a str) -> Arg<'a>
    ensures rule { rule_of result ≡ placed name.entry.now }
    ensures own { result.global ≡ false }
{
    Arg::new(alloc, name).required(true)
}

// `--NAME`, with a word after it.
fn with_word<'a>(alloc: Global, name: &'a str) -> Arg<'a>
    ensures rule { rule_of result ≡ with_word name.entry.now }
    ensures own { result.global ≡ false }
{
    Arg::new(alloc, name).long(name)
}

// `--NAME`, with a number from the least to the most after it.
fn with_number<'a>(alloc: Global, name: &'a str, least: u64, most: u64) -> Arg<'a>
    ensures rule { rule_of result ≡ with_number name.entry.now least most }
    ensures own { result.global ≡ false }
{
    with_word(alloc, name).value_parser(ValueParser::unsigned(least, most))
}

// `-l`, with a number of steps after it.
fn limit<'a>(alloc: Global) -> Arg<'a>
    ensures rule { rule_of result ≡ limit }
    ensures own { result.global ≡ false }
{
    Arg::new(alloc, "limit")
        .short('l')
        .value_parser(ValueParser::unsigned(0, MOST_STEPS))
}

// `--locals`, with nothing after it.
fn locals<'a>(alloc: Global) -> Arg<'a>
    ensures rule { rule_of result ≡ locals }
    ensures own { result.global ≡ false }
{
    with_word(alloc, "locals").action(ArgAction::SetTrue)
}
