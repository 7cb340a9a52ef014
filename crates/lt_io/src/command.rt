//! Commands of the system.

ghost use Rattle.std.specs.Prelude.{◌≡◌, [], ◌∷◌, ◌++◌, Err, IfOk, OnOk};
ghost use Rattle.std.specs.Process.{command_args, command_program};
ghost use Rattle.lt_io.specs.Command.{before, texts_of, words_of};

use crate::memory::Memory;
use crate::spawner::StartRefusal;
use std::alloc::Global;
use std::process::{Command, Stdio};

// Adds a word to others, unless it is empty.
fn add<'a>(words: &mut Vec<&'a str>, word: &'a str) -> Result<(), Memory>
    ensures { OnOk result (texts_of words.new.items ≡
        texts_of words.old.items ++ before word.now []) }
{
    if !word.is_empty() {
        words.push(word)?;
    }
    Ok(())
}

// The words of a text, in order.
fn words(alloc: Global, text: &str) -> Result<Vec<&str>, Memory>
    ensures { IfOk result (λ words. texts_of words.items ≡ words_of text.now) }
{
    let mut words = Vec::new(alloc);
    let mut rest = text;
    while let Some((word, behind)) = rest.split_once([' ', '\t', '\n', '\r']) {
        add(&mut words, word)?;
        rest = behind;
    }
    add(&mut words, rest)?;
    Ok(words)
}

// The program and its arguments, which are the words of a text, with a pipe to each end of it. A text without words is
// refused.
pub(crate) fn command_of(alloc: Global, text: &str) -> Result<Command, StartRefusal>
    ensures words { IfOk result (λ c. words_of text.now ≡ command_program c ∷ command_args c) }
    ensures none { result ≡ Err StartRefusal.Failed → words_of text.now ≡ [] }
{
    let words = words(alloc, text).map_err(|_| StartRefusal::Memory)?;
    let (program, arguments) = words.split_first().ok_or(StartRefusal::Failed)?;
    let mut command = Command::new(alloc, *program).map_err(|_| StartRefusal::Memory)?;
    for argument in arguments {
        command.arg(*argument).map_err(|_| StartRefusal::Memory)?;
    }
    command.stdin(Stdio::piped());
    command.stdout(Stdio::piped());
    Ok(command)
}
