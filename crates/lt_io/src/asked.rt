//! Names that are recorded.

ghost use Rattle.std.specs.Prelude.{◌≡◌, [], ◌∷◌, ◌++◌, ◌+◌, ◌≤◌, IfOk, OnOk, OnErr, string_bytes, vec_len, vec_capacity};
ghost use Rattle.lt_io.specs.Files.{names_of};

use crate::memory::Memory;
use std::alloc::Global;

// Records a name. Where memory runs out, the names stay as they were.
pub(crate) fn record(alloc: Global, name: &str, asked: &mut Vec<String>) -> Result<(), Memory>
    ensures asks { OnOk result (names_of asked.new.items ≡ names_of asked.old.items ++ name.now ∷
        []) }
    ensures none_asked { OnErr result (names_of asked.new.items ≡ names_of asked.old.items) }
{
    let name = make_room(alloc, name, asked)?;
    asked.push(name)?;
    Ok(())
}

// Makes the text of a name, and room for it among the names, which stay as they were.
pub(crate) fn make_room(
    alloc: Global,
    name: &str,
    asked: &mut Vec<String>,
) -> Result<String, Memory>
    ensures text { IfOk result (λ text. string_bytes text ≡ name.now) }
    ensures room { OnOk result (vec_len asked.new + 1 ≤ vec_capacity asked.new) }
    ensures kept { asked.new.items ≡ asked.old.items }
{
    let text = String::from_str(alloc, name)?;
    asked.reserve(1)?;
    Ok(text)
}
