//! Where files come from.

ghost use Rattle.std.specs.Prelude.{◌≡◌, ◌≢◌, ℕ, ◌≤◌, ◌<◌, List, [], ◌∷◌, ◌++◌, length, IfOk};
ghost use Rattle.lt_io.specs.Causes.{Rose, WhereTold};
ghost use Rattle.lt_io.specs.Files.{Files, names_of};

use crate::asked::record;
use std::alloc::Global;
use thiserror::Error;

/// Why a file was not read.
#[derive(Clone, Copy, Debug, PartialEq, Eq, Error)]
pub enum FileRefusal {
    /// The outside failed, as where no file has the name.
    #[error("the file could not be read")]
    Failed,
    /// The file has more bytes than were asked for.
    #[error("the file is too long")]
    TooLong,
    /// No memory is left.
    #[error("out of memory")]
    Memory,
}

/// Files by name.
pub trait Files {
    // what they tell of themselves
    ghost state: { Self → Files };

    /// Reads the whole file `name`, of `most` bytes at most. A longer one is `TooLong`.
    ///
    /// The name is recorded among those that were asked for, but not where the answer is `Memory`.
    /// `Failed` comes only where the count of faults rose, and any other answer leaves it as it was.
    fn read(&mut self, alloc: Global, name: &str, most: usize) -> Result<Vec<u8>, FileRefusal>
        ensures told { IfOk result (λ v.
            WhereTold ((state self.old).contents name.now) (λ bytes. v.items ≡ bytes)) }
        ensures within { IfOk result (λ v. length v.items ≤ most) }
        ensures too_long { result ≡ Err FileRefusal.TooLong →
            WhereTold ((state self.old).contents name.now) (λ bytes. most < length bytes) }
        ensures kept { (other : List ℕ) →
            (state self.new).contents other ≡ (state self.old).contents other }

        // The name is recorded, but not where memory ran out.
        ensures asks { result ≢ Err FileRefusal.Memory →
            (state self.new).asked ≡ (state self.old).asked ++ name.now ∷ [] }
        ensures none_asked { result ≡ Err FileRefusal.Memory →
            (state self.new).asked ≡ (state self.old).asked }

        // The count of faults never falls, a failure raises it, and nothing else changes it.
        ensures later { (state self.old).faults ≤ (state self.new).faults }
        ensures cause { result ≡ Err FileRefusal.Failed →
            Rose (state self.old).faults (state self.new).faults }
        ensures calm { result ≢ Err FileRefusal.Failed →
            (state self.new).faults ≡ (state self.old).faults };
}

// Records the name that a call asked for, and hands on what it answers. Where memory runs out, the
// names stay as they were.
pub(crate) fn recorded(
    alloc: Global,
    name: &str,
    answer: Result<Vec<u8>, FileRefusal>,
    asked: &mut Vec<String>,
) -> Result<Vec<u8>, FileRefusal>
    ensures answer { result ≢ Err FileRefusal.Memory → result ≡ answer }

    ensures asks { result ≢ Err FileRefusal.Memory →
        names_of asked.new.items ≡ names_of asked.old.items ++ name.now ∷ [] }
    ensures none_asked { result ≡ Err FileRefusal.Memory →
        names_of asked.new.items ≡ names_of asked.old.items }
{
    if let Err(FileRefusal::Memory) = answer {
        return Err(FileRefusal::Memory);
    }
    if record(alloc, name, asked).is_err() {
        return Err(FileRefusal::Memory);
    }
    answer
}
