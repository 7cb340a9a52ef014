//! Files in memory.

ghost use Rattle.std.specs.Prelude.{◌≡◌, ◌≢◌, ◌≤◌, ◌<◌, ◌↔◌, ℕ, List, [], ◌∷◌, ◌++◌, length, IfNone, IfOk, IfSome};
ghost use Rattle.lt_io.specs.Calls.{with_success, with_fault};
ghost use Rattle.lt_io.specs.Causes.{Rose, WhereTold};
ghost use Rattle.lt_io.specs.Files.{names_of};
ghost use Rattle.lt_io.specs.MemFiles.{first_named, content_of, files_of, FailsAt};

use crate::calls::Calls;
use crate::files::{FileRefusal, Files, recorded};
use std::alloc::Global;

/// Files that are kept in memory, and fail where they are told to.
#[derive(Drop)]
pub struct MemFiles {
    /// The files, each a name with its contents. The first of a name counts.
    pub entries: Vec<(String, Vec<u8>)>,
    /// The names that were asked for, the last one at the end.
    pub asked: Vec<String>,
    /// The calls of `read`. One that ran out of memory does not count.
    pub calls: Calls,
}

// The first file of that name.
fn found<'a>(entries: &'a [(String, Vec<u8>)], name: &str) -> Option<&'a Vec<u8>>
    ensures none { IfNone result (first_named entries.now name.now ≡ None) }
    ensures some { IfSome result (λ bytes. first_named entries.now name.now ≡
        Some bytes.now.items) }
{
    for entry in entries {
        if entry.0.as_str() == name {
            return Some(&entry.1);
        }
    }
    None
}

impl MemFiles {
    // A copy of the file, where the next call does not fail and the file is short enough.
    fn copied(&self, alloc: Global, name: &str, most: usize) -> Result<Vec<u8>, FileRefusal>
        ensures contents { IfOk result (λ v. content_of self.now name.now ≡ Some v.items) }
        ensures within { IfOk result (λ v. length v.items ≤ most) }
        ensures too_long { result ≡ Err FileRefusal.TooLong →
            IfSome (content_of self.now name.now) (λ bytes. most < length bytes) }
        ensures fails { result ≢ Err FileRefusal.Memory →
            ((result ≡ Err FileRefusal.Failed) ↔ FailsAt self.now name.now) }
    {
        if self.calls.is_next_to_fail() {
            return Err(FileRefusal::Failed);
        }
        let Some(bytes) = found(&self.entries, name) else {
            return Err(FileRefusal::Failed);
        };
        if bytes.len() > most {
            return Err(FileRefusal::TooLong);
        }
        Vec::from_slice(alloc, bytes).map_err(|_| FileRefusal::Memory)
    }
}

impl Files for MemFiles {
    ghost state = { λ f. files_of f };

    /// Reads the first file of that name.
    ///
    /// It fails exactly where the call is to fail or no file has the name, and is `TooLong` exactly
    /// where it does not fail and the file has more than `most` bytes. Any answer may yield to
    /// `Memory`, which leaves everything as it was.
    fn read(&mut self, alloc: Global, name: &str, most: usize) -> Result<Vec<u8>, FileRefusal>
        ensures told { IfOk result (λ v.
            WhereTold (content_of self.old name.now) (λ bytes. v.items ≡ bytes)) }
        ensures within { IfOk result (λ v. length v.items ≤ most) }
        ensures too_long { result ≡ Err FileRefusal.TooLong →
            WhereTold (content_of self.old name.now) (λ bytes. most < length bytes) }
        ensures kept { (other : List ℕ) → content_of self.new other ≡ content_of self.old other }
        ensures asks { result ≢ Err FileRefusal.Memory →
            names_of self.new.asked.items ≡ names_of self.old.asked.items ++ name.now ∷ [] }
        ensures none_asked { result ≡ Err FileRefusal.Memory →
            names_of self.new.asked.items ≡ names_of self.old.asked.items }
        ensures later { self.old.calls.faults ≤ self.new.calls.faults }
        ensures cause { result ≡ Err FileRefusal.Failed →
            Rose self.old.calls.faults self.new.calls.faults }
        ensures calm { result ≢ Err FileRefusal.Failed →
            self.new.calls.faults ≡ self.old.calls.faults }

        // Beyond the trait: which calls fail, that the others find the file, and what each call leaves.
        ensures fails { result ≢ Err FileRefusal.Memory →
            ((result ≡ Err FileRefusal.Failed) ↔ FailsAt self.old name.now) }
        ensures found { IfOk result (λ v. content_of self.old name.now ≡ Some v.items) }
        ensures entries { self.new.entries ≡ self.old.entries }
        ensures success { result ≢ Err FileRefusal.Memory → result ≢ Err FileRefusal.Failed →
            self.new.calls ≡ with_success self.old.calls }
        ensures fault { result ≡ Err FileRefusal.Failed →
            self.new.calls ≡ with_fault self.old.calls }
        ensures none_called { result ≡ Err FileRefusal.Memory → self.new.calls ≡ self.old.calls }
    {
        let copied = self.copied(alloc, name, most);
        let answer = recorded(alloc, name, copied, &mut self.asked);
        match answer {
            Err(FileRefusal::Memory) => {}
            Err(FileRefusal::Failed) => self.calls.count_fault(),
            Err(FileRefusal::TooLong) | Ok(_) => self.calls.count_success(),
        }
        answer
    }
}
