//! The files of the system.

ghost use Rattle.std.specs.Prelude.{◌≡◌, ◌≢◌, ◌<◌, ◌≤◌, [], length, IfOk, IfSome, Err, None};
ghost use Rattle.std.specs.IoError.{error_kind};
ghost use Rattle.lt_io.specs.Files.{names_of};

use crate::files::{FileRefusal, Files, recorded};
use std::alloc::Global;
use std::io::{ErrorKind, Read};
use std::{fs, io, rt};

/// The files of the system, each named by its path. They tell no contents.
#[derive(Drop)]
pub struct DirFiles<'a, R: rt::Files> {
    rt: &'a R,
    /// The names that were asked for, the last one at the end.
    pub asked: Vec<String>,
    /// How many calls failed, up to `u64::MAX`.
    pub faults: u64,
}

impl<'a, R: rt::Files> DirFiles<'a, R> {
    /// The files that `rt` reaches, none of them asked for so far. The names asked for are kept in
    /// memory of `alloc`.
    pub fn new(rt: &'a R, alloc: Global) -> Self
        ensures asked { result.asked.items ≡ [] }
        ensures faults { result.faults ≡ 0 }
    {
        DirFiles {
            rt,
            asked: Vec::new(alloc),
            faults: 0,
        }
    }
}

fn refusal_of(error: &io::Error) -> FileRefusal
    ensures memory { error_kind error.now ≡ ErrorKind.OutOfMemory → result ≡ FileRefusal.Memory }
    ensures failed { error_kind error.now ≢ ErrorKind.OutOfMemory → result ≡ FileRefusal.Failed }
    ensures short { result ≢ FileRefusal.TooLong }
{
    if error.kind() == ErrorKind::OutOfMemory {
        FileRefusal::Memory
    } else {
        FileRefusal::Failed
    }
}

// All that a reader has left, of which one byte more than `most` is read at most.
fn whole<F: Read + Drop>(file: F, alloc: Global, most: usize) -> Result<Vec<u8>, FileRefusal>
    ensures fits { IfOk result (λ v. length v.items ≤ most) }
    ensures all { IfSome (F.remaining file) (λ bytes. IfOk result (λ v. v.items ≡ bytes)) }
    ensures longer { IfSome (F.remaining file) (λ bytes.
        result ≡ Err FileRefusal.TooLong → most < length bytes) }
{
    let mut bytes = Vec::new(alloc);
    let mut file = file.take((most as u64).saturating_add(1));
    match file.read_to_end(&mut bytes) {
        Err(error) => Err(refusal_of(&error)),
        Ok(_) if bytes.len() > most => Err(FileRefusal::TooLong),
        Ok(_) => Ok(bytes),
    }
}

// The whole file of this name, of which one byte more than `most` is read at most.
fn load<R: rt::Files>(
    rt: &R,
    alloc: Global,
    name: &str,
    most: usize,
) -> Result<Vec<u8>, FileRefusal>
    ensures all { IfOk result (λ v. (file : R.File) × IfSome (R.File.remaining file) (λ bytes.
        v.items ≡ bytes)) }
    ensures fits { IfOk result (λ v. length v.items ≤ most) }
{
    let file = fs::open(rt, name).map_err(|error| refusal_of(&error))?;
    whole(file, alloc, most)
}

impl<'a, R: rt::Files> Files for DirFiles<'a, R> {
    ghost state = { λ f. record {
      contents = λ _.
          None;
      asked = names_of f.asked.items;
      faults = f.faults;
    } };

    /// Reads one byte more than `most` at the most, so that a longer file is refused early.
    ///
    /// A name that is not there, a folder and a file that cannot be read are faults.
    fn read(&mut self, alloc: Global, name: &str, most: usize) -> Result<Vec<u8>, FileRefusal> {
        let loaded = load(self.rt, alloc, name, most);
        let answer = recorded(alloc, name, loaded, &mut self.asked);
        if let Err(FileRefusal::Failed) = answer {
            self.faults = self.faults.saturating_add(1);
        }
        answer
    }
}
