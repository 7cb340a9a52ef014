//! The letters of names and numbers.

ghost use Rattle.std.specs.Prelude.{◌≤◌, IsUtf8, length, take};

use std::alloc::{AllocError, Global};
use std::str;

/// The most bytes of letters that stand in the value itself.
const ROOM: usize = 14;

/// A short text: up to fourteen bytes of letters stand in the value itself, and more in an allocation.
#[derive(Drop)]
pub struct Letters {
    place: Place,
}

// Where letters stand.
#[derive(Drop)]
enum Place {
    // In the value itself.
    Inside(Few),

    // In an allocation, behind one pointer.
    Apart(Box<String>),
}

// Few enough letters: the first bytes of an array. Its other bytes say nothing.
#[derive(Drop)]
struct Few {
    count: u8,
    bytes: [u8; ROOM],
    ghost fits: { count ≤ length bytes },
    ghost utf8: { ∥ IsUtf8 (take count bytes) ∥₁ },
}

impl Few {
    ghost use Rattle.std.specs.Prelude.{◌≡◌, ◌≤◌, length};
    ghost use Rattle.lt_ast.specs.Letters.{few};

    fn new(text: &str) -> Few
        requires { length text.now ≤ 14 }
        ensures { few result ≡ text.now }
    {
        let mut bytes = [0; ROOM];
        bytes[..text.len()].copy_from_slice(text.as_bytes());
        Few {
            count: text.len() as u8,
            bytes,
        }
    }

    fn as_str(&self) -> &str
        ensures { result.now ≡ few self.now }
    {
        str::from_utf8(&self.bytes[..self.count as usize]).unwrap()
    }
}

impl Letters {
    ghost use Rattle.std.specs.Prelude.{◌≡◌, IfOk};
    ghost use Rattle.lt_ast.specs.Letters.{letters};

    /// The letters of this text.
    ///
    /// # Errors
    ///
    /// [`AllocError`] where memory ran out.
    #[tactic(auto, unfolding(crate::specs::Letters::letters))]
    pub fn new(alloc: Global, text: &str) -> Result<Letters, AllocError>
        ensures { IfOk result (λ l. letters l ≡ text.now) }
    {
        let place = if text.len() <= ROOM {
            Place::Inside(Few::new(text))
        } else {
            Place::Apart(Box::new(alloc, String::from_str(alloc, text)?)?)
        };
        Ok(Letters { place })
    }

    /// These letters as a text.
    #[tactic(auto, unfolding(crate::specs::Letters::letters))]
    pub fn as_str(&self) -> &str
        ensures { result.now ≡ letters self.now }
    {
        match &self.place {
            Place::Inside(letters) => letters.as_str(),
            Place::Apart(letters) => letters.as_str(),
        }
    }
}
