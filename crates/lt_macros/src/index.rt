//! Keys that are put one after another, and where the newest of each is.

ghost use Rattle.std.specs.Prelude.{◌≡◌, ◌<◌, ◌≤◌, ◌-◌, ◌++◌, ◌∷◌, [], OnErr, OnOk, length, take};
ghost use Rattle.lt_macros.specs.inner.Hidden.{IsIndexed, newest_below, run_of};

use crate::key::Key;
use indexmap::IndexMap;
use std::alloc::{AllocError, Global};

/// A key, and what it hides.
#[derive(Clone, Copy)]
struct Item<'a> {
    key: Key<'a>,

    // The newest older item with this key, from 1, or 0.
    hidden: usize,
}

/// Keys by number, from 1. The newest item of a key is found without going through the others.
#[derive(Drop)]
pub(crate) struct Index<'a> {
    items: Vec<Item<'a>>,

    // The newest item of each key.
    numbers: IndexMap<Key<'a>, usize>,
    ghost indexed: { IsIndexed items.items numbers },
}

impl<'a> Index<'a> {
    ghost use Rattle.lt_macros.specs.inner.Keyed.{keys};

    // No keys.
    pub(crate) fn new(alloc: Global) -> Index<'a>
        ensures { keys result ≡ [] }
    {
        Index {
            items: Vec::new(alloc),
            numbers: IndexMap::new(alloc),
        }
    }

    // The run of the key at a place.
    pub(crate) fn run(&self, place: usize) -> usize
        requires { place < length (keys self.now) }
        ensures { result ≡ run_of (keys self.now) place }
    {
        self.items[place].key.run
    }

    // The newest item of a key among so many, or 0.
    pub(crate) fn newest(&self, key: Key<'_>, count: usize) -> usize
        requires { count ≤ length (keys self.now) }
        ensures { result ≡ newest_below (keys self.now) key.entry count }
    {
        let mut number = self.numbers.get(&key).copied().unwrap_or(0);
        while number > count {
            number = self.items[number - 1].hidden;
        }
        number
    }

    // One more key.
    pub(crate) fn push(&mut self, key: Key<'a>) -> Result<(), AllocError>
        ensures more { OnOk result (keys self.new ≡ keys self.old ++ key.entry ∷ []) }
        ensures kept { OnErr result (keys self.new ≡ keys self.old) }
    {
        let hidden = self.numbers.get(&key).copied().unwrap_or(0);
        self.items.push(Item { key, hidden })?;
        let number = self.items.len();
        match self.numbers.insert(key, number) {
            Ok(_) => Ok(()),
            Err(_) => {
                self.items.pop();
                Err(AllocError)
            }
        }
    }

    // Takes the newest key back.
    fn pop(&mut self)
        requires { 0 < length (keys self.old) }
        ensures { keys self.new ≡ take (length (keys self.old) - 1) (keys self.old) }
    {
        if let Some(item) = self.items.pop() {
            if item.hidden > 0 {
                // A key that is there needs no memory.
                drop(self.numbers.insert(item.key, item.hidden));
            } else {
                self.numbers.swap_remove(&item.key);
            }
        }
    }

    // Takes the newest keys back, so that so many are left.
    #[inline(never)]
    pub(crate) fn truncate(&mut self, len: usize)
        requires { len ≤ length (keys self.old) }
        ensures { keys self.new ≡ take len (keys self.old) }
    {
        while self.items.len() > len {
            self.pop();
        }
    }
}
