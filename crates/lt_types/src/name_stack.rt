//! Names as they were declared, one after another.

ghost use Rattle.std.specs.Prelude.{◌≡◌, ◌≤◌, ◌<◌, [], ◌∷◌, drop, length, OnErr, OnOk};
ghost use Rattle.lt_ast.specs.View.{words};
ghost use Rattle.lt_types.specs.inner.Checks.{Checks};
ghost use Rattle.lt_types.specs.Environment.{is_among, with_names};
ghost use Rattle.lt_types.specs.Refusals.{new_names};
ghost use Rattle.lt_types.specs.inner.Scoping.{newest as newest_of, oldest, since};

use crate::refusal::TypeRefusal;
use indexmap::IndexMap;
use lt_ast::Names;
use std::alloc::Global;
use std::marker::Model;

// A name, and the place of the newest older one that is the same.
#[derive(Drop)]
struct Item {
    name: String,
    hidden: Option<usize>,
}

// Names, the newest last. A name may stand in it more than once.
pub(crate) struct NameStack {
    items: Vec<Item>,

    // The place of the newest of each name.
    places: IndexMap<String, usize>,
}

// A scope has three stacks, and drops each by this one function.
impl Drop for NameStack {
    fn drop(self) {
        let Self {
            items: _,
            places: _,
        } = self;
    }
}

impl Model for NameStack {
    ghost use Rattle.std.specs.Prelude.{ℕ, List, reverse};

    ghost Value = { List (List ℕ) };

    ghost use Rattle.lt_types.specs.inner.Stacks.{names_of, IsIndexed};

    ghost view = { λ s. names_of (reverse s.items.items) };

    ghost invariant = { λ s. IsIndexed s.items.items s.places };
}

impl NameStack {
    // No names.
    pub(crate) fn new(alloc: Global) -> NameStack
        ensures { result ≡ [] }
    {
        NameStack {
            items: Vec::new(alloc),
            places: IndexMap::new(alloc),
        }
    }

    // How many there are.
    #[tactic(auto, using(crate::proofs::Indexed::indexed_length))]
    pub(crate) fn len(&self) -> usize
        ensures { result ≡ length self.now }
    {
        self.items.len()
    }

    // The place of the newest one that is this name, from 0.
    pub(crate) fn newest(&self, name: &str) -> Option<usize>
        ensures { result ≡ newest_of self.now name.now }
    {
        self.places.get(name).copied()
    }

    // Whether it is one of those that were added since there were so many.
    #[tactic(auto, using(crate::proofs::Stacks::newest_since))]
    pub(crate) fn is_since(&self, from: usize, name: &str) -> bool
        requires { from ≤ length self.now }
        ensures { result ≡ is_among name.now (since from self.now) }
    {
        match self.newest(name) {
            Some(place) => from <= place,
            None => false,
        }
    }

    // Adds a name.
    pub(crate) fn push(&mut self, name: &str) -> Result<(), TypeRefusal>
        ensures ok { OnOk result (self.new ≡ name.now ∷ self.old) }
        ensures kept { OnErr result (self.new ≡ self.old) }
        ensures memory { Checks result [] }
    {
        let alloc = *self.items.allocator();
        let item = Item {
            name: String::from_str(alloc, name)?,
            hidden: self.places.get(name).copied(),
        };
        let key = String::from_str(alloc, name)?;
        let place = self.items.len();
        self.items.push(item)?;
        match self.places.insert(key, place) {
            Ok(_) => Ok(()),
            Err(_) => {
                self.items.pop();
                Err(TypeRefusal::Memory)
            }
        }
    }

    // Takes the newest one back.
    fn pop(&mut self)
        requires { 0 < length self.old }
        ensures { self.new ≡ drop 1 self.old }
    {
        if let Some(item) = self.items.pop() {
            match item.hidden {
                // A name that is there needs no memory.
                Some(place) => drop(self.places.insert(item.name, place)),
                None => drop(self.places.swap_remove(item.name.as_str())),
            }
        }
    }

    // Takes the newest ones back, so that so many are left.
    #[tactic(auto, using(crate::proofs::Stacks::stack_steps))]
    pub(crate) fn truncate(&mut self, len: usize)
        requires { len ≤ length self.old }
        ensures { self.new ≡ oldest len self.old }
    {
        while self.len() > len {
            self.pop();
        }
    }

    // Adds names.
    pub(crate) fn push_all(&mut self, names: &Names) -> Result<(), TypeRefusal>
        ensures ok { OnOk result (self.new ≡ with_names (words names.now) self.old) }
        ensures memory { Checks result [] }
    {
        for name in &names.items {
            self.push(name.text.as_str())?;
        }
        Ok(())
    }

    // That none of these names was added since there were so many, and that none of them stands twice.
    #[tactic(auto, using(crate::proofs::Stacks::stack_steps))]
    pub(crate) fn check_new(&mut self, from: usize, names: &Names) -> Result<(), TypeRefusal>
        requires { from ≤ length self.old }
        ensures answered { Checks result (new_names (since from self.old) (words names.now)) }
        ensures kept { self.new ≡ self.old }
    {
        let before = self.len();
        let checked = self.push_new(from, names);
        self.truncate(before);
        checked
    }

    // Adds names while they are new.
    fn push_new(&mut self, from: usize, names: &Names) -> Result<(), TypeRefusal>
        requires { from ≤ length self.old }
        ensures answered { Checks result (new_names (since from self.old) (words names.now)) }
        ensures more { length self.old ≤ length self.new }
        ensures kept { oldest (length self.old) self.new ≡ self.old }
    {
        for name in &names.items {
            if self.is_since(from, name.text.as_str()) {
                return Err(TypeRefusal::Twice(name.span));
            }
            self.push(name.text.as_str())?;
        }
        Ok(())
    }
}
