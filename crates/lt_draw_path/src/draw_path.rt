//! The room of draws.

ghost use Rattle.std.specs.Prelude.{◌≤◌, vec_capacity};

use crate::tries::{find_tries, push_tries};
use lt_draw::StepWords;
use std::alloc::{AllocError, Global};

// How many nodes a tree has at most.
const MOST_NODES: usize = 65_536;

// How many parts a choice has at most.
const MOST_PARTS: usize = 64;

/// A part of a choice that is still to be tried.
#[derive(Clone, Copy)]
pub struct Entry {
    /// Its position.
    pub position: usize,

    /// How many choices lead to the choice.
    pub depth: usize,

    /// Which part it is.
    pub choice: u32,
}

/// Where a draw is, and what it has still to try. All its room is reserved when it is made.
#[derive(Drop)]
pub struct DrawPath {
    /// The path to the node at hand.
    pub path: Vec<u32>,

    /// How many of its choices the walk that goes there has taken.
    pub taken: usize,

    /// The position of that node.
    pub position: usize,

    /// The weights of a choice.
    pub weights: Vec<u64>,

    /// The order in which it tries its parts.
    pub places: Vec<u32>,

    /// The parts that are still to be tried, the next one on top.
    pub stack: Vec<Entry>,

    pub ghost path_room: { 65536 ≤ vec_capacity path },
    pub ghost weights_room: { 64 ≤ vec_capacity weights },
    pub ghost places_room: { 64 ≤ vec_capacity places },
    pub ghost stack_room: { 65536 ≤ vec_capacity stack },
}

impl DrawPath {
    ghost use Rattle.std.specs.Prelude.{◌≡◌, ◌<◌, ◌≤◌, ◌+◌, ◌++◌, ◌∷◌, [], All, List, length, reverse};
    ghost use Rattle.lt_draw.specs.Word.{word_at};
    ghost use Rattle.lt_draw_path.specs.Going.{Gives, Picks, Turns, come, rest};
    ghost use Rattle.lt_draw_path.specs.Walking.{entry_of};

    /// Room for draws in trees of at most 65,536 nodes, whose choices have at most 64 parts.
    pub fn make(alloc: Global) -> Result<DrawPath, AllocError> {
        Ok(DrawPath {
            path: Vec::with_capacity(alloc, MOST_NODES)?,
            taken: 0,
            position: 0,
            weights: Vec::with_capacity(alloc, MOST_PARTS)?,
            places: Vec::with_capacity(alloc, MOST_PARTS)?,
            stack: Vec::with_capacity(alloc, MOST_NODES)?,
        })
    }

    /// Begins at the root, with nothing else to try.
    pub fn begin(&mut self)
        ensures path { self.new.path.items ≡ [] }
        ensures position { self.new.position ≡ 0 }
        ensures taken { self.new.taken ≡ 0 }
        ensures stack { self.new.stack.items ≡ [] }
    {
        self.path.clear();
        self.stack.clear();
        self.position = 0;
        self.taken = 0;
    }

    /// The next choice of the path, if there is one left.
    pub fn given(&mut self) -> Option<u32>
        ensures gives { Gives (come self.old) (rest self.old) result (come self.new) (rest self.new) }
        ensures path { self.new.path ≡ self.old.path }
        ensures position { self.new.position ≡ self.old.position }
        ensures stack { self.new.stack ≡ self.old.stack }
    {
        if self.taken >= self.path.len() {
            return None;
        }
        let choice = self.path[self.taken];
        self.taken += 1;
        Some(choice)
    }

    /// Goes on to the first side of the order at hand, which has so many nodes. The second is still to be tried.
    pub fn go_to_side(&mut self, nodes: usize)
        requires depth { length self.old.path.items < 65536 }
        requires room { length self.old.stack.items + 1 ≤ 65536 }
        requires position { self.old.position < 65536 }
        requires nodes { nodes ≤ 65536 }
        ensures path { self.new.path.items ≡ self.old.path.items ++ 0 ∷ [] }
        ensures position { self.new.position ≡ self.old.position + 1 }
        ensures taken { self.new.taken ≡ length self.new.path.items }
        ensures stack { reverse self.new.stack.items ≡
            entry_of (self.old.position + 1 + nodes) (length self.old.path.items) 1 ∷ reverse self.old.stack.items }
    {
        self.stack.push_reserved(Entry {
            position: self.position + 1 + nodes,
            depth: self.path.len(),
            choice: 1,
        });
        self.path.push_reserved(0);
        self.taken = self.path.len();
        self.position += 1;
    }

    /// Goes on to the part of the choice at hand that is tried first, if there is one. The others are still to be tried. Before
    /// each part stand so many nodes.
    pub fn go_to_part(&mut self, words: &StepWords, before: &[u32]) -> Option<u32>
        requires depth { length self.old.path.items < 65536 }
        requires room { length self.old.stack.items + length self.old.weights.items ≤ 65536 }
        requires position { self.old.position < 65536 }
        requires few { length self.old.weights.items ≤ 64 }
        requires parts { length before.now ≡ length self.old.weights.items }
        requires nodes { All (λ n. n ≤ 65536) before.now }
        ensures { Picks (word_at words.now.seed words.now.step) before.now self.old result self.new }
    {
        find_tries(words, self.position, &mut self.weights, &mut self.places);
        let first = self.places.first().copied()?;
        let depth = self.path.len();
        push_tries(
            &mut self.stack,
            self.position + 1,
            depth,
            before,
            &mut self.places,
        );
        self.go_to_next();
        Some(first)
    }

    /// Turns back to the part that is to be tried next, if there is one. A walk sets out anew from the root.
    pub fn turn_back(&mut self) -> bool
        requires { (e : Entry) (es : List Entry) → reverse self.old.stack.items ≡ e ∷ es → e.depth < 65536 }
        ensures turns { Turns self.old.path.items (reverse self.old.stack.items) result self.new }
        ensures taken { self.new.taken ≡ 0 }
    {
        let turns = self.go_to_next();
        self.taken = 0;
        turns
    }

    // Goes to the part that is to be tried next.
    fn go_to_next(&mut self) -> bool
        requires { (e : Entry) (es : List Entry) → reverse self.old.stack.items ≡ e ∷ es → e.depth < 65536 }
        ensures turns { Turns self.old.path.items (reverse self.old.stack.items) result self.new }
        ensures taken { self.new.taken ≡ length self.new.path.items }
    {
        self.taken = self.path.len();
        let Some(entry) = self.stack.pop() else {
            return false;
        };
        self.path.truncate(entry.depth);
        self.path.push_reserved(entry.choice);
        self.taken = self.path.len();
        self.position = entry.position;
        true
    }
}
