//! Bodies with marks.

ghost use Rattle.std.specs.Prelude.{◌≡◌};
ghost use Rattle.lt_marks.specs.Marks.{are_new, is_new, is_outside, last_of, marked};

use crate::extent::Extent;
use lt_term::Last;

/// How far a run has come in a term.
#[derive(Clone, Copy)]
pub enum Mark {
    /// It hasn't begun. Marks below this one say nothing.
    Fresh,

    /// It is over.
    Over,

    /// In its part, or in the first of two; for two sides at once, the second is over.
    Inside,

    /// In the second of two, or in the handler; for two sides at once, the first is over.
    Second,

    /// In both sides.
    Both,

    /// In one of its alternatives, by its place.
    Chosen(u32),

    /// In its part, behind which so many turns are done.
    Counted(u64),

    /// In its part, whose local had this in the instant before.
    Scoped(Last),
}

impl Mark {
    /// Whether a part of a term with this mark begins anew.
    pub fn is_new(self) -> bool
        ensures { result ≡ is_new self }
    {
        match self {
            Mark::Inside => false,
            _ => true,
        }
    }

    /// Whether the scope of a local with this mark is not entered yet.
    pub fn is_outside(self) -> bool
        ensures { result ≡ is_outside self }
    {
        match self {
            Mark::Scoped(_) => false,
            _ => true,
        }
    }

    /// What the local of a scope with this mark had in the instant before.
    pub fn last(self) -> Last
        ensures { result ≡ last_of self }
    {
        match self {
            Mark::Scoped(last) => last,
            _ => Last::First,
        }
    }

    /// Whether the two sides of a term with this mark begin anew.
    pub fn are_new(self) -> bool
        ensures { result ≡ are_new self }
    {
        match self {
            Mark::Both => false,
            _ => true,
        }
    }
}

/// Where a run stands in a term, and where it would go on.
#[derive(Clone, Copy)]
pub struct Marks {
    /// Where it stands.
    pub at: Mark,

    /// Where it goes on behind the leaf that was reached last.
    pub next: Mark,

    /// How large what it offers at its beginning is.
    pub whole: Extent,

    /// How large what it offers where the run stands is.
    pub rest: Extent,
}

impl Marks {
    /// Where a run stands, or the beginning.
    pub fn standing(&self, is_fresh: bool) -> Mark
        ensures { result ≡ marked is_fresh self.now.at }
    {
        if is_fresh { Mark::Fresh } else { self.at }
    }
}

/// A term of which each node has its marks. Its constraints and weights are expressions of a table,
/// by number.
#[cycle(tracks)]
#[derive(Drop)]
pub enum Track {
    /// Nothing.
    Eps,

    /// A deadlock.
    Dead,

    /// One instant in which an expression holds.
    Con(Marks, u32),

    /// An exception, by number.
    Raise(u32),

    /// The first, and then the second.
    Seq(Marks, Box<Track>, Box<Track>),

    /// The same over and over, for as long as it takes instants.
    Loop(Marks, Box<Track>),

    /// A counted loop. The bounds are those of its counter.
    Count(Marks, u32, Box<Track>),

    /// One of some terms, drawn by weight.
    Any(Marks, Box<Parts>),

    /// The first, or the second where nothing can be done in the first.
    Pri(Marks, Box<Track>, Box<Track>),

    /// Both at once.
    Par(Marks, Box<Track>, Box<Track>),

    /// An expression that holds in each instant of a term.
    Assert(Marks, u32, Box<Track>),

    /// A term with a local variable.
    Exist(Marks, u32, Box<Track>),

    /// A term, and what is done in place of its rest once it raises an exception.
    Catch(Marks, u32, Box<Track>, Box<Track>),

    /// A term, and what is done in place of its rest once nothing can be done in it.
    Try(Marks, Box<Track>, Box<Track>),
}

/// Terms to choose from, each with its weight.
#[cycle(tracks)]
pub enum Parts {
    /// None.
    End,

    /// One, and then the others.
    Part(u32, Box<Track>, Box<Parts>),
}

// Alternatives hang one behind the other, which a loop takes apart: how many there are takes no stack.
impl Drop for Parts {
    #[cycle(tracks)]
    fn drop(mut self) {
        loop {
            match self {
                Parts::Part(_, _, rest) => self = Box::into_inner(rest),
                Parts::End => return,
            }
        }
    }
}
