//! What a node stands for: a tree without macros, in which locals and counters have numbers, and each part of an
//! expression its place in the text.

use lt_ast::Span;
use lt_formula::{BinaryOperator, Role, UnaryOperator};
use lt_num::{Kind, Range, Value};

/// An expression and its place.
#[cycle(placed)]
#[derive(Drop)]
pub enum Placed {
    /// A value of a kind.
    Constant(Kind, Value, Span),

    /// The variable of a role, by its place among those of its role.
    Variable(Role, u32, Span),

    /// What it was in the instant before.
    Previous(Role, u32, Span),

    /// An operator on one part.
    Unary(UnaryOperator, Box<Placed>, Span),

    /// An operator on two parts.
    Binary(BinaryOperator, Box<Placed>, Box<Placed>, Span),

    /// The second part where the first is true, and else the third.
    Choice(Box<Placed>, Box<Placed>, Box<Placed>, Span),
}

impl Placed {
    ghost use Rattle.std.specs.Prelude.{◌≡◌};
    ghost use Rattle.lt_macros.specs.Placed.{place_of};
    ghost use Rattle.lt_macros.specs.Tree.{placed};

    // Its place.
    pub fn place(&self) -> Span
        ensures { result ≡ place_of (placed self.now) }
    {
        match self {
            Placed::Constant(_, _, at)
            | Placed::Variable(_, _, at)
            | Placed::Previous(_, _, at)
            | Placed::Unary(_, _, at)
            | Placed::Binary(_, _, _, at)
            | Placed::Choice(_, _, _, at) => *at,
        }
    }
}

/// A variable as it is declared.
#[derive(Drop)]
pub struct Declared {
    /// Its name in the text.
    pub name: String,

    /// The kind of its values.
    pub kind: Kind,

    /// Their raw numbers.
    pub range: Range,

    /// Its first value, where it has one.
    pub first: Option<Placed>,
}

/// An exception as it is declared.
#[derive(Drop)]
pub struct Exception {
    /// Its name in the text.
    pub name: String,

    /// The byte of the text at which it is declared.
    pub place: usize,

    /// How many terms of the expansion stand before that.
    pub terms_before: u32,
}

/// How often a counted loop turns.
#[derive(Drop)]
pub enum Bounds {
    /// Between two numbers.
    Between(Placed, Placed),

    /// Around an average, with a deviation.
    Around(Placed, Placed),
}

/// A trace. What only some traces have stands behind a box, so that all are small.
#[cycle(expanded)]
#[derive(Drop)]
pub enum Expanded {
    /// Nothing.
    Eps,

    /// A deadlock.
    Dead,

    /// One instant in which the constraint holds.
    Con(Placed),

    /// An exception is raised.
    Raise(Exception),

    /// The first, and then the second.
    Seq(Box<Expanded>, Box<Expanded>),

    /// The same over and over.
    Loop(Box<Expanded>),

    /// The same for each turn of a counter, which has this number.
    Count(u32, Box<Bounds>, Box<Expanded>),

    /// One of these, by weight.
    Any(Parts),

    /// The first, or the second where nothing can be done in the first.
    Pri(Box<Expanded>, Box<Expanded>),

    /// Both at once.
    Par(Box<Expanded>, Box<Expanded>),

    /// A constraint that holds in each instant.
    Assert(Placed, Box<Expanded>),

    /// A local variable, which has this number.
    Exist(u32, Box<Declared>, Box<Expanded>),

    /// The second in place of the first's rest once the first raises the exception.
    Catch(Exception, Box<Expanded>, Box<Expanded>),

    /// The second in place of the first's rest once nothing can be done in the first.
    Try(Box<Expanded>, Box<Expanded>),
}

/// Traces to choose from, in order.
#[cycle(expanded)]
#[derive(Drop)]
pub struct Parts {
    /// The alternatives.
    pub items: Vec<Part>,
}

/// A trace to choose, behind its weight.
#[cycle(expanded)]
#[derive(Drop)]
pub struct Part {
    /// The weight.
    pub weight: Placed,

    /// The trace.
    pub body: Box<Expanded>,
}

/// A run of a node.
#[derive(Drop)]
pub struct Call {
    /// Which node is run.
    pub node: String,

    /// What it is given, an expression for each of its inputs.
    pub arguments: Vec<Placed>,

    /// The inputs that its outputs become.
    pub names: Vec<Declared>,
}

/// A node.
#[derive(Drop)]
pub struct Node {
    /// Its name.
    pub name: String,

    /// Its own inputs. Behind them come those that its runs give.
    pub inputs: Vec<Declared>,

    /// Its outputs.
    pub outputs: Vec<Declared>,

    /// The nodes that it runs, in order.
    pub calls: Vec<Call>,

    /// What it does.
    pub body: Expanded,
}
