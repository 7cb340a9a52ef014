//! Variables.

ghost use Rattle.std.specs.Option.{ForSome};
ghost use Rattle.lt_formula.specs.Domain.{IsDomain};
ghost use Rattle.lt_term.specs.Fitting.{IsValueOf};

use lt_num::{Kind, Range, Value};

/// A variable.
#[derive(Drop)]
pub struct Var {
    /// Its name.
    pub name: String,

    /// The kind of its values.
    pub kind: Kind,

    /// The raw numbers of its values, a step apart and at most 10^12 in size: an int itself, a real number in
    /// units of its last decimal, and 0 and 1 for false and true.
    pub range: Range,

    /// The value that it has before the first instant, if any: one of its values.
    pub first: Option<Value>,

    pub ghost sound: { IsDomain kind range },
    pub ghost begins: { ForSome first (IsValueOf kind range) },
}
