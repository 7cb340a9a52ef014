//! The rules of a program: which names are visible where, and which types belong together.
//!
//! [`check`] makes a [`Typed`] program of a program that keeps to the rules, and else answers the first rule that it
//! breaks, as a [`TypeRefusal`]; [`check_expr`] does so for an expression that stands alone. The rules stand in `specs/`
//! twice. `specs/Typing.antt` says when a program is well typed, a line for each construct; `specs/Refusals.antt` lists the
//! rules that a program breaks, in the order of its text. That the two say the same is a law, [`well_typed_is_unrefused`];
//! that an expression has at most one type is another, [`types_are_one`].
#![tactic(auto)]

mod conditions;
mod entry;
mod expressions;
mod groups;
mod intervals;
mod kinds;
mod laws;
mod name_stack;
mod node_types;
mod program;
mod refusal;
mod runs;
mod scope;
mod traces;
mod uses;

pub use conditions::check_expr;
pub use laws::{types_are_one, well_typed_is_unrefused};
pub use program::{Typed, check};
pub use refusal::TypeRefusal;
