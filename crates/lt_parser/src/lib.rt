//! From a text to its program.
//!
//! [`parse`] answers the program that a text spells, or why it spells none: which token is the first that no program
//! has after the tokens before it, or which one opens a level of nesting too many. [`parse_expr`] does so for a text that is
//! one expression.
//!
//! The rules are in `docs/LANGUAGE.md`, under *Grammar*, and as definitions in `lt_grammar`. `specs/Text.antt` says why a
//! text is no program. `specs/inner/Reading.antt` reads one token a step, by what is still wanted: the functions of the
//! parser answer as it does, and proofs tie it to the grammar.
#![tactic(auto)]

mod atoms;
mod braces;
mod declarations;
mod expressions;
mod groups;
mod laws;
mod precedence;
mod printing;
mod refusal;
mod runs;
mod text;
mod traces;

pub use laws::{
    at_most_one_program, one_answer_belongs_to_a_text, one_answer_belongs_to_an_expression,
};
pub use printing::print;
pub use refusal::ParseRefusal;
pub use text::{parse, parse_expr};
