//! Linear forms: sums of variables times raw coefficients, and of a raw constant.
//!
//! [`form_add`], [`form_sub`], [`form_scale`] and [`form_divide`] do what their names say to each coefficient of a
//! [`Form`] and to its constant, and round each once. [`form_compare`] is the difference that a comparison compares
//! with 0, and exact. [`parse_form`] reads a form that was written down, as `2*v0 + -1*v3 + 7`.
//!
//! The rules and their examples are in `docs/LANGUAGE.md`, under *Numbers*; `specs/Form.antt` says what is done to
//! forms, `specs/FormValue.antt` what they are where variables have raw numbers, and `specs/FormText.antt` which
//! texts spell them.
#![tactic(auto)]

mod draft;
mod form;
mod laws;
mod linear;
mod merging;
mod parsing;
mod refusal;
mod spelling;

pub use draft::{Draft, FormRef};
pub use form::{Form, Terms};
pub use laws::{comparisons_are_exact, texts_spell_one};
pub use linear::{form_add, form_compare, form_divide, form_scale, form_sub};
pub use parsing::parse_form;
pub use refusal::NumRefusal;
