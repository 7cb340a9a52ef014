//! Names and literals.

ghost use Rattle.lt_ast.specs.Letters.{letters};
ghost use Rattle.lt_num.specs.Literal.{IsNumber};

use crate::group::TypeName;
use crate::letters::Letters;
use crate::span::Span;
use std::alloc::{AllocError, Global};

/// A name where it is written.
#[derive(Drop)]
pub struct Name {
    /// Its letters, digits and `_`.
    pub text: Letters,

    /// Its place.
    pub span: Span,
}

/// Names, in order.
#[derive(Drop)]
pub struct Names {
    /// The names.
    pub items: Vec<Name>,
}

/// A number where it is written.
#[derive(Drop)]
pub struct Literal {
    /// Whether a minus stands before it. Only the ends of a range and its step have one.
    pub minus: bool,

    /// Its digits, and its point if it has one.
    pub text: Letters,

    /// Its place, with the minus.
    pub span: Span,
    pub ghost number: { IsNumber (letters text) },
}

impl Literal {
    ghost use Rattle.std.specs.Prelude.{◌≡◌, IfOk, string_bytes};
    ghost use Rattle.lt_ast.specs.Letters.{letters};
    ghost use Rattle.lt_ast.specs.Literals.{figure_text, figure_type};
    ghost use Rattle.lt_ast.specs.View.{figure};
    ghost use Rattle.lt_num.specs.Literal.{IsLiteral, IsNumber};

    /// A number of this text, after a minus or not.
    pub fn new(minus: bool, text: Letters, span: Span) -> Literal
        requires { IsNumber (letters text) }
        ensures { figure result ≡ record { minus = minus; text = letters text; span = span } }
    {
        Literal { minus, text, span }
    }

    /// Its type: a number with a point is a real, and one without is an int.
    pub fn type_name(&self) -> TypeName
        ensures { result ≡ figure_type (figure self.now) }
    {
        if self.text.as_str().as_bytes().contains(&b'.') {
            return TypeName::Real;
        }
        TypeName::Int
    }

    /// Its text, with its minus if it has one, as a number is read.
    ///
    /// # Errors
    ///
    /// [`AllocError`] where memory ran out.
    #[tactic(auto, using(crate::proofs::Numbers::literal_parts))]
    pub fn signed_text(&self, alloc: Global) -> Result<String, AllocError>
        ensures bytes { IfOk result (λ text. string_bytes text ≡ figure_text (figure self.now)) }
        ensures literal { IfOk result (λ text. IsLiteral (string_bytes text)) }
    {
        let mut text = String::new(alloc);
        if self.minus {
            text.push_str("-")?;
        }
        text.push_str(self.text.as_str())?;
        Ok(text)
    }
}
