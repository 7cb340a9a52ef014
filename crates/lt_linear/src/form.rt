//! Linear forms.

ghost use Rattle.std.specs.Prelude.{◌≡◌, IfOk};
ghost use Rattle.lt_linear.specs.Form.{constant_form, variable_form};

use crate::merging::put;
use std::alloc::{AllocError, Global};
use std::marker::Model;

/// Terms of a form: the numbers of variables, each with its raw coefficient. They are in rising order of
/// variable, and no coefficient is 0.
#[derive(Drop)]
pub struct Terms {
    items: Vec<(u32, i64)>,
}

impl Model for Terms {
    ghost use Rattle.std.specs.Prelude.{List, ℕ, ℤ};

    ghost Value = { List (ℕ × ℤ) };

    ghost view = { λ t. t.items.items };
}

impl Terms {
    /// The terms as a slice.
    pub fn as_slice(&self) -> &[(u32, i64)]
        ensures { result.now ≡ self.now }
    {
        &self.items
    }

    // These terms.
    pub(crate) fn from_vec(items: Vec<(u32, i64)>) -> Terms
        ensures { result ≡ items.items }
    {
        Terms { items }
    }
}

/// A linear form: the sum of its terms, each the coefficient times the variable's value, and of its constant.
#[derive(Drop)]
pub struct Form {
    /// The terms.
    pub terms: Terms,

    /// The raw constant.
    pub constant: i64,
}

impl Form {
    /// A form without variables.
    pub fn of_constant(alloc: Global, constant: i64) -> Form
        ensures { result ≡ constant_form constant }
    {
        Form {
            terms: Terms::from_vec(Vec::new(alloc)),
            constant,
        }
    }

    /// A variable times a coefficient.
    ///
    /// # Errors
    ///
    /// Want of memory.
    pub fn of_variable(alloc: Global, variable: u32, coefficient: i64) -> Result<Form, AllocError>
        ensures { IfOk result (λ form. form ≡ variable_form variable coefficient) }
    {
        let mut terms = Vec::with_capacity(alloc, 1)?;
        put(&mut terms, variable, coefficient);
        Ok(Form {
            terms: Terms::from_vec(terms),
            constant: 0,
        })
    }
}
