//! Forms that are written in reserved room.

ghost use Rattle.std.specs.Prelude.{◌≡◌, ◌≢◌, ◌≤◌, ◌+◌, ℕ, ℤ, pos, Ok, IfOk, IsTrue, OnOk, length, unsigned_abs};
ghost use Rattle.lt_num.specs.Bounds.{most_decimals};
ghost use Rattle.lt_linear.specs.Draft.{DraftTells};
ghost use Rattle.lt_linear.specs.Form.{constant_form, form_by, form_compared, form_difference, form_divided, form_scaled, form_sum, is_bounded, is_raw, variable_form};
ghost use Rattle.lt_linear.specs.Order.{is_difference, is_form};
ghost use Rattle.lt_linear.specs.inner.Merging.{IsOperation, combined, is_usable};

use crate::form::{Form, Terms};
use crate::merging::{Operation, combined, merge, put};
use lt_num::{Arith, Fixed};
use std::alloc::{AllocError, Global};

/// A form that stands elsewhere.
#[derive(Clone, Copy)]
pub struct FormRef<'a> {
    /// Its terms.
    pub terms: &'a [(u32, i64)],

    /// Its raw constant.
    pub constant: i64,
}

impl<'a> FormRef<'a> {
    ghost use Rattle.lt_linear.specs.Draft.{lent_form};

    /// The form 0.
    pub fn zero() -> FormRef<'a>
        ensures { lent_form result ≡ constant_form (pos 0) }
    {
        FormRef {
            terms: &[],
            constant: 0,
        }
    }
}

impl Form {
    ghost use Rattle.lt_linear.specs.Draft.{lent_form};

    /// The form, lent.
    pub fn lend(&self) -> FormRef<'_>
        ensures { lent_form result ≡ self.now }
    {
        FormRef {
            terms: self.terms.as_slice(),
            constant: self.constant,
        }
    }
}

/// A form that is written over and over in room that was reserved once.
///
/// Each call that sets it says what it is then, or the fault of the first number that is past its bound. After a
/// fault it is some form. A form over variables below a number, in rising order and without coefficients of 0,
/// gives another such form: so room for twice as many terms as there are variables is enough.
#[derive(Drop)]
pub struct Draft {
    terms: Vec<(u32, i64)>,
    constant: i64,
}

impl Draft {
    ghost use Rattle.lt_linear.specs.Draft.{draft_form, draft_room, lent_form};

    /// The form 0, with room for so many terms.
    ///
    /// # Errors
    ///
    /// Want of memory.
    pub fn with_room(alloc: Global, terms: usize) -> Result<Draft, AllocError>
        ensures form { IfOk result (λ draft. draft_form draft ≡ constant_form (pos 0)) }
        ensures room { IfOk result (λ draft. draft_room draft ≡ terms) }
    {
        Ok(Draft {
            terms: Vec::with_capacity(alloc, terms)?,
            constant: 0,
        })
    }

    /// The form 0, with room for what comes of two forms.
    pub(crate) fn for_both(
        alloc: Global,
        a: FormRef<'_>,
        b: FormRef<'_>,
    ) -> Result<Draft, AllocError>
        ensures { IfOk result (λ draft. length a.entry.terms.now + length b.entry.terms.now ≤
            draft_room draft) }
    {
        Draft::with_room(alloc, a.terms.len() + b.terms.len())
    }

    /// The form that it is, for good.
    pub(crate) fn into_form(self) -> Form
        ensures { result ≡ draft_form self }
    {
        Form {
            terms: Terms::from_vec(self.terms),
            constant: self.constant,
        }
    }

    /// The form that it is.
    pub fn form(&self) -> FormRef<'_>
        ensures { lent_form result ≡ draft_form self.now }
    {
        FormRef {
            terms: &self.terms,
            constant: self.constant,
        }
    }

    /// Makes it a form without variables.
    pub fn set_constant(&mut self, constant: i64)
        ensures form { draft_form self.new ≡ constant_form constant }
        ensures room { draft_room self.old ≤ draft_room self.new }
    {
        self.terms.clear();
        self.constant = constant;
    }

    /// Makes it a variable times a coefficient.
    pub fn set_variable(&mut self, variable: u32, coefficient: i64)
        requires { 1 ≤ draft_room self.old }
        ensures form { draft_form self.new ≡ variable_form variable coefficient }
        ensures room { draft_room self.old ≤ draft_room self.new }
    {
        self.terms.clear();
        put(&mut self.terms, variable, coefficient);
        self.constant = 0;
    }

    /// Makes it the sum of two forms.
    ///
    /// # Errors
    ///
    /// Overflow, where a coefficient or the constant is past 10^12 in size.
    pub fn set_sum(&mut self, a: FormRef<'_>, b: FormRef<'_>) -> Result<(), Arith>
        requires { length a.terms.now + length b.terms.now ≤ draft_room self.old }
        ensures told { DraftTells result (draft_form self.new)
            (form_sum (lent_form a.entry) (lent_form b.entry)) }
        ensures order { (below : ℕ) → IsTrue (is_form below (lent_form a.entry)) →
            IsTrue (is_form below (lent_form b.entry)) →
            OnOk result (IsTrue (is_form below (draft_form self.new))) }
        ensures room { draft_room self.old ≤ draft_room self.new }
    {
        self.set_by(Operation::Sum, a, b)
    }

    /// Makes it the difference of two forms.
    ///
    /// # Errors
    ///
    /// As [`Draft::set_sum`].
    pub fn set_difference(&mut self, a: FormRef<'_>, b: FormRef<'_>) -> Result<(), Arith>
        requires { length a.terms.now + length b.terms.now ≤ draft_room self.old }
        ensures told { DraftTells result (draft_form self.new)
            (form_difference (lent_form a.entry) (lent_form b.entry)) }
        ensures order { (below : ℕ) → IsTrue (is_form below (lent_form a.entry)) →
            IsTrue (is_form below (lent_form b.entry)) →
            OnOk result (IsTrue (is_form below (draft_form self.new))) }
        ensures room { draft_room self.old ≤ draft_room self.new }
    {
        self.set_by(Operation::Difference, a, b)
    }

    /// Makes it a form times a number with so many decimals, 0 to 6, each coefficient and the constant rounded
    /// once. An int has no decimals.
    ///
    /// # Errors
    ///
    /// As [`Draft::set_sum`].
    pub fn set_multiple(&mut self, a: FormRef<'_>, by: Fixed, decimals: u32) -> Result<(), Arith>
        requires decimals { decimals ≤ most_decimals }
        requires room { length a.terms.now ≤ draft_room self.old }
        ensures told { DraftTells result (draft_form self.new)
            (form_scaled (lent_form a.entry) by.raw decimals) }
        ensures order { (below : ℕ) → IsTrue (is_form below (lent_form a.entry)) →
            OnOk result (IsTrue (is_form below (draft_form self.new))) }
        ensures room { draft_room self.old ≤ draft_room self.new }
    {
        self.set_by(Operation::Scaled(by, decimals), a, FormRef::zero())
    }

    /// Makes it a form divided by a number with so many decimals, 0 to 6, each coefficient and the constant
    /// rounded once.
    ///
    /// # Errors
    ///
    /// A division by zero, where the number is 0, and else as [`Draft::set_sum`].
    pub fn set_quotient(&mut self, a: FormRef<'_>, by: Fixed, decimals: u32) -> Result<(), Arith>
        requires decimals { decimals ≤ most_decimals }
        requires room { length a.terms.now ≤ draft_room self.old }
        ensures told { DraftTells result (draft_form self.new)
            (form_divided (lent_form a.entry) by.raw decimals) }
        ensures order { (below : ℕ) → IsTrue (is_form below (lent_form a.entry)) →
            OnOk result (IsTrue (is_form below (draft_form self.new))) }
        ensures room { draft_room self.old ≤ draft_room self.new }
    {
        if by.raw == 0 {
            return Err(Arith::DivisionByZero);
        }
        self.set_by(Operation::Divided(by, decimals), a, FormRef::zero())
    }

    /// Makes it the difference of two forms that a comparison compares with 0: exactly, with its coefficients
    /// times a factor of at most 10^6, and its constant without it.
    pub fn set_comparison(&mut self, a: FormRef<'_>, b: FormRef<'_>, factor: i64)
        requires first { IsTrue (is_bounded (lent_form a)) }
        requires second { IsTrue (is_bounded (lent_form b)) }
        requires factor { unsigned_abs factor ≤ 1_000_000 }
        requires room { length a.terms.now + length b.terms.now ≤ draft_room self.old }
        ensures form { draft_form self.new ≡
            form_compared factor (lent_form a.entry) (lent_form b.entry) }
        ensures order { (below : ℕ) → IsTrue (is_form below (lent_form a.entry)) →
            IsTrue (is_form below (lent_form b.entry)) →
            IsTrue (is_difference below (draft_form self.new)) }
        ensures room { draft_room self.old ≤ draft_room self.new }
    {
        self.terms.clear();
        merge(
            Operation::Compared(factor),
            a.terms,
            b.terms,
            &mut self.terms,
        )
        .unwrap();
        self.constant = a.constant - b.constant;
    }

    /// Makes it what an operation gives on two forms.
    pub(crate) fn set_by(
        &mut self,
        operation: Operation,
        a: FormRef<'_>,
        b: FormRef<'_>,
    ) -> Result<(), Arith>
        requires operation { IsOperation operation }
        requires usable { (raw : ℤ) → IsTrue (is_usable operation raw) }
        requires room { length a.terms.now + length b.terms.now ≤ draft_room self.old }
        ensures told { DraftTells result (draft_form self.new)
            (form_by (combined operation) (lent_form a.entry) (lent_form b.entry)) }
        ensures order { (below : ℕ) → IsTrue (is_form below (lent_form a.entry)) →
            IsTrue (is_form below (lent_form b.entry)) →
            OnOk result (IsTrue (is_form below (draft_form self.new))) }
        ensures bounded { OnOk result (IsTrue (is_bounded (draft_form self.new))) }
        ensures room { draft_room self.old ≤ draft_room self.new }
    {
        self.terms.clear();
        if merge(operation, a.terms, b.terms, &mut self.terms).is_none() {
            return Err(Arith::Overflow);
        }
        match combined(operation, a.constant, b.constant) {
            Some(constant) => {
                self.constant = constant;
                Ok(())
            }
            None => Err(Arith::Overflow),
        }
    }
}
