//! The forms of numbers while constraints are loaded.

ghost use Rattle.std.specs.Prelude.{◌≡◌, ◌<◌, ◌≤◌, ◌+◌, Ok, IfOk, IsTrue, length, pos, unsigned_abs};
ghost use Rattle.lt_num.specs.Bounds.{most_decimals};
ghost use Rattle.lt_formula.specs.Limits.{most_variables};
ghost use Rattle.lt_linear.specs.Draft.{draft_form, draft_room, lent_form};
ghost use Rattle.lt_linear.specs.Form.{constant_form, form_compared, form_difference, form_divided, form_scaled, form_sum, is_raw, variable_form};
ghost use Rattle.lt_linear.specs.Order.{is_difference, is_form};
ghost use Rattle.lt_space.specs.Size.{most_expressions};
ghost use Rattle.lt_space.specs.inner.Place.{form_at};
ghost use Rattle.lt_space.specs.inner.Measures.{AreBlank, AreForms, AreRoomy, HasPlace, IsPut, IsRedrafted, PutTells, StayLarge, measured};

use crate::forms::Forms;
use crate::memo::Memo;
use lt_linear::{Draft, FormRef};
use lt_num::{Arith, Fixed};
use std::alloc::{AllocError, Global};

/// The forms of numbers, each of them once, with the number of its form for each expression.
#[derive(Drop)]
pub(crate) struct Measures {
    pub(crate) forms: Forms,
    pub(crate) memo: Memo,
    draft: Draft,
    variables: usize,
}

impl Measures {
    /// Room for the forms of so many expressions over so many variables. Nothing is kept.
    pub(crate) fn make(
        alloc: Global,
        expressions: usize,
        variables: usize,
    ) -> Result<Measures, AllocError>
        requires expressions { expressions ≤ most_expressions }
        requires variables { variables ≤ most_variables }
        ensures blank { IfOk result (λ measures. AreBlank measures) }
        ensures room { IfOk result (λ measures. AreRoomy expressions variables measures) }
    {
        Ok(Measures {
            forms: Forms::make(alloc, expressions, expressions * variables)?,
            memo: Memo::make(alloc, expressions)?,
            draft: Draft::with_room(alloc, variables + variables + 1)?,
            variables,
        })
    }

    /// Takes all forms away.
    pub(crate) fn clear(&mut self)
        ensures blank { AreBlank self.new }
        ensures large { StayLarge self.old self.new }
    {
        self.forms.clear();
        self.memo.clear();
    }

    /// A form without variables.
    pub(crate) fn put_constant(&mut self, constant: i64) -> u32
        requires raw { IsTrue (is_raw constant) }
        requires place { HasPlace self.old }
        ensures { IsPut self.old self.new result (constant_form constant) }
    {
        self.draft.set_constant(constant);
        self.push_draft()
    }

    /// A variable times a coefficient.
    pub(crate) fn put_variable(&mut self, variable: u32, coefficient: i64) -> u32
        requires variable { variable < self.old.variables }
        requires raw { IsTrue (is_raw coefficient) }
        requires place { HasPlace self.old }
        ensures { IsPut self.old self.new result (variable_form variable coefficient) }
    {
        self.draft.set_variable(variable, coefficient);
        self.push_draft()
    }

    /// The sum of two forms.
    pub(crate) fn put_sum(&mut self, a: u32, b: u32) -> Result<u32, Arith>
        requires first { a < length (measured self.old) }
        requires second { b < length (measured self.old) }
        requires forms { AreForms self.old }
        requires place { HasPlace self.old }
        ensures { PutTells (form_sum (form_at (measured self.old) a)
            (form_at (measured self.old) b)) result self.old self.new }
    {
        self.draft.set_sum(self.forms.form(a), self.forms.form(b))?;
        Ok(self.push_draft())
    }

    /// The difference of two forms.
    pub(crate) fn put_difference(&mut self, a: u32, b: u32) -> Result<u32, Arith>
        requires first { a < length (measured self.old) }
        requires second { b < length (measured self.old) }
        requires forms { AreForms self.old }
        requires place { HasPlace self.old }
        ensures { PutTells (form_difference (form_at (measured self.old) a)
            (form_at (measured self.old) b)) result self.old self.new }
    {
        self.draft
            .set_difference(self.forms.form(a), self.forms.form(b))?;
        Ok(self.push_draft())
    }

    /// A form with the other sign.
    pub(crate) fn put_negative(&mut self, a: u32) -> Result<u32, Arith>
        requires first { a < length (measured self.old) }
        requires forms { AreForms self.old }
        requires place { HasPlace self.old }
        ensures { PutTells (form_difference (constant_form (pos 0)) (form_at (measured self.old) a))
            result self.old self.new }
    {
        self.draft
            .set_difference(FormRef::zero(), self.forms.form(a))?;
        Ok(self.push_draft())
    }

    /// A form times a number with so many decimals.
    pub(crate) fn put_multiple(&mut self, a: u32, by: Fixed, decimals: u32) -> Result<u32, Arith>
        requires first { a < length (measured self.old) }
        requires decimals { decimals ≤ most_decimals }
        requires forms { AreForms self.old }
        requires place { HasPlace self.old }
        ensures { PutTells (form_scaled (form_at (measured self.old) a) by.raw decimals) result
            self.old self.new }
    {
        self.draft.set_multiple(self.forms.form(a), by, decimals)?;
        Ok(self.push_draft())
    }

    /// A form divided by a number with so many decimals.
    pub(crate) fn put_quotient(&mut self, a: u32, by: Fixed, decimals: u32) -> Result<u32, Arith>
        requires first { a < length (measured self.old) }
        requires decimals { decimals ≤ most_decimals }
        requires forms { AreForms self.old }
        requires place { HasPlace self.old }
        ensures { PutTells (form_divided (form_at (measured self.old) a) by.raw decimals) result
            self.old self.new }
    {
        self.draft.set_quotient(self.forms.form(a), by, decimals)?;
        Ok(self.push_draft())
    }

    /// Makes the draft the difference of two forms that a comparison compares with 0.
    pub(crate) fn set_comparison(&mut self, a: u32, b: u32, factor: i64)
        requires first { a < length (measured self.old) }
        requires second { b < length (measured self.old) }
        requires factor { unsigned_abs factor ≤ 1_000_000 }
        requires forms { AreForms self.old }
        requires draft { self.old.variables + self.old.variables + 1 ≤ draft_room self.old.draft }
        ensures form { draft_form self.new.draft ≡
            form_compared factor (form_at (measured self.old) a) (form_at (measured self.old) b) }
        ensures order { IsTrue (is_difference self.old.variables (draft_form self.new.draft)) }
        ensures rest { IsRedrafted self.old self.new }
    {
        self.draft
            .set_comparison(self.forms.form(a), self.forms.form(b), factor);
    }

    /// The draft.
    pub(crate) fn draft(&self) -> FormRef<'_>
        ensures { lent_form result ≡ draft_form self.now.draft }
    {
        self.draft.form()
    }

    // Puts the draft behind the forms.
    fn push_draft(&mut self) -> u32
        requires form { IsTrue (is_form self.old.variables (draft_form self.old.draft)) }
        requires place { HasPlace self.old }
        ensures { IsPut self.old self.new result (draft_form self.old.draft) }
    {
        self.forms.push(self.draft.form())
    }
}
