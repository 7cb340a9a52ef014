//! Forms that are kept in reserved room.

ghost use Rattle.std.specs.Prelude.{◌≡◌, ◌<◌, ◌≤◌, ◌+◌, ◌++◌, ◌∷◌, [], ◌^◌, ℕ, IfOk, IsTrue, length, min, vec_capacity, vec_len};
ghost use Rattle.lt_linear.specs.Draft.{lent_form};
ghost use Rattle.lt_space.specs.inner.Place.{are_within, form_at, form_in};

use crate::circuit::append;
use lt_linear::FormRef;
use std::alloc::{AllocError, Global};

// Where a form is: its terms are those of the list from `first` up to `after`.
#[derive(Clone, Copy)]
struct Place {
    first: u32,
    after: u32,
    constant: i64,
}

/// Forms by number, in reserved room. Their list only grows, unless it is cleared.
#[derive(Drop)]
pub(crate) struct Forms {
    places: Vec<Place>,
    terms: Vec<(u32, i64)>,
    ghost few: { length places.items ≤ 2 ^ 32 },
    ghost few_terms: { length terms.items < 2 ^ 32 },
    ghost within: { IsTrue (are_within (length terms.items) places.items) },
}

impl Forms {
    ghost use Rattle.lt_space.specs.inner.Forms.{forms_of, forms_room, forms_terms, forms_terms_room};

    /// No forms, with room for so many and for so many terms of theirs.
    pub(crate) fn make(alloc: Global, forms: usize, terms: usize) -> Result<Forms, AllocError>
        ensures forms { IfOk result (λ made. forms_of made ≡ []) }
        ensures terms { IfOk result (λ made. forms_terms made ≡ 0) }
        ensures room { IfOk result (λ made. forms_room made ≡ min forms 4_294_967_296) }
        ensures terms_room { IfOk result (λ made. forms_terms_room made ≡ min terms 4_294_967_295) }
    {
        Ok(Forms {
            places: Vec::with_capacity(alloc, forms)?,
            terms: Vec::with_capacity(alloc, terms)?,
        })
    }

    /// Takes all forms away.
    pub(crate) fn clear(&mut self)
        ensures forms { forms_of self.new ≡ [] }
        ensures terms { forms_terms self.new ≡ 0 }
        ensures room { forms_room self.new ≡ forms_room self.old }
        ensures terms_room { forms_terms_room self.new ≡ forms_terms_room self.old }
    {
        self.places.clear();
        self.terms.clear();
    }

    /// A form.
    pub(crate) fn form(&self, number: u32) -> FormRef<'_>
        requires { number < length (forms_of self.now) }
        ensures { lent_form result ≡ form_at (forms_of self.now) number }
    {
        let place = self.places[number as usize];
        FormRef {
            terms: &self.terms[place.first as usize..place.after as usize],
            constant: place.constant,
        }
    }

    /// Puts a form behind those that are there, and answers its number.
    pub(crate) fn push(&mut self, form: FormRef<'_>) -> u32
        requires room { length (forms_of self.old) < forms_room self.old }
        requires terms_room { forms_terms self.old + length form.terms.now ≤
            forms_terms_room self.old }
        ensures number { result ≡ length (forms_of self.old) }
        ensures forms { forms_of self.new ≡ forms_of self.old ++ lent_form form.entry ∷ [] }
        ensures terms { forms_terms self.new ≡ forms_terms self.old + length form.entry.terms.now }
        ensures room { forms_room self.new ≡ forms_room self.old }
        ensures terms_room { forms_terms_room self.old ≤ forms_terms_room self.new }
    {
        let number = self.places.len() as u32;
        let place = Place {
            first: self.terms.len() as u32,
            after: (self.terms.len() + form.terms.len()) as u32,
            constant: form.constant,
        };
        self.push_terms(form.terms);
        self.push_place(place);
        number
    }

    // Puts terms behind those that are there.
    fn push_terms(&mut self, terms: &[(u32, i64)])
        requires { forms_terms self.old + length terms.now ≤ forms_terms_room self.old }
        ensures forms { forms_of self.new ≡ forms_of self.old }
        ensures terms { self.new.terms.items ≡ self.old.terms.items ++ terms.now }
        ensures room { forms_room self.new ≡ forms_room self.old }
        ensures terms_room { forms_terms_room self.old ≤ forms_terms_room self.new }
    {
        append(&mut self.terms, terms);
    }

    // Puts a place behind those that are there.
    fn push_place(&mut self, place: Place)
        requires within { IsTrue (are_within (forms_terms self.old) (place ∷ [])) }
        requires room { length (forms_of self.old) < forms_room self.old }
        ensures forms { forms_of self.new ≡ forms_of self.old ++
            form_in self.old.terms.items place ∷ [] }
        ensures terms { self.new.terms.items ≡ self.old.terms.items }
        ensures room { forms_room self.new ≡ forms_room self.old }
        ensures terms_room { forms_terms_room self.new ≡ forms_terms_room self.old }
    {
        self.places.push_reserved(place);
    }
}
