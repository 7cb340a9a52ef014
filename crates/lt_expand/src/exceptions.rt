//! The numbers of exceptions, which are given once the whole trace is known: those that are raised come in the order of
//! their first `raise` in preorder, and behind them those that are only caught, in the order of their first `catch`.

ghost use Rattle.std.specs.Prelude.{◌≡◌, [], ◌∷◌, IfOk, OnOk, map, option_map, option_to_list, string_bytes};
ghost use Rattle.std.specs.List.{flat_map};
ghost use Rattle.lt_expand.specs.Exceptions.{exception_names, number_in, numbered};
ghost use Rattle.lt_macros.specs.Expanded as tree;
ghost use Rattle.lt_macros.specs.Preorder.{caught_at, items, raised_at, term as a_term};
ghost use Rattle.lt_expand.specs.inner.Items.{item, items_view};
ghost use Rattle.lt_expand.specs.inner.Declarations.{exceptions, with_more, with_one};
ghost use Rattle.lt_macros.specs.Tree.{exception, expanded};

use crate::items::Item;
use indexmap::IndexMap;
use lt_formula::Memory;
use lt_macros::{Exception, Expanded};
use std::alloc::Global;

/// A declaration of an exception in the expansion.
#[derive(Clone, Copy, PartialEq, Eq, Hash)]
struct Declaration {
    /// The byte of the text at which it stands.
    place: usize,

    /// How many terms of the expansion stand before it.
    terms_before: u32,
}

/// Exceptions in the order of their numbers, each once: their names, by their declarations.
#[derive(Drop)]
pub(crate) struct Exceptions<'a> {
    names: IndexMap<Declaration, &'a str>,
}

impl<'a> Exceptions<'a> {
    // None.
    fn new(alloc: Global) -> Exceptions<'a>
        ensures { exceptions result ≡ [] }
    {
        Exceptions {
            names: IndexMap::new(alloc),
        }
    }

    // The number of one; where it isn't there, how many there are.
    pub(crate) fn number(&self, of: &Exception) -> usize
        ensures { result ≡ number_in (exceptions self.now) (exception of.now) }
    {
        let declaration = declaration_of(of);
        match self.names.get_index_of(&declaration) {
            Some(number) => number,
            None => self.names.len(),
        }
    }

    // One more, where it isn't there.
    fn put(&mut self, one: &'a Exception) -> Result<(), Memory>
        ensures { OnOk result (exceptions self.new ≡
            with_one (exceptions self.old) (exception one.now)) }
    {
        let declaration = declaration_of(one);
        if self.names.contains_key(&declaration) {
            return Ok(());
        }
        self.names.insert(declaration, &one.name)?;
        Ok(())
    }

    // The one that a part of a trace raises, if it does.
    fn put_raised(&mut self, part: Item<'a>) -> Result<(), Memory>
        ensures { OnOk result (exceptions self.new ≡
            with_more (exceptions self.old) (raised_at (item part.entry))) }
    {
        match raised_at(part) {
            Some(one) => self.put(one),
            None => Ok(()),
        }
    }

    // The one that a part of a trace catches, if it does.
    fn put_caught(&mut self, part: Item<'a>) -> Result<(), Memory>
        ensures { OnOk result (exceptions self.new ≡
            with_more (exceptions self.old) (caught_at (item part.entry))) }
    {
        match caught_at(part) {
            Some(one) => self.put(one),
            None => Ok(()),
        }
    }

    // Their names.
    #[tactic(auto, using(crate::proofs::Ranks::named))]
    pub(crate) fn names(&self, alloc: Global) -> Result<Vec<String>, Memory>
        ensures { IfOk result (λ names. map string_bytes names.items ≡
            exception_names (exceptions self.now)) }
    {
        let mut names = Vec::new(alloc);
        for name in self.names.values() {
            names.push(String::from_str(alloc, name)?)?;
        }
        Ok(names)
    }
}

// The exceptions of a trace, all of whose parts these are.
pub(crate) fn numbered<'a>(alloc: Global, parts: &[Item<'a>]) -> Result<Exceptions<'a>, Memory>
    ensures { IfOk result (λ found. (trace : tree.Expanded) →
        items_view parts.now ≡ items trace → exceptions found ≡ numbered trace) }
{
    let mut found = Exceptions::new(alloc);
    put_all_raised(&mut found, parts)?;
    put_all_caught(&mut found, parts)?;
    Ok(found)
}

// Puts the exceptions that parts of a trace raise behind others.
fn put_all_raised<'a>(found: &mut Exceptions<'a>, parts: &[Item<'a>]) -> Result<(), Memory>
    ensures { OnOk result (exceptions found.new ≡
        with_more (exceptions found.old) (flat_map raised_at (items_view parts.now))) }
{
    for part in parts {
        found.put_raised(*part)?;
    }
    Ok(())
}

// Puts those that they catch behind others.
fn put_all_caught<'a>(found: &mut Exceptions<'a>, parts: &[Item<'a>]) -> Result<(), Memory>
    ensures { OnOk result (exceptions found.new ≡
        with_more (exceptions found.old) (flat_map caught_at (items_view parts.now))) }
{
    for part in parts {
        found.put_caught(*part)?;
    }
    Ok(())
}

// The declaration of an exception.
fn declaration_of(of: &Exception) -> Declaration
    ensures { result ≡ record { place = of.now.place; terms_before = of.now.terms_before } }
{
    Declaration {
        place: of.place,
        terms_before: of.terms_before,
    }
}

// The exception that a part of a trace raises, if it does.
fn raised_at<'a>(part: Item<'a>) -> Option<&'a Exception>
    ensures { option_to_list (option_map (λ z. exception z.now) result) ≡
        raised_at (item part.entry) }
{
    match part {
        Item::Term(term) => raised_by(term),
        Item::Weight(_) => None,
    }
}

// The exception that a trace raises, if it does.
fn raised_by(term: &Expanded) -> Option<&Exception>
    ensures { option_to_list (option_map (λ z. exception z.now) result) ≡
        raised_at (a_term (expanded term.now)) }
{
    match term {
        Expanded::Raise(raised) => Some(raised),
        _ => None,
    }
}

// The exception that a part of a trace catches, if it does.
fn caught_at<'a>(part: Item<'a>) -> Option<&'a Exception>
    ensures { option_to_list (option_map (λ z. exception z.now) result) ≡
        caught_at (item part.entry) }
{
    match part {
        Item::Term(term) => caught_by(term),
        Item::Weight(_) => None,
    }
}

// The exception that a trace catches, if it does.
fn caught_by(term: &Expanded) -> Option<&Exception>
    ensures { option_to_list (option_map (λ z. exception z.now) result) ≡
        caught_at (a_term (expanded term.now)) }
{
    match term {
        Expanded::Catch(caught, _, _) => Some(caught),
        _ => None,
    }
}
