//! The parts of a term.

ghost use Rattle.std.specs.Prelude.{◌≡◌};
ghost use Rattle.lt_term.specs.View.{process};
ghost use Rattle.lt_same_term.specs.Alike.{parts_of};
ghost use Rattle.lt_same_term.specs.View.{parts_view};

use lt_term::Term;

/// The parts of a term.
#[derive(Clone, Copy)]
pub enum Parts<'a> {
    None,
    One(&'a Term),
    Two(&'a Term, &'a Term),
    Many(&'a [(u32, Term)]),
}

/// The parts of a term.
pub fn parts_of(term: &Term) -> Parts<'_>
    ensures { parts_view result ≡ parts_of (process term.now) }
{
    match term {
        Term::Eps | Term::Dead | Term::Con(_) | Term::Raise(_) => Parts::None,
        Term::Seq(first, second) => Parts::Two(first, second),
        Term::Loop(body) => Parts::One(body),
        Term::Count { body, .. } => Parts::One(body),
        Term::Any(all) => Parts::Many(all),
        Term::Pri(first, second) => Parts::Two(first, second),
        Term::Par(first, second) => Parts::Two(first, second),
        Term::Assert(_, body) => Parts::One(body),
        Term::Exist { body, .. } => Parts::One(body),
        Term::Catch {
            body,
            otherwise,
            ..
        } => Parts::Two(body, otherwise),
        Term::Try { body, otherwise } => Parts::Two(body, otherwise),
    }
}
