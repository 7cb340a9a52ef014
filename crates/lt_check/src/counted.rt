//! How many turns of counted loops are done.

ghost use Rattle.std.specs.Prelude.{◌≡◌, true};
ghost use Rattle.lt_term.specs.Counted.{AreCounted, IsCounted};
ghost use Rattle.lt_term.specs.View.{choices, process};

use lt_term::Term;

// The most turns that a counted loop may have done.
const MOST_TURNS: u64 = 1_000_000;

/// Whether no counted loop of a term has done more turns than one may.
#[cycle(is_counted)]
pub(crate) fn is_counted(term: &Term) -> bool
    ensures { result ≡ true → IsCounted (process term.now) }
{
    match term {
        Term::Eps | Term::Dead | Term::Con(_) | Term::Raise(_) => true,
        Term::Seq(first, second) => is_counted(first) && is_counted(second),
        Term::Loop(body) => is_counted(body),
        Term::Count { done, body, .. } => *done <= MOST_TURNS && is_counted(body),
        Term::Any(parts) => are_counted(parts),
        Term::Pri(first, second) => is_counted(first) && is_counted(second),
        Term::Par(first, second) => is_counted(first) && is_counted(second),
        Term::Assert(_, body) => is_counted(body),
        Term::Exist { body, .. } => is_counted(body),
        Term::Catch {
            body,
            otherwise,
            ..
        } => is_counted(body) && is_counted(otherwise),
        Term::Try { body, otherwise } => is_counted(body) && is_counted(otherwise),
    }
}

// The same of the parts of a choice.
#[cycle(is_counted)]
fn are_counted(parts: &[(u32, Term)]) -> bool
    ensures { result ≡ true → AreCounted (choices parts.now) }
{
    for (_, part) in parts {
        if !is_counted(part) {
            return false;
        }
    }
    true
}
