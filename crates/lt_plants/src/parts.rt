//! The parts of a line.

ghost use Rattle.std.specs.Prelude.{◌≡◌, ◌≢◌, ◌++◌, [], ◌∷◌, List, ℕ, Bool, IfSome, IfNone, MatchOption};
ghost use Rattle.lt_plants.specs.Replies.{after_blank, letter};

/// The truth of a line that is `t` or `f` alone.
pub fn truth_of(line: &[u8]) -> Option<bool>
    ensures some { IfSome result (λ truth. line.now ≡ letter truth ∷ []) }
    ensures none { IfNone result ((truth : Bool) → line.now ≢ letter truth ∷ []) }
{
    match line {
        b"t" => Some(true),
        b"f" => Some(false),
        _ => None,
    }
}

/// What stands before a blank and a truth at the end of a line, and that truth.
pub fn split_truth(line: &[u8]) -> Option<(&[u8], bool)>
    ensures some { IfSome result (λ parts. line.now ≡ parts.0.now ++ after_blank parts.1) }
    ensures none { IfNone result ((prefix : List ℕ) (truth : Bool) →
        line.now ≢ prefix ++ after_blank truth) }
{
    if let Some(prefix) = before(line, b" t") {
        return Some((prefix, true));
    }
    if let Some(prefix) = before(line, b" f") {
        return Some((prefix, false));
    }
    None
}

// What stands before an end of a line.
fn before<'a>(line: &'a [u8], end: &[u8]) -> Option<&'a [u8]>
    ensures { MatchOption result ((prefix : List ℕ) →
        line.now ≢ prefix ++ end.now) (λ prefix. line.now ≡ prefix.now ++ end.now) }
{
    line.strip_suffix(end)
}
