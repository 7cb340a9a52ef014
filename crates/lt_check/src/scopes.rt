//! Which locals are in scope.

ghost use Rattle.std.specs.Prelude.{◌≡◌, ◌≤◌, ◌+◌, ◌++◌, true, length, map, replicate, vec_capacity};
ghost use Rattle.lt_check.specs.inner.Wanted.{has_scope};
ghost use Rattle.lt_instant.specs.Solved.{is_in_scope, marks_from};
ghost use Rattle.lt_term.specs.SceneView.{variable};

use lt_term::{Last, Var};

/// Whether exactly the locals with a mark are in scope.
pub(crate) fn has_scope(lasts: &[(u32, Last)], marks: &[bool]) -> bool
    ensures { result ≡ has_scope lasts.now 0 marks.now }
{
    for (number, mark) in marks.iter().enumerate() {
        if is_in_scope(lasts, number) != *mark {
            return false;
        }
    }
    true
}

/// Puts a mark for each output and local: all outputs are in scope, and these locals.
pub(crate) fn put_scope(
    marks: &mut Vec<bool>,
    outputs: usize,
    locals: &[Var],
    lasts: &[(u32, Last)],
)
    requires { outputs + length locals.now ≤ vec_capacity marks.old }
    ensures items { marks.new.items ≡
        replicate outputs true ++ marks_from lasts.now 0 (map variable locals.now) }
    ensures room { vec_capacity marks.new ≡ vec_capacity marks.old }
{
    put_outputs(marks, outputs);
    for (number, _local) in locals.iter().enumerate() {
        marks.push_reserved(is_in_scope(lasts, number));
    }
}

// Puts a mark for each output.
fn put_outputs(marks: &mut Vec<bool>, outputs: usize)
    requires { outputs ≤ vec_capacity marks.old }
    ensures items { marks.new.items ≡ replicate outputs true }
    ensures room { vec_capacity marks.new ≡ vec_capacity marks.old }
{
    marks.clear();
    for _output in 0..outputs {
        marks.push_reserved(true);
    }
}

// Whether a local is in scope.
fn is_in_scope(lasts: &[(u32, Last)], number: usize) -> bool
    ensures { result ≡ is_in_scope lasts.now number }
{
    for (local, _) in lasts {
        if *local as usize == number {
            return true;
        }
    }
    false
}
