//! The paths to true, one after another.

ghost use Rattle.std.specs.Prelude.{◌≡◌, ◌+◌, ◌<◌, ◌^◌, IsTrue, true, false, length};
ghost use Rattle.lt_diagram.specs.Branches.{IsFrom};
ghost use Rattle.lt_diagram.specs.Choice.{Gives, GivesNext, IsOneOf, allows, paths_within, steps_of};
ghost use Rattle.lt_diagram.specs.DiagramView.{NamesBelow, branches_of, diagram_choice, number_choice};
ghost use Rattle.lt_diagram.specs.inner.Ways.{IsWay, is_yes, ways, ways_after, ways_behind};

use crate::diagram::Diagram;

/// Puts a path to true that agrees with fixed truths into `path`, which has a place for each flag that the diagram names,
/// and answers whether there is one. A flag that is asked on the path gets its truth at its place, and each other one
/// `None`; `fixed` are the truths of the flags from 0 on, and may be of fewer or of more flags than there are.
///
/// Where `begun` is false it is the first path, in the order false before true at each flag. Where `begun` is true, `path`
/// must hold one of the paths, and it is the next one. So calls with `begun` false and then true give each path once, until
/// one answers false. What `path` holds after that isn't said.
pub fn next_path(diagram: &Diagram, fixed: &[bool], path: &mut [Option<bool>], begun: bool) -> bool
    requires places { NamesBelow (length path.old) diagram.now }
    requires begun { IsTrue begun →
        IsOneOf (paths_within fixed.now (diagram_choice diagram.now)) (steps_of 0 path.old) }
    ensures first { begun ≡ false →
        Gives result (paths_within fixed.now (diagram_choice diagram.now)) (steps_of 0 path.new) }
    ensures next { begun ≡ true →
        GivesNext result (paths_within fixed.now (diagram_choice diagram.now)) (steps_of 0 path.old)
        (steps_of 0 path.new) }
    ensures given { IsTrue result →
        IsOneOf (paths_within fixed.now (diagram_choice diagram.now)) (steps_of 0 path.new) }
{
    let root = diagram.root();
    if begun {
        next_in(diagram, fixed, root, 0, path)
    } else {
        first_in(diagram, fixed, root, 0, path)
    }
}

// The first path from a number on, into the places of the flags from this one on.
#[cycle(first)]
fn first_in(
    diagram: &Diagram,
    fixed: &[bool],
    number: u32,
    from: usize,
    path: &mut [Option<bool>],
) -> bool
    requires number { number < length (branches_of diagram.now) + 2 }
    requires from { IsFrom from (branches_of diagram.now) number }
    requires places { NamesBelow (from + length path.old) diagram.now }
    requires within { from + length path.old < 2 ^ 63 }
    ensures { Gives result (ways fixed.now (number_choice diagram.now number))
        (steps_of from path.new) }
{
    match diagram.asked(number, from) {
        Some(branch) => {
            first_behind(diagram, fixed, branch.no, false, from, path)
                || first_behind(diagram, fixed, branch.yes, true, from, path)
        }
        None => {
            let Some((place, rest)) = path.split_first_mut() else {
                return diagram.truth(number, from);
            };
            *place = None;
            first_in(diagram, fixed, number, from + 1, rest)
        }
    }
}

// The first one on which this flag has this truth, and behind which it goes on at a side.
#[cycle(first)]
fn first_behind(
    diagram: &Diagram,
    fixed: &[bool],
    side: u32,
    truth: bool,
    from: usize,
    path: &mut [Option<bool>],
) -> bool
    requires number { side < length (branches_of diagram.now) + 2 }
    requires from { IsFrom (from + 1) (branches_of diagram.now) side }
    requires places { NamesBelow (from + length path.old) diagram.now }
    requires within { from + length path.old < 2 ^ 63 }
    requires some { 0 < length path.old }
    ensures { Gives result
        (ways_behind fixed.now from truth (ways fixed.now (number_choice diagram.now side)))
        (steps_of from path.new) }
{
    if !allows(fixed, from, truth) {
        return false;
    }
    let Some((place, rest)) = path.split_first_mut() else {
        unreachable!()
    };
    *place = Some(truth);
    first_in(diagram, fixed, side, from + 1, rest)
}

// Whether fixed truths let a flag have this one.
fn allows(fixed: &[bool], atom: usize, truth: bool) -> bool
    ensures { result ≡ allows fixed.now atom truth }
{
    match fixed.get(atom) {
        Some(fixed) => *fixed == truth,
        None => true,
    }
}

// Whether a place has the truth true.
fn is_yes(place: Option<bool>) -> bool
    ensures { result ≡ is_yes place }
{
    match place {
        Some(truth) => truth,
        None => false,
    }
}

// The next path from a number on, behind the one that the places have.
fn next_in(
    diagram: &Diagram,
    fixed: &[bool],
    number: u32,
    from: usize,
    path: &mut [Option<bool>],
) -> bool
    requires number { number < length (branches_of diagram.now) + 2 }
    requires from { IsFrom from (branches_of diagram.now) number }
    requires places { NamesBelow (from + length path.old) diagram.now }
    requires within { from + length path.old < 2 ^ 63 }
    requires way { IsWay fixed.now (number_choice diagram.now number) (steps_of from path.old) }
    ensures { Gives result
        (ways_after fixed.now (number_choice diagram.now number) (steps_of from path.old))
        (steps_of from path.new) }
{
    let asked = diagram.asked(number, from);
    let Some((place, rest)) = path.split_first_mut() else {
        return false;
    };
    match asked {
        None => next_in(diagram, fixed, number, from + 1, rest),
        Some(branch) => {
            if is_yes(*place) {
                return next_in(diagram, fixed, branch.yes, from + 1, rest);
            }
            next_in(diagram, fixed, branch.no, from + 1, rest)
                || first_behind(diagram, fixed, branch.yes, true, from, path)
        }
    }
}
