//! Solutions that are drawn inside of what is possible, compared with worked rows and with a plain trial of the rule.

ghost use Rattle.std.specs.Prelude.{IsTrue};
ghost use Rattle.lt_solver.specs.Domains.{are_domains};

use crate::problems::{Problem, RANGES, STEPS};
use crate::rows::{Told, Topic, check, check_found};
use crate::searching::{Question, load, put_answer};
use crate::sheet::Sheet;
use crate::solutions::PROBLEMS;
use crate::trial::inside_by_trial;
use lt_num::Range;
use lt_solver::Workspace;
use std::alloc::Global;
use std::process::Abort;
use std::test::Fail;

// The range of a Boolean.
const TRUTHS: Range = Range {
    low: 0,
    high: 1,
    step: 1,
};

/// The ranges: of the two ints, `j` has 0 to 100 and `k` 0 to 9; of the two reals, `y` has 0.00, 2.50, 5.00, 7.50 and 10.00,
/// and `z` 0.00 to 0.03.
pub(crate) const WIDE: [Range; 6] = [
    TRUTHS,
    Range {
        low: 0,
        high: 100,
        step: 1,
    },
    Range {
        low: 0,
        high: 1000,
        step: 250,
    },
    TRUTHS,
    Range {
        low: 0,
        high: 9,
        step: 1,
    },
    Range {
        low: 0,
        high: 3,
        step: 1,
    },
];

// Each row has constraints, the variables `in` scope, and the words that their targets come `from`.
const INSIDES: &str = "\
-- Possible are 98 to 100, and 5 leaves 2 by 3; nothing is under 98.
j > 97 in -j---- from 0 5 0 0 0 0 within 1080 ==> [2] at 2 decimals, Solution [0, 100, 0, 0, 0, 0]
j > 97 in -j---- from 0 4 0 0 0 0 down -j---- within 1080 ==> [2] at 2 decimals, Solution [0, 99, 0, 0, 0, 0]
-- 0.02 is between what is possible, and isn't possible: upward comes 0.03, and downward 0.01.
z <> 2u in -----z from 0 0 0 0 0 2 within 1080 ==> [2] at 2 decimals, Solution [0, 0, 0, 0, 0, 3]
z <> 2u in -----z from 0 0 0 0 0 2 down -----z within 1080 ==> [2] at 2 decimals, Solution [0, 0, 0, 0, 0, 1]
-- The first one can have 3 to 9, seven numbers; then the second one has one alone, whatever its word is.
j + k = 12 , j <= 9 in -j--k- from 0 4 0 0 0 0 within 100000 ==> \
[4, 6] at 2 decimals, Solution [0, 7, 0, 0, 5, 0]
j + k = 12 , j <= 9 in -j--k- from 0 6 0 0 8 0 within 100000 ==> \
[4, 6] at 2 decimals, Solution [0, 9, 0, 0, 3, 0]
-- Possible are 2.50 to 10.00, four points, and 6 leaves 2 by 4.
y > 100u in --y--- from 0 0 6 0 0 0 within 1080 ==> [2] at 2 decimals, Solution [0, 0, 750, 0, 0, 0]
-- Nothing is possible, and what is out of scope is 0.
j + k = 120 in -j--k- from 0 4 0 0 7 0 within 100000 ==> [4] at 2 decimals, Unsat
k > 8 in ----k- from 0 7 0 0 5 0 within 1080 ==> [2] at 2 decimals, Solution [0, 0, 0, 0, 9, 0]";

#[test]
fn insides_are_drawn_between_the_ends(rt: HostRuntime) -> Result<(), Fail> {
    check(
        &rt,
        rt.alloc(),
        Topic::Expressions(Told::Inside),
        INSIDES,
        9,
    )
}

/// Puts what is drawn inside of the constraints that were read, within these ranges. What stands for targets in a question are
/// words here.
pub(crate) fn put_inside(
    found: &mut String,
    alloc: Global,
    sheet: &Sheet,
    ranges: &[Range; 6],
    question: Question,
) -> Result<(), Fail>
    requires { IsTrue (are_domains ranges.now) }
{
    let (space, loaded) = load(alloc, sheet)?;
    if let Err(fault) = loaded {
        write!(found, "{fault:?}, ")?;
    }
    let mut words = [0; 6];
    for i in 0..6 {
        words[i] = question.targets[i].unsigned_abs();
    }
    let mut workspace = Workspace::make(alloc, ranges, space.gates())?;
    let answer = workspace.first_inside(
        &space,
        &question.scope,
        &words,
        &question.down,
        question.budget,
    );
    put_answer(found, &space, answer, workspace.values())
}

// What is drawn inside of the problem of a number is what the trial draws. The answer is whether it has a solution.
fn check_problem(rt: &impl Abort, alloc: Global, number: u64) -> Result<bool, Fail> {
    let problem = Problem::make(alloc, number)?;
    let solution = inside_by_trial(alloc, &problem)?;
    let mut due = format!(in alloc; "problem {number}: ")?;
    problem.put_due(&mut due, solution)?;
    check_drawn(rt, alloc, number, &problem, &due)?;
    Ok(solution.is_some())
}

// What is drawn inside of a problem is what is due.
fn check_drawn(
    rt: &impl Abort,
    alloc: Global,
    number: u64,
    problem: &Problem,
    due: &str,
) -> Result<(), Fail> {
    let mut found = format!(in alloc; "problem {number}: ")?;
    if problem.has_steps {
        put_inside(&mut found, alloc, &problem.sheet, &STEPS, problem.inside)?;
    } else {
        put_inside(&mut found, alloc, &problem.sheet, &RANGES, problem.inside)?;
    }
    check_found(rt, &found, due);
    Ok(())
}

#[test]
fn insides_are_those_of_a_trial(rt: HostRuntime) -> Result<(), Fail> {
    let mut solved = 0u64;
    for number in 0..PROBLEMS {
        if check_problem(&rt, rt.alloc(), number)? {
            solved = solved.saturating_add(1);
        }
    }
    // Both answers come often.
    assert!(rt; solved > 100 && solved < PROBLEMS - 20);
    Ok(())
}
