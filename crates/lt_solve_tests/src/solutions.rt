//! First solutions, compared with those that a plain enumeration of all points finds.

use crate::problems::{Problem, RANGES, STEPS};
use crate::rows::{Told, Topic, check, check_found};
use crate::searching::put_found;
use lt_num::Range;
use std::alloc::Global;
use std::process::Abort;
use std::test::Fail;

/// How many problems there are.
pub(crate) const PROBLEMS: u64 = 400;

// What is out of scope.
const ZERO: Range = Range {
    low: 0,
    high: 0,
    step: 1,
};

// An int from 0 to 3.
const SMALL: Range = Range {
    low: 0,
    high: 3,
    step: 1,
};

/// The ranges where two small ints are in scope, an output and a local.
pub(crate) const TWO_INTS: [Range; 6] = [ZERO, SMALL, ZERO, ZERO, SMALL, ZERO];

// Each row has constraints, or `nothing`, the variables `in` scope, their targets and a budget, as `question_of` reads them,
// and what is found.
const SEARCHES: &str = "\
-- A list of constraints is loaded in its order.
k = 1 + 1 , j > 1 in bjyckz from 0 0 0 0 0 -149 within 10000 ==> \
[3, 5] at 2 decimals, Solution [0, 2, 0, 0, 2, -149]
-- A fault leaves nothing of a list.
k = 1 + 1 , j = 1 div 0 in bjyckz from 1 1 1 1 1 -148 within 10000 ==> \
DivisionByZero, [] at 2 decimals, Solution [1, 1, 1, 1, 1, -148]
-- What is out of scope is 0.
nothing in ------ from 1 1 1 1 1 -148 within 10000 ==> [] at 0 decimals, Solution [0, 0, 0, 0, 0, 0]
-- A search that ends soon is no other one where its need is over the budget. These are the constraints of problem 1, whose
-- parts have 3, 2 and 2 different comparisons: it needs 180 * 7 * 3^7.
if k + 4 < k + -2 then j + -1 <= k + k else j + -1 >= j + j , ( z + -3u = z + 4u ) => ( z + z > y ) , \
( j + j < 3 - j ) xor ( 0 * k <> j ) in bjyckz from 0 -2 1 1 1 -150 within 2755619 ==> \
[13, 23, 30] at 2 decimals, Unsat
if k + 4 < k + -2 then j + -1 <= k + k else j + -1 >= j + j , ( z + -3u = z + 4u ) => ( z + z > y ) , \
( j + j < 3 - j ) xor ( 0 * k <> j ) in bjyckz from 0 -2 1 1 1 -150 within 2755620 ==> \
[13, 23, 30] at 2 decimals, Unsat";

// The same, where two small ints are in scope.
const TARGETS: &str = "\
-- Each variable goes on from its target.
j + k = 3 , j + k = 3 in -j--k- from 0 2 0 0 2 0 within 8640 ==> \
[4, 4] at 2 decimals, Solution [0, 2, 0, 0, 1, 0]
-- The first can't be 3, so it begins anew at 0.
j + k = 3 , j <= 2 in -j--k- from 0 3 0 0 0 0 within 8640 ==> \
[4, 6] at 2 decimals, Solution [0, 0, 0, 0, 3, 0]
-- An equation of two numbers of 4 values each needs 180 * 3 * 16.
j + k = 7 , j + k = 7 in -j--k- from 0 0 0 0 0 0 within 8640 ==> [4, 4] at 2 decimals, Unsat
j + k = 7 , j + k = 7 in -j--k- from 0 0 0 0 0 0 within 8639 ==> [4, 4] at 2 decimals, Unsat
j + k = 7 , j + k = 7 in -j--k- from 0 0 0 0 0 0 within 1 ==> [4, 4] at 2 decimals, Unsat
j + k = 3 , j + k = 3 in -j--k- from 0 2 0 0 2 0 within 1 ==> \
[4, 4] at 2 decimals, Solution [0, 2, 0, 0, 1, 0]
-- Upward 3 comes behind 2, and downward 1 does.
j <> 2 in -j---- from 0 2 0 0 0 0 within 1080 ==> [2] at 2 decimals, Solution [0, 3, 0, 0, 0, 0]
j <> 2 in -j---- from 0 2 0 0 0 0 down -j---- within 1080 ==> [2] at 2 decimals, Solution [0, 1, 0, 0, 0, 0]
-- Downward from 1 the numbers are 1, 0, 3 and 2.
j > 2 in -j---- from 0 1 0 0 0 0 down -j---- within 360 ==> [2] at 2 decimals, Solution [0, 3, 0, 0, 0, 0]
j >= 2 in -j---- from 0 1 0 0 0 0 down -j---- within 360 ==> [2] at 2 decimals, Solution [0, 3, 0, 0, 0, 0]
j >= 2 in -j---- from 0 1 0 0 0 0 within 360 ==> [2] at 2 decimals, Solution [0, 2, 0, 0, 0, 0]
-- Each variable has a direction of its own.
j + k = 3 , j + k = 3 in -j--k- from 0 1 0 0 1 0 down -j---- within 8640 ==> \
[4, 4] at 2 decimals, Solution [0, 1, 0, 0, 2, 0]
j <> 1 , k <> 1 in -j--k- from 0 1 0 0 1 0 down -j---- within 4860 ==> \
[2, 4] at 2 decimals, Solution [0, 0, 0, 0, 2, 0]
j <> 1 , k <> 1 in -j--k- from 0 1 0 0 1 0 down ----k- within 4860 ==> \
[2, 4] at 2 decimals, Solution [0, 2, 0, 0, 0, 0]";

// The same over ranges with steps: `j` has the points 0, 2, 4, 6, 8 and 10, `y` those of 0.00, 0.25, 0.50, 0.75 and 1.00,
// `k` 0, 3, 6 and 9, and `z` -0.10, -0.06, -0.02 and 0.02.
const POINTS: &str = "\
-- Only 0.75 is over 0.60 and under 0.80, from each target and in both directions.
y > 60u , y < 80u in --y--- from 0 0 0 0 0 -10 within 360 ==> [2, 4] at 2 decimals, Solution [0, 0, 75, 0, 0, 0]
y > 60u , y < 80u in --y--- from 0 0 25 0 0 -10 within 360 ==> [2, 4] at 2 decimals, Solution [0, 0, 75, 0, 0, 0]
y > 60u , y < 80u in --y--- from 0 0 50 0 0 -10 within 360 ==> [2, 4] at 2 decimals, Solution [0, 0, 75, 0, 0, 0]
y > 60u , y < 80u in --y--- from 0 0 75 0 0 -10 within 360 ==> [2, 4] at 2 decimals, Solution [0, 0, 75, 0, 0, 0]
y > 60u , y < 80u in --y--- from 0 0 100 0 0 -10 within 360 ==> [2, 4] at 2 decimals, Solution [0, 0, 75, 0, 0, 0]
y > 60u , y < 80u in --y--- from 0 0 50 0 0 -10 down --y--- within 360 ==> \
[2, 4] at 2 decimals, Solution [0, 0, 75, 0, 0, 0]
-- None is over 0.51 and under 0.74.
y > 51u , y < 74u in --y--- from 0 0 50 0 0 -10 within 360 ==> [2, 4] at 2 decimals, Unsat
-- Steps of 2 and 3 leave a difference of 1 at 4 and 3 first. Unequal steps are hard: it needs 180 * 3 * 24.
j - k = 1 in -j--k- from 0 0 0 0 0 -10 within 12960 ==> [4] at 2 decimals, Solution [0, 4, 0, 0, 3, 0]
j - k = 1 in -j--k- from 0 0 0 0 0 -10 within 12959 ==> [4] at 2 decimals, Solution [0, 4, 0, 0, 3, 0]
-- Downward from 8 that is so too; from 2 the numbers are 2, 0 and then 10.
j - k = 1 in -j--k- from 0 8 0 0 0 -10 down -j---- within 12960 ==> [4] at 2 decimals, Solution [0, 4, 0, 0, 3, 0]
j - k = 1 in -j--k- from 0 2 0 0 0 -10 down -j---- within 12960 ==> [4] at 2 decimals, Solution [0, 10, 0, 0, 9, 0]
-- The last point is under the high end, and it comes behind the low end where a variable goes downward.
z < 0u in -----z from 0 0 0 0 0 2 down -----z within 360 ==> [2] at 2 decimals, Solution [0, 0, 0, 0, 0, -2]
z > -3u in -----z from 0 0 0 0 0 -6 down -----z within 360 ==> [2] at 2 decimals, Solution [0, 0, 0, 0, 0, 2]
z > -3u in -----z from 0 0 0 0 0 -6 within 360 ==> [2] at 2 decimals, Solution [0, 0, 0, 0, 0, -2]
z < -5u in -----z from 0 0 0 0 0 -2 within 360 ==> [2] at 2 decimals, Solution [0, 0, 0, 0, 0, -10]";

#[test]
fn searches(rt: HostRuntime) -> Result<(), Fail> {
    check(
        &rt,
        rt.alloc(),
        Topic::Expressions(Told::Search),
        SEARCHES,
        5,
    )?;
    check(
        &rt,
        rt.alloc(),
        Topic::Expressions(Told::SearchOfInts),
        TARGETS,
        14,
    )?;
    check(
        &rt,
        rt.alloc(),
        Topic::Expressions(Told::SearchOfSteps),
        POINTS,
        15,
    )
}

// What is found for the problem of a number is what going through all points finds. The answer is whether it has a solution.
fn check_problem(rt: &impl Abort, alloc: Global, number: u64) -> Result<bool, Fail> {
    let problem = Problem::make(alloc, number)?;
    let first = problem.first_by_trial();
    let mut due = format!(in alloc; "problem {number}: ")?;
    problem.put_due(&mut due, first)?;
    check_solution(rt, alloc, number, &problem, &due)?;
    Ok(first.is_some())
}

// What is found for a problem is what is due.
fn check_solution(
    rt: &impl Abort,
    alloc: Global,
    number: u64,
    problem: &Problem,
    due: &str,
) -> Result<(), Fail> {
    let mut found = format!(in alloc; "problem {number}: ")?;
    if problem.has_steps {
        put_found(&mut found, alloc, &problem.sheet, &STEPS, problem.question)?;
    } else {
        put_found(&mut found, alloc, &problem.sheet, &RANGES, problem.question)?;
    }
    check_found(rt, &found, due);
    Ok(())
}

#[test]
fn first_solutions_are_those_of_an_enumeration(rt: HostRuntime) -> Result<(), Fail> {
    let mut solved = 0u64;
    for number in 0..PROBLEMS {
        if check_problem(&rt, rt.alloc(), number)? {
            solved = solved.saturating_add(1);
        }
    }
    // Both answers come often.
    assert!(rt; solved > 100 && solved < PROBLEMS - 20);
    Ok(())
}
