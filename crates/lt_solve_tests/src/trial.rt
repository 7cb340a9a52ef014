//! What is drawn inside of a small problem, by the rule itself and over all of its solutions.

ghost use Rattle.std.specs.Prelude.{◌<◌};

use crate::problems::{Problem, count_of, point_at};
use lt_num::Range;
use std::alloc::Global;
use std::test::Fail;

/// What is drawn inside of a problem: each variable in turn gets its value, and the solutions in which it has another one go.
pub(crate) fn inside_by_trial(alloc: Global, problem: &Problem) -> Result<Option<[i64; 6]>, Fail> {
    let mut left = problem.solutions(alloc)?;
    for variable in 0..6 {
        let Some(value) = value_inside(problem, variable, &left) else {
            return Ok(None);
        };
        left = with_value(alloc, &left, variable, value)?;
    }
    Ok(left.first().copied())
}

// The value that a variable gets, where these solutions are left: the numbers that it has in them are its possible ones. Its target
// lies between the least and the greatest of these, and from there it goes to the first one in its direction.
fn value_inside(problem: &Problem, variable: usize, left: &[[i64; 6]]) -> Option<i64>
    requires { variable < 6 }
{
    let (low, high) = ends_of(variable, left)?;
    let part = Range {
        low,
        high,
        step: problem.range(variable).step,
    };
    let word = problem.inside.targets[variable].unsigned_abs();
    let target = point_at(part, word % count_of(part));
    first_from(target, problem.inside.down[variable], variable, left)
}

// The least and the greatest number that a variable has in solutions.
fn ends_of(variable: usize, solutions: &[[i64; 6]]) -> Option<(i64, i64)>
    requires { variable < 6 }
{
    let first = solutions.first()?[variable];
    let mut low = first;
    let mut high = first;
    for solution in solutions {
        low = low.min(solution[variable]);
        high = high.max(solution[variable]);
    }
    Some((low, high))
}

// The first number from a target on, upward or downward, that a variable has in solutions.
fn first_from(target: i64, is_down: bool, variable: usize, solutions: &[[i64; 6]]) -> Option<i64>
    requires { variable < 6 }
{
    let mut first: Option<i64> = None;
    for solution in solutions {
        let number = solution[variable];
        let is_behind = if is_down {
            number <= target
        } else {
            target <= number
        };
        let is_nearer = match first {
            Some(other) => target.abs_diff(number) < target.abs_diff(other),
            None => true,
        };
        if is_behind && is_nearer {
            first = Some(number);
        }
    }
    first
}

// The solutions in which a variable has this value.
fn with_value(
    alloc: Global,
    solutions: &[[i64; 6]],
    variable: usize,
    value: i64,
) -> Result<Vec<[i64; 6]>, Fail>
    requires { variable < 6 }
{
    let mut kept = Vec::new(alloc);
    for solution in solutions {
        if solution[variable] == value {
            kept.push(*solution)?;
        }
    }
    Ok(kept)
}
