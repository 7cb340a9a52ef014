//! Small problems, made from a number, and their solutions by going through all points.

ghost use Rattle.std.specs.Prelude.{◌<◌, ◌≤◌};

use crate::searching::Question;
use crate::sheet::Sheet;
use lt_formula::ExpNode::{
    Add, And, Eq, Ge, Gt, If, Implies, Int, Le, Local, Lt, Mul, Ne, Neg, Not, Or, Output, Real,
    Sub, Xor,
};
use lt_formula::{Valuation, value_under};
use lt_num::{Range, Value};
use std::alloc::Global;
use std::test::Fail;

/// The ranges of the outputs and the locals: a Boolean, an int and a real of each.
pub(crate) const RANGES: [Range; 6] = [
    Range {
        low: 0,
        high: 1,
        step: 1,
    },
    Range {
        low: -2,
        high: 2,
        step: 1,
    },
    Range {
        low: -1,
        high: 2,
        step: 1,
    },
    Range {
        low: 0,
        high: 1,
        step: 1,
    },
    Range {
        low: 0,
        high: 3,
        step: 1,
    },
    Range {
        low: -150,
        high: -148,
        step: 1,
    },
];

/// Such ranges with steps. The last point of the last one, 2, is under its high end.
pub(crate) const STEPS: [Range; 6] = [
    Range {
        low: 0,
        high: 1,
        step: 1,
    },
    Range {
        low: 0,
        high: 10,
        step: 2,
    },
    Range {
        low: 0,
        high: 100,
        step: 25,
    },
    Range {
        low: 0,
        high: 1,
        step: 1,
    },
    Range {
        low: 0,
        high: 9,
        step: 3,
    },
    Range {
        low: -10,
        high: 5,
        step: 4,
    },
];

// Numbers that look like drawn ones.
#[derive(Clone, Copy)]
struct Numbers {
    state: u64,
}

impl Numbers {
    // A number below another.
    fn below(&mut self, most: u64) -> u64
        requires { 1 ≤ most }
        ensures { result < most }
    {
        self.state = self
            .state
            .wrapping_mul(6_364_136_223_846_793_005)
            .wrapping_add(1_442_695_040_888_963_407);
        (self.state >> 33) % most
    }

    // Which variables are in scope, which points of these ranges they begin at, and which go downward, with ample budget.
    fn question(&mut self, ranges: &[Range; 6]) -> Question {
        let mut question = Question {
            scope: [true; 6],
            targets: [0; 6],
            down: [false; 6],
            budget: 1_000_000_000_000_000,
        };
        for i in 0..6 {
            question.scope[i] = self.below(8) > 0;
            question.targets[i] = point_at(ranges[i], self.below(count_of(ranges[i])));
            question.down[i] = self.below(2) > 0;
        }
        question
    }

    // A word for each variable.
    fn words(&mut self) -> [i64; 6] {
        let mut words = [0; 6];
        for i in 0..6 {
            words[i] = self.below(1_000) as i64;
        }
        words
    }
}

/// Constraints over the six variables, and what is searched for.
#[derive(Drop)]
pub(crate) struct Problem {
    pub(crate) sheet: Sheet,
    pub(crate) question: Question,

    /// The same where it is drawn inside of what is possible: words stand for the targets.
    pub(crate) inside: Question,

    /// Whether the ranges are those with steps.
    pub(crate) has_steps: bool,
}

impl Problem {
    /// The problem of a number.
    pub(crate) fn make(alloc: Global, number: u64) -> Result<Problem, Fail> {
        let mut numbers = Numbers { state: number };
        let mut sheet = Sheet::new(alloc)?;
        put_truths(&mut sheet, &mut numbers)?;
        let has_steps = numbers.below(2) > 0;
        let question = numbers.question(if has_steps { &STEPS } else { &RANGES });
        let inside = Question {
            targets: numbers.words(),
            ..question
        };
        Ok(Problem {
            sheet,
            question,
            inside,
            has_steps,
        })
    }

    /// The range of a variable.
    pub(crate) fn range(&self, variable: usize) -> Range
        requires { variable < 6 }
    {
        if self.has_steps {
            STEPS[variable]
        } else {
            RANGES[variable]
        }
    }

    /// Puts what is to be found, where this is the solution.
    pub(crate) fn put_due(&self, due: &mut String, solution: Option<[i64; 6]>) -> Result<(), Fail> {
        let wanted = self.sheet.numbers.as_slice();
        write!(due, "{wanted:?} at 2 decimals, ")?;
        match solution {
            Some(point) => write!(due, "Solution {point:?}")?,
            None => due.push_str("Unsat")?,
        }
        Ok(())
    }

    /// All points at which all constraints are true.
    pub(crate) fn solutions(&self, alloc: Global) -> Result<Vec<[i64; 6]>, Fail> {
        let mut solutions = Vec::new(alloc);
        for number in 0..self.points() {
            let point = self.point(number);
            if self.is_true_at(&point) {
                solutions.push(point)?;
            }
        }
        Ok(solutions)
    }

    /// The first point at which all constraints are true, by going through the points in their order.
    pub(crate) fn first_by_trial(&self) -> Option<[i64; 6]> {
        for number in 0..self.points() {
            let point = self.point(number);
            if self.is_true_at(&point) {
                return Some(point);
            }
        }
        None
    }

    // How many points there are.
    fn points(&self) -> u64 {
        let mut points = 1u64;
        for i in 0..6 {
            points = points.wrapping_mul(self.count(i));
        }
        points
    }

    // How many points a variable has.
    fn count(&self, variable: usize) -> u64
        requires { variable < 6 }
        ensures { 1 ≤ result }
    {
        if self.question.scope[variable] {
            count_of(self.range(variable))
        } else {
            1
        }
    }

    // The point with this number in the order from the targets, in which the last variable changes first.
    fn point(&self, number: u64) -> [i64; 6] {
        let mut point = [0; 6];
        let mut rest = number;
        for k in 0..6 {
            let variable = 5 - k;
            let count = self.count(variable);
            if self.question.scope[variable] {
                point[variable] = self.nth(variable, rest % count);
            }
            rest /= count;
        }
        point
    }

    // The number of a variable with this place in the order from its target on, and then from the start of its direction on.
    fn nth(&self, variable: usize, place: u64) -> i64
        requires { variable < 6 }
    {
        let range = self.range(variable);
        let count = count_of(range);
        let target = steps_between(range.low, self.question.targets[variable], range.step);
        let steps = if self.question.down[variable] {
            target.wrapping_add(count).wrapping_sub(place)
        } else {
            target.wrapping_add(place)
        };
        point_at(range, steps % count)
    }

    // Whether all constraints are true at a point.
    fn is_true_at(&self, point: &[i64; 6]) -> bool {
        let valuation = Valuation {
            inputs: &[],
            outputs: &[
                Value::Bool(point[0] != 0),
                Value::Num(point[1]),
                Value::Num(point[2]),
            ],
            locals: &[
                Value::Bool(point[3] != 0),
                Value::Num(point[4]),
                Value::Num(point[5]),
            ],
            pre_inputs: &[],
            pre_outputs: &[],
            pre_locals: &[],
            decimals: 2,
        };
        let table = &self.sheet.table;
        for exp in self.sheet.numbers.iter().copied() {
            if (exp as usize) >= table.len()
                || value_under(&valuation, table, exp) != Ok(Value::Bool(true))
            {
                return false;
            }
        }
        true
    }
}

/// How many points a range has.
pub(crate) fn count_of(range: Range) -> u64
    ensures { 1 ≤ result }
{
    steps_between(range.low, range.high, range.step).saturating_add(1)
}

// How many whole steps lead from one number to another.
fn steps_between(low: i64, high: i64, step: i64) -> u64 {
    high.abs_diff(low) / step.unsigned_abs().max(1)
}

/// The point of a range so many steps over its low end.
pub(crate) fn point_at(range: Range, steps: u64) -> i64 {
    let steps = i64::try_from(steps).unwrap_or(0);
    range.low.wrapping_add(range.step.wrapping_mul(steps))
}

// Puts three constraints, whose numbers are those that are wanted.
fn put_truths(sheet: &mut Sheet, numbers: &mut Numbers) -> Result<(), Fail> {
    for _ in 0..3u32 {
        let number = put_truth(sheet, numbers)?;
        sheet.numbers.push(number)?;
    }
    Ok(())
}

// Puts a constraint: two simple ones that are joined, or denied, or one of them chosen.
fn put_truth(sheet: &mut Sheet, numbers: &mut Numbers) -> Result<u32, Fail> {
    let a = put_simple(sheet, numbers)?;
    let b = put_simple(sheet, numbers)?;
    let node = match numbers.below(9) {
        0 => And(a, b),
        1 => Or(a, b),
        2 => Xor(a, b),
        3 => Implies(a, b),
        4 => Eq(a, b),
        5 => Ne(a, b),
        6 => Not(a),
        7 => If(put_simple(sheet, numbers)?, a, b),
        _ => return Ok(a),
    };
    sheet.put(node)
}

// Puts a Boolean variable or a comparison.
fn put_simple(sheet: &mut Sheet, numbers: &mut Numbers) -> Result<u32, Fail> {
    if numbers.below(4) == 0 {
        return sheet.put(if numbers.below(2) == 0 {
            Output(0)
        } else {
            Local(0)
        });
    }
    let is_real = numbers.below(2) == 0;
    let a = put_number(sheet, numbers, is_real)?;
    let b = put_number(sheet, numbers, is_real)?;
    let node = match numbers.below(6) {
        0 => Eq(a, b),
        1 => Ne(a, b),
        2 => Lt(a, b),
        3 => Le(a, b),
        4 => Gt(a, b),
        _ => Ge(a, b),
    };
    sheet.put(node)
}

// Puts a number: a sum of a constant and a variable of one kind, either of which may have another sign or factor.
fn put_number(sheet: &mut Sheet, numbers: &mut Numbers, is_real: bool) -> Result<u32, Fail> {
    let place = if is_real { 2 } else { 1 };
    let variable = sheet.put(if numbers.below(2) == 0 {
        Output(place)
    } else {
        Local(place)
    })?;
    let raw = numbers.below(9) as i64 - 4;
    let constant = sheet.put(if is_real { Real(raw) } else { Int(raw) })?;
    let node = match numbers.below(6) {
        0 => Add(variable, constant),
        1 => Sub(constant, variable),
        2 => Neg(variable),
        3 if !is_real => Mul(constant, variable),
        4 => Add(variable, variable),
        _ => return Ok(variable),
    };
    sheet.put(node)
}
