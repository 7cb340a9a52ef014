//! Searches for first solutions.

ghost use Rattle.std.specs.Prelude.{◌≡◌, IsTrue, nat_lt};
ghost use Rattle.std.specs.List.{list_all};
ghost use Rattle.lt_formula.specs.Solution.{IsPointOf};
ghost use Rattle.lt_formula.specs.View.{table_len};
ghost use Rattle.lt_num.specs.Range.{is_point};
ghost use Rattle.lt_solver.specs.Domains.{are_domains, is_domain};

use crate::rows::halves;
use crate::sheet::{Sheet, known};
use lt_formula::Table;
use lt_num::{Arith, Range, points_are_those, test_tells_points};
use lt_solver::{Answer, Workspace};
use lt_space::Space;
use std::alloc::Global;
use std::test::Fail;

/// What is searched for. There are two marks and a target for each output and then for each local.
#[derive(Clone, Copy)]
pub(crate) struct Question {
    /// Which variables are in scope.
    pub(crate) scope: [bool; 6],

    /// The numbers that they begin at.
    pub(crate) targets: [i64; 6],

    /// Which go downward.
    pub(crate) down: [bool; 6],

    /// The budget.
    pub(crate) budget: u64,
}

/// A question: the variables in scope, where others have a `-`, the targets `from` which it goes, those that go `down`, if
/// there are any, and the budget that it stays `within`, as `-j--k- from 0 2 0 0 2 0 down -j---- within 32`.
pub(crate) fn question_of(text: &str) -> Result<Question, Fail> {
    let (marks, rest) = halves(text, " from ");
    let (places, budget) = halves(rest, " within ");
    let (targets, down) = halves(places, " down ");
    let mut question = Question {
        scope: marks_of(marks),
        targets: [0; 6],
        down: marks_of(down),
        budget: budget.parse()?,
    };
    let mut words = targets.split(' ');
    for i in 0..6 {
        question.targets[i] = words.next().unwrap_or("").parse()?;
    }
    Ok(question)
}

/// A mark for each variable that has its letter there, where others have a `-`, as `-j--k-`.
pub(crate) fn marks_of(letters: &str) -> [bool; 6] {
    let mut marks = [false; 6];
    for i in 0..6 {
        marks[i] = !matches!(letters.as_bytes().get(i), None | Some(b'-'));
    }
    marks
}

/// A space with the constraints that were read, which are loaded where there are any, and the fault if they have one.
pub(crate) fn load(alloc: Global, sheet: &Sheet) -> Result<(Space, Result<(), Arith>), Fail> {
    let numbers = sheet.numbers.as_slice();
    if !are_within(&sheet.table, numbers) {
        return Err(Fail::new("an expression is missing"));
    }
    sheet.check_size()?;
    let mut space = Space::make(alloc, &sheet.table, numbers.len())?;
    let mut loaded = Ok(());
    if !numbers.is_empty() {
        // What is loaded takes the place of what was loaded before.
        let _before = space.load(&sheet.table, numbers, &known());
        loaded = space.load(&sheet.table, numbers, &known());
    }
    Ok((space, loaded))
}

// Whether a table has expressions of these numbers.
fn are_within(table: &Table, numbers: &[u32]) -> bool
    ensures { result ≡ list_all (λ exp. nat_lt exp (table_len table.now)) numbers.now }
{
    numbers
        .iter()
        .all(|number| (*number as usize) < table.len())
}

/// Puts what comes of the constraints that were read, loaded and searched for their first solution within these ranges.
pub(crate) fn put_found(
    found: &mut String,
    alloc: Global,
    sheet: &Sheet,
    ranges: &[Range; 6],
    question: Question,
) -> Result<(), Fail>
    requires { IsTrue (are_domains ranges.now) }
{
    let (space, loaded) = load(alloc, sheet)?;
    put_solution(found, alloc, &space, loaded, ranges, question)
}

// Puts the fault of constraints, if there is one, and what a search for the first solution within these ranges finds.
fn put_solution(
    found: &mut String,
    alloc: Global,
    space: &Space,
    loaded: Result<(), Arith>,
    ranges: &[Range; 6],
    question: Question,
) -> Result<(), Fail>
    requires { IsTrue (are_domains ranges.now) }
{
    if let Err(fault) = loaded {
        write!(found, "{fault:?}, ")?;
    }
    if !are_points(ranges, &question.targets) {
        return Err(Fail::new("a target is no point"));
    }
    let mut workspace = Workspace::make(alloc, ranges, space.gates())?;
    let answer = workspace.first_from(
        space,
        &question.scope,
        &question.targets,
        &question.down,
        question.budget,
    );
    put_answer(found, space, answer, workspace.values())
}

// Whether each target is a point of its range.
fn are_points(ranges: &[Range; 6], targets: &[i64; 6]) -> bool
    requires { IsTrue (are_domains ranges.now) }
    ensures { IsTrue result → IsPointOf ranges.now targets.now }
{
    points_are_those();
    test_tells_points();
    for i in 0..6 {
        if !is_point(ranges[i], targets[i]) {
            return false;
        }
    }
    true
}

// Whether a number is a point of a range.
fn is_point(range: Range, raw: i64) -> bool
    requires { IsTrue (is_domain range) }
    ensures { IsTrue result → IsTrue (is_point range raw) }
{
    if raw < range.low || range.high < raw {
        return false;
    }
    raw.abs_diff(range.low) % range.step.unsigned_abs() == 0
}

/// Puts which constraints are loaded, at how many decimals, the answer of a search, and the values of a solution, as
/// `[4] at 2 decimals, Solution [0, 2, 0, 0, 1, 0]`.
pub(crate) fn put_answer(
    found: &mut String,
    space: &Space,
    answer: Answer,
    values: &[i64],
) -> Result<(), Fail> {
    let (wanted, decimals) = (space.wanted(), space.decimals());
    write!(found, "{wanted:?} at {decimals} decimals, {answer:?}")?;
    if answer == Answer::Solution {
        write!(found, " {values:?}")?;
    }
    Ok(())
}
