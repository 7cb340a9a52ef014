//! What diagrams of four flags say, and their paths, with ample memory, which no clause can promise.

ghost use Rattle.std.specs.Prelude.{◌≤◌, IfOk, length};
ghost use Rattle.lt_diagram.specs.DiagramView.{NamesBelow};

use crate::formulas::{diagram_of, formula_of};
use crate::rows::{Told, check, halves};
use lt_diagram::{Diagram, next_path, value_at};
use std::alloc::Global;
use std::test::Fail;

// Each row has a formula, and its truths from that of four false flags to that of four true ones.
const TRUTHS: &str = "\
true ==> tttttttttttttttt
false ==> ffffffffffffffff
2 ==> ffttffttffttfftt
3 not ==> tftftftftftftftf
0 1 and ==> fffffffffffftttt
0 3 or ==> ftftftfttttttttt
1 2 xor ==> ffttttffffttttff
0 1 2 if ==> ffttffttfffftttt
0 1 and 2 not xor ==> ttffttffttfffftt
0 1 xor 2 xor 3 xor ==> fttftffttfftfttf
0 0 not and ==> ffffffffffffffff
1 1 xor not ==> tttttttttttttttt
0 1 and 2 3 and or ==> ffftffftfffttttt
3 2 or 1 0 or and not ==> tttttffftffftfff
0 1 2 3 1 if if ==> ffftttftfffftttt
true 2 xor 3 false or 0 if ==> ftffftffftttfttt";

/// Puts the truths of a formula.
pub(crate) fn put_truths(found: &mut String, alloc: Global, given: &str) -> Result<(), Fail> {
    let diagram = built(alloc, given)?;
    found.push_str(" ")?;
    for number in 0..16u32 {
        let flags = [
            number & 8 != 0,
            number & 4 != 0,
            number & 2 != 0,
            number & 1 != 0,
        ];
        found.push_str(letter(Some(value_at(&diagram, &flags))))?;
    }
    Ok(())
}

// The diagram of a formula of four flags.
fn built(alloc: Global, text: &str) -> Result<Diagram, Fail>
    ensures { IfOk result (NamesBelow 4) }
{
    let formula = formula_of(alloc, text)?;
    Ok(diagram_of(alloc, &formula, 4)??)
}

// Each row has a formula, truths of the first flags, and the formula's paths that agree with these: `-` stands for a flag that
// isn't asked.
const PATHS: &str = "\
true ==> ----
false ==>
2 ==> --t-
3 not within tt ==> ---f
0 1 and 2 not xor ==> f-f- tff- ttt-
0 1 and 2 not xor within tt ==> ttt-
0 1 and 2 not xor within ttf ==>
0 1 and 2 not xor within f ==> f-f-
0 1 xor 2 xor 3 xor ==> ffft fftf ftff fttt tfff tftt ttft tttf
0 1 xor 2 xor 3 xor within tft ==> tftt
0 1 and 2 3 and or ==> f-tt tftt tt--
0 1 and 2 3 and or within f ==> f-tt
0 1 and 2 3 and or within tt ==> tt--
3 2 or 1 0 or and not ==> ff-- ftff t-ff
3 2 or 1 0 or and not within tf ==> t-ff
0 1 2 3 1 if if ==> fftt ftf- fttt tt--
0 1 2 3 1 if if within ffft ==>
0 0 not and ==>
1 1 xor not within ft ==> ----
0 1 2 if within t ==> tt--
0 3 or ==> f--t t---
0 3 or within t ==> t---
0 3 or within ffff ==>
0 3 or within fffttt ==> f--t";

/// Puts the paths of a formula within fixed truths.
pub(crate) fn put_paths(found: &mut String, alloc: Global, given: &str) -> Result<(), Fail> {
    let (formula, fixed) = halves(given, " within ");
    let diagram = built(alloc, formula)?;
    let mut truths = Vec::new(alloc);
    for letter in fixed.chars() {
        truths.push(letter == 't')?;
    }
    put_each(found, &diagram, &truths)
}

// Puts each path.
fn put_each(found: &mut String, diagram: &Diagram, fixed: &[bool]) -> Result<(), Fail>
    requires { NamesBelow 4 diagram.now }
{
    let mut path = [None; 4];
    let mut begun = false;
    'paths: for _ in 0..17u32 {
        if !next_path(diagram, fixed, &mut path, begun) {
            return Ok(());
        }
        begun = true;
        put_path(found, path)?;
    }
    Err(Fail::new("the paths don't end"))
}

// Puts a path.
fn put_path(found: &mut String, path: [Option<bool>; 4]) -> Result<(), Fail> {
    found.push_str(" ")?;
    for i in 0..4 {
        found.push_str(letter(path[i]))?;
    }
    Ok(())
}

// The letter of a truth, if there is one.
fn letter(truth: Option<bool>) -> &'static str {
    match truth {
        Some(true) => "t",
        Some(false) => "f",
        None => "-",
    }
}

#[test]
fn formulas_and_their_diagrams(rt: HostRuntime) -> Result<(), Fail> {
    check(&rt, rt.alloc(), Told::Truths, TRUTHS, 16)?;
    check(&rt, rt.alloc(), Told::Paths, PATHS, 24)
}
