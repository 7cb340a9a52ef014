//! Runs against a program of the system, `cat`, which gives each line back.

use crate::calling::called;
use lt_io::ChildSpawner;
use std::process::{Processes, SystemProcess};
use std::test::Fail;

// What comes of the run of a row beside `cat`.
fn found_beside_cat<R: Processes<Started = SystemProcess> + AllocGlobal>(
    rt: &R,
    row: &str,
) -> Result<String, Fail> {
    let mut programs = ChildSpawner::new(rt, rt.alloc());
    called(rt.alloc(), row, 10_000_000, &mut programs)
}

const STEADY: &str = r"
$ run f --sut cat -l 3
f is node n(y: int [5;9]) returns (x: int [0;9]) = loop x = y
";

#[test]
fn a_controller_of_the_system_answers_each_line(rt: HostRuntime) -> Result<(), Fail> {
    let found = found_beside_cat(&rt, STEADY)?;
    let due =
        "#seed 0\n#inputs \"x\":int\n#outputs \"y\":int\n#step 1\n5 #outs 5\n#step 2\n5 #outs 5\n#step 3\n5 #outs 5\n#end limit 3\n0 files 1\n";
    assert_eq!(rt; found.as_str(), due);
    Ok(())
}

// It has 22 outputs of ten digits each, and one input.
const WIDE: &str = r"
$ run f --sut cat -l 20000
f is node n(y: int) returns (a, b, c, d, e, f, g, h, i, j, k, l, m, n, o, p, q, r, s, t, u, v: int [1000000000;1000000000]) = loop true
";

#[test]
fn a_controller_that_answers_more_than_it_is_asked_ends_the_run(
    rt: HostRuntime,
) -> Result<(), Fail> {
    let found = found_beside_cat(&rt, WIDE)?;
    let (_, end) = found
        .rsplit_once("\n#end device controller ")
        .unwrap_or(("", ""));
    let (number, said) = end
        .split_once("\n9 lurette: device controller ")
        .unwrap_or(("none", ""));
    // The line that is said has the number of the end line.
    assert_eq!(rt; said.strip_suffix("\nfiles 1\n"), Some(number));
    Ok(())
}
