//! Large runs. Their sums were computed from the rules of `docs/LANGUAGE.md` and `docs/COMMAND.md`, by other programs.

use crate::rows::check_rows;
use std::test::Fail;

#[test]
fn large_runs_are_told_by_their_lines(rt: HostRuntime) -> Result<(), Fail> {
    check_rows(
        &rt,
        "",
        8,
        "
## a large run is told by its line
files 0

$ stress 0
> stress 0 vars 2 steps 100 sum 7947

$ stress 6
> stress 6 vars 2 steps 106 sum 9489

$ stress 1
> stress 1 vars 3 steps 101 sum 14897

$ stress 007
> stress 7 vars 3 steps 107 sum 15354

$ stress 5
> stress 5 vars 7 steps 105 sum 44544

$ stress 999999
> stress 999999 vars 5 steps 199 sum 54958

$ stress 6 --sut p --replay r
> stress 6 vars 2 steps 106 sum 9489

## a line that cannot be written is blamed on the trace
files 0

$ stress 6
trace holds 9
> stress 6 vars 2 steps 106 sum 9489
= 9 lurette: device trace 0
",
    )
}
