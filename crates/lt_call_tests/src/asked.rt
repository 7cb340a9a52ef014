//! The words of a call.

use crate::rows::check_rows;
use std::test::Fail;

#[test]
fn words_are_read_as_they_stand(rt: HostRuntime) -> Result<(), Fail> {
    check_rows(
        &rt,
        "",
        15,
        r#"
## wrong words are told by their kind: words
f is node n() returns (b: bool) = b fby not b
= 2 lurette: usage: words\nlurette MODE FILE [-l N] [--seed N] [--precision N] [--budget N] [--node NAME] [--sut CMD] [--oracle CMD] [--replay FILE] [--locals] [--draw N] [--count N]
files 0

$

$ run f --help

$ walk f -l 5 -l 5

$ run f --draw 4

$ run f --draw

## wrong words are told by their kind: mode
f is node n() returns (b: bool) = b fby not b
= 2 lurette: usage: mode\nlurette MODE FILE [-l N] [--seed N] [--precision N] [--budget N] [--node NAME] [--sut CMD] [--oracle CMD] [--replay FILE] [--locals] [--draw N] [--count N]
files 0

$ walk f --sut c --replay t

## wrong words are told by their kind: number
f is node n() returns (b: bool) = b fby not b
= 2 lurette: usage: number\nlurette MODE FILE [-l N] [--seed N] [--precision N] [--budget N] [--node NAME] [--sut CMD] [--oracle CMD] [--replay FILE] [--locals] [--draw N] [--count N]
files 0

$ stress 1000000

$ stress +6

$ stress x --sut c --replay t

## wrong words are told by their kind: both
f is node n() returns (b: bool) = b fby not b
= 2 lurette: usage: both\nlurette MODE FILE [-l N] [--seed N] [--precision N] [--budget N] [--node NAME] [--sut CMD] [--oracle CMD] [--replay FILE] [--locals] [--draw N] [--count N]
files 0

$ run f --replay t --sut c

## options stand in any order
f is node n() returns (b: bool) = b fby not b
> #seed 0\n#inputs "b":bool\n#outputs
> #step 1\nt #outs\n#end limit 1

$ run f -l 1

$ -l1 --seed=+0 run f --budget=0360

$ run --node n f -l 1 --precision 0

$ run --precision=6 -l=01 --node=n -- f

$ --budget 1000000000000 -l 1 -- run f
"#,
    )
}
