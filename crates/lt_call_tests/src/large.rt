//! Long runs, and long texts.

use crate::rows::check_rows;
use std::alloc::{AllocError, Global};
use std::test::Fail;

// The lines of a row that say the header, and a thousand steps of a variable that is true in each odd step and false in
// each even one.
fn thousand_steps(alloc: Global) -> Result<String, AllocError> {
    let mut lines = String::from_str(alloc, "> #seed 0\\n#inputs \"b\":bool\\n#outputs\n")?;
    for before in 0..1_000u32 {
        let value = if before % 2 == 0 { "t" } else { "f" };
        let step = u64::from(before) + 1;
        let text = format!(in alloc; "> #step {step}\\n{value} #outs\n")?;
        lines.push_str(&text)?;
    }
    Ok(lines)
}

#[test]
fn a_thousand_steps_are_written(rt: HostRuntime) -> Result<(), Fail> {
    let steps = thousand_steps(rt.alloc())?;
    check_rows(
        &rt,
        &steps,
        2,
        r#"
$ run f -l 1000
f is node n() returns (b: bool) = loop { b fby not b }
> #end limit 1000

-- A program of some thousand tokens.
$ run f -l 1000000
f is node n() returns (b: bool) = b fby not b<<499 times  fby b fby not b>>
> #end normal 1000
"#,
    )
}

#[test]
fn long_texts_are_printed_and_refused(rt: HostRuntime) -> Result<(), Fail> {
    check_rows(
        &rt,
        "",
        3,
        r"
## a program of some thousand tokens is printed

$ print f
f is node n() returns (b: bool) = b fby not b<<499 times  fby b fby not b>>
> node n ( ) returns ( b : bool ) = b fby not b<<499 times  fby b fby not b>>

## long files are refused
$ run f

f is <<1048576 times \s>>
= 3 lurette: refused type.NoNode

f is <<1048577 times \s>>
= 3 lurette: refused file.TooLong
",
    )
}
