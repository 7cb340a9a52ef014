//! Traces with the values of locals.

use crate::rows::check_rows;
use std::test::Fail;

#[test]
fn locals_are_written_where_they_are_in_scope(rt: HostRuntime) -> Result<(), Fail> {
    check_rows(
        &rt,
        "",
        4,
        r#"
## locals are written where they are in scope

$ run f --locals -l 3
f is node n() returns (x: int [0;9]) = loop { exist v: int [0;9] = 0 in { x = v and v = pre v + 1 fby x = v and v = pre v + 1 } }
> #seed 0\n#inputs "x":int\n#outputs\n#locals "v.1":int
> #step 1\n1 #outs #locs 1\n#step 2\n2 #outs #locs 2\n#step 3\n1 #outs #locs 1
> #end limit 3

$ run f --locals
f is node n() returns (x: int [0;3]) = x = 1 fby { exist v: int [0;9] = 0 in x = v and v = pre v + 2 }
> #seed 0\n#inputs "x":int\n#outputs\n#locals "v.1":int
> #step 1\n1 #outs #locs ?\n#step 2\n2 #outs #locs 2
> #end normal 2

$ run f --locals
f is node n() returns (x: int [0;3]) = { exist v: int [0;9] = 0 in x = v and v = pre v + 2 } fby x = 1
> #seed 0\n#inputs "x":int\n#outputs\n#locals "v.1":int
> #step 1\n2 #outs #locs 2\n#step 2\n1 #outs #locs ?
> #end normal 2

$ run f -l 1 --locals
f is node n() returns (b: bool) = b fby not b
> #seed 0\n#inputs "b":bool\n#outputs\n#locals
> #step 1\nt #outs #locs
> #end limit 1
"#,
    )
}
