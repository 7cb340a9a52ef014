//! Ranges with steps.

use crate::rows::check_rows;
use std::test::Fail;

#[test]
fn values_are_points_of_their_ranges(rt: HostRuntime) -> Result<(), Fail> {
    check_rows(&rt, "$ run f", 16, STEPS)
}

const STEPS: &str = r#"
## values are points

-- The points are 0.00, 0.25, 0.50, 0.75 and 1.00.
f is node n() returns (x: real [0.00;1.00;0.25]) = x > 0.60 and x < 0.80
> #seed 0\n#inputs "x":real\n#outputs
> #step 1\n0.75 #outs\n#end normal 1

f is node n() returns (x: real [0.00;1.00;0.25]) = x > 0.51 and x < 0.74
> #seed 0\n#inputs "x":real\n#outputs
> #end deadlock 1
= 4 lurette: deadlock 1

f is node n() returns (x, y: int [0;9;3]) = y = x + 3 and x >= 4
> #seed 0\n#inputs "x":int "y":int\n#outputs
> #step 1\n6 9 #outs\n#end normal 1

-- The step misses the high end.
f is node n() returns (x: int [0;9;4]) = x > 4
> #seed 0\n#inputs "x":int\n#outputs
> #step 1\n8 #outs\n#end normal 1

f is node n() returns (x: int [0;9;4]) = x = 9
> #seed 0\n#inputs "x":int\n#outputs
> #end deadlock 1
= 4 lurette: deadlock 1

-- A step past the high end leaves the low end alone.
f is node n() returns (x: int [-7;9;100]) = x <> 3
> #seed 0\n#inputs "x":int\n#outputs
> #step 1\n-7 #outs\n#end normal 1

-- A local has a step too.
f is node n() returns (x: int [0;9]) = exist d: int [1;9;4] in x = d and x > 5
> #seed 0\n#inputs "x":int\n#outputs
> #step 1\n9 #outs\n#end normal 1

-- It has the points 3 and 7. The word of its target is even, so that is the first one.
f is node n() returns (x: int [3;8;4]) = x >= 3
> #seed 0\n#inputs "x":int\n#outputs
> #step 1\n3 #outs\n#end normal 1

## steps that contradict each other are found at once

f is node n() returns (x, y: int [0;1000000000000;2]) = x = y + 1
> #seed 0\n#inputs "x":int "y":int\n#outputs
> #end deadlock 1
= 4 lurette: deadlock 1

f is node n() returns (x: int [0;1000000000000;3]; y: int [1;1000000000000;3]) = x = y
> #seed 0\n#inputs "x":int "y":int\n#outputs
> #end deadlock 1
= 4 lurette: deadlock 1

## steps are refused

f is node n() returns (x: int [0;3;0]) = true
= 3 lurette: refused type.BadStep at 30

f is node n() returns (x: int [0;3;-1]) = true
= 3 lurette: refused type.BadStep at 30

-- It is rounded to 0.
f is node n() returns (x: real [0.0;3.0;0.004]) = true
= 3 lurette: refused type.BadStep at 35

f is node n() returns (x: int [3;0;0]) = true
= 3 lurette: refused type.EmptyRange at 26

f is node n(x: int [0;3;1]) returns (y: int) = true
= 3 lurette: refused type.Mismatch at 7

f is node n() returns (x: int [0;9;3] = 7) = true
= 3 lurette: refused expand.BadStatic at 35
"#;
