//! That ranges are judged as they are rounded.

use crate::found::Asked;
use crate::rows::check;
use std::test::Fail;

// Heads of nodes, behind which the range of an output stands.
const REAL: &str = "node n() returns (x: real [";

const INT: &str = "node n() returns (i: int [";

// Ranges of reals without decimals.
const ROUGH: &str = "\
0.4; 0.0]) = true ==> Accepted
@0.5@; 0.4]) = true ==> EmptyRange
-0.4; -0.49]) = true ==> Accepted
0.0; 1000000000000.4]) = true ==> Accepted
0.0; @1000000000000.5@]) = true ==> RangeTooLarge
0.0; 1.0; 0.5]) = true ==> Accepted
0.0; 1.0; @0.4@]) = true ==> BadStep";

// Ranges of reals with two decimals.
const HUNDREDTHS: &str = "\
@0.4@; 0.0]) = true ==> EmptyRange
0.004; 0.0]) = true ==> Accepted
0.0; 10000000000.004]) = true ==> Accepted
0.0; @10000000000.005@]) = true ==> RangeTooLarge
0.0; 1.0; 0.005]) = true ==> Accepted
0.0; 1.0; @0.004@]) = true ==> BadStep
0.0; 1.0; @-0.25@]) = true ==> BadStep
0.0; 1.0; 5.0]) = true ==> Accepted
0.0; 1.0; 10000000000.004]) = true ==> Accepted
0.0; 1.0; @10000000000.005@]) = true ==> RangeTooLarge";

// Ranges of reals with six decimals.
const FINE: &str = "\
@0.004@; 0.0]) = true ==> EmptyRange
0.0000004; 0.0]) = true ==> Accepted
-1000000.0000004; 0.0]) = true ==> Accepted
@-1000000.0000005@; 0.0]) = true ==> RangeTooLarge
0.0; 1.0; 0.0000005]) = true ==> Accepted
0.0; 1.0; @0.0000004@]) = true ==> BadStep";

// Ranges of ints, which have no decimals.
const WHOLE: &str = "\
0; 1000000000000]) = true ==> Accepted
0; @1000000000001@]) = true ==> RangeTooLarge
0; 3; 1]) = true ==> Accepted
0; 3; @0@]) = true ==> BadStep
0; 3; @-1@]) = true ==> BadStep
0; 3; 1000000000000]) = true ==> Accepted
0; 3; @1000000000001@]) = true ==> RangeTooLarge
0; 3; @-1000000000001@]) = true ==> RangeTooLarge";

#[test]
fn ranges_are_judged_as_rounded(rt: HostRuntime) -> Result<(), Fail> {
    check(&rt, rt.alloc(), Asked::RoughTypes, REAL, ROUGH)?;
    check(&rt, rt.alloc(), Asked::Types, REAL, HUNDREDTHS)?;
    check(&rt, rt.alloc(), Asked::FineTypes, REAL, FINE)?;
    check(&rt, rt.alloc(), Asked::FineTypes, INT, WHOLE)
}
