//! That the definitions mean what the rules of numbers say.

use crate::rows::{check, halves, kind_of};
use crate::subject::Subject;
use lt_num::{Arith, Fixed, Value, add, div, mul, print, read, sub};
use std::process::Abort;
use std::str;
use std::test::Fail;

// An operand, a sign, and other operands, each at a number of decimals, with what comes of each. All are raw numbers.
const ANSWERS: &str = "
a half of a number is rounded away from zero: by a quotient by -2
0 / -2 at 0, -20 at 1, -200 at 2, -2000 at 3, -20000 at 4, -200000 at 5, -2000000 at 6 ==> 0 0 0 0 0 0 0
1 / -2 at 0, -20 at 1, -200 at 2, -2000 at 3, -20000 at 4, -200000 at 5, -2000000 at 6 ==> -1 -1 -1 -1 -1 -1 -1
-1 / -2 at 0, -20 at 1, -200 at 2, -2000 at 3, -20000 at 4, -200000 at 5, -2000000 at 6 ==> 1 1 1 1 1 1 1
2 / -2 at 0, -20 at 1, -200 at 2, -2000 at 3, -20000 at 4, -200000 at 5, -2000000 at 6 ==> -1 -1 -1 -1 -1 -1 -1
3 / -2 at 0, -20 at 1, -200 at 2, -2000 at 3, -20000 at 4, -200000 at 5, -2000000 at 6 ==> -2 -2 -2 -2 -2 -2 -2
-3 / -2 at 0, -20 at 1, -200 at 2, -2000 at 3, -20000 at 4, -200000 at 5, -2000000 at 6 ==> 2 2 2 2 2 2 2
4 / -2 at 0, -20 at 1, -200 at 2, -2000 at 3, -20000 at 4, -200000 at 5, -2000000 at 6 ==> -2 -2 -2 -2 -2 -2 -2
-4 / -2 at 0, -20 at 1, -200 at 2, -2000 at 3, -20000 at 4, -200000 at 5, -2000000 at 6 ==> 2 2 2 2 2 2 2
1999999999999 / -2 at 0, -20 at 1, -200 at 2, -2000 at 3, -20000 at 4, -200000 at 5, -2000000 at 6 ==> -1000000000000 -1000000000000 -1000000000000 -1000000000000 -1000000000000 -1000000000000 -1000000000000
-1999999999999 / -2 at 0, -20 at 1, -200 at 2, -2000 at 3, -20000 at 4, -200000 at 5, -2000000 at 6 ==> 1000000000000 1000000000000 1000000000000 1000000000000 1000000000000 1000000000000 1000000000000

and by a product with 0.5
0 * 5 at 1, 50 at 2, 500 at 3, 5000 at 4, 50000 at 5, 500000 at 6 ==> 0 0 0 0 0 0
1 * 5 at 1, 50 at 2, 500 at 3, 5000 at 4, 50000 at 5, 500000 at 6 ==> 1 1 1 1 1 1
-1 * 5 at 1, 50 at 2, 500 at 3, 5000 at 4, 50000 at 5, 500000 at 6 ==> -1 -1 -1 -1 -1 -1
2 * 5 at 1, 50 at 2, 500 at 3, 5000 at 4, 50000 at 5, 500000 at 6 ==> 1 1 1 1 1 1
3 * 5 at 1, 50 at 2, 500 at 3, 5000 at 4, 50000 at 5, 500000 at 6 ==> 2 2 2 2 2 2
-3 * 5 at 1, 50 at 2, 500 at 3, 5000 at 4, 50000 at 5, 500000 at 6 ==> -2 -2 -2 -2 -2 -2
4 * 5 at 1, 50 at 2, 500 at 3, 5000 at 4, 50000 at 5, 500000 at 6 ==> 2 2 2 2 2 2
-4 * 5 at 1, 50 at 2, 500 at 3, 5000 at 4, 50000 at 5, 500000 at 6 ==> -2 -2 -2 -2 -2 -2
1999999999999 * 5 at 1, 50 at 2, 500 at 3, 5000 at 4, 50000 at 5, 500000 at 6 ==> 1000000000000 1000000000000 1000000000000 1000000000000 1000000000000 1000000000000
-1999999999999 * 5 at 1, 50 at 2, 500 at 3, 5000 at 4, 50000 at 5, 500000 at 6 ==> -1000000000000 -1000000000000 -1000000000000 -1000000000000 -1000000000000 -1000000000000

sums and differences are exact, up to the bound
1000000000000 + 1 at 0 ==> Overflow
999999999999 + 1 at 0 ==> 1000000000000
-999999999999 + -1 at 0 ==> -1000000000000
-1000000000000 + -1 at 0 ==> Overflow
-9223372036854775808 + 9223372036854775807 at 0 ==> -1
-999999999999 - 1 at 0 ==> -1000000000000
1000000000000 - -1 at 0 ==> Overflow

products are rounded, and then within the bound
90 * 81 at 2 ==> 73
-7 * 6 at 0 ==> -42
10000000000004 * 1 at 1 ==> 1000000000000
-10000000000004 * 1 at 1 ==> -1000000000000
10000000000005 * -1 at 1 ==> Overflow
1000000000000499999 * 1 at 6 ==> 1000000000000
1000000000000500000 * 1 at 6 ==> Overflow
-9223372036854775808 * -9223372036854775808 at 6 ==> Overflow

quotients are too, and there is none by 0
-5 / 200 at 2, 0 at 2 ==> -3 DivisionByZero
1 / 3 at 6, 0 at 6 ==> 333333 DivisionByZero
2 / -3 at 6, 0 at 6 ==> -666667 DivisionByZero
5000000000002 / 5 at 0, 0 at 0 ==> 1000000000000 DivisionByZero
-5000000000002 / 5 at 0, 0 at 0 ==> -1000000000000 DivisionByZero
5000000000003 / -5 at 0, 0 at 0 ==> Overflow DivisionByZero
-9223372036854775808 / 1 at 6, 0 at 6 ==> Overflow DivisionByZero

numbers are printed at each number of decimals
0 printed at 0, at 1, at 2, at 3, at 4, at 5, at 6 ==> 0 0.0 0.00 0.000 0.0000 0.00000 0.000000
5 printed at 0, at 1, at 2, at 3, at 4, at 5, at 6 ==> 5 0.5 0.05 0.005 0.0005 0.00005 0.000005
-5 printed at 0, at 1, at 2, at 3, at 4, at 5, at 6 ==> -5 -0.5 -0.05 -0.005 -0.0005 -0.00005 -0.000005
-1000000000000 printed at 0, at 1, at 2, at 3, at 4, at 5, at 6 ==> -1000000000000 -100000000000.0 -10000000000.00 -1000000000.000 -100000000.0000 -10000000.00000 -1000000.000000
-9223372036854775808 printed at 0, at 1, at 2, at 3, at 4, at 5, at 6 ==> -9223372036854775808 -922337203685477580.8 -92233720368547758.08 -9223372036854775.808 -922337203685477.5808 -92233720368547.75808 -9223372036854.775808
";

/// Puts what comes of the operands of a row, with a blank after each.
pub fn put_answers(found: &mut String, given: &str) -> Result<(), Fail> {
    let (number, rest) = halves(given, " ")?;
    let (sign, others) = halves(rest, " ")?;
    let number = Fixed {
        raw: number.parse()?,
    };
    for other in others.split(", ") {
        put_answer_at(found, number, sign, other)?;
        found.push(' ')?;
    }
    Ok(())
}

// Puts what comes of a number and another one, as `-20 at 1`, or of one that is printed `at 1`.
fn put_answer_at(found: &mut String, number: Fixed, sign: &str, other: &str) -> Result<(), Fail> {
    let (other, decimals) = halves(other, "at ")?;
    let decimals = decimals.parse()?;
    // What an operation asks of its decimals.
    if decimals > 6 {
        return Err(Fail::new("0 to 6 decimals"));
    }
    if sign == "printed" {
        let mut into = [0; 24];
        let count = print(number, decimals, &mut into);
        return Ok(found.push_str(str::from_utf8(&into[..count])?)?);
    }
    let other = Fixed {
        raw: other.trim_end().parse()?,
    };
    match sign {
        "+" => put_answer(found, add(number, other)),
        "-" => put_answer(found, sub(number, other)),
        "*" => put_answer(found, mul(number, other, decimals)),
        "/" => put_answer(found, div(number, other, decimals)),
        _ => Err(Fail::new("a sign")),
    }
}

// Puts the raw number of an answer, or its fault.
fn put_answer(found: &mut String, answer: Result<Fixed, Arith>) -> Result<(), Fail> {
    match answer {
        Ok(number) => write!(found, "{}", number.raw)?,
        Err(fault) => write!(found, "{fault:?}")?,
    }
    Ok(())
}

// Values by kind and raw number, each with its own raw number, and whether it is true.
const VALUES: &str = "
bool 0 ==> Bool(false) 0 false
bool 1 ==> Bool(true) 1 true
bool -3 ==> Bool(true) 1 true
int 1 ==> Num(1) 1 false
int -9223372036854775808 ==> Num(-9223372036854775808) -9223372036854775808 false
real 150 ==> Num(150) 150 false
";

/// Puts the value of a kind that a raw number stands for, its own raw number, and whether it is true.
pub fn put_value(found: &mut String, given: &str) -> Result<(), Fail> {
    let (kind, raw) = halves(given, " ")?;
    let value = Value::of_raw(kind_of(kind)?, raw.parse()?);
    write!(found, "{value:?} {} {}", value.raw(), value.is_true())?;
    Ok(())
}

#[test]
fn numbers_and_values_are_exact(rt: HostRuntime) -> Result<(), Fail> {
    check(&rt, rt.alloc(), &Subject::Numbers, ANSWERS, 47)?;
    check(&rt, rt.alloc(), &Subject::Values, VALUES, 6)
}

// That a literal is read so.
fn check_read(rt: &impl Abort, found: Result<Fixed, Arith>, wanted: Result<Fixed, Arith>) {
    assert_eq!(rt; found, wanted);
}

#[test]
fn reads_literals(rt: HostRuntime) {
    check_read(&rt, read(b"0.5", 0), Ok(Fixed { raw: 1 }));
    check_read(&rt, read(b"-0.5", 0), Ok(Fixed { raw: -1 }));
    check_read(&rt, read(b"-0.4", 0), Ok(Fixed { raw: 0 }));
    check_read(&rt, read(b"9.", 0), Ok(Fixed { raw: 9 }));
    check_read(&rt, read(b"-007.25", 1), Ok(Fixed { raw: -73 }));
    // Rounded once: by way of 0.045 it would be 5.
    check_read(&rt, read(b"0.0446", 2), Ok(Fixed { raw: 4 }));
    check_read(
        &rt,
        read(b"-1000000.0000004", 6),
        Ok(Fixed {
            raw: -1_000_000_000_000,
        }),
    );
    check_read(&rt, read(b"1000000.0000005", 6), Err(Arith::Overflow));
}
